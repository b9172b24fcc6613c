//! A certificate that comes in pieces.

ghost use Rattle.std.specs.Prelude.{◌≡◌, ◌++◌, ◌<◌, ◌≤◌, ◌↔◌, ℕ, List, [], Err, IsErr, IsTrue, OnOk, length};
ghost use Rattle.am_text.specs.Gathered.{HoldsStream};
ghost use Rattle.am_syntax.specs.declared.refusal.Refusal.TheVariants.{Long};
ghost use Rattle.am_cert.specs.Checking.{AcceptedTextsPass, IsVerdict};

use crate::checking::{CheckFail, check};
use crate::limits::MOST_BYTES;
use crate::reading::read_certificate;
use am_query::Fault;
use am_syntax::{ReadError, Refusal};
use am_text::{Gather, GatherEnd};
use std::alloc::{AllocError, Global};
use std::marker::Model;

/// Why the certificate of a stream wasn't accepted.
#[derive(Clone, Copy, PartialEq, Eq, Debug)]
pub enum FeedEnd {
    /// The stream is too long, or is no certificate's: the first refusal.
    Refused(Refusal),
    /// The certificate's first fault.
    Rejected(Fault),
    /// There was no memory.
    NoMemory,
}

/// A certificate that comes in pieces, and is checked at the end. Contracts see the stream that was gathered.
#[derive(Drop)]
pub struct Feed {
    stream: Gather,
}

impl Model for Feed {
    ghost use Rattle.std.specs.Prelude.{◌≡◌};
    ghost use Rattle.am_text.specs.Gathered.{Gathered, gathered_code};
    ghost use Rattle.am_cert.specs.declared.limits.TheConstants.{MOST_BYTES};

    ghost Value = { Gathered };

    ghost coded = { gathered_code };

    ghost view = { λ f. f.stream };

    ghost invariant = { λ f. f.stream.limit ≡ MOST_BYTES };
}

impl From<ReadError> for FeedEnd {
    ghost use Rattle.std.specs.Prelude.{◌≡◌};
    ghost use Rattle.am_cert.specs.inside.Ends.{unread};

    ghost from_gives = { λ error end. end ≡ unread error };

    fn from(error: ReadError) -> FeedEnd {
        match error {
            ReadError::Refused(refusal) => FeedEnd::Refused(refusal),
            ReadError::NoMemory => FeedEnd::NoMemory,
        }
    }
}

impl From<CheckFail> for FeedEnd {
    ghost use Rattle.std.specs.Prelude.{◌≡◌};
    ghost use Rattle.am_cert.specs.inside.Ends.{unaccepted};

    ghost from_gives = { λ fail end. end ≡ unaccepted fail };

    fn from(fail: CheckFail) -> FeedEnd {
        match fail {
            CheckFail::Rejected(fault) => FeedEnd::Rejected(fault),
            CheckFail::NoMemory => FeedEnd::NoMemory,
        }
    }
}

impl Feed {
    /// A stream without pieces.
    pub fn new(alloc: Global) -> Feed
        ensures { HoldsStream result [] }
    {
        Feed {
            stream: Gather::new(alloc, MOST_BYTES),
        }
    }

    /// Appends a piece.
    ///
    /// # Errors
    ///
    /// There was no memory for this piece, or for an earlier one.
    pub fn push(&mut self, piece: &[u8]) -> Result<(), AllocError>
        ensures holds { OnOk result ((stream : List ℕ) →
            HoldsStream self.old stream → HoldsStream self.new (stream ++ piece.now)) }
        ensures refused { IsErr result ↔ IsTrue self.new.refused }
        ensures stays { IsTrue self.old.refused → IsTrue self.new.refused }
    {
        self.stream.push(piece)
    }

    /// Reads the certificate of the stream, and checks it: whatever the pieces were, the answer is that of the whole
    /// text.
    ///
    /// # Errors
    ///
    /// - `Refused` with `Long`: the stream has more than 2^26 bytes.
    /// - `Refused`: it is no certificate's text, with the first refusal.
    /// - `Rejected`: the certificate isn't accepted, with its first fault.
    /// - `NoMemory`: there was no memory, now or for a piece.
    pub fn end(self, alloc: Global) -> Result<(), FeedEnd>
        ensures verdict { (stream : List ℕ) → HoldsStream self stream → IsVerdict stream result }
        ensures long { (stream : List ℕ) → HoldsStream self stream → MOST_BYTES < length stream →
            result ≡ Err (FeedEnd.Refused Long) }
        ensures refused { IsTrue self.refused → result ≡ Err FeedEnd.NoMemory }
    {
        let Feed { stream } = self;
        match stream.end() {
            Ok(text) => checked(alloc, text.as_slice()),
            Err(GatherEnd::Long) => Err(FeedEnd::Refused(Refusal::Long)),
            Err(GatherEnd::NoMemory) => Err(FeedEnd::NoMemory),
        }
    }
}

/// A text of an accepted certificate is accepted, where memory suffices: it gets no other verdict.
pub fn accepted_texts_pass()
    ensures { AcceptedTextsPass }
{}

/// Reads the certificate of a text, and checks it.
fn checked(alloc: Global, text: &[u8]) -> Result<(), FeedEnd>
    requires { length text.now ≤ MOST_BYTES }
    ensures { IsVerdict text.now result }
{
    let c = read_certificate(alloc, text)?;
    check(alloc, &c)?;
    Ok(())
}
