//! Reading a source to its end.

ghost use Rattle.std.specs.Prelude.{◌≡◌, ◌≢◌, ℕ, ◌+◌, ◌-◌, ◌<◌, ◌≤◌, ◌^◌, ◌↔◌, List, IfOk, OnOk, IfSome, length};
ghost use Rattle.std.specs.Io.KnownBytes.{Consumes, IsAtEnd};
ghost use Rattle.am_io.specs.Streams.{Loses, LosesAtMost};
ghost use Rattle.am_io.specs.declared.reading.ReadEnd.TheVariants.{NoMemory, ReadFault};

use crate::streams::{Failed, Source};
use std::alloc::{AllocError, Global};
use thiserror::Error;

/// Why there is no text of a source.
#[derive(Clone, Copy, PartialEq, Eq, Debug, Error)]
pub enum ReadEnd {
    /// The source failed.
    #[error("read fault")]
    ReadFault,
    /// The source has more bytes than the limit.
    #[error("input too long")]
    Long,
    /// There was no memory.
    #[error("no memory")]
    NoMemory,
}

impl From<Failed> for ReadEnd {
    ghost from_gives = { λ _ e. e ≡ ReadFault };

    fn from(_failed: Failed) -> ReadEnd {
        ReadEnd::ReadFault
    }
}

impl From<AllocError> for ReadEnd {
    ghost from_gives = { λ _ e. e ≡ NoMemory };

    fn from(_error: AllocError) -> ReadEnd {
        ReadEnd::NoMemory
    }
}

/// The greatest number of bytes that is asked for at once.
const PIECE: usize = 65_536;

/// How many bytes to ask for where `have` of at most `limit` are there: enough to see one too many.
fn wanted(have: usize, limit: usize) -> usize
    requires have { have ≤ limit }
    requires limit { limit < 2 ^ 64 - 1 }
    ensures some { 0 < result }
    ensures piece { result ≤ PIECE }
    ensures limit { have + result ≤ limit + 1 }
{
    PIECE.min(limit - have + 1)
}

/// Reads to the end of a source of at most `limit` bytes, in pieces of up to 64 KiB. The time and
/// the memory are linear in the number of bytes read.
///
/// # Errors
///
/// - `ReadFault`: the source failed.
/// - `Long`: the source gave `limit + 1` bytes, which are lost.
/// - `NoMemory`: the text found no room.
pub fn read_all<R: Source>(alloc: Global, src: &mut R, limit: usize) -> Result<Vec<u8>, ReadEnd>
    requires limit { limit < 2 ^ 64 - 1 }
    requires count { R.faults src.old < 2 ^ 64 - 1 }

    // The text is all that was left, up to the end.
    ensures bytes { IfOk result (λ text. Consumes (R.left src.old) (R.left src.new) text.items) }
    ensures end { OnOk result (IsAtEnd (R.left src.new)) }
    ensures whole { IfOk result (λ text. IfSome (R.left src.old) (λ all. text.items ≡ all)) }
    ensures short { IfOk result (λ text. length text.items ≤ limit) }

    // The count of faults rose exactly where the answer is `ReadFault`.
    ensures fault { result ≡ Err ReadEnd.ReadFault → R.faults src.old < R.faults src.new }
    ensures kept { result ≢ Err ReadEnd.ReadFault → R.faults src.new ≡ R.faults src.old }

    // `limit + 1` bytes were taken exactly where the answer is `Long`.
    ensures long { result ≡ Err ReadEnd.Long → Loses (R.left src.old) (R.left src.new) (limit + 1) }
    ensures not_long { result ≢ Err ReadEnd.Long → LosesAtMost (R.left src.old) (R.left src.new) limit }

    ensures calls { R.calls src.new ≤ R.calls src.old + limit + 1 }
{
    let mut text = Vec::new(alloc);
    let mut buffer = [0; PIECE];
    'reading: loop {
        let want = wanted(text.len(), limit);
        let count = src.take(&mut buffer[..want])?;
        if count == 0 {
            return Ok(text);
        }
        if count > limit - text.len() {
            return Err(ReadEnd::Long);
        }
        text.extend_from_slice(&buffer[..count])?;
    }
}
