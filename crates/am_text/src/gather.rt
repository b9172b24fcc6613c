//! A stream that is gathered from its pieces.

ghost use Rattle.std.specs.Prelude.{◌≡◌, ◌++◌, ◌-◌, ◌<◌, ◌≤◌, ◌^◌, ◌↔◌, ℕ, List, [], length};
ghost use Rattle.std.specs.Prelude.{IfOk, IsErr, IsTrue, OnOk};
ghost use Rattle.am_text.specs.Gathered.{HoldsStream};

use std::alloc::{AllocError, Global};
use std::marker::Model;

/// Why a stream was not gathered.
#[derive(Clone, Copy, PartialEq, Eq, Debug)]
pub enum GatherEnd {
    /// The stream has more bytes than the limit.
    Long,
    /// A piece found no memory.
    NoMemory,
}

/// A stream that is gathered from its pieces. It keeps the first `limit + 1` bytes.
#[derive(Drop)]
pub struct Gather {
    text: Vec<u8>,
    limit: usize,
    refused: bool,
}

impl Model for Gather {
    ghost use Rattle.am_text.specs.Gathered.{Gathered, gathered_code};
    ghost use Rattle.std.specs.Prelude.{length, ◌+◌, ◌-◌, ◌<◌, ◌≤◌, ◌^◌};

    ghost Value = { Gathered };

    ghost coded = { gathered_code };

    ghost view = { λ g. record {
      held = g.text.items;
      limit = g.limit;
      refused = g.refused;
    } };

    ghost invariant = { λ g. (g.limit < 2 ^ 64 - 1) × (length g.text.items ≤ g.limit + 1) };
}

impl Gather {
    /// A stream without pieces, which may have `limit` bytes.
    pub fn new(alloc: Global, limit: usize) -> Gather
        requires { limit < 2 ^ 64 - 1 }
        ensures limit { result.limit ≡ limit }
        ensures holds { HoldsStream result [] }
    {
        Gather {
            text: Vec::new(alloc),
            limit,
            refused: false,
        }
    }

    /// Appends a piece, as far as it lies in the first `limit + 1` bytes.
    ///
    /// # Errors
    ///
    /// There was no memory for this piece, or for an earlier one.
    pub fn push(&mut self, piece: &[u8]) -> Result<(), AllocError>
        ensures holds { OnOk result ((stream : List ℕ) →
            HoldsStream self.old stream → HoldsStream self.new (stream ++ piece.now)) }
        ensures limit { self.new.limit ≡ self.old.limit }
        ensures refused { IsErr result ↔ IsTrue self.new.refused }
        ensures stays { IsTrue self.old.refused → IsTrue self.new.refused }
    {
        if self.refused {
            return Err(AllocError);
        }
        let count = piece.len().min(self.limit + 1 - self.text.len());
        let pushed = self.text.extend_from_slice(&piece[..count]);
        self.refused = pushed.is_err();
        pushed
    }

    /// The whole stream.
    ///
    /// # Errors
    ///
    /// - `Long`: the stream has more bytes than the limit, and no piece was refused.
    /// - `NoMemory`: a piece was refused.
    pub fn end(self) -> Result<Vec<u8>, GatherEnd>
        ensures whole { IfOk result (λ text. (stream : List ℕ) → HoldsStream self stream → text.items ≡ stream) }
        ensures short { IfOk result (λ text. length text.items ≤ self.limit) }
        ensures long { (stream : List ℕ) → HoldsStream self stream →
            (result ≡ Err GatherEnd.Long ↔ self.limit < length stream) }
        ensures refused { result ≡ Err GatherEnd.NoMemory ↔ IsTrue self.refused }
    {
        let Gather {
            text,
            limit,
            refused,
        } = self;
        if refused {
            return Err(GatherEnd::NoMemory);
        }
        if text.len() > limit {
            return Err(GatherEnd::Long);
        }
        Ok(text)
    }
}
