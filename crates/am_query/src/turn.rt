//! Turns: what a synthesis learnt, step by step.

use crate::places::Places;
use am_bv::Row;
use am_problem::{Negative, Positive, Transformer};

/// A turn of a synthesis. It is valid after the examples so far where it is as `IsTurn` of `specs/Turns.antt` says.
#[derive(PartialEq, Debug, Drop)]
pub enum Turn {
    /// A transformer, a positive example that it is to fail, and the places of the negative examples that are to be
    /// kept beside it.
    Positive {
        term: Transformer,
        example: Positive,
        kept: Places,
    },
    /// A transformer that is to be sound, and a negative example that it is to fail, and another one to satisfy.
    Negative {
        term: Transformer,
        example: Negative,
    },
}

/// Turns, one after another.
pub type Trace = Row<Turn>;
