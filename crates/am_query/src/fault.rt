//! Why an outcome isn't accepted.

use am_chain::Why;
use am_hint::HintWhy;

/// Why an outcome isn't accepted. Numbers count from 0.
#[derive(Clone, Copy, PartialEq, Eq, Debug)]
pub enum Fault {
    /// It says neither that a transformer is best nor that none is sound.
    Unfinished,
    /// The term of this field isn't given by a tree from its start.
    TermOutside(u32),
    /// The positive example with this number isn't true.
    PositiveFalse(u32),
    /// The negative example with this number isn't valid, or the terms don't satisfy it.
    NegativeFalse(u32),
    /// A chain of a refutation isn't valid. Step 0 is its first clause.
    BadChain {
        refutation: u32,
        chain: u32,
        step: u32,
        why: Why,
    },
    /// A hint of a refutation doesn't pass: the hint with the number `clause`, at the place `hint` of its test.
    BadHint {
        refutation: u32,
        clause: u32,
        hint: u32,
        why: HintWhy,
    },
    /// The last clause of this refutation isn't there or isn't empty.
    NotEmpty(u32),
}
