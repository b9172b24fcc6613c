//! What literals that are true make of a clause.

use am_lit::Lit;

/// What a row of true literals makes of a clause.
#[derive(Clone, Copy, Debug, PartialEq, Eq)]
pub enum Status {
    /// All its literals are false.
    Conflict,
    /// This literal has no value, and all others are false.
    Forces(Lit),
    /// A literal is true, or two have no value.
    Open,
}
