//! The entries of a trail.

use am_lit::Lit;

/// A literal with its level, and the number of the clause that implied it unless it was decided.
#[derive(Clone, Copy, Debug, PartialEq, Eq)]
pub struct Entry {
    pub literal: Lit,
    pub level: u32,
    pub reason: Option<u32>,
}
