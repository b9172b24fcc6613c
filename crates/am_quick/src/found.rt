//! What a search hands out.

use am_chain::Log;
use am_lit::Values;

/// What was found, of which nothing is proved.
#[derive(Drop)]
pub enum Found {
    /// Values that may satisfy the formula.
    Model(Values),
    /// Chains that may refute it.
    Refutation(Log),
    /// Neither: the conflicts or the room for clauses are spent.
    Nothing,
}
