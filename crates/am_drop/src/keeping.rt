//! What is kept of the negative examples.

use am_chain::Log;
use am_problem::Transformer;
use am_query::Places;

/// What is kept of negative examples beside positive ones.
#[derive(Drop)]
pub enum Keeping {
    /// The examples at these places: each one beside which, and beside those kept before it, some transformer
    /// satisfies the positive examples. This transformer satisfies them all.
    Kept { places: Places, term: Transformer },
    /// No transformer satisfies the positive examples: the log refutes that one does.
    Nothing(Log),
    /// The limit was reached when a transformer was sought for the positive examples and the negative ones at
    /// these places.
    Spent { places: Places, log: Log },
}
