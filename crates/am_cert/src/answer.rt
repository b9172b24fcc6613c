//! What stands in a certificate after its problem.

use am_hint::Hints;
use am_query::Outcome;

/// What refutes the formulas of a certificate's queries.
#[derive(Drop)]
pub enum Proofs {
    /// The logs of the outcome.
    Chains,
    /// Hints, where the logs of the outcome are empty: that the transformer isn't sound and that there is a closer
    /// one; or that some transformer covers the positive examples, and then `second` is empty.
    Hinted { first: Hints, second: Hints },
}

/// How a synthesis ended, and what shows it.
#[derive(Drop)]
pub(crate) struct Answer {
    pub(crate) outcome: Outcome,
    pub(crate) proofs: Proofs,
}
