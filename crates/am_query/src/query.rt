//! The queries.

use am_problem::{Negatives, Positives, Transformer};

/// A query on the transformers of a problem.
#[derive(Drop)]
pub enum Query {
    /// Does some transformer cover the positive examples, and exclude the negative ones?
    Fit {
        pos: Positives,
        neg: Negatives,
    },
    /// Does the transformer cover the operation at all inputs?
    Sound {
        term: Transformer,
    },
    /// Does some transformer that satisfies the examples exclude a word, at some inputs, that this one admits?
    Precise {
        term: Transformer,
        pos: Positives,
        neg: Negatives,
    },
}
