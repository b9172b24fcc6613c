//! The answers to the queries.

use am_chain::Log;
use am_problem::{Negative, Positive, Transformer};

/// The answer to a query.
#[derive(Drop)]
pub enum QueryAnswer<W> {
    /// What was sought: this is one.
    Found(W),
    /// There is none: the log refutes the query's formula.
    Refuted(Log),
    /// The limit was reached.
    Spent(Log),
}

/// Whether some transformer covers the positive examples, and excludes the negative ones: such a transformer.
pub type FitAnswer = QueryAnswer<Transformer>;

/// Whether a transformer isn't sound: a true example that it doesn't cover.
pub type SoundAnswer = QueryAnswer<Positive>;

/// Whether some transformer that satisfies the examples is closer than a given one.
pub type PreciseAnswer = QueryAnswer<Closer>;

/// A transformer that satisfies the examples and excludes a word, at some inputs, that a given one admits.
#[derive(Drop)]
pub struct Closer {
    pub term: Transformer,
    /// The word at the inputs.
    pub example: Negative,
}
