//! The three queries of the synthesis.
//!
//! A [`Query`] asks something of all transformers of a problem, or of one: [`fit`] whether some transformer
//! satisfies examples, [`sound`] whether a transformer covers the operation at all inputs, and [`precise`]
//! whether some transformer that satisfies examples excludes a word, at some inputs, that a given one admits.
//! Each has a formula, which [`formula_of`] makes in a circuit that folds constants, and [`formula_one_of`] in
//! one that doesn't. A call gives the formula to the solver, and answers a transformer or an example that the
//! satisfying assignment shows, or the log that refutes the formula.
//!
//! A synthesis makes [`Turn`]s, one after another: in each a transformer that satisfies the examples so far
//! fails a further one. A [`State`] has the examples after a [`Trace`] of turns, and [`query_of`] tells the
//! query that was asked then, as [`Asked`] names it. An [`Outcome`] is how a synthesis ends, and a [`Fault`]
//! says why an outcome isn't accepted.
//!
//! ```text
//! match fit(alloc, &p, &pos, &neg, 100_000)? {
//!     QueryAnswer::Found(t) => .., // a transformer that satisfies the examples
//!     QueryAnswer::Refuted(log) => .., // none does, and the log shows it
//!     QueryAnswer::Spent(log) => .., // 100,000 clauses were learnt
//! }
//! ```
//!
//! # What is proved
//!
//! [`formula_of`] and [`formula_one_of`] are exactly the formulas of `specs/Formulas.antt`, in either form of
//! circuits, clause for clause in order; beside the true variable and its inputs each has at most as many gates
//! as the problem's load. Truth values that satisfy the formula of a fit choose a transformer of the grammar that
//! satisfies the examples, and each such transformer is chosen by some; so it is with the examples that a
//! transformer fails, and with the transformers that are closer. [`fit`], [`sound`] and [`precise`] answer as
//! `specs/Answers.antt` says: a transformer or an example with what makes it one, or that there is none together
//! with a log that refutes the formula, or a log of exactly as many valid chains as the limit, each of whose
//! clauses is new. Where 3 to the number of the formula's inputs is at most the limit, they aren't spent.
//!
//! [`State::after`] and [`query_of`] answer exactly the examples and the query of `specs/Turns.antt`, for every
//! list of turns, and an example that doesn't exist is left out. Laws in `specs/TurnLaws.antt`: the kept
//! examples are determined, and grow one by one; the examples after a valid trace are true and valid, and no
//! more than the turns; and **a valid trace has at most K * (K + 1) turns**, where K is the number of the
//! grammar's tuples of trees. Acceptance is defined in `specs/Acceptance.antt`, as conditions in order: the last are
//! that the outcome's logs refute its formulas, or that hints in their place do. By `specs/AcceptanceLaws.antt` no
//! outcome is both accepted and at fault, and each has one fault at most. **What an accepted outcome says is right**,
//! by its logs or by hints: its transformer is best, or no transformer is sound. Beside acceptance this needs examples
//! with rows of the problem; nothing is assumed of the turns, of the named transformers, or of the solver. These laws
//! are the clauses of the functions of [`theorems`].
#![tactic(auto)]

mod answers;
mod asked;
mod examples;
mod fault;
mod fit_query;
mod formulas;
mod outcome;
mod places;
mod precision;
mod query;
mod reading;
mod soundness;
mod state;
mod stated;
mod statements;
pub mod theorems;
mod turn;
mod words;

pub use answers::{Closer, FitAnswer, PreciseAnswer, QueryAnswer, SoundAnswer};
pub use asked::{Asked, query_of};
pub use fault::Fault;
pub use fit_query::fit;
pub use formulas::{formula_of, formula_one_of};
pub use outcome::Outcome;
pub use places::{Places, at_places};
pub use precision::precise;
pub use query::Query;
pub use soundness::sound;
pub use state::State;
pub use turn::{Trace, Turn};
