//! The synthesis of a best transformer.
//!
//! [`synthesise`] goes by turns between two lists of examples. It holds a transformer that satisfies both. Where
//! it isn't sound, a true example that it fails joins the positive ones, and those of the negative ones stay that
//! [`am_drop::keep`] keeps. Where it is sound but some transformer that satisfies the examples excludes a word
//! that it admits, that word joins the negative ones, and the other transformer is held next. Where there is no
//! such transformer, it is best. Where no transformer satisfies the positive examples, none is sound.
//!
//! ```text
//! match synthesise(alloc, &p)? {
//!     Outcome::Best { term, .. } => .., // two logs refute that it isn't sound, and that there is a closer one
//!     Outcome::Absent { .. } => .., // the log refutes that some transformer satisfies the positive examples
//!     Outcome::Turns { .. } | Outcome::Conflicts { .. } => .., // what was spent
//! }
//! ```
//!
//! # What is proved
//!
//! [`synthesise`] answers as `specs/Synthesis.antt` says. `Best` has a best transformer, and `Absent` comes only
//! where none is sound; both are accepted by their contents alone, and their logs have no more chains than the
//! problem allows. `Turns` has one valid turn more than the problem allows, each other outcome a valid trace of at
//! most so many. `Conflicts` has exactly as many valid chains as the problem allows, each of whose clauses is new,
//! over the formula of a query that is asked after its trace. With K tuples of trees, `Turns` never comes where
//! K * (K + 1) turns are allowed; with at most I inputs of a circuit, `Conflicts` never comes where 3^I derived
//! clauses are.
#![tactic(auto)]

mod synthesis;
mod turns;

pub use synthesis::synthesise;
