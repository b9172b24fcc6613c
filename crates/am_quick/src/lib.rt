//! A quick search for an assignment or a refutation of a formula, of which nothing is trusted: who takes an answer
//! checks it.
//!
//! [`find`] looks for gates in the clauses and puts those of equal inputs together (congruence closure), eliminates
//! variables whose resolvents aren't more than their clauses, and then searches as MiniSat and Glucose do: watched
//! literals with blockers, activities, kept phases, first unique implication points, restarts by the literal block
//! distance, clauses of a great one forgotten. It logs a chain of resolutions for each clause that it derives, and
//! names clauses by their numbers in the log, whatever is forgotten. A refutation has the chains that its last one
//! needs.
//!
//! # What is proved
//!
//! That every call returns, reads and writes in bounds, and no sum overflows. Nothing is proved of what it finds: a
//! wrong bound of a heap, a missed clause or a wrong chain makes it slow, or its answer useless.
#![tactic(auto)]

mod analyse;
mod arena;
mod clean;
mod congruence;
mod derivation;
mod eliminate;
mod eliminated;
mod equalities;
mod forget;
mod found;
mod gates;
mod local;
mod minimise;
mod occurrences;
mod order;
mod pace;
mod propagate;
mod recognise;
mod rewrite;
mod rows;
mod scratch;
mod search;
mod strengthen;
mod trail;
mod watches;

pub use found::Found;
pub use search::find;
