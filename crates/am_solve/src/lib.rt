//! A solver for formulas in conjunctive normal form, in which every answer has its proof.
//!
//! [`solve`] looks for an assignment that satisfies every clause. What it answers with is one: it
//! gives each variable a value, and makes each clause true. Where there is none it answers with a log
//! of resolution chains that refutes the formula, by the definition that the checker of logs keeps.
//! Where the limit on clauses is reached first, the log has exactly `limit` valid chains, whose
//! clauses are normal and each **new**: no clause adds nothing to unit propagation over the formula
//! and the clauses before it. No chain of a log has more steps than the formula has variables.
//!
//! The limit is enough in two cases. Where a base of B variables determines the formula by unit
//! propagation, 3^B clauses are; and where unit propagation alone refutes the formula, any limit is.
//!
//! It searches as MiniSat does (Eén and Sörensson, *An Extensible SAT-solver*, 2003): two watched
//! literals, clauses of the first unique implication point, activities, kept phases, restarts. Where
//! 3^B is at most the limit it decides the base first, and learns clauses of decided literals alone.
//!
//! A formula that it doesn't answer with few conflicts is tried by the quick search of am_quick, of
//! which nothing is trusted: its assignment is evaluated here, and its log replayed by am_chain. Where
//! it answers with neither, the exact search goes on.
//!
//! ```text
//! match solve(alloc, &formula, &base, 100_000)? {
//!     Answer::Sat(assignment) => assert!(assignment.holds(l)),
//!     Answer::Unsat(log) => assert!(log.len() <= 100_000),
//!     Answer::Spent(log) => assert!(log.len() == 100_000),
//! }
//! ```
//!
//! # What is proved
//!
//! For every formula with fewer than 2^30 variables and 2^31 clauses, every base (variables of the
//! formula, in order) and every limit from 1 to 2^30: `Sat` comes with an assignment that gives
//! each variable a value and makes **every clause true**. `Unsat` comes with a log of at most
//! `limit` chains that **refutes the formula** by the definition of am_chain. `Spent` comes with
//! exactly `limit` chains, all valid, whose clauses are normal and each **new**. The words are in
//! `specs/Answers.antt`. That the search is fast is measured, and no clause says it.
#![tactic(auto)]

mod analysis;
mod answer;
mod assignment;
mod back;
mod choice;
mod conflict;
mod descend;
mod implied;
mod marks;
mod quick;
mod search;
mod solving;

pub use answer::Answer;
pub use solving::solve;
