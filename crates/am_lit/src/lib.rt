//! Literals, a store of clauses, formulas and assignments.
//!
//! A [`Lit`] is a variable or its opposite. [`Clauses`] is a list of clauses, each a list of
//! literals. A [`Formula`] holds normal clauses over a number of variables, and an [`Assignment`]
//! says which literals hold. The modules [`unit_rows`] and [`search_laws`] state the laws of unit
//! propagation that the contracts of solvers and circuits are written in, and that a solver rests on.
//!
//! ```text
//! let mut clauses = Clauses::new(alloc);
//! clauses.push(&[Lit::new(0, false), Lit::new(1, true)])?;
//! let formula = Formula::new(clauses, 2);
//! ```
//!
//! # What is proved
//!
//! A store of clauses is a list of lists: `push` appends, `cut` leaves exactly the first clauses and
//! takes no memory, and `clause(i)` lends the i-th without copying it. The store keeps all literals
//! in one vector and the end of each clause in four bytes; a push that would bring it to 2^32
//! literals is refused as want of memory. [`Formula::new`] answers `None` exactly where
//! some clause's codes don't strictly increase, a variable stands in a clause twice, or a variable
//! isn't below `vars`; otherwise it answers the formula of these parts. [`Assignment::holds`] gives
//! a literal its variable's value, or the opposite one where it is negated. The words of unit
//! propagation are in `specs/UnitRow.antt`, and these laws are proved of them, among others: unit
//! rows stay unit rows when clauses are added; their literals hold wherever the clauses and the
//! given literals hold, so a conflict refutes them together; a new clause isn't empty, and no
//! earlier clause is a subset of it; normal clauses over B variables, each new, are fewer than 3^B.
//!
//! `specs/SearchLaws.antt` has the laws that a solver rests on, each proved: unit rows from literals
//! of a consistent row that settles the clauses stay within it and meet no conflict; a clause that
//! is neither false nor forces a free literal is settled; a row that settles the clauses and gives
//! each of their variables a value satisfies them; where unit propagation alone meets a conflict,
//! no clause is new; a list of new clauses grows by a clause that is new after them; variables that
//! determine a formula still do when clauses are added; all variables determine each formula.
#![tactic(auto)]

mod assignment;
mod clauses;
mod formula;
mod lit;
pub mod search_laws;
pub mod sorting;
pub mod unit_rows;

pub use assignment::{Assignment, Values};
pub use clauses::Clauses;
pub use formula::Formula;
pub use lit::Lit;
