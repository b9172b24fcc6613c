//! Hints and their checker.
//!
//! A [`Hint`] is a clause with the numbers of the clauses that show it: all its literals are made
//! false, and then each clause that is named makes one more literal true, until one has only false
//! literals. A [`HintChecker`] tests hints over a formula: it takes a hint only if the test ends so,
//! and then adds the hint's clause, which the formula implies. Where it has taken a hint of the empty
//! clause the formula has no satisfying assignment. [`translate`] makes hints of a log of resolution
//! chains. The module [`hint_laws`] states the laws that readers of hints rest on.
//!
//! ```text
//! let mut checker = HintChecker::new(alloc, &formula)?;
//! for i in 0..hints.len() {
//!     checker.add(hints.get(i))?;
//! }
//! let unsatisfiable = checker.refuted();
//! ```
//!
//! # What is proved
//!
//! [`HintChecker::add`] takes a hint exactly where its clause is normal and the numbers, taken in
//! order, lead to a clause whose literals are all false: each before it is that of a clause that is
//! there and has exactly one literal without a value, and only false ones besides. What comes after
//! isn't looked at. Otherwise it names the first place that fails, and why, and stays unchanged. The
//! formula implies every clause that the checker holds. `refuted` is true exactly where a hint was
//! added and the last one's clause is empty, and then **no assignment satisfies the formula**. The
//! checker trusts nothing about where a hint came from. `HintsRefute` (`specs/HintReplay.antt`) says
//! the same of a whole list by one definition.
//!
//! [`translate`] takes a log of chains that refutes a formula, and gives **hints that refute it**: at
//! most as many as the log has chains, each naming at most 2^30 clauses.
//!
//! `specs/HintLaws.antt` has the laws of hints, each proved: the test of a hint's clause says yes
//! exactly where it is normal; the clause of a hint that passes follows from those it may name; hints
//! that refute a formula leave it no satisfying assignment; where the hints before one pass, the list
//! grows by it if it passes, and else its fault is the whole list's.
//!
//! No clause speaks of the cost: a test takes the time of reading the hint and the clauses that it
//! names. [`HintChecker::new`] takes two bytes for each variable. A translation replays each chain, and
//! then reads the clauses that it names once more at most.
#![tactic(auto)]

mod checker;
mod fault;
mod hint;
pub mod hint_laws;
mod normal;
mod numbers;
mod row;
mod status;
mod translation;

pub use checker::HintChecker;
pub use fault::{HintError, HintFault, HintWhy};
pub use hint::{Codes, Hint, Hints, Places};
pub use translation::translate;
