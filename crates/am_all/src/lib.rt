//! All best transformers of a small problem.
//!
//! A problem is small where the fields of all its inputs have at most 16 bits and its language has at most 4,096
//! tuples of trees; [`small`] tells, and refuses the others. [`all_best`] lists all tuples of trees whose terms are
//! best, in a stated order.
//!
//! ```text
//! let p = read_problem(alloc, text)?;
//! small(&p)?;
//! let best = all_best(alloc, &p)?;
//! for tuple in best.as_slice() {
//!     // one tree for each start
//! }
//! ```
//!
//! The list stands in `specs/AllBest.antt`, the sizes in `specs/Sizes.antt`. The order of trees and tuples stands in
//! `am_tree`'s `specs/Listed.antt`, and what is best in `am_domain`.
//!
//! # What is proved
//!
//! [`small`] is Ok exactly where the problem is small. Else the refusal is `Wide` with the bits of the inputs'
//! fields where they are more than 16, and else `Many` with the number of tuples, or with 2^64 - 1 where there are
//! more. [`all_best`] answers **exactly** those tuples of trees from the starts whose terms are best, in the order
//! of the trees: by the first tree, then by the second, and so on, where the trees of a nonterminal go by their
//! productions and then by their children. Two tuples with the same terms are both listed. The list has the terms
//! of each best transformer, and it is empty exactly where no transformer is sound ([`theorems`]).
//!
//! No clause speaks of the cost. Each tree is evaluated once at each input. The tuples are then compared by the
//! numbers of their results: of the sound ones those lead that no other leader is inside, so that few are compared
//! with all. [`small`] takes no memory.
#![tactic(auto)]

mod all;
mod candidates;
mod cases;
mod choices;
mod leaders;
mod levels;
mod listing;
mod results;
mod size;
pub mod theorems;
mod values;
mod word_set;

pub use all::all_best;
pub use listing::TreeRows;
pub use size::{MOST_BITS, MOST_TUPLES, small};
