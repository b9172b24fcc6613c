//! The selector encoding: a formula whose solutions are the derivable tuples of trees.
//!
//! A [`Template`] has one selector for each production of each slot of a grammar, and clauses over
//! the selectors. Truth values that satisfy the clauses choose a tuple of trees, one for each start,
//! that derive with the grammar's depth; and each such tuple is chosen by truth values that satisfy
//! them. [`Template::decode`] gives the tuple. [`Template::at`] makes a block: a word of gates for each
//! start, which reads as the value of the chosen tree's term at what the words of the fields read. All
//! blocks after one template read as the same tuple.
//!
//! ```text
//! let mut circuit = Circuit::new_folding(alloc)?;
//! let template = Template::new(alloc, &mut circuit, w, &grammar)?;
//! let outputs = template.at(&mut circuit, &fields)?;
//! let formula = circuit.finish();
//! ..
//! let trees = template.decode(&assignment)?;
//! ```
//!
//! # What is proved
//!
//! [`Template::new`] makes exactly the selectors, as inputs, and then exactly the clauses in
//! `specs/Clauses.antt`, in order: a root has one of its productions; a child that a chosen
//! production of its parent asks for has one of its own; no slot has two. Every assignment that
//! satisfies the circuit decodes to a tuple of trees that **derive** from the starts with the
//! grammar's depth, and every such tuple is decoded from one. [`Template::at`] makes exactly the
//! gates of a block (`specs/Blocks.antt`), in order and no input: at most as many as the block
//! weighs, and exactly so many in a circuit that doesn't fold. Its words read as the **values of
//! the decoded tuple's terms** at what the fields read. One law leads from truth values to one
//! tuple that serves all blocks after a template, and one from a tuple back to truth values from
//! which every block can be met ([`theorems`]). [`Template::decode`] gives the last production of a
//! slot whose selector is true, which is defined for every assignment; where the clauses are
//! satisfied, its trees derive. All of it holds in both forms of circuits.
#![tactic(auto)]

mod block;
mod clauses;
mod decoding;
mod places;
mod rules;
mod stating;
mod template;
pub mod theorems;

pub use template::Template;
