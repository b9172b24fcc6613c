//! A small analyser: best transformers at work.
//!
//! A [`Flow`] is a small program: nodes, variables that hold words, and edges between nodes with what they do, among
//! them the operations of problems. [`analyse`] finds for each node and variable an abstract value that has all words
//! which the variable can have there, by the transformers of the operations. It starts with any words at node 0, and
//! joins the steps of all edges round by round until nothing changes. [`flow_at`] reads a flow's text, and
//! [`print_table`] writes what was found.
//!
//! # What is proved
//!
//! [`flow_at`] answers exactly the flow that is spelled, by `specs/Grammar.antt`, or the first refusal.
//! [`Flow::matches`] answers `Mismatch` exactly where an operation doesn't fit, with the first one. [`analyse`] answers
//! the first state of `specs/States.antt` that equals the next one, after at most M * (V * k * 2^w + 1) rounds for M
//! nodes and V variables of k fields and w bits. **Where the transformers are sound, the words of every run of the
//! flow are members of the table's entry at its last node** ([`theorems`]); a run follows an edge with an operation
//! only where the operation's assumption holds. [`print_table`] appends exactly the table's lines.
#![tactic(auto)]

mod actions;
mod analysis;
mod edges;
mod entry;
mod flow;
mod limits;
mod operation;
mod printing;
mod reading;
mod round;
mod shape;
mod signature;
mod step;
mod stepped;
mod table;
pub mod theorems;
mod values;

pub use analysis::analyse;
pub use flow::{Action, Edge, Edges, Flow, Variables};
pub use limits::{MOST_EDGES, MOST_NODES, MOST_VARIABLES};
pub use operation::Operation;
pub use printing::print_table;
pub use reading::flow_at;
pub use signature::Signature;
pub use table::Table;
pub use values::Values;
