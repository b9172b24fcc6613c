//! Operations that a flow is run with.

use am_problem::{Problem, Transformer};

/// A problem, whose operation is run, and a transformer of it.
#[derive(Clone, Copy)]
pub struct Operation<'a> {
    pub problem: &'a Problem,
    pub transformer: &'a Transformer,
}
