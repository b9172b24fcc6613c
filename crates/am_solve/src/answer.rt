//! The answers of the solver.

use am_chain::Log;
use am_lit::Assignment;

/// What was found out about a formula.
#[derive(Drop)]
pub enum Answer {
    /// This assignment satisfies every clause.
    Sat(Assignment),
    /// No assignment does: this log refutes the formula.
    Unsat(Log),
    /// The limit was reached. This log has a valid chain for each clause that was learnt, and each clause
    /// is new.
    Spent(Log),
}
