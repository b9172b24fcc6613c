//! Logs that refute a formula.

ghost use Rattle.std.specs.Prelude.{◌+◌, ◌^◌, ◌<◌, ◌↔◌, length, IfOk, IsTrue};
ghost use Rattle.am_chain.specs.Replay.{Refutes};

use crate::chain::Log;
use crate::checker::Checker;
use crate::fault::AddError;
use am_lit::Formula;
use std::alloc::{AllocError, Global};

/// Whether the log refutes the formula: each chain is valid, there is a last one, and its clause is
/// empty. Then no assignment satisfies the formula. A chain of 2^32 steps is refused as want of
/// memory.
pub fn refutes(alloc: Global, formula: &Formula, log: &Log) -> Result<bool, AllocError>
    requires { length formula.now.clauses + length log.now < 2 ^ 32 }
    ensures { IfOk result (λ answer. IsTrue answer ↔ Refutes formula.now.clauses log.now) }
{
    let mut checker = Checker::new(alloc, formula);
    for k in 0..log.len() {
        let chain = log.get(k);
        if chain.steps.len() > u32::MAX as usize {
            return Err(AllocError);
        }
        match checker.add(chain) {
            Ok(()) => {}
            Err(AddError::Fault(_)) => return Ok(false),
            Err(AddError::NoMemory) => return Err(AllocError),
        }
    }
    Ok(checker.refuted())
}
