//! Laws of circuits. A function that does nothing has a law as its contract, which is proved.

ghost use Rattle.std.specs.Prelude.{[], ◌∷◌, IfOk};
ghost use Rattle.am_lit.specs.UnitRow.{Determines};
ghost use Rattle.am_gate.specs.CircuitLaws.{AndsHaveTheirValue, XorsHaveTheirValue, MuxesHaveTheirValue};

use crate::Circuit;
use am_lit::Formula;
use std::alloc::{AllocError, Global};

/// In each satisfying assignment, the literal that a gate call answered has the gate's value.
pub fn gate_calls_answer_values()
    ensures and { AndsHaveTheirValue }
    ensures xor { XorsHaveTheirValue }
    ensures mux { MuxesHaveTheirValue }
{}

/// The formula of two inputs that differ, whose variables are 1 and 2. That they determine it follows
/// from the clauses of the calls alone, which is how a caller shows it of any circuit.
pub fn two_that_differ(alloc: Global) -> Result<Formula, AllocError>
    ensures determined { IfOk result (λ f. Determines f.clauses f.vars (1 ∷ 2 ∷ [])) }
{
    let mut circuit = Circuit::new_folding(alloc)?;
    let a = circuit.input()?;
    let b = circuit.input()?;
    let differ = circuit.xor(a, b)?;
    circuit.force(differ)?;
    Ok(circuit.finish())
}
