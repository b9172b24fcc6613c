//! Inputs and clauses, one after another.

ghost use Rattle.std.specs.Prelude.{◌≡◌, ◌+◌, All, OnOk, length};
ghost use Rattle.am_gate.specs.Circuit.{IsLiteral, HasRoom, Grows, Begins};
ghost use Rattle.am_gate.specs.Build.{Follows};
ghost use Rattle.am_slot.specs.Template.{inputs, told};

use am_gate::Circuit;
use am_lit::Clauses;
use std::alloc::AllocError;

/// Makes so many inputs.
pub fn make_inputs(circuit: &mut Circuit, count: u32) -> Result<(), AllocError>
    requires { HasRoom count circuit.old }
    ensures ok { OnOk result (Follows (inputs count) circuit.old tt circuit.new) }
    ensures vars { OnOk result (circuit.new.vars ≡ circuit.old.vars + count) }
    ensures grows { OnOk result (Grows count circuit.old circuit.new) }
    ensures begins { Begins circuit.old circuit.new }
{
    for _ in 0..count {
        circuit.input()?;
    }
    Ok(())
}

/// States the clauses, in order.
pub fn state_all(circuit: &mut Circuit, clauses: &Clauses) -> Result<(), AllocError>
    requires room { HasRoom (length clauses.now) circuit.old }
    requires literals { All (All (IsLiteral circuit.old.vars)) clauses.now }
    ensures ok { OnOk result (Follows (told clauses.now) circuit.old tt circuit.new) }
    ensures grows { OnOk result (Grows (length clauses.now) circuit.old circuit.new) }
    ensures begins { Begins circuit.old circuit.new }
{
    for i in 0..clauses.len() {
        circuit.clause(clauses.clause(i))?;
    }
    Ok(())
}
