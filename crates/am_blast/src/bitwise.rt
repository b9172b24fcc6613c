//! Gates at each bit of two words.

ghost use Rattle.std.specs.Prelude.{IfOk, length};
ghost use Rattle.am_gate.specs.Circuit.{IsLiteral, HasRoom, Begins};
ghost use Rattle.am_blast.specs.Words.{AreWordPair, IsWord};
ghost use Rattle.am_blast.specs.Bitwise.{bitwise, either, gate_of, IsGateOver};
ghost use Rattle.am_gate.specs.Promises.{GivesStep};

use crate::word::WordLits;
use am_gate::Circuit;
use am_lit::Lit;
use std::alloc::{AllocError, Global};

/// A gate of two literals.
#[derive(Clone, Copy)]
pub enum Gate {
    /// Whether both are true.
    Both,
    /// Whether at least one is true.
    Either,
    /// Whether exactly one is true.
    Differ,
    /// The first where this literal is true, else the second.
    Choose(Lit),
}

impl Gate {
    fn make(&self, circuit: &mut Circuit, a: Lit, b: Lit) -> Result<Lit, AllocError>
        requires room { HasRoom 1 circuit.old }
        requires gate { IsGateOver circuit.old.vars self.now }
        requires first { IsLiteral circuit.old.vars a }
        requires second { IsLiteral circuit.old.vars b }
        ensures ok { IfOk result (λ r. GivesStep (gate_of self.now a b) 1 IsLiteral circuit.old r circuit.new) }
        ensures begins { Begins circuit.old circuit.new }
    {
        match self {
            Gate::Both => circuit.and(a, b),
            Gate::Either => either(circuit, a, b),
            Gate::Differ => circuit.xor(a, b),
            Gate::Choose(c) => circuit.mux(*c, a, b),
        }
    }
}

/// At least one of two literals.
pub(crate) fn either(circuit: &mut Circuit, a: Lit, b: Lit) -> Result<Lit, AllocError>
    requires room { HasRoom 1 circuit.old }
    requires first { IsLiteral circuit.old.vars a }
    requires second { IsLiteral circuit.old.vars b }
    ensures ok { IfOk result (λ r. GivesStep (either a b) 1 IsLiteral circuit.old r circuit.new) }
    ensures begins { Begins circuit.old circuit.new }
{
    let neither = circuit.and(a.opposite(), b.opposite())?;
    Ok(neither.opposite())
}

/// The gate at each bit of two words, from bit 0. After want of memory the circuit begins with its earlier
/// variables and clauses.
pub fn at_each_bit(
    alloc: Global,
    circuit: &mut Circuit,
    gate: Gate,
    a: &[Lit],
    b: &[Lit],
) -> Result<WordLits, AllocError>
    requires words { AreWordPair circuit.old.vars a.now b.now }
    requires room { HasRoom (length a.now) circuit.old }
    requires gate { IsGateOver circuit.old.vars gate }
    ensures ok { IfOk result (λ r.
        GivesStep (bitwise gate a.now b.now) (length a.now)
        (IsWord (length a.now)) circuit.old r circuit.new) }
    ensures begins { Begins circuit.old circuit.new }
{
    let mut word = WordLits::new(alloc);
    for i in 0..a.len() {
        let literal = gate.make(circuit, a[i], b[i])?;
        word.push(literal)?;
    }
    Ok(word)
}
