//! The circuit of each operator.

ghost use Rattle.std.specs.Prelude.{◌≡◌, [], ◌≤◌, IfOk, All, length};
ghost use Rattle.am_gate.specs.Circuit.{HasRoom, Begins};
ghost use Rattle.am_bv.specs.Operators.{arity, weight_of};
ghost use Rattle.am_blast.specs.Words.{AreWordPair, IsWord};
ghost use Rattle.am_blast.specs.Circuits.{circuit_at, circuit_of};
ghost use Rattle.am_gate.specs.Promises.{GivesStep};

use crate::bitwise::{Gate, at_each_bit};
use crate::divide::{quotient, remainder};
use crate::product::product;
use crate::relation::{Relation, chosen, flagged, if_nonzero};
use crate::shift::{Direction, shifted};
use crate::sum::{difference, negation, sum};
use crate::word::{WordLits, opposites};
use am_bv::{Op, Width};
use am_gate::Circuit;
use am_lit::Lit;
use std::alloc::{AllocError, Global};

/// The operator at these words, whose circuit is its row in `specs/Circuits.antt`. After want of memory the
/// circuit begins with its earlier variables and clauses.
pub fn apply(
    alloc: Global,
    circuit: &mut Circuit,
    w: Width,
    op: Op,
    args: &[WordLits],
) -> Result<WordLits, AllocError>
    requires count { length args.now ≡ arity op }
    requires words { All (IsWord w circuit.old.vars) args.now }
    requires room { HasRoom (weight_of w op) circuit.old }
    ensures ok { IfOk result (λ r.
        GivesStep (circuit_of w op args.now) (weight_of w op) (IsWord w) circuit.old r circuit.new) }
    ensures begins { Begins circuit.old circuit.new }
{
    let a = args[0].as_slice();
    match op {
        Op::Not => opposites(alloc, a),
        Op::Neg => negation(alloc, circuit, a),
        Op::Ite => if_nonzero(alloc, circuit, a, args[1].as_slice(), args[2].as_slice()),
        _ => binary(alloc, circuit, op, a, args[1].as_slice()),
    }
}

/// The operator at two words.
fn binary(
    alloc: Global,
    circuit: &mut Circuit,
    op: Op,
    a: &[Lit],
    b: &[Lit],
) -> Result<WordLits, AllocError>
    requires count { arity op ≡ 2 }
    requires least { 1 ≤ length a.now }
    requires most { length a.now ≤ 8 }
    requires words { AreWordPair circuit.old.vars a.now b.now }
    requires room { HasRoom (weight_of (length a.now) op) circuit.old }
    ensures ok { IfOk result (λ r.
        GivesStep (circuit_at (length a.now) op a.now b.now []) (weight_of (length a.now) op)
        (IsWord (length a.now)) circuit.old r circuit.new) }
    ensures begins { Begins circuit.old circuit.new }
{
    let off = circuit.truth().opposite();
    match op {
        Op::And => at_each_bit(alloc, circuit, Gate::Both, a, b),
        Op::Or => at_each_bit(alloc, circuit, Gate::Either, a, b),
        Op::Xor => at_each_bit(alloc, circuit, Gate::Differ, a, b),
        Op::Add => sum(alloc, circuit, a, b, off),
        Op::Sub => difference(alloc, circuit, a, b),
        Op::Mul => product(alloc, circuit, a, b),
        Op::Udiv => quotient(alloc, circuit, a, b),
        Op::Urem => remainder(alloc, circuit, a, b),
        Op::Shl => shifted(alloc, circuit, Direction::Up, off, a, b),
        Op::Lshr => shifted(alloc, circuit, Direction::Down, off, a, b),
        Op::Ashr => shifted(alloc, circuit, Direction::Down, a[a.len() - 1], a, b),
        Op::Eq => flagged(alloc, circuit, Relation::Equal, a, b),
        Op::Ult => flagged(alloc, circuit, Relation::Below, a, b),
        Op::Ule => flagged(alloc, circuit, Relation::AtMost, a, b),
        Op::Slt => flagged(alloc, circuit, Relation::SignedBelow, a, b),
        Op::Sle => flagged(alloc, circuit, Relation::SignedAtMost, a, b),
        Op::Umin => chosen(alloc, circuit, Relation::Below, a, b, a, b),
        Op::Umax => chosen(alloc, circuit, Relation::Below, a, b, b, a),
        Op::Smin => chosen(alloc, circuit, Relation::SignedBelow, a, b, a, b),
        Op::Smax => chosen(alloc, circuit, Relation::SignedBelow, a, b, b, a),
        Op::Not | Op::Neg | Op::Ite => unreachable!(),
    }
}
