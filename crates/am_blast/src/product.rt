//! Products of words.

ghost use Rattle.std.specs.Prelude.{◌≡◌, IfOk, All, length};
ghost use Rattle.am_gate.specs.Circuit.{IsLiteral, HasRoom, Begins};
ghost use Rattle.am_bv.specs.Operators.{weight_of};
ghost use Rattle.am_bv.specs.declared.op.Op.TheVariants.{Mul};
ghost use Rattle.am_blast.specs.Words.{AreWordPair, IsWord};
ghost use Rattle.am_blast.specs.Products.{each_and, product};
ghost use Rattle.am_gate.specs.Promises.{GivesStep};

use crate::sum::{sum, zeros};
use crate::word::{WordLits, padded_below};
use am_gate::Circuit;
use am_lit::Lit;
use std::alloc::{AllocError, Global};

/// Each literal of the word together with `b`.
#[tactic(auto, using(am_gate::proofs::Laws::begins))]
fn each_and(
    alloc: Global,
    circuit: &mut Circuit,
    b: Lit,
    word: &[Lit],
) -> Result<WordLits, AllocError>
    requires room { HasRoom (length word.now) circuit.old }
    requires literal { IsLiteral circuit.old.vars b }
    requires word { All (IsLiteral circuit.old.vars) word.now }
    ensures ok { IfOk result (λ r.
        GivesStep (each_and b word.now) (length word.now) (IsWord (length word.now)) circuit.old r circuit.new) }
    ensures begins { Begins circuit.old circuit.new }
{
    let mut row = WordLits::new(alloc);
    for l in word {
        let both = circuit.and(b, *l)?;
        row.push(both)?;
    }
    Ok(row)
}

/// The product of two words.
#[tactic(auto, using(am_gate::proofs::Laws::begins))]
pub(crate) fn product(
    alloc: Global,
    circuit: &mut Circuit,
    a: &[Lit],
    b: &[Lit],
) -> Result<WordLits, AllocError>
    requires words { AreWordPair circuit.old.vars a.now b.now }
    requires room { HasRoom (weight_of (length a.now) Mul) circuit.old }
    ensures ok { IfOk result (λ r.
        GivesStep (product a.now b.now) (weight_of (length a.now) Mul)
        (IsWord (length a.now)) circuit.old r circuit.new) }
    ensures begins { Begins circuit.old circuit.new }
{
    let falsity = circuit.truth().opposite();
    let mut acc = zeros(alloc, circuit, a.len())?;
    for i in 0..b.len() {
        let row = each_and(alloc, circuit, b[i], &a[..a.len() - i])?;
        let moved = padded_below(alloc, falsity, i, row.as_slice())?;
        acc = sum(alloc, circuit, acc.as_slice(), moved.as_slice(), falsity)?;
    }
    Ok(acc)
}
