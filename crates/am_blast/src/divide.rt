//! Quotients and remainders.

ghost use Rattle.std.specs.Prelude.{◌≡◌, ◌+◌, ◌*◌, ◌<◌, IfOk, All, length};
ghost use Rattle.am_gate.specs.Circuit.{IsLiteral, HasRoom, Begins};
ghost use Rattle.am_bv.specs.Operators.{weight_of};
ghost use Rattle.am_bv.specs.declared.op.Op.TheVariants.{Udiv, Urem};
ghost use Rattle.am_blast.specs.Words.{AreWordPair, IsWord};
ghost use Rattle.am_blast.specs.Division.{round, division, quotient, remainder};
ghost use Rattle.am_gate.specs.Promises.{GivesStep};

use crate::bitwise::{Gate, at_each_bit};
use crate::shift::{Direction, moved};
use crate::sum::{add_words, zeros};
use crate::word::{WordLits, copied, opposites, reversed};
use am_gate::Circuit;
use am_lit::Lit;
use std::alloc::{AllocError, Global};

/// One bit of the quotient and the next remainder, from the dividend's next bit and the remainder so far.
#[tactic(auto, using(am_gate::proofs::Laws::begins))]
fn round(
    alloc: Global,
    circuit: &mut Circuit,
    bit: Lit,
    remainder: &[Lit],
    divisor: &[Lit],
) -> Result<(Lit, WordLits), AllocError>
    requires some { 0 < length divisor.now }
    requires words { AreWordPair circuit.old.vars divisor.now remainder.now }
    requires room { HasRoom (4 * length divisor.now) circuit.old }
    requires bit { IsLiteral circuit.old.vars bit }
    ensures ok { IfOk result (λ r.
        GivesStep (round bit remainder.now divisor.now) (4 * length divisor.now)
        (λ vars o. IsLiteral vars o.0 × IsWord (length divisor.now) vars o.1) circuit.old r circuit.new) }
    ensures begins { Begins circuit.old circuit.new }
{
    let truth = circuit.truth();
    let moved = moved(alloc, &Direction::Up, bit, 1, remainder)?;
    let negated = opposites(alloc, divisor)?;
    let (difference, carry) = add_words(
        alloc,
        circuit,
        moved.as_slice(),
        negated.as_slice(),
        truth,
    )?;
    let next = at_each_bit(
        alloc,
        circuit,
        Gate::Choose(carry),
        difference.as_slice(),
        moved.as_slice(),
    )?;
    Ok((carry, next))
}

/// The quotient of two words, and the remainder, whose top bit is one more than the words have.
#[tactic(auto, using(am_gate::proofs::Laws::begins))]
fn division(
    alloc: Global,
    circuit: &mut Circuit,
    a: &[Lit],
    b: &[Lit],
) -> Result<(WordLits, WordLits), AllocError>
    requires words { AreWordPair circuit.old.vars a.now b.now }
    requires room { HasRoom (weight_of (length a.now) Udiv) circuit.old }
    ensures ok { IfOk result (λ r.
        GivesStep (division a.now b.now) (weight_of (length a.now) Udiv)
        (λ vars o. IsWord (length a.now) vars o.0 × IsWord (length a.now + 1) vars o.1)
        circuit.old r circuit.new) }
    ensures begins { Begins circuit.old circuit.new }
{
    let falsity = circuit.truth().opposite();
    let mut divisor = copied(alloc, b)?;
    divisor.push(falsity)?;
    let dividend = reversed(alloc, a)?;
    let mut from_top = WordLits::new(alloc);
    let mut remainder = zeros(alloc, circuit, divisor.len())?;
    for l in dividend.as_slice() {
        let (bit, next) = round(alloc, circuit, *l, remainder.as_slice(), divisor.as_slice())?;
        from_top.push(bit)?;
        remainder = next;
    }
    let quotient = reversed(alloc, from_top.as_slice())?;
    Ok((quotient, remainder))
}

/// The quotient of two words; by 0 it is the greatest word.
pub(crate) fn quotient(
    alloc: Global,
    circuit: &mut Circuit,
    a: &[Lit],
    b: &[Lit],
) -> Result<WordLits, AllocError>
    requires words { AreWordPair circuit.old.vars a.now b.now }
    requires room { HasRoom (weight_of (length a.now) Udiv) circuit.old }
    ensures ok { IfOk result (λ r.
        GivesStep (quotient a.now b.now) (weight_of (length a.now) Udiv)
        (IsWord (length a.now)) circuit.old r circuit.new) }
    ensures begins { Begins circuit.old circuit.new }
{
    let (quotient, _) = division(alloc, circuit, a, b)?;
    Ok(quotient)
}

/// The remainder of two words; by 0 it is the first.
pub(crate) fn remainder(
    alloc: Global,
    circuit: &mut Circuit,
    a: &[Lit],
    b: &[Lit],
) -> Result<WordLits, AllocError>
    requires words { AreWordPair circuit.old.vars a.now b.now }
    requires room { HasRoom (weight_of (length a.now) Urem) circuit.old }
    ensures ok { IfOk result (λ r.
        GivesStep (remainder a.now b.now) (weight_of (length a.now) Urem)
        (IsWord (length a.now)) circuit.old r circuit.new) }
    ensures begins { Begins circuit.old circuit.new }
{
    let (_, remainder) = division(alloc, circuit, a, b)?;
    let low = copied(alloc, &remainder.as_slice()[..b.len()])?;
    Ok(low)
}
