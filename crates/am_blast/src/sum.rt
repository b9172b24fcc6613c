//! Sums and differences of words.

ghost use Rattle.std.specs.Prelude.{◌≡◌, ◌*◌, IfOk, All, length};
ghost use Rattle.am_gate.specs.Circuit.{truth, IsLiteral, HasRoom, Begins};
ghost use Rattle.am_blast.specs.Words.{AreWordPair, IsWord, opposites, zeros};
ghost use Rattle.am_blast.specs.Sums.{full_adder, adder, sum_of};
ghost use Rattle.am_gate.specs.Promises.{GivesStep};

use crate::word::{WordLits, opposites};
use am_gate::Circuit;
use am_lit::Lit;
use std::alloc::{AllocError, Global};
use std::iter::repeat_n;

/// The sum and the carry of three bits.
#[tactic(auto, using(am_gate::proofs::Laws::begins))]
pub(crate) fn add_bits(
    circuit: &mut Circuit,
    a: Lit,
    b: Lit,
    c: Lit,
) -> Result<(Lit, Lit), AllocError>
    requires room { HasRoom 3 circuit.old }
    requires first { IsLiteral circuit.old.vars a }
    requires second { IsLiteral circuit.old.vars b }
    requires third { IsLiteral circuit.old.vars c }
    ensures ok { IfOk result (λ r.
        GivesStep (full_adder a b c) 3 (λ vars s. IsLiteral vars s.0 × IsLiteral vars s.1) circuit.old r circuit.new) }
    ensures begins { Begins circuit.old circuit.new }
{
    let half = circuit.xor(a, b)?;
    let sum = circuit.xor(half, c)?;
    let carry = circuit.mux(half, c, a)?;
    Ok((sum, carry))
}

/// The sum of two words and a carry, and the last carry.
pub(crate) fn add_words(
    alloc: Global,
    circuit: &mut Circuit,
    a: &[Lit],
    b: &[Lit],
    c: Lit,
) -> Result<(WordLits, Lit), AllocError>
    requires words { AreWordPair circuit.old.vars a.now b.now }
    requires room { HasRoom (3 * length a.now) circuit.old }
    requires third { IsLiteral circuit.old.vars c }
    ensures ok { IfOk result (λ r.
        GivesStep (adder a.now b.now c) (3 * length a.now)
        (λ vars s. IsWord (length a.now) vars s.0 × IsLiteral vars s.1) circuit.old r circuit.new) }
    ensures begins { Begins circuit.old circuit.new }
{
    let mut word = WordLits::new(alloc);
    let mut carry = c;
    for i in 0..a.len() {
        let (sum, next) = add_bits(circuit, a[i], b[i], carry)?;
        word.push(sum)?;
        carry = next;
    }
    Ok((word, carry))
}

/// The sum of two words and a carry, without the last carry.
pub(crate) fn sum(
    alloc: Global,
    circuit: &mut Circuit,
    a: &[Lit],
    b: &[Lit],
    c: Lit,
) -> Result<WordLits, AllocError>
    requires words { AreWordPair circuit.old.vars a.now b.now }
    requires room { HasRoom (3 * length a.now) circuit.old }
    requires third { IsLiteral circuit.old.vars c }
    ensures ok { IfOk result (λ r.
        GivesStep (sum_of a.now b.now c) (3 * length a.now) (IsWord (length a.now)) circuit.old r circuit.new) }
    ensures begins { Begins circuit.old circuit.new }
{
    let (word, _) = add_words(alloc, circuit, a, b, c)?;
    Ok(word)
}

/// The first word minus the second.
pub(crate) fn difference(
    alloc: Global,
    circuit: &mut Circuit,
    a: &[Lit],
    b: &[Lit],
) -> Result<WordLits, AllocError>
    requires words { AreWordPair circuit.old.vars a.now b.now }
    requires room { HasRoom (3 * length a.now) circuit.old }
    ensures ok { IfOk result (λ r.
        GivesStep (sum_of a.now (opposites b.now) truth) (3 * length a.now)
        (IsWord (length a.now)) circuit.old r circuit.new) }
    ensures begins { Begins circuit.old circuit.new }
{
    let not_b = opposites(alloc, b)?;
    let truth = circuit.truth();
    sum(alloc, circuit, a, not_b.as_slice(), truth)
}

/// 0 minus the word.
pub(crate) fn negation(
    alloc: Global,
    circuit: &mut Circuit,
    a: &[Lit],
) -> Result<WordLits, AllocError>
    requires room { HasRoom (3 * length a.now) circuit.old }
    requires word { All (IsLiteral circuit.old.vars) a.now }
    ensures ok { IfOk result (λ r.
        GivesStep (sum_of (opposites a.now) (zeros (length a.now)) truth) (3 * length a.now)
        (IsWord (length a.now)) circuit.old r circuit.new) }
    ensures begins { Begins circuit.old circuit.new }
{
    let not_a = opposites(alloc, a)?;
    let zeros = zeros(alloc, circuit, a.len())?;
    let truth = circuit.truth();
    sum(alloc, circuit, not_a.as_slice(), zeros.as_slice(), truth)
}

/// A word of `n` literals that are false.
pub fn zeros(alloc: Global, circuit: &Circuit, n: usize) -> Result<WordLits, AllocError>
    ensures { IfOk result (λ r. r ≡ zeros n) }
{
    let literals = repeat_n(circuit.truth().opposite(), n).collect(alloc)?;
    Ok(WordLits::from_vec(literals))
}
