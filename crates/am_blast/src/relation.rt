//! Relations of two words, as words and as choices.

ghost use Rattle.std.specs.Prelude.{◌≡◌, ◌+◌, ◌≤◌, IfOk, All, length};
ghost use Rattle.am_gate.specs.Circuit.{IsLiteral, HasRoom, Begins};
ghost use Rattle.am_blast.specs.Words.{AreWordPair, IsWord, flag};
ghost use Rattle.am_blast.specs.Bitwise.{choice};
ghost use Rattle.am_blast.specs.Comparisons.{nonzero, flagged, test_of, test_weight};
ghost use Rattle.am_gate.specs.Promises.{GivesStep};

use crate::bitwise::{Gate, at_each_bit};
use crate::compare::{is_at_most, is_below, sign_turned};
use crate::equal::{is_equal, is_nonzero};
use crate::word::WordLits;
use am_gate::Circuit;
use am_lit::Lit;
use std::alloc::{AllocError, Global};
use std::iter::repeat_n;

/// A relation of two words.
#[derive(Clone, Copy)]
pub(crate) enum Relation {
    /// Both read the same number.
    Equal,
    /// The first is less, unsigned.
    Below,
    /// The first is at most the second, unsigned.
    AtMost,
    /// The first is less, signed.
    SignedBelow,
    /// The first is at most the second, signed.
    SignedAtMost,
}

/// Whether the relation holds, as a word of one bit and zeros.
pub(crate) fn flagged(
    alloc: Global,
    circuit: &mut Circuit,
    relation: Relation,
    a: &[Lit],
    b: &[Lit],
) -> Result<WordLits, AllocError>
    requires bits { 1 ≤ length a.now }
    requires words { AreWordPair circuit.old.vars a.now b.now }
    requires room { HasRoom (test_weight relation (length a.now)) circuit.old }
    ensures ok { IfOk result (λ r.
        GivesStep (flagged (length a.now) (test_of relation a.now b.now)) (test_weight relation (length a.now))
        (IsWord (length a.now)) circuit.old r circuit.new) }
    ensures begins { Begins circuit.old circuit.new }
{
    let holds = test(alloc, circuit, relation, a, b)?;
    let word = flag(alloc, circuit, holds, a.len())?;
    Ok(word)
}

/// The word x where a and b are in the relation, else the word y.
pub(crate) fn chosen(
    alloc: Global,
    circuit: &mut Circuit,
    relation: Relation,
    a: &[Lit],
    b: &[Lit],
    x: &[Lit],
    y: &[Lit],
) -> Result<WordLits, AllocError>
    requires words { AreWordPair circuit.old.vars a.now b.now }
    requires choices { AreWordPair circuit.old.vars x.now y.now }
    requires room { HasRoom (test_weight relation (length a.now) + length x.now) circuit.old }
    ensures ok { IfOk result (λ r.
        GivesStep (choice (test_of relation a.now b.now) x.now y.now)
        (test_weight relation (length a.now) + length x.now)
        (IsWord (length x.now)) circuit.old r circuit.new) }
    ensures begins { Begins circuit.old circuit.new }
{
    let holds = test(alloc, circuit, relation, a, b)?;
    let word = at_each_bit(alloc, circuit, Gate::Choose(holds), x, y)?;
    Ok(word)
}

/// The word a where the word c isn't 0, else the word b.
pub(crate) fn if_nonzero(
    alloc: Global,
    circuit: &mut Circuit,
    c: &[Lit],
    a: &[Lit],
    b: &[Lit],
) -> Result<WordLits, AllocError>
    requires words { AreWordPair circuit.old.vars a.now b.now }
    requires room { HasRoom (length c.now + length a.now) circuit.old }
    requires test { All (IsLiteral circuit.old.vars) c.now }
    ensures ok { IfOk result (λ r.
        GivesStep (choice (nonzero c.now) a.now b.now) (length c.now + length a.now)
        (IsWord (length a.now)) circuit.old r circuit.new) }
    ensures begins { Begins circuit.old circuit.new }
{
    let holds = is_nonzero(circuit, c)?;
    let word = at_each_bit(alloc, circuit, Gate::Choose(holds), a, b)?;
    Ok(word)
}

/// Whether the relation holds.
fn test(
    alloc: Global,
    circuit: &mut Circuit,
    relation: Relation,
    a: &[Lit],
    b: &[Lit],
) -> Result<Lit, AllocError>
    requires words { AreWordPair circuit.old.vars a.now b.now }
    requires room { HasRoom (test_weight relation (length a.now)) circuit.old }
    ensures ok { IfOk result (λ r.
        GivesStep (test_of relation a.now b.now) (test_weight relation (length a.now))
        IsLiteral circuit.old r circuit.new) }
    ensures begins { Begins circuit.old circuit.new }
{
    match relation {
        Relation::Equal => is_equal(circuit, a, b),
        Relation::Below => is_below(alloc, circuit, a, b),
        Relation::AtMost => is_at_most(alloc, circuit, a, b),
        Relation::SignedBelow => {
            let a = sign_turned(alloc, a)?;
            let b = sign_turned(alloc, b)?;
            is_below(alloc, circuit, a.as_slice(), b.as_slice())
        }
        Relation::SignedAtMost => {
            let a = sign_turned(alloc, a)?;
            let b = sign_turned(alloc, b)?;
            is_at_most(alloc, circuit, a.as_slice(), b.as_slice())
        }
    }
}

/// The word of this many literals whose bit 0 is `l` and whose other bits are false.
fn flag(alloc: Global, circuit: &Circuit, l: Lit, bits: usize) -> Result<WordLits, AllocError>
    requires { 1 ≤ bits }
    ensures { IfOk result (λ r. r ≡ flag bits l) }
{
    let literals = repeat_n(l, 1)
        .chain(repeat_n(circuit.truth().opposite(), bits - 1))
        .collect(alloc)?;
    Ok(WordLits::from_vec(literals))
}
