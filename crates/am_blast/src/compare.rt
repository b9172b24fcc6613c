//! The order of words, unsigned and signed.

ghost use Rattle.std.specs.Prelude.{◌≡◌, ◌*◌, IfOk, All, length};
ghost use Rattle.am_gate.specs.Circuit.{IsLiteral, HasRoom, Begins};
ghost use Rattle.am_blast.specs.Words.{AreWordPair, sign_turned};
ghost use Rattle.am_blast.specs.Comparisons.{below, most};
ghost use Rattle.am_gate.specs.Promises.{GivesStep};

use crate::sum::add_words;
use crate::word::{WordLits, copied, opposites};
use am_gate::Circuit;
use am_lit::Lit;
use std::alloc::{AllocError, Global};

/// Whether the first word reads below the second.
pub(crate) fn is_below(
    alloc: Global,
    circuit: &mut Circuit,
    a: &[Lit],
    b: &[Lit],
) -> Result<Lit, AllocError>
    requires words { AreWordPair circuit.old.vars a.now b.now }
    requires room { HasRoom (3 * length a.now) circuit.old }
    ensures ok { IfOk result (λ r.
        GivesStep (below a.now b.now) (3 * length a.now) IsLiteral circuit.old r circuit.new) }
    ensures begins { Begins circuit.old circuit.new }
{
    let carry = is_at_most(alloc, circuit, b, a)?;
    Ok(carry.opposite())
}

/// Whether the first word reads at most as the second.
pub(crate) fn is_at_most(
    alloc: Global,
    circuit: &mut Circuit,
    a: &[Lit],
    b: &[Lit],
) -> Result<Lit, AllocError>
    requires words { AreWordPair circuit.old.vars a.now b.now }
    requires room { HasRoom (3 * length a.now) circuit.old }
    ensures ok { IfOk result (λ r.
        GivesStep (most a.now b.now) (3 * length a.now) IsLiteral circuit.old r circuit.new) }
    ensures begins { Begins circuit.old circuit.new }
{
    let not_a = opposites(alloc, a)?;
    let truth = circuit.truth();
    let (_, carry) = add_words(alloc, circuit, b, not_a.as_slice(), truth)?;
    Ok(carry)
}

/// The word with its top literal replaced by its opposite, so that an unsigned comparison of such words is
/// the signed one of the words.
pub(crate) fn sign_turned(alloc: Global, word: &[Lit]) -> Result<WordLits, AllocError>
    ensures { IfOk result (λ r. r ≡ sign_turned word.now) }
{
    let Some((top, low)) = word.split_last() else {
        return Ok(WordLits::new(alloc));
    };
    let mut turned = copied(alloc, low)?;
    turned.push(top.opposite())?;
    Ok(turned)
}
