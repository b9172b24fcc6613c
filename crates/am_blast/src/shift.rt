//! Shifts of words.

ghost use Rattle.std.specs.Prelude.{◌≡◌, ◌+◌, ◌*◌, ◌^◌, ◌<◌, ◌≤◌, IfOk, All, length, slice_index_or};
ghost use Rattle.am_gate.specs.Circuit.{IsLiteral, HasRoom, Begins};
ghost use Rattle.am_blast.specs.Words.{AreWordPair, IsWord};
ghost use Rattle.am_blast.specs.Shifts.{moved, shifted};
ghost use Rattle.am_gate.specs.Promises.{GivesStep};

use crate::bitwise::{Gate, at_each_bit};
use crate::word::{WordLits, copied};
use am_gate::Circuit;
use am_lit::Lit;
use std::alloc::{AllocError, Global};

/// Where the bits of a word are moved.
#[derive(Clone, Copy)]
pub(crate) enum Direction {
    /// Towards the top.
    Up,
    /// Towards bit 0.
    Down,
}

/// The first word moved by as many bits as the second reads, with copies of a literal moved in.
#[tactic(auto, using(am_gate::proofs::Laws::begins))]
pub(crate) fn shifted(
    alloc: Global,
    circuit: &mut Circuit,
    direction: Direction,
    fill: Lit,
    a: &[Lit],
    by: &[Lit],
) -> Result<WordLits, AllocError>
    requires words { AreWordPair circuit.old.vars a.now by.now }
    requires few { length a.now ≤ 8 }
    requires room { HasRoom (length a.now * length a.now) circuit.old }
    requires fill { IsLiteral circuit.old.vars fill }
    ensures ok { IfOk result (λ r.
        GivesStep (shifted (moved direction fill) a.now by.now) (length a.now * length a.now)
        (IsWord (length a.now)) circuit.old r circuit.new) }
    ensures begins { Begins circuit.old circuit.new }
{
    let mut word = copied(alloc, a)?;
    for k in 0..by.len() {
        let from = moved(alloc, &direction, fill, 1 << k, word.as_slice())?;
        word = at_each_bit(
            alloc,
            circuit,
            Gate::Choose(by[k]),
            from.as_slice(),
            word.as_slice(),
        )?;
    }
    Ok(word)
}

/// The word moved by `n` bits, with copies of a literal moved in.
pub(crate) fn moved(
    alloc: Global,
    direction: &Direction,
    fill: Lit,
    n: usize,
    word: &[Lit],
) -> Result<WordLits, AllocError>
    ensures { IfOk result (λ r. r ≡ moved direction.now fill n word.now) }
{
    let mut literals = WordLits::new(alloc);
    for i in 0..word.len() {
        literals.push(moved_literal(direction, fill, n, word, i))?;
    }
    Ok(literals)
}

/// The literal of bit `i` of the moved word.
fn moved_literal(direction: &Direction, fill: Lit, n: usize, word: &[Lit], i: usize) -> Lit
    requires { i < length word.now }
    ensures { result ≡ slice_index_or (moved direction.now fill n word.now) i result }
{
    match direction {
        Direction::Up => if i < n { fill } else { word[i - n] },
        Direction::Down => if n < word.len() - i {
            word[i + n]
        } else {
            fill
        },
    }
}
