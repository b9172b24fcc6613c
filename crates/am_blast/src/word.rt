//! Words of literals.

ghost use Rattle.std.specs.Prelude.{◌≡◌, ℕ, [], ◌∷◌, ◌++◌, ◌<◌, length, replicate, reverse, slice_get, Some, IfOk};
ghost use Rattle.std.specs.Prelude.{OnOk, OnErr};
ghost use Rattle.am_blast.specs.Words.{opposites};

use am_bv::Row;
use am_lit::Lit;
use std::alloc::{AllocError, Global};
use std::marker::Model;

/// A word of a circuit: its literals, least bit first. Contracts see the list of their codes.
#[derive(Debug, Drop)]
pub struct WordLits {
    literals: Vec<Lit>,
}

impl Model for WordLits {
    ghost use Rattle.std.specs.Prelude.{List, ℕ};

    ghost Value = { List ℕ };

    ghost view = { λ word. word.literals.items };
}

impl WordLits {
    /// The empty word, which takes no memory yet.
    pub fn new(alloc: Global) -> WordLits
        ensures { result ≡ [] }
    {
        WordLits {
            literals: Vec::new(alloc),
        }
    }

    /// The word of these literals, least bit first. Takes no memory.
    pub fn from_vec(literals: Vec<Lit>) -> WordLits
        ensures { result ≡ literals.items }
    {
        WordLits { literals }
    }

    /// The literals, least bit first. Takes no memory.
    pub fn into_vec(self) -> Vec<Lit>
        ensures { result.items ≡ self }
    {
        self.literals
    }

    /// The number of literals.
    pub fn len(&self) -> usize
        ensures { result ≡ length self.now }
    {
        self.literals.len()
    }

    /// The literal of bit `i`.
    pub fn get(&self, i: usize) -> &Lit
        requires { i < length self.now }
        ensures { slice_get self.now i ≡ Some result.now }
    {
        &self.literals[i]
    }

    /// Puts a literal above the others.
    pub fn push(&mut self, literal: Lit) -> Result<(), AllocError>
        ensures ok { OnOk result (self.new ≡ self.old ++ literal ∷ []) }
        ensures err { OnErr result (self.new ≡ self.old) }
    {
        self.literals.push(literal)?;
        Ok(())
    }

    /// The literals, least bit first.
    pub fn as_slice(&self) -> &[Lit]
        ensures { result.now ≡ self.now }
    {
        self.literals.as_slice()
    }
}

/// A list of words.
pub type Words = Row<WordLits>;

/// The opposite of each literal.
pub(crate) fn opposites(alloc: Global, word: &[Lit]) -> Result<WordLits, AllocError>
    ensures { IfOk result (λ r. r ≡ opposites word.now) }
{
    let literals = word.iter().map(|l| l.opposite()).collect(alloc)?;
    Ok(WordLits { literals })
}

/// A copy of the word.
pub fn copied(alloc: Global, word: &[Lit]) -> Result<WordLits, AllocError>
    ensures { IfOk result (λ r. r ≡ word.now) }
{
    let literals = word.iter().copied().collect(alloc)?;
    Ok(WordLits { literals })
}

/// The word's literals, from the top down.
pub(crate) fn reversed(alloc: Global, word: &[Lit]) -> Result<WordLits, AllocError>
    ensures { IfOk result (λ r. r ≡ reverse word.now) }
{
    let literals = word.iter().rev().copied().collect(alloc)?;
    Ok(WordLits { literals })
}

/// The word with `n` copies of a literal below it.
pub(crate) fn padded_below(
    alloc: Global,
    fill: Lit,
    n: usize,
    word: &[Lit],
) -> Result<WordLits, AllocError>
    ensures { IfOk result (λ r. r ≡ replicate n fill ++ word.now) }
{
    let literals = std::iter::repeat_n(fill, n)
        .chain(word.iter().copied())
        .collect(alloc)?;
    Ok(WordLits { literals })
}
