//! Short rows of words, as examples have them.

ghost use Rattle.std.specs.Prelude.{◌≡◌, ◌+◌, ◌<◌, ◌≤◌, [], ◌∷◌, ◌++◌, length, slice_index, IsTrue, ◌↔◌};

use arrayvec::ArrayVec;
use std::marker::Model;

/// A row of at most `N` words. Contracts see the list of the words.
#[derive(PartialEq, Debug, Drop)]
pub struct ShortRow<const N: usize> {
    words: ArrayVec<u8, N>,
}

/// The fields of all inputs in one row, at most 12 words.
pub type Inputs = ShortRow<12>;

/// One word for each input, at most 3.
pub type WordRow = ShortRow<3>;

impl<const N: usize> Model for ShortRow<N> {
    ghost use Rattle.std.specs.Prelude.{List, ℕ};

    ghost Value = { List ℕ };

    ghost view = { λ row. row.words.items };

    ghost inverse = { λ words. record { words = record { items = words } } };
}

impl<const N: usize> ShortRow<N> {
    /// No words.
    pub fn new() -> ShortRow<N>
        ensures { result ≡ [] }
    {
        ShortRow {
            words: ArrayVec::new(),
        }
    }

    /// The words of a slice.
    pub fn from_slice(words: &[u8]) -> ShortRow<N>
        requires { length words.now ≤ N }
        ensures { result ≡ words.now }
    {
        let mut row = ShortRow::new();
        row.extend(words);
        row
    }

    /// Puts a word at the end.
    pub fn push(&mut self, c: u8)
        requires { length self.old < N }
        ensures { self.new ≡ self.old ++ c ∷ [] }
    {
        self.words.push(c);
    }

    /// Puts the words of a slice at the end.
    pub fn extend(&mut self, words: &[u8])
        requires { length self.old + length words.now ≤ N }
        ensures { self.new ≡ self.old ++ words.now }
    {
        for c in words {
            self.push(*c);
        }
    }

    /// The word at place `i`, counted from 0.
    pub fn get(&self, i: usize) -> u8
        requires { i < length self.now }
        ensures { result ≡ slice_index self.now i }
    {
        self.words[i]
    }

    /// The number of words.
    pub fn len(&self) -> usize
        ensures value { result ≡ length self.now }
        ensures most { result ≤ N }
    {
        self.words.len()
    }

    /// Whether there are no words.
    pub fn is_empty(&self) -> bool
        ensures { IsTrue result ↔ (self.now ≡ []) }
    {
        self.words.is_empty()
    }

    /// The words, in order.
    pub fn as_slice(&self) -> &[u8]
        ensures value { result.now ≡ self.now }
        ensures most { length result.now ≤ N }
    {
        self.words.as_slice()
    }

    /// The same words.
    pub fn copy(&self) -> ShortRow<N>
        ensures { result ≡ self.now }
    {
        ShortRow::from_slice(self.as_slice())
    }

    /// Whether both have the same words, which is what `==` answers.
    pub fn equals(&self, other: &ShortRow<N>) -> bool
        ensures { IsTrue result ↔ (self.now ≡ other.now) }
    {
        self == other
    }
}
