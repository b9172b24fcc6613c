//! The words of one abstract value.

ghost use Rattle.std.specs.Prelude.{◌≡◌, ◌+◌, ◌<◌, ◌≤◌, [], ◌∷◌, ◌++◌, length, slice_index, IsTrue, ◌↔◌};

use arrayvec::ArrayVec;
use std::marker::Model;

/// The words of one abstract value, at most four. Contracts see the list of the words.
#[derive(PartialEq, Drop)]
pub struct Fields {
    words: ArrayVec<u8, 4>,
}

impl Model for Fields {
    ghost use Rattle.std.specs.Prelude.{List, ℕ};

    ghost Value = { List ℕ };

    ghost view = { λ f. f.words.items };

    ghost inverse = { λ words. record { words = record { items = words } } };
}

impl Fields {
    /// No words.
    pub fn new() -> Fields
        ensures { result ≡ [] }
    {
        Fields {
            words: ArrayVec::new(),
        }
    }

    /// One word.
    pub fn single(c: u8) -> Fields
        ensures { result ≡ c ∷ [] }
    {
        let mut words = Fields::new();
        words.push(c);
        words
    }

    /// Two words.
    pub fn pair(c: u8, d: u8) -> Fields
        ensures { result ≡ c ∷ d ∷ [] }
    {
        let mut words = Fields::new();
        words.push(c);
        words.push(d);
        words
    }

    /// The words of a slice.
    pub fn from_slice(words: &[u8]) -> Fields
        requires { length words.now ≤ 4 }
        ensures { result ≡ words.now }
    {
        let mut fields = Fields::new();
        fields.extend(words);
        fields
    }

    /// Puts a word at the end.
    pub fn push(&mut self, c: u8)
        requires { length self.old < 4 }
        ensures { self.new ≡ self.old ++ c ∷ [] }
    {
        self.words.push(c);
    }

    /// Puts the words of a slice at the end.
    pub fn extend(&mut self, words: &[u8])
        requires { length self.old + length words.now ≤ 4 }
        ensures { self.new ≡ self.old ++ words.now }
    {
        for c in words {
            self.push(*c);
        }
    }

    /// The word at place `i`, counted from 0.
    pub fn get(&self, i: u32) -> u8
        requires { i < length self.now }
        ensures { result ≡ slice_index self.now i }
    {
        self.words[i as usize]
    }

    /// The number of words.
    pub fn len(&self) -> u32
        ensures value { result ≡ length self.now }
        ensures most { result ≤ 4 }
    {
        self.words.len() as u32
    }

    /// Whether there are no words.
    pub fn is_empty(&self) -> bool
        ensures { IsTrue result ↔ (self.now ≡ []) }
    {
        self.words.is_empty()
    }

    /// The words, in order.
    pub fn as_slice(&self) -> &[u8]
        ensures value { result.now ≡ self.now }
        ensures most { length result.now ≤ 4 }
    {
        self.words.as_slice()
    }

    /// The same words.
    pub fn copy(&self) -> Fields
        ensures { result ≡ self.now }
    {
        Fields::from_slice(self.as_slice())
    }

    /// Whether both have the same words, which is what `==` answers.
    pub fn equals(&self, other: &Fields) -> bool
        ensures { IsTrue result ↔ (self.now ≡ other.now) }
    {
        self == other
    }
}
