//! Sets of words.

ghost use Rattle.std.specs.Prelude.{◌≡◌, ℕ, ◌⊎◌, ◌↔◌, IsTrue, MatchBool};
ghost use Rattle.am_all.specs.inside.Sets.{Has};

/// A set of words.
#[derive(Clone, Copy)]
pub struct WordSet {
    parts: [u64; 4],
}

impl WordSet {
    /// The set of no words.
    pub fn new() -> WordSet
        ensures { (c : ℕ) → ¬ Has result c }
    {
        WordSet { parts: [0; 4] }
    }

    /// Puts the word into the set.
    pub fn insert(&mut self, c: u8)
        ensures { (d : ℕ) → Has self.new d ↔ ((d ≡ c) ⊎ Has self.old d) }
    {
        let place = c as usize / 64;
        self.parts[place] |= 1 << (c % 64);
    }

    /// Whether the word is in the set.
    pub fn contains(&self, c: u8) -> bool
        ensures { IsTrue result ↔ Has self.now c }
    {
        self.parts[c as usize / 64] >> (c % 64) & 1 == 1
    }

    /// Whether each word of the set is in the other.
    pub fn is_subset(&self, other: &WordSet) -> bool
        ensures { MatchBool result ((c : ℕ) → Has self.now c → Has other.now c)
            ((c : ℕ) × Has self.now c × (¬ Has other.now c)) }
    {
        for place in 0..self.parts.len() {
            let part = self.parts[place];
            if part & other.parts[place] != part {
                return false;
            }
        }
        true
    }
}
