//! What an assignment gives to words of literals.

ghost use Rattle.std.specs.Prelude.{ℕ, ◌≡◌, ◌<◌, ◌≤◌, List, All, length, map};
ghost use Rattle.am_lit.specs.Truth.{value_at};
ghost use Rattle.am_gate.specs.Circuit.{IsLiteral};
ghost use Rattle.am_blast.specs.Words.{IsWord, reads};

use am_blast::WordLits;
use am_lit::{Assignment, Lit};
use am_problem::ShortRow;

/// The number that a word of at most eight literals reads.
pub fn word_at(a: &Assignment, word: &[Lit]) -> u8
    requires short { length word.now ≤ 8 }
    requires given { All (IsLiteral (length a.now.values)) word.now }
    ensures { result ≡ reads (value_at a.now.values) word.now }
{
    let mut number = 0;
    for l in word.iter().rev() {
        number = 2 * number + u8::from(a.holds(*l));
    }
    number
}

/// The numbers that words read.
pub fn row_at<const N: usize>(a: &Assignment, words: &[WordLits]) -> ShortRow<N>
    requires few { length words.now ≤ N }
    requires short { All (λ word. length word ≤ 8) words.now }
    requires given { All (All (IsLiteral (length a.now.values))) words.now }
    ensures { result ≡ map (reads (value_at a.now.values)) words.now }
{
    let mut row = ShortRow::new();
    for word in words {
        row.push(word_at(a, word.as_slice()));
    }
    row
}
