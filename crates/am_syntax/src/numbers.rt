//! Numbers, by their numerals.

ghost use Rattle.std.specs.Prelude.{◌≡◌, ◌<◌, ◌≤◌, ◌^◌, IfOk};
ghost use Rattle.am_text.specs.Tokens.{words};
ghost use Rattle.am_syntax.specs.Pieces.{below, end_of, is_number_next, keyed_number, number, number_judge, width};
ghost use Rattle.am_syntax.specs.Readers.{GivesRead, Says};

use crate::judge::{Judge, take};
use crate::keys::take_key;
use crate::numerals;
use crate::refusal::Cause;
use am_bv::Width;
use am_text::Cursor;

/// Where a range of numbers ends.
#[derive(Clone, Copy)]
pub enum End {
    /// With this number.
    With(u64),
    /// Before this number.
    Before(u64),
}

impl End {
    /// The least number after the range.
    fn number(self) -> u128
        ensures value { result ≡ end_of self }
        ensures most { result ≤ 2 ^ 64 }
    {
        match self {
            End::With(most) => u128::from(most) + 1,
            End::Before(count) => u128::from(count),
        }
    }
}

/// A numeral of a number in a range.
#[derive(Clone, Copy)]
pub struct Number {
    pub least: u64,
    pub end: End,
}

impl<'a> Judge<'a> for Number {
    ghost use Rattle.std.specs.Prelude.{ℕ, ◌<◌, ◌≤◌};
    ghost use Rattle.am_syntax.specs.Pieces.{end_of, number_judge};

    type Value = u64;

    ghost Shown = { ℕ };

    ghost view = { λ n. n };

    ghost verdict = { λ own word. number_judge own.least (end_of own.end) word };

    ghost known = { λ own n. (own.least ≤ n) × (n < end_of own.end) };

    fn judge(&self, word: &'a [u8]) -> Result<u64, Cause> {
        number_of(word, self.least, self.end.number())
    }
}

fn number_of(word: &[u8], least: u64, count: u128) -> Result<u64, Cause>
    requires { count ≤ 2 ^ 64 }
    ensures verdict { Says (λ n. n) result (number_judge least count word.now) }
    ensures range { IfOk result (λ n. (least ≤ n) × (n < count)) }
{
    if !numerals::is_digits(word) {
        return Err(Cause::Syntax);
    }
    match numerals::number_of(word) {
        Some(n) if numerals::is_canonical(word) && least <= n && u128::from(n) < count => Ok(n),
        _ => Err(Cause::Number),
    }
}

/// Whether a row of digits comes next.
pub fn is_number_next(text: &Cursor<'_>) -> bool
    ensures { result ≡ is_number_next (words text.now) }
{
    match text.peek() {
        Some(token) => numerals::is_digits(token.text),
        None => false,
    }
}

/// Takes a numeral of a number from `least` to `most`.
#[tactic(auto, unfolding(crate::specs::Pieces::number))]
pub fn take_number(text: &mut Cursor<'_>, least: u64, most: u64) -> Result<u64, Cause>
    ensures value { GivesRead (λ n. n) result text.old text.new (number least most).read }
    ensures range { IfOk result (λ n. (least ≤ n) × (n ≤ most)) }
{
    let end = End::With(most);
    take(text, &Number { least, end })
}

/// Takes a numeral of a number from `least` on, below `count`.
#[tactic(auto, unfolding(crate::specs::Pieces::below))]
pub fn take_below(text: &mut Cursor<'_>, least: u64, count: u64) -> Result<u64, Cause>
    ensures value { GivesRead (λ n. n) result text.old text.new (below least count).read }
    ensures range { IfOk result (λ n. (least ≤ n) × (n < count)) }
{
    let end = End::Before(count);
    take(text, &Number { least, end })
}

/// Takes a key word and a numeral of a number from `least` to `most`.
pub fn take_keyed_number(
    text: &mut Cursor<'_>,
    word: &[u8],
    least: u64,
    most: u64,
) -> Result<u64, Cause>
    ensures value { GivesRead (λ n. n) result text.old text.new (keyed_number word.now least most).read }
    ensures range { IfOk result (λ n. (least ≤ n) × (n ≤ most)) }
{
    take_key(text, word)?;
    take_number(text, least, most)
}

/// Takes `width` and a number of bits.
pub fn take_width(text: &mut Cursor<'_>) -> Result<Width, Cause>
    ensures value { GivesRead (λ w. w) result text.old text.new width.read }
    ensures range { IfOk result (λ w. w ≤ 8) }
{
    let bits = take_keyed_number(text, b"width", 2, 8)? as u32;
    Width::new(bits).ok_or(Cause::Number)
}
