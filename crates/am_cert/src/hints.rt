//! Hints and lists of hints.

ghost use Rattle.std.specs.Prelude.{codes};
ghost use Rattle.am_syntax.specs.Pieces.{next_is, repeat};
ghost use Rattle.am_syntax.specs.Readers.{Makes};
ghost use Rattle.am_cert.specs.Grammar.{hint, hints, numbers};

use crate::chains::take_code;
use am_hint::{Codes, Hint, Hints, Places};
use am_syntax::{Failure, is_next, is_number_next, take_key};
use am_text::Cursor;
use std::alloc::Global;

/// Codes of literals as long as a row of digits comes.
fn read_codes(alloc: Global, text: &mut Cursor<'_>) -> Result<Codes, Failure>
    ensures { Makes (λ ns. ns) result text.old text.new numbers.read }
{
    let mut codes = Codes::new(alloc);
    'codes: while is_number_next(text) {
        codes.push(take_code(text)?)?;
    }
    Ok(codes)
}

/// Numbers of clauses as long as a row of digits comes.
fn read_numbers(alloc: Global, text: &mut Cursor<'_>) -> Result<Places, Failure>
    ensures { Makes (λ ns. ns) result text.old text.new numbers.read }
{
    let mut numbers = Places::new(alloc);
    'numbers: while is_number_next(text) {
        numbers.push(take_code(text)?)?;
    }
    Ok(numbers)
}

/// `clause`, its codes, `by` and the numbers of clauses.
#[tactic(auto, unfolding(crate::specs::Grammar::hint))]
fn read_hint(alloc: Global, text: &mut Cursor<'_>) -> Result<Hint, Failure>
    ensures { Makes (λ h. h) result text.old text.new hint.read }
{
    take_key(text, b"clause")?;
    let clause = read_codes(alloc, text)?;
    take_key(text, b"by")?;
    let by = read_numbers(alloc, text)?;
    Ok(Hint { clause, by })
}

/// Hints as long as one comes.
fn read_list(alloc: Global, text: &mut Cursor<'_>) -> Result<Hints, Failure>
    ensures { Makes (λ hs. hs) result text.old text.new (repeat (next_is (codes "clause")) (λ _. hint)).read }
{
    let mut hints = Hints::new(alloc);
    'hints: while is_next(text, b"clause") {
        hints.push(read_hint(alloc, text)?)?;
    }
    Ok(hints)
}

/// `log`, its name and its hints.
#[tactic(auto, unfolding(crate::specs::Grammar::hints))]
pub(crate) fn read_hints(
    alloc: Global,
    text: &mut Cursor<'_>,
    name: &[u8],
) -> Result<Hints, Failure>
    ensures { Makes (λ hs. hs) result text.old text.new (hints name.now).read }
{
    take_key(text, b"log")?;
    take_key(text, name)?;
    read_list(alloc, text)
}
