//! Numbers, names and terms, with the places of their refusals.

ghost use Rattle.am_syntax.specs.Pieces.{name, number};
ghost use Rattle.am_syntax.specs.Terms.{term};
ghost use Rattle.am_syntax.specs.Texts.{GivesAt, MakesAt};

use crate::limits::TermLimits;
use crate::nonterminals::take_name;
use crate::numbers::take_number;
use crate::refusal::{ReadError, Refusal};
use crate::terms::take_term;
use crate::text::placed;
use am_bv::{Term, Width};
use am_text::Cursor;
use std::alloc::Global;

/// Reads a numeral of a number up to `max`.
///
/// # Errors
///
/// `Syntax`: the next token is no row of digits. `Number`: it has a leading zero before another
/// digit, or is above `max`. The cursor stays.
pub fn read_number(c: &mut Cursor<'_>, max: u64) -> Result<u64, Refusal>
    ensures { GivesAt (λ n. n) result c.old c.new (number 0 max).read }
{
    match take_number(c, 0, max) {
        Ok(n) => Ok(n),
        Err(cause) => Err(cause.at(c.place())),
    }
}

/// Reads a nonterminal's name: 1 to 16 letters and digits, a capital letter first.
///
/// # Errors
///
/// `Syntax`: the next token is no name. The cursor stays.
pub fn read_name<'a>(c: &mut Cursor<'a>) -> Result<&'a [u8], Refusal>
    ensures { GivesAt (λ v. v.now) result c.old c.new name.read }
{
    match take_name(c) {
        Ok(name) => Ok(name),
        Err(cause) => Err(cause.at(c.place())),
    }
}

/// Reads a term at width `w` within these limits.
///
/// # Errors
///
/// `Refused`: the first refusal. The cursor stands at the refused token. `NoMemory`: the cursor
/// stays.
pub fn read_term(
    alloc: Global,
    c: &mut Cursor<'_>,
    w: Width,
    limits: &TermLimits,
) -> Result<Term, ReadError>
    ensures { MakesAt (λ t. t) result c.old c.new (term w limits.now).read }
{
    let read = take_term(alloc, c, w, limits);
    placed(read, &*c)
}
