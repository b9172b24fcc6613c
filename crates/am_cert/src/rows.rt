//! Rows of terms, of words and of places.

ghost use Rattle.std.specs.Prelude.{◌≡◌, ◌≤◌, ◌^◌, ◌-◌};
ghost use Rattle.am_syntax.specs.Pieces.{number};
ghost use Rattle.am_syntax.specs.Readers.{GivesRead, Makes};
ghost use Rattle.am_cert.specs.Grammar.{place_after, places, result_term, terms, words};
ghost use Rattle.am_cert.specs.inside.Shapes.{IsProblemShape, seen_shape};

use crate::limits::{MOST_NESTING, MOST_TERM_NODES};
use crate::shape::Shape;
use am_bv::{Term, Width};
use am_problem::{ShortRow, Transformer};
use am_query::Places;
use am_syntax::{
    Cause, Failure, Item, Letter, Listed, TermLimits, is_number_next, read_list, read_times,
    take_below, take_number, take_term,
};
use am_text::Cursor;
use std::alloc::Global;

/// A term over the fields of all inputs.
pub(crate) fn read_result_term(
    alloc: Global,
    text: &mut Cursor<'_>,
    s: &Shape,
) -> Result<Term, Failure>
    requires { IsProblemShape (seen_shape s.now) }
    ensures { Makes (λ t. t) result text.old text.new (result_term (seen_shape s.now)).read }
{
    let limits = TermLimits {
        letter: Letter::F,
        variables: s.inputs * s.fields,
        nodes: MOST_TERM_NODES,
        nesting: MOST_NESTING,
    };
    take_term(alloc, text, s.width, &limits)
}

/// The terms of a transformer.
#[derive(Clone, Copy)]
struct Terms {
    shape: Shape,
}

impl<'a> Item<'a> for Terms {
    ghost use Rattle.am_bv.specs.declared.term.Term.{Term as Tree};
    ghost use Rattle.am_cert.specs.Grammar.{result_term};
    ghost use Rattle.am_cert.specs.inside.Shapes.{IsProblemShape, seen_shape};

    type Value = Term;

    ghost Shown = { Tree };

    ghost view = { λ t. t };

    ghost reads = { λ own _. (result_term (seen_shape own.shape)).read };

    ghost can = { λ own. IsProblemShape (seen_shape own.shape) };

    fn read(&self, alloc: Global, text: &mut Cursor<'a>, _seen: &[Term]) -> Result<Term, Failure> {
        read_result_term(alloc, text, &self.shape)
    }
}

/// A term for each field.
pub(crate) fn read_terms(
    alloc: Global,
    text: &mut Cursor<'_>,
    s: &Shape,
) -> Result<Transformer, Failure>
    requires { IsProblemShape (seen_shape s.now) }
    ensures { Makes (λ ts. ts) result text.old text.new (terms (seen_shape s.now)).read }
{
    read_times(alloc, text, &Terms { shape: *s }, s.fields)
}

/// A word.
pub(crate) fn read_word(text: &mut Cursor<'_>, w: Width) -> Result<u8, Cause>
    ensures { GivesRead (λ n. n) result text.old text.new (number 0 (2 ^ w - 1)).read }
{
    Ok(take_number(text, 0, u64::from(w.mask()))? as u8)
}

/// So many words.
pub(crate) fn read_words<const N: usize>(
    text: &mut Cursor<'_>,
    s: &Shape,
    count: u32,
) -> Result<ShortRow<N>, Cause>
    requires { count ≤ N }
    ensures { GivesRead (λ row. row) result text.old text.new (words (seen_shape s.now) count).read }
{
    let mut row = ShortRow::new();
    'words: for _ in 0..count {
        row.push(read_word(text, s.width)?);
    }
    Ok(row)
}

/// The least place after others.
fn place_after(seen: &[u32]) -> u64
    ensures { result ≡ place_after seen.now }
{
    match seen.last() {
        Some(place) => u64::from(*place) + 1,
        None => 0,
    }
}

/// Rising places of so many.
#[derive(Clone, Copy)]
struct RisingPlaces {
    count: u64,
}

impl<'a> Item<'a> for RisingPlaces {
    ghost use Rattle.std.specs.Prelude.{ℕ, ◌≤◌, ◌^◌};
    ghost use Rattle.am_syntax.specs.Pieces.{below};
    ghost use Rattle.am_cert.specs.Grammar.{place_after};

    type Value = u32;

    ghost Shown = { ℕ };

    ghost view = { λ n. n };

    ghost reads = { λ own seen. (below (place_after seen) own.count).read };

    ghost can = { λ own. own.count ≤ 2 ^ 32 };

    fn read(&self, _alloc: Global, text: &mut Cursor<'a>, seen: &[u32]) -> Result<u32, Failure> {
        Ok(take_below(text, place_after(seen), self.count)? as u32)
    }
}

impl<'a> Listed<'a> for RisingPlaces {
    ghost use Rattle.am_syntax.specs.Pieces.{is_number_next};

    ghost goes = { is_number_next };

    fn comes(&self, text: &Cursor<'a>) -> bool {
        is_number_next(text)
    }
}

/// Rising places of so many.
pub(crate) fn read_places(
    alloc: Global,
    text: &mut Cursor<'_>,
    count: u64,
) -> Result<Places, Failure>
    ensures { Makes (λ ns. ns) result text.old text.new (places count).read }
{
    let places = RisingPlaces {
        count: count.min(1 << 32),
    };
    read_list(alloc, text, &places)
}
