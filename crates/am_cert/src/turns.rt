//! Turns: what they show, and which negative examples are kept.

ghost use Rattle.std.specs.Prelude.{◌≡◌, ◌<◌, ◌^◌, codes, length};
ghost use Rattle.std.proofs.Common.{inl, inr};
ghost use Rattle.am_syntax.specs.Pieces.{keyed};
ghost use Rattle.am_syntax.specs.Readers.{GivesRead, Makes};
ghost use Rattle.am_cert.specs.Grammar.{counterexample, example, negative_count, turn, turn_of, turns};
ghost use Rattle.am_cert.specs.inside.Shapes.{IsProblemShape, seen_shape};
ghost use Rattle.am_cert.specs.inside.Shown.{either_turn, read_as, room, seen_example};

use crate::rows::{read_places, read_terms, read_word, read_words};
use crate::shape::Shape;
use am_problem::{Negative, Positive, Transformer};
use am_query::{Places, Trace, Turn};
use am_syntax::{Cause, Failure, Item, Listed, is_next, read_list, refuse_next, take_key};
use am_text::Cursor;
use std::alloc::Global;

/// A transformer, a positive example, and places of negative ones.
#[derive(Drop)]
pub(crate) struct Example {
    pub(crate) term: Transformer,
    pub(crate) example: Positive,
    pub(crate) places: Places,
}

/// A transformer, a positive example, and places of so many negative ones.
pub(crate) fn read_example(
    alloc: Global,
    text: &mut Cursor<'_>,
    s: &Shape,
    count: u64,
) -> Result<Example, Failure>
    requires { IsProblemShape (seen_shape s.now) }
    ensures { Makes seen_example result text.old text.new (example (seen_shape s.now) count).read }
{
    let term = read_terms(alloc, text, s)?;
    take_key(text, b"in")?;
    let inputs = read_words(text, s, s.inputs * s.fields)?;
    take_key(text, b"word")?;
    let words = read_words(text, s, s.inputs)?;
    take_key(text, b"kept")?;
    let places = read_places(alloc, text, count)?;
    Ok(Example {
        term,
        example: Positive { inputs, words },
        places,
    })
}

/// `positive` and an example, beside so many negative ones.
fn read_positive(
    alloc: Global,
    text: &mut Cursor<'_>,
    s: &Shape,
    count: u64,
) -> Result<Turn, Failure>
    requires { IsProblemShape (seen_shape s.now) }
    ensures { let positive = keyed (codes "positive") (example (seen_shape s.now) count) in
        Makes (λ t. t) result text.old text.new (read_as (λ x. turn_of (inl x)) positive) }
{
    take_key(text, b"positive")?;
    let Example {
        term,
        example,
        places,
    } = read_example(alloc, text, s, count)?;
    Ok(Turn::Positive {
        term,
        example,
        kept: places,
    })
}

/// `negative` and an example.
fn read_negative(alloc: Global, text: &mut Cursor<'_>, s: &Shape) -> Result<Turn, Failure>
    requires { IsProblemShape (seen_shape s.now) }
    ensures { let negative = keyed (codes "negative") (counterexample (seen_shape s.now)) in
        Makes (λ t. t) result text.old text.new (read_as (λ x. turn_of (inr x)) negative) }
{
    take_key(text, b"negative")?;
    let term = read_terms(alloc, text, s)?;
    take_key(text, b"in")?;
    let inputs = read_words(text, s, s.inputs * s.fields)?;
    take_key(text, b"out")?;
    let word = read_word(text, s.width)?;
    Ok(Turn::Negative {
        term,
        example: Negative { inputs, word },
    })
}

/// A turn after others with so many negative examples.
fn read_either(alloc: Global, text: &mut Cursor<'_>, s: &Shape, count: u64) -> Result<Turn, Failure>
    requires { IsProblemShape (seen_shape s.now) }
    ensures { Makes (λ t. t) result text.old text.new (read_as turn_of (either_turn (seen_shape s.now) count)) }
{
    if is_next(text, b"positive") {
        read_positive(alloc, text, s, count)
    } else {
        read_negative(alloc, text, s)
    }
}

/// How many places there are.
fn length(places: &[u32]) -> u64
    ensures value { result ≡ length places.now }
    ensures most { result < 2 ^ 62 }
{
    places.len() as u64
}

/// How many negative examples there are after the turns.
pub(crate) fn negative_count(seen: &[Turn]) -> u64
    ensures { result ≡ negative_count seen.now }
{
    let mut behind = 0;
    for turn in seen.iter().rev() {
        match turn {
            Turn::Positive { kept, .. } => return behind + length(kept.as_slice()),
            Turn::Negative { .. } => behind += 1,
        }
    }
    behind
}

/// Refuses the next token with `Count`, where no more may stand here.
fn expect_room(text: &mut Cursor<'_>, may: bool) -> Result<(), Cause>
    ensures { GivesRead (λ _. tt) result text.old text.new (room may) }
{
    if may {
        Ok(())
    } else {
        refuse_next(text, Cause::Count)
    }
}

/// A turn after others, of so many at most.
#[tactic(auto, unfolding(crate::specs::Grammar::turn))]
fn read_turn(
    alloc: Global,
    text: &mut Cursor<'_>,
    s: &Shape,
    most: usize,
    seen: &[Turn],
) -> Result<Turn, Failure>
    requires { IsProblemShape (seen_shape s.now) }
    ensures { Makes (λ t. t) result text.old text.new (turn (seen_shape s.now) most seen.now).read }
{
    expect_room(text, seen.len() < most)?;
    read_either(alloc, text, s, negative_count(seen))
}

/// Turns, of so many at most.
#[derive(Clone, Copy)]
struct Turns {
    shape: Shape,
    most: usize,
}

impl<'a> Item<'a> for Turns {
    ghost use Rattle.am_query.specs.declared.turn.Turn.{Turn as Data};
    ghost use Rattle.am_cert.specs.Grammar.{turn};
    ghost use Rattle.am_cert.specs.inside.Shapes.{IsProblemShape, seen_shape};

    type Value = Turn;

    ghost Shown = { Data };

    ghost view = { λ t. t };

    ghost reads = { λ own seen. (turn (seen_shape own.shape) own.most seen).read };

    ghost can = { λ own. IsProblemShape (seen_shape own.shape) };

    fn read(&self, alloc: Global, text: &mut Cursor<'a>, seen: &[Turn]) -> Result<Turn, Failure> {
        read_turn(alloc, text, &self.shape, self.most, seen)
    }
}

impl<'a> Listed<'a> for Turns {
    ghost use Rattle.am_cert.specs.Grammar.{is_turn_next};

    ghost goes = { is_turn_next };

    fn comes(&self, text: &Cursor<'a>) -> bool {
        is_next(text, b"positive") || is_next(text, b"negative")
    }
}

/// At most so many turns.
#[tactic(auto, unfolding(crate::specs::Grammar::turns))]
pub(crate) fn read_turns(
    alloc: Global,
    text: &mut Cursor<'_>,
    s: &Shape,
    most: u32,
) -> Result<Trace, Failure>
    requires { IsProblemShape (seen_shape s.now) }
    ensures { Makes (λ ts. ts) result text.old text.new (turns (seen_shape s.now) most).read }
{
    let turns = Turns {
        shape: *s,
        most: most as usize,
    };
    read_list(alloc, text, &turns)
}
