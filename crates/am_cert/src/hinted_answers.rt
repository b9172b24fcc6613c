//! Answers with hints: a best transformer, or that none is sound.

ghost use Rattle.std.specs.Prelude.{Bool, codes, true};
ghost use Rattle.std.proofs.Common.{inl, inr};
ghost use Rattle.am_syntax.specs.Pieces.{choice, next_is};
ghost use Rattle.am_syntax.specs.Readers.{Makes};
ghost use Rattle.am_cert.specs.Grammar.{answer, hinted_best, hinted_none, hinted_of};
ghost use Rattle.am_cert.specs.inside.Shapes.{IsProblemShape, seen_shape};
ghost use Rattle.am_cert.specs.inside.Shown.{read_as};

use crate::answer::{Answer, Proofs};
use crate::answers::{read_chained, read_term_lines};
use crate::hints::read_hints;
use crate::shape::Shape;
use crate::turns::read_turns;
use am_chain::Log;
use am_hint::Hints;
use am_query::Outcome;
use am_syntax::{Failure, is_next, take_key};
use am_text::Cursor;
use std::alloc::Global;

/// `best`: a transformer, turns and two lists of hints.
#[tactic(auto, unfolding(crate::specs::Grammar::hinted_best))]
fn read_hinted_best(alloc: Global, text: &mut Cursor<'_>, s: &Shape) -> Result<Answer, Failure>
    requires { IsProblemShape (seen_shape s.now) }
    ensures { let best = hinted_best (seen_shape s.now) in
        Makes (λ a. a) result text.old text.new (read_as (λ x. hinted_of (inl x)) best) }
{
    take_key(text, b"best")?;
    let term = read_term_lines(alloc, text, s)?;
    let trace = read_turns(alloc, text, s, s.turns)?;
    let first = read_hints(alloc, text, b"sound")?;
    let second = read_hints(alloc, text, b"best")?;
    Ok(Answer {
        outcome: Outcome::Best {
            term,
            trace,
            sound_log: Log::new(alloc),
            best_log: Log::new(alloc),
        },
        proofs: Proofs::Hinted { first, second },
    })
}

/// `none`: turns and a list of hints.
#[tactic(auto, unfolding(crate::specs::Grammar::hinted_none))]
fn read_hinted_none(alloc: Global, text: &mut Cursor<'_>, s: &Shape) -> Result<Answer, Failure>
    requires { IsProblemShape (seen_shape s.now) }
    ensures { let none = hinted_none (seen_shape s.now) in
        Makes (λ a. a) result text.old text.new (read_as (λ x. hinted_of (inr x)) none) }
{
    take_key(text, b"none")?;
    let trace = read_turns(alloc, text, s, s.turns)?;
    let first = read_hints(alloc, text, b"fit")?;
    Ok(Answer {
        outcome: Outcome::Absent {
            trace,
            log: Log::new(alloc),
        },
        proofs: Proofs::Hinted {
            first,
            second: Hints::new(alloc),
        },
    })
}

/// How a synthesis ended, with the hints that show it.
#[tactic(auto, unfolding(crate::specs::Grammar::answer))]
fn read_hinted(alloc: Global, text: &mut Cursor<'_>, s: &Shape) -> Result<Answer, Failure>
    requires { IsProblemShape (seen_shape s.now) }
    ensures { Makes (λ a. a) result text.old text.new (answer true (seen_shape s.now)).read }
{
    if is_next(text, b"best") {
        read_hinted_best(alloc, text, s)
    } else {
        read_hinted_none(alloc, text, s)
    }
}

/// How a synthesis ended, with hints or with chains.
pub(crate) fn read_by(
    alloc: Global,
    text: &mut Cursor<'_>,
    s: &Shape,
    hints: bool,
) -> Result<Answer, Failure>
    requires { IsProblemShape (seen_shape s.now) }
    ensures { Makes (λ a. a) result text.old text.new (answer hints (seen_shape s.now)).read }
{
    if hints {
        read_hinted(alloc, text, s)
    } else {
        read_chained(alloc, text, s)
    }
}
