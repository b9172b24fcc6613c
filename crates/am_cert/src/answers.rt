//! Answers with chains: how a synthesis ended.

ghost use Rattle.std.proofs.Common.{inl, inr};
ghost use Rattle.am_syntax.specs.Readers.{Makes};
ghost use Rattle.std.specs.Prelude.{false};
ghost use Rattle.am_cert.specs.Grammar.{answer, best, none, outcome, outcome_of_parts, spent_conflicts, spent_turns};
ghost use Rattle.am_cert.specs.inside.Shapes.{IsProblemShape, seen_shape};
ghost use Rattle.am_cert.specs.inside.Shown.{read_as, term_lines};

use crate::answer::{Answer, Proofs};
use crate::asking::read_asked;
use crate::chains::read_log;
use crate::rows::read_result_term;
use crate::shape::Shape;
use crate::turns::read_turns;
use am_bv::Term;
use am_problem::Transformer;
use am_query::Outcome;
use am_syntax::{Failure, Item, is_next, read_times, take_key};
use am_text::Cursor;
use std::alloc::Global;

/// The lines of a best transformer.
#[derive(Clone, Copy)]
struct TermLines {
    shape: Shape,
}

impl<'a> Item<'a> for TermLines {
    ghost use Rattle.std.specs.Prelude.{codes};
    ghost use Rattle.am_bv.specs.declared.term.Term.{Term as Tree};
    ghost use Rattle.am_syntax.specs.Pieces.{keyed};
    ghost use Rattle.am_cert.specs.Grammar.{result_term};
    ghost use Rattle.am_cert.specs.inside.Shapes.{IsProblemShape, seen_shape};

    type Value = Term;

    ghost Shown = { Tree };

    ghost view = { λ t. t };

    ghost reads = { λ own _. (keyed (codes "term") (result_term (seen_shape own.shape))).read };

    ghost can = { λ own. IsProblemShape (seen_shape own.shape) };

    fn read(&self, alloc: Global, text: &mut Cursor<'a>, _seen: &[Term]) -> Result<Term, Failure> {
        take_key(text, b"term")?;
        read_result_term(alloc, text, &self.shape)
    }
}

/// A line `term` for each field.
pub(crate) fn read_term_lines(
    alloc: Global,
    text: &mut Cursor<'_>,
    s: &Shape,
) -> Result<Transformer, Failure>
    requires { IsProblemShape (seen_shape s.now) }
    ensures { Makes (λ ts. ts) result text.old text.new (term_lines (seen_shape s.now)).read }
{
    read_times(alloc, text, &TermLines { shape: *s }, s.fields)
}

/// `best`: a transformer, turns and two logs.
#[tactic(auto, unfolding(crate::specs::Grammar::best))]
fn read_best(alloc: Global, text: &mut Cursor<'_>, s: &Shape) -> Result<Outcome, Failure>
    requires { IsProblemShape (seen_shape s.now) }
    ensures { let best = best (seen_shape s.now) in
        Makes (λ o. o) result text.old text.new (read_as (λ x. outcome_of_parts (inl x)) best) }
{
    take_key(text, b"best")?;
    let term = read_term_lines(alloc, text, s)?;
    let trace = read_turns(alloc, text, s, s.turns)?;
    let sound_log = read_log(alloc, text, b"sound")?;
    let best_log = read_log(alloc, text, b"best")?;
    Ok(Outcome::Best {
        term,
        trace,
        sound_log,
        best_log,
    })
}

/// `none`: turns and a log.
#[tactic(auto, unfolding(crate::specs::Grammar::none))]
fn read_none(alloc: Global, text: &mut Cursor<'_>, s: &Shape) -> Result<Outcome, Failure>
    requires { IsProblemShape (seen_shape s.now) }
    ensures { let none = none (seen_shape s.now) in
        Makes (λ o. o) result text.old text.new (read_as (λ x. outcome_of_parts (inr (inl x))) none) }
{
    take_key(text, b"none")?;
    let trace = read_turns(alloc, text, s, s.turns)?;
    let log = read_log(alloc, text, b"fit")?;
    Ok(Outcome::Absent { trace, log })
}

/// `turns`: turns, of which there may be one more.
#[tactic(auto, unfolding(crate::specs::Grammar::spent_turns))]
fn read_spent_turns(alloc: Global, text: &mut Cursor<'_>, s: &Shape) -> Result<Outcome, Failure>
    requires { IsProblemShape (seen_shape s.now) }
    ensures { let spent = spent_turns (seen_shape s.now) in
        Makes (λ o. o) result text.old text.new (read_as (λ x. outcome_of_parts (inr (inr (inl x)))) spent) }
{
    take_key(text, b"turns")?;
    let trace = read_turns(alloc, text, s, s.turns + 1)?;
    Ok(Outcome::Turns { trace })
}

/// `conflicts`: turns, what was asked after them, and a log.
#[tactic(auto, unfolding(crate::specs::Grammar::spent_conflicts))]
fn read_spent_conflicts(alloc: Global, text: &mut Cursor<'_>, s: &Shape) -> Result<Outcome, Failure>
    requires { IsProblemShape (seen_shape s.now) }
    ensures { let spent = spent_conflicts (seen_shape s.now) in
        Makes (λ o. o) result text.old text.new (read_as (λ x. outcome_of_parts (inr (inr (inr x)))) spent) }
{
    take_key(text, b"conflicts")?;
    let trace = read_turns(alloc, text, s, s.turns)?;
    let asked = read_asked(alloc, text, s, trace.as_slice())?;
    let log = read_log(alloc, text, b"spent")?;
    Ok(Outcome::Conflicts { trace, asked, log })
}

/// How a synthesis ended.
#[tactic(auto, unfolding(crate::specs::Grammar::outcome))]
fn read_outcome(alloc: Global, text: &mut Cursor<'_>, s: &Shape) -> Result<Outcome, Failure>
    requires { IsProblemShape (seen_shape s.now) }
    ensures { Makes (λ o. o) result text.old text.new (outcome (seen_shape s.now)).read }
{
    if is_next(text, b"best") {
        read_best(alloc, text, s)
    } else if is_next(text, b"none") {
        read_none(alloc, text, s)
    } else if is_next(text, b"turns") {
        read_spent_turns(alloc, text, s)
    } else {
        read_spent_conflicts(alloc, text, s)
    }
}

/// How a synthesis ended, with the logs that show it.
#[tactic(auto, unfolding(crate::specs::Grammar::answer))]
pub(crate) fn read_chained(
    alloc: Global,
    text: &mut Cursor<'_>,
    s: &Shape,
) -> Result<Answer, Failure>
    requires { IsProblemShape (seen_shape s.now) }
    ensures { Makes (λ a. a) result text.old text.new (answer false (seen_shape s.now)).read }
{
    let outcome = read_outcome(alloc, text, s)?;
    Ok(Answer {
        outcome,
        proofs: Proofs::Chains,
    })
}
