//! What was asked when a budget was spent.

ghost use Rattle.std.specs.Prelude.{codes};
ghost use Rattle.std.proofs.Common.{inl, inr};
ghost use Rattle.am_syntax.specs.Pieces.{keyed};
ghost use Rattle.am_syntax.specs.Readers.{Makes};
ghost use Rattle.am_cert.specs.Grammar.{asked, asked_of, example, negative_count, terms};
ghost use Rattle.am_cert.specs.inside.Shapes.{IsProblemShape, seen_shape};
ghost use Rattle.am_cert.specs.inside.Shown.{question, read_as};

use crate::rows::read_terms;
use crate::shape::Shape;
use crate::turns::{Example, negative_count, read_example};
use am_query::{Asked, Turn};
use am_syntax::{Failure, is_next, take_key};
use am_text::Cursor;
use std::alloc::Global;

/// `keep` and an example after a trace.
fn read_keep(
    alloc: Global,
    text: &mut Cursor<'_>,
    s: &Shape,
    trace: &[Turn],
) -> Result<Asked, Failure>
    requires { IsProblemShape (seen_shape s.now) }
    ensures { let keep = keyed (codes "keep") (example (seen_shape s.now) (negative_count trace.now)) in
        Makes (λ a. a) result text.old text.new (read_as (λ x. asked_of (inr (inl x))) keep) }
{
    take_key(text, b"keep")?;
    let Example {
        term,
        example,
        places,
    } = read_example(alloc, text, s, negative_count(trace))?;
    Ok(Asked::Keep {
        term,
        example,
        places,
    })
}

/// `sound` and a transformer.
fn read_sound(alloc: Global, text: &mut Cursor<'_>, s: &Shape) -> Result<Asked, Failure>
    requires { IsProblemShape (seen_shape s.now) }
    ensures { let sound = keyed (codes "sound") (terms (seen_shape s.now)) in
        Makes (λ a. a) result text.old text.new (read_as (λ x. asked_of (inr (inr (inl x)))) sound) }
{
    take_key(text, b"sound")?;
    let term = read_terms(alloc, text, s)?;
    Ok(Asked::Sound { term })
}

/// `precise` and a transformer.
fn read_precise(alloc: Global, text: &mut Cursor<'_>, s: &Shape) -> Result<Asked, Failure>
    requires { IsProblemShape (seen_shape s.now) }
    ensures { let precise = keyed (codes "precise") (terms (seen_shape s.now)) in
        Makes (λ a. a) result text.old text.new (read_as (λ x. asked_of (inr (inr (inr x)))) precise) }
{
    take_key(text, b"precise")?;
    let term = read_terms(alloc, text, s)?;
    Ok(Asked::Precise { term })
}

/// What was asked after a trace.
fn read_question(
    alloc: Global,
    text: &mut Cursor<'_>,
    s: &Shape,
    trace: &[Turn],
) -> Result<Asked, Failure>
    requires { IsProblemShape (seen_shape s.now) }
    ensures { let question = question (seen_shape s.now) trace.now in
        Makes (λ a. a) result text.old text.new (read_as asked_of question) }
{
    if is_next(text, b"start") {
        take_key(text, b"start")?;
        Ok(Asked::Start)
    } else if is_next(text, b"keep") {
        read_keep(alloc, text, s, trace)
    } else if is_next(text, b"sound") {
        read_sound(alloc, text, s)
    } else {
        read_precise(alloc, text, s)
    }
}

/// `query` and what was asked after a trace.
#[tactic(auto, unfolding(crate::specs::Grammar::asked))]
pub(crate) fn read_asked(
    alloc: Global,
    text: &mut Cursor<'_>,
    s: &Shape,
    trace: &[Turn],
) -> Result<Asked, Failure>
    requires { IsProblemShape (seen_shape s.now) }
    ensures { Makes (λ a. a) result text.old text.new (asked (seen_shape s.now) trace.now).read }
{
    take_key(text, b"query")?;
    read_question(alloc, text, s, trace)
}
