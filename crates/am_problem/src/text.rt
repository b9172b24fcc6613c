//! The whole text of a problem.

ghost use Rattle.std.specs.Prelude.{◌≡◌, ℕ, List, Err, IfErr, IfOk};
ghost use Rattle.am_syntax.specs.Readers.{Makes};
ghost use Rattle.am_syntax.specs.declared.refusal.Failure.TheVariants.{NoMemory};
ghost use Rattle.am_syntax.specs.declared.refusal.ReadError.TheVariants as read_error;
ghost use Rattle.am_syntax.specs.Texts.{Answers, MakesAt};
ghost use Rattle.am_problem.specs.Grammar.{names_of, problem};
ghost use Rattle.am_problem.specs.Refusals.{AreInOrder};
ghost use Rattle.am_problem.specs.StoredLines.{seen_lines, seen_rules};
ghost use Rattle.am_problem.specs.Texts.{IfRefused, IsOneProblem, IsProblemText, IsSettledProblem};
ghost use Rattle.am_problem.specs.Texts.{ProblemsAreRefusedForGood, ReadsAsProblem, draft, draft_of, problem_of};
ghost use Rattle.am_problem.specs.Texts.{undefined_in};

use crate::draft::{Draft, Lines, Rule, Scope};
use crate::header::{read_budgets, read_header, read_starts, take_keyed_domain};
use crate::problem::Problem;
use crate::rules::{has_name, read_rules};
use am_domain::Domain;
use am_syntax::{Failure, Letter, ReadError, close, follow, is_name, open, placed, take_key};
use am_text::Cursor;
use std::alloc::Global;

/// A problem, up to its `end`.
#[tactic(auto, unfolding(crate::specs::Grammar::problem))]
fn read_lines<'a>(alloc: Global, text: &mut Cursor<'a>) -> Result<Lines<'a>, Failure>
    ensures { Makes seen_lines result text.old text.new problem.read }
{
    let header = read_header(alloc, text)?;
    let kind = take_keyed_domain(text)?;
    let starts = read_starts(alloc, text, kind.fields())?;
    let budgets = read_budgets(text)?;
    let scope = Scope {
        width: header.width,
        letter: Letter::F,
        variables: header.inputs * kind.fields(),
    };
    let rules = read_rules(alloc, text, &scope)?;
    take_key(text, b"end")?;
    Ok(Lines {
        header,
        kind,
        starts,
        budgets,
        rules,
    })
}

/// The place of the first name that no rule has, up to `end`.
#[tactic(auto, using(crate::proofs::Seen::seen, crate::proofs::FirstUndefined::first_undefined))]
fn first_undefined(text: &mut Cursor<'_>, rules: &[Rule<'_>]) -> Option<usize>
    ensures { result ≡ undefined_in (names_of (seen_rules rules.now)) text.old.tokens }
{
    'tokens: while let Some(token) = text.next() {
        if token.text == b"end".as_slice() {
            return None;
        }
        if is_name(token.text) && !has_name(rules, token.text) {
            return Some(token.at);
        }
    }
    None
}

/// A problem up to its `end`, with the first name that no rule has.
fn read_draft<'a>(alloc: Global, text: &mut Cursor<'a>) -> Result<Draft<'a>, Failure>
    ensures { Makes (λ d. d) result text.old text.new draft }
{
    let mut ahead = text.fork();
    let lines = read_lines(alloc, text)?;
    let undefined = first_undefined(&mut ahead, lines.rules.as_slice());
    Ok(Draft { lines, undefined })
}

/// Takes a problem up to its `end`, and notes the first name that no rule has.
///
/// # Errors
///
/// `Refused`: the first token that no problem has here. The cursor stands at it. `NoMemory`: the
/// cursor stays.
pub fn take_problem<'a>(alloc: Global, text: &mut Cursor<'a>) -> Result<Draft<'a>, Failure>
    ensures read { Makes (λ d. d) result text.old text.new draft }
    ensures stays { result ≡ Err NoMemory → text.new ≡ text.old }
{
    let mut ahead = text.fork();
    let read = read_draft(alloc, &mut ahead);
    follow(text, ahead, read)
}

/// Reads a problem up to its `end`, in the middle of a text.
///
/// # Errors
///
/// `Refused`: the first token that no problem has here. The cursor stands at it. `NoMemory`: the
/// cursor stays.
pub fn problem_at<'a>(alloc: Global, c: &mut Cursor<'a>) -> Result<Draft<'a>, ReadError>
    ensures { MakesAt (λ d. d) result c.old c.new draft }
{
    let read = take_problem(alloc, c);
    placed(read, &*c)
}

/// Reads all of a text, before its names are numbered.
#[tactic(auto, unfolding(am_syntax::specs::Texts::read_whole))]
fn read_text<'a>(alloc: Global, text: &'a [u8]) -> Result<Draft<'a>, ReadError>
    ensures { Answers (λ d. d) result (draft_of text.now) }
{
    let mut cursor = open(text)?;
    let read = read_draft(alloc, &mut cursor);
    close(read, &cursor)
}

/// Reads all of a text.
fn read_all(alloc: Global, text: &[u8]) -> Result<Problem, ReadError>
    ensures { Answers (λ p. p) result (problem_of text.now) }
{
    read_text(alloc, text)?.settle(alloc)
}

/// Reads the problem of a text.
///
/// # Errors
///
/// `Refused`: the text is no problem's, with the first refusal.
pub fn read_problem(alloc: Global, text: &[u8]) -> Result<Problem, ReadError>
    // What is read is the text's problem.
    ensures found { IfOk result (λ p. ReadsAsProblem text.now p) }
    // The text of a problem is read, unless memory runs out.
    ensures only { IsProblemText text.now → IfErr result (λ e. e ≡ read_error.NoMemory) }
    // Where nothing is read, the refusal is the first.
    ensures first { IfErr result (λ e. IfRefused e (λ r. problem_of text.now ≡ Err r)) }
{
    read_all(alloc, text)
}

/// Each text is a problem's or has a first refusal, and not both.
pub fn texts_are_settled()
    ensures { (text : List ℕ) → IsSettledProblem text }
{}

/// No problem's text begins with the words of a refused one up to and including the refused token.
pub fn refusals_are_for_good()
    ensures { ProblemsAreRefusedForGood }
{}

/// A text is one problem's at most.
pub fn texts_have_one_problem()
    ensures { (text : List ℕ) → IsOneProblem text }
{}

/// A rule's name is counted before it is compared with those of earlier rules. Names without rules, the slots and
/// the load come after all tokens, in this order.
pub fn refusals_come_in_order()
    ensures { (text : List ℕ) → AreInOrder text }
{}
