//! Reading of terms.

ghost use Rattle.std.specs.Prelude.{◌≡◌, ◌+◌, ◌<◌, IfOk, OnOk, Ok, Err, None, nat_lt, if◌then◌else◌};
ghost use Rattle.am_bv.specs.declared.term.Term.TheVariants.{Field};
ghost use Rattle.am_bv.specs.Terms.{nodes};
ghost use Rattle.am_syntax.specs.declared.refusal.Cause.TheVariants.{Name};
ghost use Rattle.am_syntax.specs.declared.refusal.Failure.TheVariants.{NoMemory};
ghost use Rattle.am_syntax.specs.Numerals.{number_of};
ghost use Rattle.am_syntax.specs.Readers.{GivesRead, Makes, judged};
ghost use Rattle.am_syntax.specs.Spelling.{scope_of};
ghost use Rattle.am_syntax.specs.Terms.{begins_capital, constant_judge, head_judge, leaf_judge};
ghost use Rattle.am_syntax.specs.Terms.{term, term_at, variable_judge, within};

use crate::ahead::follow;
use crate::judge::{Judge, take};
use crate::keys::take_closing;
use crate::limits::TermLimits;
use crate::names::take_operator;
use crate::numerals;
use crate::refusal::{Cause, Failure};
use am_bv::{Row, Term, Width};
use am_text::Cursor;
use std::alloc::Global;

fn judge_constant(w: Width, word: &[u8]) -> Result<Term, Cause>
    ensures { result ≡ constant_judge w word.now }
{
    match numerals::number_of(word) {
        Some(n) if numerals::is_canonical(word) && n <= u64::from(w.mask()) => {
            Ok(Term::Const(n as u8))
        }
        _ => Err(Cause::Number),
    }
}

fn variable(variables: u32, digits: &[u8]) -> Result<Term, Cause>
    ensures { let n = number_of digits.now in
        result ≡ (if nat_lt n variables then Ok (Field n) else Err Name) }
{
    match numerals::number_of(digits) {
        Some(n) if n < u64::from(variables) => Ok(Term::Field(n as u32)),
        _ => Err(Cause::Name),
    }
}

fn judge_variable(w: Width, limits: &TermLimits, word: &[u8]) -> Result<Term, Cause>
    ensures { result ≡ variable_judge (scope_of w limits.now) word.now }
{
    match word {
        [letter, digits @ ..] if *letter == limits.letter.code() && numerals::is_numeral(digits) =>
            { variable(limits.variables, digits) }
        _ => Err(Cause::Name),
    }
}

fn begins_capital(word: &[u8]) -> bool
    ensures { result ≡ begins_capital word.now }
{
    match word {
        [] => false,
        [first, ..] => b'A' <= *first && *first <= b'Z',
    }
}

fn judge_leaf(w: Width, limits: &TermLimits, word: &[u8]) -> Result<Term, Cause>
    ensures { result ≡ leaf_judge (scope_of w limits.now) word.now }
{
    if numerals::is_digits(word) {
        judge_constant(w, word)
    } else if begins_capital(word) {
        Err(Cause::Syntax)
    } else {
        judge_variable(w, limits, word)
    }
}

fn within(room: u64, verdict: Result<Term, Cause>) -> Result<Option<Term>, Cause>
    ensures value { result ≡ within room verdict }
    ensures room { OnOk result (0 < room) }
    ensures leaf { result ≡ Ok None → ⊥ }
{
    let term = verdict?;
    if room == 0 {
        Err(Cause::Count)
    } else {
        Ok(Some(term))
    }
}

/// The first token of a term: a leaf, or `None` where an operator comes.
#[derive(Clone, Copy)]
struct Head<'l> {
    width: Width,
    limits: &'l TermLimits,
    /// Whether the term is an argument.
    inside: bool,
    /// How many parentheses may be opened still.
    depth: u32,
    /// How many nodes there may be still.
    room: u64,
}

impl<'l> Head<'l> {
    fn verdict(&self, word: &[u8]) -> Result<Option<Term>, Cause>
        ensures value { let scope = scope_of self.now.width self.now.limits.now in
            result ≡ head_judge scope self.now.inside self.now.depth self.now.room word.now }
        ensures room { OnOk result (0 < self.now.room) }
        ensures deeper { result ≡ Ok None → 0 < self.now.depth }
    {
        if word == b"(".as_slice() {
            if self.room == 0 || self.depth == 0 {
                Err(Cause::Count)
            } else {
                Ok(None)
            }
        } else if word == b")".as_slice() {
            if self.inside {
                Err(Cause::Count)
            } else {
                Err(Cause::Syntax)
            }
        } else {
            within(self.room, judge_leaf(self.width, self.limits, word))
        }
    }
}

impl<'a, 'l> Judge<'a> for Head<'l> {
    ghost use Rattle.std.specs.Prelude.{◌≡◌, ◌<◌, Option, None};
    ghost use Rattle.am_bv.specs.declared.term.Term.{Term as Node};
    ghost use Rattle.am_syntax.specs.Spelling.{scope_of};
    ghost use Rattle.am_syntax.specs.Terms.{head_judge};

    type Value = Option<Term>;

    ghost Shown = { Option Node };

    ghost view = { λ head. head };

    ghost verdict = { λ own word.
        head_judge (scope_of own.width own.limits.now) own.inside own.depth own.room word };

    ghost known = { λ own head. (0 < own.room) × (head ≡ None → 0 < own.depth) };

    fn judge(&self, word: &'a [u8]) -> Result<Option<Term>, Cause> {
        self.verdict(word)
    }
}

/// Takes the first token of a term.
fn take_head(
    text: &mut Cursor<'_>,
    w: Width,
    limits: &TermLimits,
    inside: bool,
    depth: u32,
    room: u64,
) -> Result<Option<Term>, Cause>
    ensures value { let head = head_judge (scope_of w limits.now) inside depth room in
        GivesRead (λ h. h) result text.old text.new (judged head) }
    ensures room { OnOk result (0 < room) }
    ensures deeper { result ≡ Ok None → 0 < depth }
{
    take(
        text,
        &Head {
            width: w,
            limits,
            inside,
            depth,
            room,
        },
    )
}

/// Reads a term. Its nodes are taken from `room`, which says how many there may be still.
fn read_node(
    alloc: Global,
    text: &mut Cursor<'_>,
    w: Width,
    limits: &TermLimits,
    inside: bool,
    depth: u32,
    room: &mut u64,
) -> Result<Term, Failure>
    ensures term { Makes (λ t. t) result text.old text.new
        (term_at (scope_of w limits.now) inside depth room.old) }
    ensures room { IfOk result (λ t. room.new + nodes t ≡ room.old) }
{
    let head = take_head(text, w, limits, inside, depth, *room)?;
    *room -= 1;
    match head {
        Some(leaf) => Ok(leaf),
        None => {
            let op = take_operator(text)?;
            let mut arguments = Row::new(alloc);
            'arguments: for _ in 0..op.arity() {
                arguments.push(read_node(alloc, text, w, limits, true, depth - 1, room)?)?;
            }
            take_closing(text)?;
            Ok(Term::Node(op, arguments))
        }
    }
}

/// Reads a term at width `w` within these limits.
///
/// # Errors
///
/// `Refused`: the first refusal. The cursor stands at the refused token. `NoMemory`: the cursor
/// stays.
pub fn take_term(
    alloc: Global,
    text: &mut Cursor<'_>,
    w: Width,
    limits: &TermLimits,
) -> Result<Term, Failure>
    ensures read { Makes (λ t. t) result text.old text.new (term w limits.now).read }
    ensures stays { result ≡ Err NoMemory → text.new ≡ text.old }
{
    let mut ahead = text.fork();
    let mut room = limits.nodes;
    let read = read_node(
        alloc,
        &mut ahead,
        w,
        limits,
        false,
        limits.nesting,
        &mut room,
    );
    follow(text, ahead, read)
}
