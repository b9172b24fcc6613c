//! The lines of a problem before its rules.

ghost use Rattle.std.specs.Prelude.{◌≤◌, IfOk, codes};
ghost use Rattle.am_syntax.specs.Pieces.{optional, times};
ghost use Rattle.am_syntax.specs.Readers.{GivesRead, Makes};
ghost use Rattle.am_problem.specs.Grammar.{budgets, domain, header, keyed_domain, name_before};
ghost use Rattle.am_problem.specs.Grammar.{small_term, starts};
ghost use Rattle.am_problem.specs.StoredLines.{seen_budgets, seen_header, seen_names, seen_scope};

use crate::draft::{Budgets, Header, Scope};
use crate::kind::Kind;
use crate::limits::{MOST_CONFLICTS, MOST_INPUTS, MOST_NODES, MOST_TURNS};
use am_bv::{Row, Term};
use am_syntax::{
    Cause, Each, Failure, Judge, Letter, Name, Otherwise, TermLimits, is_next, no_name, read_times,
    take, take_key, take_key_or, take_keyed_number, take_number, take_term, take_width,
};
use am_text::Cursor;
use am_tree::MOST_DEPTH;
use std::alloc::Global;

/// The term of an operation or of an assumption.
fn read_small_term(alloc: Global, text: &mut Cursor<'_>, scope: &Scope) -> Result<Term, Failure>
    ensures { Makes (λ t. t) result text.old text.new (small_term (seen_scope scope.now)).read }
{
    let limits = TermLimits {
        letter: scope.letter,
        variables: scope.variables,
        nodes: MOST_NODES,
        nesting: MOST_NODES as u32,
    };
    take_term(alloc, text, scope.width, &limits)
}

/// `assume` and a term, or nothing.
fn read_assume(alloc: Global, text: &mut Cursor<'_>, scope: &Scope) -> Result<Option<Term>, Failure>
    ensures { let term = small_term (seen_scope scope.now) in
        Makes (λ t. t) result text.old text.new (optional (codes "assume") term).read }
{
    if is_next(text, b"assume") {
        take_key(text, b"assume")?;
        Ok(Some(read_small_term(alloc, text, scope)?))
    } else {
        Ok(None)
    }
}

/// `amurth 1`, `width`, `operation` and maybe `assume`.
#[tactic(auto, unfolding(crate::specs::Grammar::header))]
pub(crate) fn read_header(alloc: Global, text: &mut Cursor<'_>) -> Result<Header, Failure>
    ensures value { Makes seen_header result text.old text.new header.read }
    ensures range { IfOk result (λ h. (h.width ≤ 8) × (h.inputs ≤ 3)) }
{
    take_keyed_number(text, b"amurth", 1, 1)?;
    let width = take_width(text)?;
    let inputs = take_keyed_number(text, b"operation", 1, u64::from(MOST_INPUTS))? as u32;
    let scope = Scope {
        width,
        letter: Letter::X,
        variables: inputs,
    };
    let operation = read_small_term(alloc, text, &scope)?;
    let assume = read_assume(alloc, text, &scope)?;
    Ok(Header {
        width,
        inputs,
        operation,
        assume,
    })
}

/// The name of a domain.
#[derive(Clone, Copy)]
struct DomainName;

impl<'a> Judge<'a> for DomainName {
    ghost use Rattle.am_problem.specs.declared.kind.Kind.{Kind as Domain};
    ghost use Rattle.am_problem.specs.Grammar.{domain_judge};

    type Value = Kind;

    ghost Shown = { Domain };

    ghost view = { λ kind. kind };

    ghost verdict = { λ _ word. domain_judge word };

    ghost known = { λ _ _. Unit {0} };

    fn judge(&self, word: &'a [u8]) -> Result<Kind, Cause> {
        Kind::named(word).ok_or(no_name(word))
    }
}

/// Takes a domain's name.
///
/// # Errors
///
/// The next token is no domain's name: `Name` where it is a word, else `Syntax`. The cursor stays.
#[tactic(auto, unfolding(crate::specs::Grammar::domain))]
pub fn take_domain(text: &mut Cursor<'_>) -> Result<Kind, Cause>
    ensures { GivesRead (λ kind. kind) result text.old text.new domain.read }
{
    take(text, &DomainName)
}

/// Takes `domain` and its name.
pub fn take_keyed_domain(text: &mut Cursor<'_>) -> Result<Kind, Cause>
    ensures { GivesRead (λ kind. kind) result text.old text.new keyed_domain.read }
{
    take_key(text, b"domain")?;
    take_domain(text)
}

/// So many nonterminals, where this word comes too early.
#[tactic(auto, unfolding(am_syntax::specs::Pieces::name_or))]
pub(crate) fn read_names<'a>(
    alloc: Global,
    text: &mut Cursor<'a>,
    early: &[u8],
    count: u32,
) -> Result<Row<&'a [u8]>, Failure>
    ensures { Makes seen_names result text.old text.new (times (λ _. name_before early.now) count).read }
{
    let otherwise = Otherwise::TooEarly(early);
    let judge = Name { otherwise };
    read_times(alloc, text, &Each { judge }, count)
}

/// `start` and a nonterminal for each field.
#[tactic(auto, unfolding(crate::specs::Grammar::starts))]
pub(crate) fn read_starts<'a>(
    alloc: Global,
    text: &mut Cursor<'a>,
    fields: u32,
) -> Result<Row<&'a [u8]>, Failure>
    ensures { Makes seen_names result text.old text.new (starts fields).read }
{
    take_key(text, b"start")?;
    read_names(alloc, text, b"depth", fields)
}

/// `depth`, `turns` and `conflicts`.
#[tactic(auto, unfolding(crate::specs::Grammar::budgets))]
pub(crate) fn read_budgets(text: &mut Cursor<'_>) -> Result<Budgets, Cause>
    ensures { GivesRead seen_budgets result text.old text.new budgets.read }
{
    take_key_or(text, b"depth", Otherwise::NameTooMany)?;
    let depth = take_number(text, 1, u64::from(MOST_DEPTH))? as u32;
    let turns = take_keyed_number(text, b"turns", 0, u64::from(MOST_TURNS))? as u32;
    let conflicts = take_keyed_number(text, b"conflicts", 1, u64::from(MOST_CONFLICTS))? as u32;
    Ok(Budgets {
        depth,
        turns,
        conflicts,
    })
}
