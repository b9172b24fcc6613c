//! The rules of a problem: for each nonterminal its productions.

ghost use Rattle.std.specs.Prelude.{◌≡◌, ◌-◌, bytes_eq, length, sum_by};
ghost use Rattle.std.specs.List.{list_any};
ghost use Rattle.am_syntax.specs.Readers.{GivesRead, Makes};
ghost use Rattle.am_syntax.specs.Spelling.{IsScope};
ghost use Rattle.am_problem.specs.Grammar.{rule, rule_name, rules};
ghost use Rattle.am_problem.specs.StoredLines.{seen_rule, seen_rules, seen_scope};

use crate::draft::{Rule, Scope};
use crate::productions::read_productions;
use am_bv::Row;
use am_syntax::{Cause, Failure, Item, Judge, Listed, is_name, is_next, read_list, take, take_key};
use am_text::Cursor;
use am_tree::{MOST_PRODUCTIONS, MOST_RULES};
use std::alloc::Global;

/// Whether a rule has this name.
pub(crate) fn has_name(rules: &[Rule<'_>], name: &[u8]) -> bool
    ensures { result ≡ list_any (λ rule. bytes_eq name.now rule.name.now) rules.now }
{
    rules.iter().any(|rule| name == rule.name)
}

/// The name of a rule after other rules.
#[derive(Clone, Copy)]
struct RuleName<'r, 'a> {
    seen: &'r [Rule<'a>],
}

impl<'t, 'r, 'a> Judge<'t> for RuleName<'r, 'a> {
    ghost use Rattle.am_syntax.specs.Readers.{Word};
    ghost use Rattle.am_problem.specs.Grammar.{rule_name_judge};
    ghost use Rattle.am_problem.specs.StoredLines.{seen_rules};

    type Value = &'t [u8];

    ghost Shown = { Word };

    ghost view = { λ name. name.now };

    ghost verdict = { λ own word. rule_name_judge (seen_rules own.seen.now) word };

    ghost known = { λ _ _. Unit {0} };

    #[tactic(auto, using(crate::proofs::Seen::seen))]
    fn judge(&self, word: &'t [u8]) -> Result<&'t [u8], Cause> {
        if !is_name(word) {
            Err(Cause::Syntax)
        } else if self.seen.len() >= MOST_RULES {
            Err(Cause::Count)
        } else if has_name(self.seen, word) {
            Err(Cause::Twice)
        } else {
            Ok(word)
        }
    }
}

/// Takes the name of a rule after other rules.
#[tactic(auto, unfolding(crate::specs::Grammar::rule_name))]
fn take_rule_name<'a>(text: &mut Cursor<'a>, seen: &[Rule<'_>]) -> Result<&'a [u8], Cause>
    ensures { GivesRead (λ v. v.now) result text.old text.new (rule_name (seen_rules seen.now)).read }
{
    take(text, &RuleName { seen })
}

/// How many productions there may be still.
fn room_after(seen: &[Rule<'_>]) -> usize
    ensures { result ≡ 64 - sum_by (λ rule. length rule.productions) seen.now }
{
    let mut room = MOST_PRODUCTIONS;
    for rule in seen {
        room = room.saturating_sub(rule.productions.len());
    }
    room
}

/// `rule`, a nonterminal and its productions, after other rules.
#[tactic(auto, using(crate::proofs::Seen::seen), unfolding(crate::specs::Grammar::rule))]
fn read_rule<'a>(
    alloc: Global,
    text: &mut Cursor<'a>,
    scope: &Scope,
    seen: &[Rule<'a>],
) -> Result<Rule<'a>, Failure>
    requires { IsScope (seen_scope scope.now) }
    ensures { Makes seen_rule result text.old text.new (rule (seen_scope scope.now) (seen_rules seen.now)).read }
{
    take_key(text, b"rule")?;
    let name = take_rule_name(text, seen)?;
    let productions = read_productions(alloc, text, scope, room_after(seen))?;
    Ok(Rule { name, productions })
}

/// The rules of a problem.
#[derive(Clone, Copy)]
struct Rules {
    scope: Scope,
}

impl<'a> Item<'a> for Rules {
    ghost use Rattle.am_syntax.specs.Spelling.{IsScope};
    ghost use Rattle.am_problem.specs.Lines.{Rule as Data};
    ghost use Rattle.am_problem.specs.Grammar.{rule};
    ghost use Rattle.am_problem.specs.StoredLines.{seen_rule};

    type Value = Rule<'a>;

    ghost Shown = { Data };

    ghost view = { seen_rule };

    ghost reads = { λ own seen. (rule (seen_scope own.scope) seen).read };

    ghost can = { λ own. IsScope (seen_scope own.scope) };

    fn read(
        &self,
        alloc: Global,
        text: &mut Cursor<'a>,
        seen: &[Rule<'a>],
    ) -> Result<Rule<'a>, Failure> {
        read_rule(alloc, text, &self.scope, seen)
    }
}

impl<'a> Listed<'a> for Rules {
    ghost use Rattle.std.specs.Prelude.{codes};
    ghost use Rattle.am_syntax.specs.Pieces.{next_is};

    ghost goes = { next_is (codes "rule") };

    fn comes(&self, text: &Cursor<'a>) -> bool {
        is_next(text, b"rule")
    }
}

/// The rules.
#[tactic(auto, unfolding(crate::specs::Grammar::rules))]
pub(crate) fn read_rules<'a>(
    alloc: Global,
    text: &mut Cursor<'a>,
    scope: &Scope,
) -> Result<Row<Rule<'a>>, Failure>
    requires { IsScope (seen_scope scope.now) }
    ensures { Makes seen_rules result text.old text.new (rules (seen_scope scope.now)).read }
{
    read_list(alloc, text, &Rules { scope: *scope })
}
