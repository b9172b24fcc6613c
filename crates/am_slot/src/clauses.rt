//! The clauses of a template, level by level.

ghost use Rattle.std.specs.Prelude.{◌≡◌, ℕ, ◌+◌, ◌-◌, ◌^◌, ◌<◌, ◌≤◌, All, IfOk, OnOk, [], ◌∷◌, ◌++◌, length, map};
ghost use Rattle.am_lit.specs.Literal.{opposite_of};
ghost use Rattle.std.specs.List.{list_any, range_with_len};
ghost use Rattle.am_tree.specs.Slots.{offered, offered_by, shared, same, arguments};
ghost use Rattle.am_slot.specs.Selectors.{selector, width, widths, room};
ghost use Rattle.am_slot.specs.inside.Rules.{AreWhole};
ghost use Rattle.am_slot.specs.Clauses.{root, pairs, slot_clauses, asks, children, level_clauses, next_asked, symbols};
ghost use Rattle.am_slot.specs.Clauses.{clauses_from};

use crate::rules::RuleTable;
use am_lit::{Clauses, Lit};
use am_tree::{Argument, Production, is_offered};
use std::alloc::{AllocError, Global};

/// A slot, and what asks for it: each row of `by` with the slot's selectors after it is a clause.
#[derive(Drop)]
pub struct Asked {
    pub symbol: u32,
    pub by: Clauses,
}

/// The roots, each of which is asked for by the empty row.
pub fn roots(alloc: Global, starts: &[u32]) -> Result<Vec<Asked>, AllocError>
    ensures { IfOk result (λ r. r.items ≡ map root starts.now) }
{
    let mut roots = Vec::new(alloc);
    for symbol in starts {
        let mut by = Clauses::new(alloc);
        by.push(&[])?;
        roots.push(Asked {
            symbol: *symbol,
            by,
        })?;
    }
    Ok(roots)
}

/// Puts the clauses of a level and of those below it after the others, where `x` is the level's first
/// selector.
pub fn push_clauses(
    alloc: Global,
    clauses: &mut Clauses,
    rules: &RuleTable,
    below: u32,
    x: u32,
    level: &[Asked],
) -> Result<(), AllocError>
    requires whole { AreWhole rules.now }
    requires symbols { All (λ n. n < length rules.now) (symbols level.now) }
    requires selectors { x + room rules.now below (symbols level.now) < 2 ^ 31 }
    requires room { length clauses.old + length (clauses_from rules.now below x level.now) < 2 ^ 32 - 1 }
    ensures { OnOk result (clauses.new ≡ clauses.old ++ clauses_from rules.now below x level.now) }
{
    let end = push_level(alloc, clauses, rules, below, x, level)?;
    if 0 < below {
        let next = next_asked(alloc, rules, below, x, level)?;
        push_clauses(alloc, clauses, rules, below - 1, end, next.as_slice())?;
    }
    Ok(())
}

/// Puts the clauses of a level after the others, and answers where the level's selectors end.
fn push_level(
    alloc: Global,
    clauses: &mut Clauses,
    rules: &RuleTable,
    below: u32,
    x: u32,
    level: &[Asked],
) -> Result<u32, AllocError>
    requires symbols { All (λ n. n < length rules.now) (symbols level.now) }
    requires selectors { x + widths rules.now below (symbols level.now) < 2 ^ 31 }
    requires room { length clauses.old + length (level_clauses rules.now below x level.now) < 2 ^ 32 - 1 }
    ensures clauses { OnOk result (clauses.new ≡ clauses.old ++ level_clauses rules.now below x level.now) }
    ensures end { IfOk result (λ r. r ≡ x + widths rules.now below (symbols level.now)) }
{
    let mut selector = x;
    for slot in level {
        let width = rules.width(below, slot.symbol);
        let own = selectors(alloc, selector, width)?;
        push_slot(alloc, clauses, &slot.by, own.as_slice())?;
        selector += width;
    }
    Ok(selector)
}

/// So many selectors from a variable on.
fn selectors(alloc: Global, x: u32, count: u32) -> Result<Vec<Lit>, AllocError>
    requires { x + count < 2 ^ 31 }
    ensures { IfOk result (λ r. r.items ≡ map selector (range_with_len x count)) }
{
    (x..x + count)
        .map(|variable| Lit::new(variable, false))
        .collect(alloc)
}

/// Puts the clauses of a slot with these selectors after the others.
fn push_slot(
    alloc: Global,
    clauses: &mut Clauses,
    by: &Clauses,
    own: &[Lit],
) -> Result<(), AllocError>
    requires { length clauses.old + length (slot_clauses by.now own.now) < 2 ^ 32 - 1 }
    ensures { OnOk result (clauses.new ≡ clauses.old ++ slot_clauses by.now own.now) }
{
    for i in 0..by.len() {
        let clause = joined(alloc, by.clause(i), own)?;
        clauses.push(clause.as_slice())?;
    }
    push_pairs(clauses, own)
}

/// The literals of both rows.
fn joined(alloc: Global, first: &[Lit], second: &[Lit]) -> Result<Vec<Lit>, AllocError>
    ensures { IfOk result (λ r. r.items ≡ first.now ++ second.now) }
{
    first.iter().chain(second.iter()).copied().collect(alloc)
}

/// Puts after the others, for each two of the literals, the clause that not both are true.
fn push_pairs(clauses: &mut Clauses, literals: &[Lit]) -> Result<(), AllocError>
    requires { length clauses.old + length (pairs literals.now) < 2 ^ 32 - 1 }
    ensures { OnOk result (clauses.new ≡ clauses.old ++ pairs literals.now) }
{
    for (i, literal) in literals.iter().enumerate() {
        push_pairs_with(clauses, *literal, &literals[i + 1..])?;
    }
    Ok(())
}

/// Puts after the others, for each later literal, the clause that not both are true.
fn push_pairs_with(clauses: &mut Clauses, literal: Lit, later: &[Lit]) -> Result<(), AllocError>
    requires { length clauses.old + length later.now < 2 ^ 32 - 1 }
    ensures { OnOk result (clauses.new
        ≡ clauses.old ++ map (λ m. opposite_of literal ∷ opposite_of m ∷ []) later.now) }
{
    for other in later {
        clauses.push(&[literal.opposite(), other.opposite()])?;
    }
    Ok(())
}

/// The slots of the next level, and what asks for them.
fn next_asked(
    alloc: Global,
    rules: &RuleTable,
    below: u32,
    x: u32,
    level: &[Asked],
) -> Result<Vec<Asked>, AllocError>
    requires symbols { All (λ n. n < length rules.now) (symbols level.now) }
    requires selectors { x + widths rules.now below (symbols level.now) < 2 ^ 31 }
    ensures { IfOk result (λ r. r.items ≡ next_asked rules.now below x level.now) }
{
    let mut next = Vec::new(alloc);
    let mut selector = x;
    for slot in level {
        push_children(alloc, &mut next, rules, below, selector, slot.symbol)?;
        selector += rules.width(below, slot.symbol);
    }
    Ok(next)
}

/// Puts the children of a slot of a nonterminal after the others, where `x` is its first selector.
fn push_children(
    alloc: Global,
    next: &mut Vec<Asked>,
    rules: &RuleTable,
    below: u32,
    x: u32,
    symbol: u32,
) -> Result<(), AllocError>
    requires symbol { symbol < length rules.now }
    requires selectors { x + width rules.now below symbol < 2 ^ 31 }
    ensures { OnOk result (next.new.items ≡
        next.old.items ++ children x (offered rules.now below symbol) (shared rules.now below symbol)) }
{
    let productions = rules.productions(symbol);
    for child in rules.children(below, symbol) {
        let by = asks(alloc, *child, x, below, productions)?;
        next.push(Asked {
            symbol: child.symbol,
            by,
        })?;
    }
    Ok(())
}

/// What asks for the child at an argument, where `x` is the first production's selector.
fn asks(
    alloc: Global,
    child: Argument,
    x: u32,
    below: u32,
    productions: &[Production],
) -> Result<Clauses, AllocError>
    requires few { length productions.now ≤ 64 }
    requires selectors { x + length (offered_by below productions.now) < 2 ^ 31 }
    ensures { IfOk result (λ r. r ≡ asks child x (offered_by below productions.now)) }
{
    let mut by = Clauses::new(alloc);
    let mut selector = x;
    for production in productions {
        if !is_offered(below, production) {
            continue;
        }
        if has_argument(production, child) {
            by.push(&[Lit::new(selector, true)])?;
        }
        selector += 1;
    }
    Ok(by)
}

/// Whether the production has the argument.
fn has_argument(production: &Production, argument: Argument) -> bool
    ensures { result ≡ list_any (same argument) (arguments production.now) }
{
    match production {
        Production::Leaf(_) => false,
        Production::Node(_, names) => match names.as_slice().get(argument.position as usize) {
            Some(name) => *name == argument.symbol,
            None => false,
        },
    }
}
