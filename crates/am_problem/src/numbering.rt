//! Nonterminals by their numbers.

ghost use Rattle.std.specs.Prelude.{◌≡◌, ◌≤◌, ◌++◌, ◌∷◌, [], All, IfOk, false, length, map};
ghost use Rattle.am_problem.specs.Grammar.{has_name, names_of};
ghost use Rattle.am_problem.specs.Limits.{AreApart, IsFormed};
ghost use Rattle.am_problem.specs.Stored.{seen_parts};
ghost use Rattle.am_problem.specs.StoredLines.{seen_lines, seen_names, seen_production, seen_productions, seen_rules};
ghost use Rattle.am_problem.specs.Texts.{number_in, numbered, numbered_production, numbered_rules};
ghost use Rattle.am_problem.specs.inside.Names.{IsNameOf, IsProductionOver, IsRuleOver, names_in};

use crate::draft::{Budgets, Header, Lines, Production, Rule};
use crate::parts::{Name, Names, Parts};
use am_bv::Row;
use am_tree::{Grammar, Production as Numbered, Productions, Rules, Symbols};
use indexmap::IndexSet;
use std::alloc::{AllocError, Global};

/// The parts of the problem that these lines say.
pub(crate) fn number_lines(alloc: Global, lines: Lines<'_>) -> Result<Parts, AllocError>
    requires { IsFormed (numbered (seen_lines lines)) }
    ensures { IfOk result (λ p. seen_parts p ≡ numbered (seen_lines lines.entry)) }
{
    let names = index_names(alloc, lines.rules.as_slice())?;
    let starts = number_names(alloc, &names, lines.starts.as_slice())?;
    let rules = number_rules(alloc, &names, lines.rules.as_slice())?;
    let copies = copy_names(alloc, lines.rules.as_slice())?;
    let Header {
        width,
        inputs,
        operation,
        assume,
    } = lines.header;
    let Budgets {
        depth,
        turns,
        conflicts,
    } = lines.budgets;
    Ok(Parts {
        width,
        inputs,
        operation,
        assume,
        kind: lines.kind,
        names: copies,
        grammar: Grammar {
            rules,
            starts,
            depth,
        },
        turns,
        conflicts,
    })
}

/// The names of rules in a set: the number of a nonterminal is the place of its name there.
fn index_names<'a>(alloc: Global, rules: &[Rule<'a>]) -> Result<IndexSet<&'a [u8]>, AllocError>
    requires { AreApart (names_of (seen_rules rules.now)) }
    ensures { IfOk result (λ names. names_in names ≡ names_of (seen_rules rules.now)) }
{
    let mut names = IndexSet::new(alloc);
    for rule in rules {
        add_name(&mut names, rule.name)?;
    }
    Ok(names)
}

/// Puts a new name after the others.
fn add_name<'a>(names: &mut IndexSet<&'a [u8]>, name: &'a [u8]) -> Result<(), AllocError>
    requires { has_name (names_in names.old) name.now ≡ false }
    ensures { IfOk result (λ _. names_in names.new ≡ names_in names.old ++ name.now ∷ []) }
{
    names.insert(name)?;
    Ok(())
}

/// The number of a nonterminal: the place of its name.
fn number_name<'a>(names: &IndexSet<&'a [u8]>, name: &'a [u8]) -> u32
    requires few { length (names_in names.now) ≤ 16 }
    requires known { IsNameOf (names_in names.now) name.now }
    ensures { result ≡ number_in (names_in names.now) name.now }
{
    names.get_index_of(&name).unwrap() as u32
}

/// The numbers of nonterminals.
fn number_names<'a>(
    alloc: Global,
    names: &IndexSet<&'a [u8]>,
    row: &[&'a [u8]],
) -> Result<Symbols, AllocError>
    requires few { length (names_in names.now) ≤ 16 }
    requires known { All (IsNameOf (names_in names.now)) (seen_names row.now) }
    ensures { IfOk result (λ r. r ≡ map (number_in (names_in names.now)) (seen_names row.now)) }
{
    let mut numbers = Symbols::new(alloc);
    for name in row {
        numbers.push(number_name(names, name))?;
    }
    Ok(numbers)
}

/// A production with numbers for names.
fn number_production<'a>(
    alloc: Global,
    names: &IndexSet<&'a [u8]>,
    production: &Production<'a>,
) -> Result<Numbered, AllocError>
    requires few { length (names_in names.now) ≤ 16 }
    requires known { IsProductionOver (names_in names.now) (seen_production production.now) }
    ensures { IfOk result (λ r. r ≡ numbered_production (names_in names.now) (seen_production production.now)) }
{
    match production {
        Production::Leaf(term) => Ok(Numbered::Leaf(term.copy(alloc)?)),
        Production::Node(op, arguments) => {
            let numbers = number_names(alloc, names, arguments.as_slice())?;
            Ok(Numbered::Node(*op, numbers))
        }
    }
}

/// The productions of a nonterminal with numbers for names.
fn number_productions<'a>(
    alloc: Global,
    names: &IndexSet<&'a [u8]>,
    productions: &[Production<'a>],
) -> Result<Productions, AllocError>
    requires few { length (names_in names.now) ≤ 16 }
    requires known { All (IsProductionOver (names_in names.now)) (seen_productions productions.now) }
    ensures { let known = names_in names.now in
        IfOk result (λ r. r ≡ map (numbered_production known) (seen_productions productions.now)) }
{
    let mut numbered = Productions::new(alloc);
    for production in productions {
        numbered.push(number_production(alloc, names, production)?)?;
    }
    Ok(numbered)
}

/// The productions of all nonterminals with numbers for names.
fn number_rules<'a>(
    alloc: Global,
    names: &IndexSet<&'a [u8]>,
    rules: &[Rule<'a>],
) -> Result<Rules, AllocError>
    requires few { length (names_in names.now) ≤ 16 }
    requires known { All (IsRuleOver (names_in names.now)) (seen_rules rules.now) }
    ensures { IfOk result (λ r. r ≡ numbered_rules (names_in names.now) (seen_rules rules.now)) }
{
    let mut numbered = Rules::new(alloc);
    for rule in rules {
        numbered.push(number_productions(alloc, names, rule.productions.as_slice())?)?;
    }
    Ok(numbered)
}

/// A name of its own.
pub(crate) fn copy_name(alloc: Global, name: &[u8]) -> Result<Name, AllocError>
    ensures { IfOk result (λ r. r ≡ name.now) }
{
    let mut copy = Name::new(alloc);
    for byte in name {
        copy.push(*byte)?;
    }
    Ok(copy)
}

/// The names of rules, each of its own.
fn copy_names(alloc: Global, rules: &[Rule<'_>]) -> Result<Names, AllocError>
    ensures { IfOk result (λ r. r ≡ names_of (seen_rules rules.now)) }
{
    let mut names = Names::new(alloc);
    for rule in rules {
        names.push(copy_name(alloc, rule.name)?)?;
    }
    Ok(names)
}
