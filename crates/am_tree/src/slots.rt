//! The slots of a grammar: which productions each one has, and which slots are its children.

ghost use Rattle.std.specs.Prelude.{◌≡◌, ℕ, ◌≤◌, ◌<◌, ◌+◌, ◌^◌, [], ◌∷◌, All, IfOk, OnOk, ◌++◌, length, map};
ghost use Rattle.std.specs.List.{list_any};
ghost use Rattle.am_tree.specs.Slots.{same, distinct, positioned, arguments, is_offered, shared_by, at_argument};
ghost use Rattle.am_tree.specs.Slots.{counted, slot_by, next_level, level_slots, slots_from, layout_of};
ghost use Rattle.am_tree.specs.inside.Totals.{HasBounds};

use crate::grammar::{Grammar, Production, Productions, Symbols};
use am_bv::Row;
use arrayvec::ArrayVec;
use std::alloc::{AllocError, Global};

/// A nonterminal at a position among the arguments of a production, counted from 0.
#[derive(Clone, Copy, Default, Drop)]
pub struct Argument {
    pub position: u32,
    pub symbol: u32,
}

impl Argument {
    /// Whether both are the same.
    pub fn same(self, other: Argument) -> bool
        ensures { result ≡ same self other }
    {
        self.position == other.position && self.symbol == other.symbol
    }
}

/// The children of a slot, in order: at most 64 productions have at most 3 arguments each.
pub type Children = ArrayVec<Argument, 192>;

/// For each production of a slot the numbers of the slots of its arguments.
pub type SlotRows = Row<Symbols>;

/// A slot: a nonterminal at a level, counted from 1, the numbers of the productions that it has in the
/// nonterminal's list, and for each of them the numbers of the slots of its arguments.
#[derive(Drop)]
pub struct Slot {
    pub symbol: u32,
    pub level: u32,
    pub productions: Symbols,
    pub children: SlotRows,
}

/// The slots of a grammar in level order.
pub type Layout = Row<Slot>;

/// Whether a slot with so many levels below it has the production.
pub fn is_offered(below: u32, production: &Production) -> bool
    ensures { result ≡ is_offered below production.now }
{
    match production {
        Production::Leaf(_) => true,
        Production::Node(_, _) => 0 < below,
    }
}

/// The children of a slot with these productions and so many levels below it. Takes no memory.
pub fn shared(below: u32, productions: &[Production]) -> Children
    requires short { All (λ p. length (arguments p) ≤ 3) productions.now }
    requires few { length productions.now ≤ 64 }
    ensures { result.items ≡ shared_by below productions.now }
{
    let mut seen = Children::new();
    if 0 < below {
        for production in productions {
            add_arguments(&mut seen, production);
        }
    }
    seen
}

/// Puts each argument of the production after the others, if it isn't there yet.
fn add_arguments(seen: &mut Children, production: &Production)
    requires short { length (arguments production.now) ≤ 3 }
    requires room { length seen.old.items + 3 ≤ 192 }
    ensures items { seen.new.items ≡ distinct seen.old.items (arguments production.now) }
    ensures len { length seen.new.items ≤ length seen.old.items + 3 }
{
    match production {
        Production::Leaf(_) => {}
        Production::Node(_, names) => {
            for (position, name) in names.as_slice().iter().enumerate() {
                add_argument(
                    seen,
                    Argument {
                        position: position as u32,
                        symbol: *name,
                    },
                );
            }
        }
    }
}

fn add_argument(seen: &mut Children, argument: Argument)
    requires { length seen.old.items < 192 }
    ensures items { seen.new.items ≡ distinct seen.old.items (argument ∷ []) }
    ensures len { length seen.new.items ≤ length seen.old.items + 1 }
{
    if !contains(seen.as_slice(), argument) {
        seen.push(argument);
    }
}

/// Whether the argument stands in the list.
fn contains(list: &[Argument], argument: Argument) -> bool
    ensures { result ≡ list_any (same argument) list.now }
{
    list.iter().any(|other| argument.same(*other))
}

/// The number of the slot at an argument, where the children are numbered from `child` on.
fn number_at(children: &[Argument], child: u32, argument: Argument) -> u32
    requires { child + length children.now < 2 ^ 32 }
    ensures { result ≡ at_argument 0 children.now (counted child children.now) argument }
{
    let mut number = child;
    for other in children {
        if argument.same(*other) {
            return number;
        }
        number += 1;
    }
    0
}

/// The numbers of the slots at a production's arguments.
fn numbers_at(
    alloc: Global,
    children: &[Argument],
    child: u32,
    production: &Production,
) -> Result<Row<u32>, AllocError>
    requires short { length (arguments production.now) ≤ 3 }
    requires room { child + length children.now < 2 ^ 32 }
    ensures { IfOk result (λ r. r ≡
        map (at_argument 0 children.now (counted child children.now)) (arguments production.now)) }
{
    let mut numbers = Row::new(alloc);
    match production {
        Production::Leaf(_) => Ok(numbers),
        Production::Node(_, names) => {
            for (position, name) in names.as_slice().iter().enumerate() {
                let argument = Argument {
                    position: position as u32,
                    symbol: *name,
                };
                numbers.push(number_at(children, child, argument))?;
            }
            Ok(numbers)
        }
    }
}

/// The slot of a nonterminal with these productions and children.
fn slot_of(
    alloc: Global,
    below: u32,
    level: u32,
    child: u32,
    symbol: u32,
    productions: &[Production],
    children: &[Argument],
) -> Result<Slot, AllocError>
    requires short { All (λ p. length (arguments p) ≤ 3) productions.now }
    requires few { length productions.now ≤ 64 }
    requires room { child + length children.now < 2 ^ 32 }
    ensures { IfOk result (λ r. r ≡ slot_by below level child symbol productions.now children.now) }
{
    let mut numbers = Row::new(alloc);
    let mut rows = Row::new(alloc);
    for (i, production) in productions.iter().enumerate() {
        if !is_offered(below, production) {
            continue;
        }
        numbers.push(i as u32)?;
        rows.push(numbers_at(alloc, children, child, production)?)?;
    }
    Ok(Slot {
        symbol,
        level,
        productions: numbers,
        children: rows,
    })
}

/// Puts the slots of a level after the others, where the next level begins with the number `child`.
fn push_level(
    alloc: Global,
    slots: &mut Layout,
    rules: &[Productions],
    below: u32,
    level: u32,
    child: u32,
    symbols: &[u32],
) -> Result<(), AllocError>
    requires bounds { HasBounds rules.now }
    requires symbols { All (λ n. n < length rules.now) symbols.now }
    requires room { child + length (next_level rules.now below symbols.now) < 2 ^ 32 }
    ensures { OnOk result (slots.new ≡ slots.old ++ level_slots rules.now below level child symbols.now) }
{
    let mut next = child;
    for n in symbols {
        let productions = rules[*n as usize].as_slice();
        let children = shared(below, productions);
        let slot = slot_of(
            alloc,
            below,
            level,
            next,
            *n,
            productions,
            children.as_slice(),
        )?;
        slots.push(slot)?;
        next += children.len() as u32;
    }
    Ok(())
}

/// The nonterminals of the next level.
fn next_symbols(
    alloc: Global,
    rules: &[Productions],
    below: u32,
    symbols: &[u32],
) -> Result<Vec<u32>, AllocError>
    requires bounds { HasBounds rules.now }
    requires symbols { All (λ n. n < length rules.now) symbols.now }
    ensures { IfOk result (λ r. r.items ≡ next_level rules.now below symbols.now) }
{
    let mut next = Vec::new(alloc);
    for n in symbols {
        let children = shared(below, rules[*n as usize].as_slice());
        add_symbols(&mut next, children.as_slice())?;
    }
    Ok(next)
}

fn add_symbols(next: &mut Vec<u32>, children: &[Argument]) -> Result<(), AllocError>
    ensures { OnOk result (next.new.items ≡ next.old.items ++ map (λ a. a.symbol) children.now) }
{
    for argument in children {
        next.push(argument.symbol)?;
    }
    Ok(())
}

/// Puts the slots of a level and of those below it after the others, numbered from `first` on.
fn push_slots(
    alloc: Global,
    slots: &mut Layout,
    rules: &[Productions],
    below: u32,
    level: u32,
    first: u32,
    symbols: &[u32],
) -> Result<(), AllocError>
    requires bounds { HasBounds rules.now }
    requires symbols { All (λ n. n < length rules.now) symbols.now }
    requires levels { level + below < 2 ^ 32 }
    requires room { first + length (slots_from rules.now below level first symbols.now) < 2 ^ 31 }
    ensures { OnOk result (slots.new ≡ slots.old ++ slots_from rules.now below level first symbols.now) }
{
    let child = first + symbols.len() as u32;
    push_level(alloc, slots, rules, below, level, child, symbols)?;
    if 0 < below {
        let next = next_symbols(alloc, rules, below, symbols)?;
        push_slots(
            alloc,
            slots,
            rules,
            below - 1,
            level + 1,
            child,
            next.as_slice(),
        )?;
    }
    Ok(())
}

impl Grammar {
    /// The slots of the selector encoding, in level order: one root for each start, then the children of
    /// slot 0, of slot 1, and so on.
    pub fn layout(&self, alloc: Global) -> Result<Layout, AllocError>
        requires { length (layout_of self.now.rules self.now.starts self.now.depth) ≤ 256 }
        ensures { IfOk result (λ r. r ≡ layout_of self.now.rules self.now.starts self.now.depth) }
    {
        let mut slots = Layout::new(alloc);
        push_slots(
            alloc,
            &mut slots,
            self.rules.as_slice(),
            self.depth - 1,
            1,
            0,
            self.starts.as_slice(),
        )?;
        Ok(slots)
    }
}
