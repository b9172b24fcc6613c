//! The trees that truth values choose: one for each slot, from the last level up.

ghost use Rattle.std.specs.Prelude.{◌≡◌, ℕ, ◌+◌, ◌^◌, ◌≤◌, ◌<◌, [], All, IfOk, length, map, option_map};
ghost use Rattle.am_lit.specs.Truth.{value_at};
ghost use Rattle.am_tree.specs.Slots.{offered, offered_by, shared, next_level, at_argument, arguments};
ghost use Rattle.am_tree.specs.Trees.{tree};
ghost use Rattle.am_slot.specs.Selectors.{width, widths, room};
ghost use Rattle.am_slot.specs.inside.Rules.{AreWhole};
ghost use Rattle.am_slot.specs.Decoded.{picked, tree_by, level_trees, trees};

use crate::places::place_of;
use crate::rules::RuleTable;
use am_lit::{Assignment, Lit};
use am_tree::{Argument, Production, Tree, Trees, is_offered};
use std::alloc::{AllocError, Global};

/// The choices of an assignment.
#[derive(Drop)]
pub struct Choices<'a> {
    pub alloc: Global,
    pub rules: &'a RuleTable,
    pub assignment: &'a Assignment,
}

impl Choices<'_> {
    /// The trees of a level with so many levels below it, where `x` is its first selector.
    pub fn trees(&self, below: u32, x: u32, symbols: &[u32]) -> Result<Trees, AllocError>
        requires whole { AreWhole self.now.rules.now }
        requires symbols { All (λ n. n < length self.now.rules.now) symbols.now }
        requires values { x + room self.now.rules.now below symbols.now ≤ length self.now.assignment.now.values }
        requires few { x + room self.now.rules.now below symbols.now < 2 ^ 31 }
        ensures { IfOk result (λ r. r ≡
            trees self.now.rules.now (value_at self.now.assignment.now.values) below x symbols.now) }
    {
        if below == 0 {
            return self.level_trees(0, x, symbols, &[]);
        }
        let level = self.rules.next_level(self.alloc, below, symbols)?;
        let end = self.rules.end_of(below, x, symbols);
        let next = self.trees(below - 1, end, level.as_slice())?;
        self.level_trees(below, x, symbols, next.as_slice())
    }

    /// The trees of a level's slots, over those of the next level.
    fn level_trees(
        &self,
        below: u32,
        x: u32,
        symbols: &[u32],
        next: &[Tree],
    ) -> Result<Trees, AllocError>
        requires symbols { All (λ n. n < length self.now.rules.now) symbols.now }
        requires count { length next.now ≡ length (next_level self.now.rules.now below symbols.now) }
        requires values { x + widths self.now.rules.now below symbols.now ≤ length self.now.assignment.now.values }
        requires few { x + widths self.now.rules.now below symbols.now < 2 ^ 31 }
        ensures { IfOk result (λ r. r ≡
            level_trees self.now.rules.now (value_at self.now.assignment.now.values) below x symbols.now next.now) }
    {
        let mut trees = Trees::new(self.alloc);
        let mut selector = x;
        let mut rest = next;
        for symbol in symbols {
            let (own, others) = rest.split_at(self.rules.children(below, *symbol).len());
            trees.push(self.slot_tree(below, selector, *symbol, own)?)?;
            selector += self.rules.width(below, *symbol);
            rest = others;
        }
        Ok(trees)
    }

    /// The tree of a slot of a nonterminal over the trees of its children, where `x` is its first
    /// selector. Where no selector is true, it is a tree of no production.
    fn slot_tree(&self, below: u32, x: u32, symbol: u32, next: &[Tree]) -> Result<Tree, AllocError>
        requires symbol { symbol < length self.now.rules.now }
        requires count { length next.now ≡ length (shared self.now.rules.now below symbol) }
        requires values { x + width self.now.rules.now below symbol ≤ length self.now.assignment.now.values }
        requires few { x + width self.now.rules.now below symbol < 2 ^ 31 }
        ensures { IfOk result (λ r. r ≡
            tree_by self.now.rules.now symbol (shared self.now.rules.now below symbol) next.now
            (picked (value_at self.now.assignment.now.values) x None (offered self.now.rules.now below symbol))) }
    {
        let productions = self.rules.productions(symbol);
        let missing = productions.len() as u32;
        match self.picked(below, x, productions) {
            Some(number) => {
                let arguments = self.rules.children(below, symbol);
                let children = trees_at(
                    self.alloc,
                    arguments,
                    next,
                    missing,
                    &productions[number],
                )?;
                Ok(Tree {
                    production: number as u32,
                    children,
                })
            }
            None => Ok(Tree {
                production: missing,
                children: Trees::new(self.alloc),
            }),
        }
    }

    /// The number of the last production whose selector is true, where `x` is the first one's.
    fn picked(&self, below: u32, x: u32, productions: &[Production]) -> Option<usize>
        requires values { x + length (offered_by below productions.now) ≤ length self.now.assignment.now.values }
        requires few { x + length (offered_by below productions.now) < 2 ^ 31 }
        ensures { result ≡ option_map (λ p. p.number)
            (picked (value_at self.now.assignment.now.values) x None (offered_by below productions.now)) }
    {
        let mut last = None;
        let mut selector = x;
        for (i, production) in productions.iter().enumerate() {
            if !is_offered(below, production) {
                continue;
            }
            if self.assignment.holds(Lit::new(selector, false)) {
                last = Some(i);
            }
            selector += 1;
        }
        last
    }
}

/// Copies of the trees at a production's arguments.
fn trees_at(
    alloc: Global,
    children: &[Argument],
    trees: &[Tree],
    missing: u32,
    production: &Production,
) -> Result<Trees, AllocError>
    requires count { length trees.now ≡ length children.now }
    requires few { length (arguments production.now) ≤ 3 }
    ensures { IfOk result (λ r. r ≡
        map (at_argument (tree missing []) children.now trees.now) (arguments production.now)) }
{
    let mut parts = Trees::new(alloc);
    match production {
        Production::Leaf(_) => Ok(parts),
        Production::Node(_, names) => {
            for (position, name) in names.as_slice().iter().enumerate() {
                let argument = Argument {
                    position: position as u32,
                    symbol: *name,
                };
                parts.push(tree_at(alloc, children, trees, missing, argument)?)?;
            }
            Ok(parts)
        }
    }
}

/// A copy of the tree at an argument; a tree of no production where none stands there.
fn tree_at(
    alloc: Global,
    children: &[Argument],
    trees: &[Tree],
    missing: u32,
    argument: Argument,
) -> Result<Tree, AllocError>
    requires { length trees.now ≡ length children.now }
    ensures { IfOk result (λ r. r ≡ at_argument (tree missing []) children.now trees.now argument) }
{
    match place_of(children, argument) {
        Some(i) => trees[i].copy(alloc),
        None => Ok(Tree {
            production: missing,
            children: Trees::new(alloc),
        }),
    }
}
