//! The rules of a grammar, with what every level of slots asks of them.

ghost use Rattle.std.specs.Prelude.{◌≡◌, ℕ, ◌+◌, ◌^◌, ◌<◌, ◌≤◌, ◌↔◌, All, IfOk, IsTrue, OnOk, [], ◌++◌, length, map};
ghost use Rattle.std.specs.Prelude.{slice_index_or};
ghost use Rattle.am_tree.specs.Grammars.{is_production};
ghost use Rattle.am_tree.specs.Slots.{arguments, offered_by, shared_by, shared, next_level};
ghost use Rattle.am_slot.specs.Encoding.{is_leaf_over};
ghost use Rattle.am_slot.specs.Selectors.{width, widths, room};
ghost use Rattle.am_slot.specs.inside.Rules.{AreWhole};

use am_bv::{Row, Width};
use am_tree::{Argument, Grammar, Production, Productions, Symbols, is_offered, shared};
use std::alloc::{AllocError, Global};
use std::marker::Model;

/// The productions of a nonterminal, and the children of its slots that have levels below them.
#[derive(Drop)]
struct Rule {
    productions: Productions,
    children: Vec<Argument>,
}

/// The rules of a grammar. The children of slots are found once for each nonterminal. Contracts see
/// the productions of each nonterminal.
#[derive(Drop)]
pub struct RuleTable {
    rules: Row<Rule>,
}

impl Model for RuleTable {
    ghost use Rattle.std.specs.Prelude.{All, map, ◌≡◌};
    ghost use Rattle.am_tree.specs.Trees.{Rules};
    ghost use Rattle.am_tree.specs.Slots.{shared_by};
    ghost use Rattle.am_slot.specs.inside.Rules.{AreWhole};
    ghost use Rattle.am_bv.specs.contracts.term.Term as term;
    ghost use Rattle.std.specs.Coded.{codes};

    ghost Value = { Rules };

    ghost coded = { Prim.hlevel (codes, term.the_row.coded) };

    ghost view = { λ t. map (λ r. r.productions) t.rules };

    ghost invariant = { λ t. All (λ r. r.children.items ≡ shared_by 1 r.productions) t.rules
        × AreWhole (map (λ r. r.productions) t.rules) };
}

impl RuleTable {
    /// A copy of the grammar's rules.
    pub fn new(alloc: Global, grammar: &Grammar) -> Result<RuleTable, AllocError>
        ensures { IfOk result (λ t. t ≡ grammar.now.rules) }
    {
        let mut rules = Row::new(alloc);
        for productions in grammar.rules.as_slice() {
            rules.push(rule_of(alloc, productions.as_slice())?)?;
        }
        Ok(RuleTable { rules })
    }

    /// The productions of a nonterminal.
    pub fn productions(&self, symbol: u32) -> &[Production]
        requires { symbol < length self.now }
        ensures value { result.now ≡ slice_index_or self.now symbol [] }
        ensures few { length result.now ≤ 64 }
        ensures whole { All (λ p. IsTrue (is_production (length self.now) p)) result.now }
    {
        self.rules.get(symbol as usize).productions.as_slice()
    }

    /// The children of a slot of a nonterminal, with so many levels below it.
    pub fn children(&self, below: u32, symbol: u32) -> &[Argument]
        requires { symbol < length self.now }
        ensures { result.now ≡ shared self.now below symbol }
    {
        if below == 0 {
            return &[];
        }
        self.rules.get(symbol as usize).children.as_slice()
    }

    /// Whether all leaves are terms of this width over so many fields.
    pub fn are_over(&self, w: Width, count: u32) -> bool
        ensures { IsTrue result ↔ All (All (λ p. IsTrue (is_leaf_over w count p))) self.now }
    {
        for rule in self.rules.as_slice() {
            if !are_leaves_over(rule.productions.as_slice(), w, count) {
                return false;
            }
        }
        true
    }

    /// How many selectors such a slot has.
    pub fn width(&self, below: u32, symbol: u32) -> u32
        requires { symbol < length self.now }
        ensures value { result ≡ width self.now below symbol }
        ensures most { result ≤ 64 }
    {
        count_offered(below, self.productions(symbol))
    }

    /// Where the selectors of a level end that begin at `x`.
    pub fn end_of(&self, below: u32, x: u32, symbols: &[u32]) -> u32
        requires symbols { All (λ n. n < length self.now) symbols.now }
        requires room { x + widths self.now below symbols.now < 2 ^ 32 }
        ensures { result ≡ x + widths self.now below symbols.now }
    {
        let mut end = x;
        for symbol in symbols {
            end += self.width(below, *symbol);
        }
        end
    }

    /// How many selectors a level and those below it have.
    pub fn room(&self, alloc: Global, below: u32, symbols: &[u32]) -> Result<u32, AllocError>
        requires whole { AreWhole self.now }
        requires symbols { All (λ n. n < length self.now) symbols.now }
        requires room { room self.now below symbols.now < 2 ^ 32 }
        ensures { IfOk result (λ r. r ≡ room self.now below symbols.now) }
    {
        let level = self.end_of(below, 0, symbols);
        if below == 0 {
            return Ok(level);
        }
        let next = self.next_level(alloc, below, symbols)?;
        Ok(level + self.room(alloc, below - 1, next.as_slice())?)
    }

    /// The nonterminals of the next level.
    pub fn next_level(
        &self,
        alloc: Global,
        below: u32,
        symbols: &[u32],
    ) -> Result<Vec<u32>, AllocError>
        requires { All (λ n. n < length self.now) symbols.now }
        ensures { IfOk result (λ r. r.items ≡ next_level self.now below symbols.now) }
    {
        let mut next = Vec::new(alloc);
        for symbol in symbols {
            add_symbols(&mut next, self.children(below, *symbol))?;
        }
        Ok(next)
    }
}

/// A copy of the productions, with the children of their slots.
fn rule_of(alloc: Global, productions: &[Production]) -> Result<Rule, AllocError>
    requires short { All (λ p. length (arguments p) ≤ 3) productions.now }
    requires few { length productions.now ≤ 64 }
    ensures productions { IfOk result (λ r. r.productions ≡ productions.now) }
    ensures children { IfOk result (λ r. r.children.items ≡ shared_by 1 productions.now) }
{
    let mut copies = Productions::new(alloc);
    for production in productions {
        copies.push(copied(alloc, production)?)?;
    }
    let children = shared(1, productions).as_slice().to_vec(alloc)?;
    Ok(Rule {
        productions: copies,
        children,
    })
}

fn copied(alloc: Global, production: &Production) -> Result<Production, AllocError>
    ensures { IfOk result (λ r. r ≡ production.now) }
{
    match production {
        Production::Leaf(term) => Ok(Production::Leaf(term.copy(alloc)?)),
        Production::Node(op, names) => Ok(Production::Node(
            *op,
            copied_symbols(alloc, names.as_slice())?,
        )),
    }
}

/// A copy of a list of nonterminals.
pub fn copied_symbols(alloc: Global, symbols: &[u32]) -> Result<Symbols, AllocError>
    ensures { IfOk result (λ r. r ≡ symbols.now) }
{
    let mut copies = Symbols::new(alloc);
    for symbol in symbols {
        copies.push(*symbol)?;
    }
    Ok(copies)
}

/// Whether the leaves among the productions are terms of this width over so many fields.
fn are_leaves_over(productions: &[Production], w: Width, count: u32) -> bool
    ensures { IsTrue result ↔ All (λ p. IsTrue (is_leaf_over w count p)) productions.now }
{
    for production in productions {
        if !is_leaf_over(production, w, count) {
            return false;
        }
    }
    true
}

fn is_leaf_over(production: &Production, w: Width, count: u32) -> bool
    ensures { result ≡ is_leaf_over w count production.now }
{
    match production {
        Production::Leaf(term) => term.fits(w, count),
        Production::Node(_, _) => true,
    }
}

/// How many of the productions a slot with so many levels below it has.
fn count_offered(below: u32, productions: &[Production]) -> u32
    requires { length productions.now ≤ 64 }
    ensures value { result ≡ length (offered_by below productions.now) }
    ensures most { result ≤ 64 }
{
    let mut count = 0;
    for production in productions {
        if !is_offered(below, production) {
            continue;
        }
        count += 1;
    }
    count
}

/// Puts the nonterminals of the children after the others.
fn add_symbols(next: &mut Vec<u32>, children: &[Argument]) -> Result<(), AllocError>
    ensures { OnOk result (next.new.items ≡ next.old.items ++ map (λ a. a.symbol) children.now) }
{
    for child in children {
        next.push(child.symbol)?;
    }
    Ok(())
}
