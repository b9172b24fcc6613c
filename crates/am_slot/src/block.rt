//! Blocks: one word for each slot, from the last slot to the first.

ghost use Rattle.std.specs.Prelude.{◌≡◌, ◌≤◌, ◌<◌, ◌+◌, ◌-◌, ℕ, [], All, IfOk, length, map, slice_index_or};
ghost use Rattle.am_gate.specs.Circuit.{HasRoom, Begins};
ghost use Rattle.am_gate.specs.Promises.{GivesStep};
ghost use Rattle.am_blast.specs.Words.{IsWord, zeros};
ghost use Rattle.am_tree.specs.Slots.{positioned, at_argument, offered, shared, next_level};
ghost use Rattle.am_tree.specs.Weights.{production_weight, slot_weight, level_weight, block_weight};
ghost use Rattle.am_slot.specs.Blocks.{production_word, chosen_word, slot_word, level_words, words};
ghost use Rattle.am_slot.specs.Selectors.{width, widths, room};
ghost use Rattle.am_slot.specs.inside.Fits.{IsFit, AreFit, ArgumentsStand, AreLiteralWords};

use crate::places::place_of;
use crate::rules::RuleTable;
use am_blast::{Gate, WordLits, Words, apply, at_each_bit, blast, copied, zeros};
use am_bv::Width;
use am_gate::Circuit;
use am_lit::Lit;
use am_tree::{Argument, Production, is_offered};
use std::alloc::{AllocError, Global};

/// A block at given fields.
#[derive(Drop)]
pub struct Block<'a> {
    pub alloc: Global,
    pub rules: &'a RuleTable,
    pub width: Width,
    pub fields: &'a [WordLits],
}

/// The children of a slot, and their words.
#[derive(Drop)]
struct ChildWords<'a> {
    arguments: &'a [Argument],
    words: &'a [WordLits],
}

impl Block<'_> {
    /// The words of a level with so many levels below it, where `x` is its first selector.
    pub fn words(
        &self,
        circuit: &mut Circuit,
        below: u32,
        x: u32,
        symbols: &[u32],
    ) -> Result<Vec<WordLits>, AllocError>
        requires fit { AreFit self.now.width (length self.now.fields.now) self.now.rules.now }
        requires symbols { All (λ n. n < length self.now.rules.now) symbols.now }
        requires truth { 0 < circuit.old.vars }
        requires fields { All (IsWord self.now.width circuit.old.vars) self.now.fields.now }
        requires selectors { x + room self.now.rules.now below symbols.now ≤ circuit.old.vars }
        requires room { HasRoom (block_weight self.now.rules.now self.now.width below symbols.now) circuit.old }
        ensures ok { IfOk result (λ r. GivesStep
            (words self.now.rules.now self.now.width self.now.fields.now below x symbols.now)
            (block_weight self.now.rules.now self.now.width below symbols.now)
            (AreLiteralWords self.now.width (length symbols.now)) circuit.old r.items circuit.new) }
        ensures begins { Begins circuit.old circuit.new }
    {
        let end = self.rules.end_of(below, x, symbols);
        if below == 0 {
            return self.level_words(circuit, 0, end, symbols, &[]);
        }
        let level = self.rules.next_level(self.alloc, below, symbols)?;
        let next = self.words(circuit, below - 1, end, level.as_slice())?;
        self.level_words(circuit, below, end, symbols, next.as_slice())
    }

    /// The words of a level's slots, over those of the next level. The level's selectors end at `end`.
    fn level_words(
        &self,
        circuit: &mut Circuit,
        below: u32,
        end: u32,
        symbols: &[u32],
        next: &[WordLits],
    ) -> Result<Vec<WordLits>, AllocError>
        requires fit { AreFit self.now.width (length self.now.fields.now) self.now.rules.now }
        requires symbols { All (λ n. n < length self.now.rules.now) symbols.now }
        requires truth { 0 < circuit.old.vars }
        requires fields { All (IsWord self.now.width circuit.old.vars) self.now.fields.now }
        requires count { length next.now ≡ length (next_level self.now.rules.now below symbols.now) }
        requires next { All (IsWord self.now.width circuit.old.vars) next.now }
        requires selectors { end ≤ circuit.old.vars }
        requires widths { widths self.now.rules.now below symbols.now ≤ end }
        requires room { HasRoom (level_weight self.now.rules.now self.now.width below symbols.now) circuit.old }
        ensures ok { IfOk result (λ r. GivesStep
            (level_words self.now.rules.now self.now.width self.now.fields.now below
            (end - widths self.now.rules.now below symbols.now) symbols.now next.now)
            (level_weight self.now.rules.now self.now.width below symbols.now)
            (AreLiteralWords self.now.width (length symbols.now)) circuit.old r.items circuit.new) }
        ensures begins { Begins circuit.old circuit.new }
    {
        let mut words = Vec::new(self.alloc);
        let mut selector = end;
        let mut last = next.len();
        let mut i = symbols.len();
        while 0 < i {
            i -= 1;
            let symbol = symbols[i];
            let first = last - self.rules.children(below, symbol).len();
            selector -= self.rules.width(below, symbol);
            let word = self.slot_word(circuit, below, selector, symbol, &next[first..last])?;
            last = first;
            words.insert(0, word)?;
        }
        Ok(words)
    }

    /// The word of a slot of a nonterminal over the words of its children, where `x` is its first
    /// selector.
    fn slot_word(
        &self,
        circuit: &mut Circuit,
        below: u32,
        x: u32,
        symbol: u32,
        words: &[WordLits],
    ) -> Result<WordLits, AllocError>
        requires fit { AreFit self.now.width (length self.now.fields.now) self.now.rules.now }
        requires symbol { symbol < length self.now.rules.now }
        requires truth { 0 < circuit.old.vars }
        requires fields { All (IsWord self.now.width circuit.old.vars) self.now.fields.now }
        requires count { length words.now ≡ length (shared self.now.rules.now below symbol) }
        requires words { All (IsWord self.now.width circuit.old.vars) words.now }
        requires selectors { x + width self.now.rules.now below symbol ≤ circuit.old.vars }
        requires room { HasRoom (slot_weight self.now.width (offered self.now.rules.now below symbol)) circuit.old }
        ensures ok { IfOk result (λ r. GivesStep
            (slot_word self.now.width self.now.fields.now (shared self.now.rules.now below symbol) words.now x
            (zeros self.now.width) (offered self.now.rules.now below symbol))
            (slot_weight self.now.width (offered self.now.rules.now below symbol))
            (IsWord self.now.width) circuit.old r circuit.new) }
        ensures begins { Begins circuit.old circuit.new }
    {
        let productions = self.rules.productions(symbol);
        let children = ChildWords {
            arguments: self.rules.children(below, symbol),
            words,
        };
        let mut word = zeros(self.alloc, circuit, self.width.bits() as usize)?;
        let mut selector = x;
        for production in productions {
            if !is_offered(below, production) {
                continue;
            }
            word = self.chosen_word(circuit, &children, production, selector, &word)?;
            selector += 1;
        }
        Ok(word)
    }

    /// The word of a production where its selector is true, else another word.
    fn chosen_word(
        &self,
        circuit: &mut Circuit,
        children: &ChildWords<'_>,
        production: &Production,
        selector: u32,
        other: &WordLits,
    ) -> Result<WordLits, AllocError>
        requires fit { IsFit self.now.width (length self.now.fields.now) production.now }
        requires stand { ArgumentsStand children.now.arguments.now production.now }
        requires truth { 0 < circuit.old.vars }
        requires fields { All (IsWord self.now.width circuit.old.vars) self.now.fields.now }
        requires count { length children.now.words.now ≡ length children.now.arguments.now }
        requires words { All (IsWord self.now.width circuit.old.vars) children.now.words.now }
        requires selector { selector < circuit.old.vars }
        requires other { IsWord self.now.width circuit.old.vars other.now }
        requires room { HasRoom (production_weight self.now.width production.now + self.now.width) circuit.old }
        ensures ok { IfOk result (λ r. GivesStep
            (chosen_word self.now.width self.now.fields.now children.now.arguments.now children.now.words.now
            production.now selector other.now)
            (production_weight self.now.width production.now + self.now.width)
            (IsWord self.now.width) circuit.old r circuit.new) }
        ensures begins { Begins circuit.old circuit.new }
    {
        let word = self.production_word(circuit, children, production)?;
        let choice = Gate::Choose(Lit::new(selector, false));
        at_each_bit(
            self.alloc,
            circuit,
            choice,
            word.as_slice(),
            other.as_slice(),
        )
    }

    /// The word of a production over the words of its slot's children.
    fn production_word(
        &self,
        circuit: &mut Circuit,
        children: &ChildWords<'_>,
        production: &Production,
    ) -> Result<WordLits, AllocError>
        requires fit { IsFit self.now.width (length self.now.fields.now) production.now }
        requires stand { ArgumentsStand children.now.arguments.now production.now }
        requires truth { 0 < circuit.old.vars }
        requires fields { All (IsWord self.now.width circuit.old.vars) self.now.fields.now }
        requires count { length children.now.words.now ≡ length children.now.arguments.now }
        requires words { All (IsWord self.now.width circuit.old.vars) children.now.words.now }
        requires room { HasRoom (production_weight self.now.width production.now) circuit.old }
        ensures ok { IfOk result (λ r. GivesStep
            (production_word self.now.width self.now.fields.now children.now.arguments.now children.now.words.now
            production.now)
            (production_weight self.now.width production.now) (IsWord self.now.width) circuit.old r circuit.new) }
        ensures begins { Begins circuit.old circuit.new }
    {
        match production {
            Production::Leaf(term) => blast(self.alloc, circuit, self.width, term, self.fields),
            Production::Node(op, names) => {
                let args = words_at(
                    self.alloc,
                    children.arguments,
                    children.words,
                    names.as_slice(),
                )?;
                apply(self.alloc, circuit, self.width, *op, args.as_slice())
            }
        }
    }
}

/// The words at a production's arguments.
fn words_at(
    alloc: Global,
    children: &[Argument],
    words: &[WordLits],
    names: &[u32],
) -> Result<Words, AllocError>
    requires count { length words.now ≡ length children.now }
    requires few { length names.now ≤ 3 }
    ensures { IfOk result (λ r. r ≡ map (at_argument [] children.now words.now) (positioned 0 names.now)) }
{
    let mut args = Words::new(alloc);
    for (position, name) in names.iter().enumerate() {
        let argument = Argument {
            position: position as u32,
            symbol: *name,
        };
        args.push(word_at(alloc, children, words, argument)?)?;
    }
    Ok(args)
}

/// A copy of the word at an argument; the empty word where none stands there.
fn word_at(
    alloc: Global,
    children: &[Argument],
    words: &[WordLits],
    argument: Argument,
) -> Result<WordLits, AllocError>
    requires { length words.now ≡ length children.now }
    ensures { IfOk result (λ r. r ≡ at_argument [] children.now words.now argument) }
{
    match place_of(children, argument) {
        Some(i) => copied(alloc, words[i].as_slice()),
        None => Ok(WordLits::new(alloc)),
    }
}
