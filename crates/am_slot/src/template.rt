//! Templates.

ghost use Rattle.std.specs.Prelude.{◌≡◌, ℕ, ◌+◌, ◌^◌, ◌≤◌, ◌↔◌, Bool, false, List, ◌++◌, All, IfOk, IsTrue, OnOk};
ghost use Rattle.std.specs.Prelude.{length, flat_map};
ghost use Rattle.am_gate.specs.Circuit.{start, added, HasInputs, HasRoom, Begins};
ghost use Rattle.am_gate.specs.Build.{Follows, Means};
ghost use Rattle.am_gate.specs.Promises.{GivesStep};
ghost use Rattle.std.specs.List.{range_with_len};
ghost use Rattle.am_lit.specs.Truth.{Satisfies, value_at};
ghost use Rattle.am_blast.specs.Words.{IsWord};
ghost use Rattle.am_tree.specs.declared.tree.Tree.{Tree};
ghost use Rattle.am_tree.specs.Slots.{layout_of};
ghost use Rattle.am_slot.specs.Encoding.{IsEncoding, AreOver};
ghost use Rattle.am_slot.specs.Template.{selectors_of, slot_clauses_of, template, block, weight_of_block};
ghost use Rattle.am_slot.specs.Template.{IsDerivedTuple};
ghost use Rattle.am_slot.specs.Template.{decoded, AreOutputs, ReadAs};

use crate::block::Block;
use crate::clauses::{push_clauses, roots};
use crate::decoding::Choices;
use crate::rules::{RuleTable, copied_symbols};
use crate::stating::{make_inputs, state_all};
use am_blast::{WordLits, Words, copied};
use am_bv::Width;
use am_gate::Circuit;
use am_lit::{Assignment, Clauses};
use am_tree::{Grammar, Symbols, Trees};
use std::alloc::{AllocError, Global};
use std::marker::Model;

/// The selectors of a grammar's slots, and what they mean. Contracts see what it encodes: the rules,
/// the starts, the depth, and the width of words.
#[derive(Drop)]
pub struct Template {
    alloc: Global,
    rules: RuleTable,
    starts: Symbols,
    depth: u32,
    width: Width,
    selectors: u32,
}

impl Model for Template {
    ghost use Rattle.std.specs.Prelude.{◌≡◌, ◌-◌, ◌≤◌, length};
    ghost use Rattle.am_tree.specs.Slots.{layout_of};
    ghost use Rattle.am_slot.specs.Encoding.{Encoding, IsEncoding};
    ghost use Rattle.am_slot.specs.Selectors.{room};
    ghost use Rattle.am_bv.specs.contracts.term.Term as term;
    ghost use Rattle.std.specs.Coded.{codes};

    ghost Value = { Encoding };

    ghost coded = { Prim.hlevel (codes, term.the_row.coded) };

    ghost view = { λ t. record { rules = t.rules; starts = t.starts; depth = t.depth; width = t.width } };

    ghost invariant = { λ t.
        IsEncoding (record { rules = t.rules; starts = t.starts; depth = t.depth; width = t.width })
        × (length (layout_of t.rules t.starts t.depth) ≤ 256)
        × (t.selectors ≡ room t.rules (t.depth - 1) t.starts) };
}

impl Template {
    /// Makes the selectors of a grammar in a new circuit, as inputs, and states their clauses.
    ///
    /// The assignments that satisfy the circuit decode to the tuples of trees, one for each start,
    /// that derive with the grammar's depth: to no other, and to each of them. After want of memory
    /// the circuit begins with its earlier variables and clauses.
    pub fn new(
        alloc: Global,
        circuit: &mut Circuit,
        w: Width,
        grammar: &Grammar,
    ) -> Result<Template, AllocError>
        requires fresh { circuit.old ≡ start circuit.old.folding }
        requires few { length (layout_of grammar.now.rules grammar.now.starts grammar.now.depth) ≤ 256 }

        ensures encodes { IfOk result (λ t. t ≡ record {
          rules = grammar.now.rules;
          starts = grammar.now.starts;
          depth = grammar.now.depth;
          width = w;
        }) }
        ensures encoding { IfOk result IsEncoding }

        // exactly the selectors, as inputs, and the clauses in order
        ensures circuit { IfOk result (λ t. Follows (template t) circuit.old tt circuit.new) }
        ensures selectors { IfOk result (λ t. circuit.new.vars ≡ 1 + selectors_of t) }
        ensures clauses { IfOk result (λ t.
            circuit.new.clauses ≡ circuit.old.clauses ++ flat_map added (slot_clauses_of t)) }
        ensures inputs { IfOk result (λ t. HasInputs (range_with_len 1 (selectors_of t)) circuit.new) }
        ensures room { OnOk result (HasRoom (2 ^ 28) circuit.new) }

        // both directions
        ensures derived { IfOk result (λ t. (v : ℕ → Bool) →
            Satisfies v circuit.new.clauses → IsDerivedTuple t (decoded t v)) }
        ensures reached { IfOk result (λ t. (ts : List Tree) → IsDerivedTuple t ts →
            (v : ℕ → Bool) × Satisfies v circuit.new.clauses × (decoded t v ≡ ts)) }

        ensures begins { Begins circuit.old circuit.new }
    {
        let template = Template::of(alloc, w, grammar)?;
        make_inputs(circuit, template.selectors)?;
        let clauses = template.clauses()?;
        state_all(circuit, &clauses)?;
        Ok(template)
    }

    /// The number of selectors: one for each slot and production of the slot, in order, from
    /// variable 1 on.
    pub fn selectors(&self) -> u32
        ensures value { result ≡ selectors_of self.now }
        ensures most { result ≤ 2 ^ 14 }
    {
        self.selectors
    }

    /// Whether each leaf of the grammar is a term of the template's width over so many fields, which
    /// [`Template::at`] asks of its fields.
    pub fn is_over(&self, fields: u32) -> bool
        ensures { IsTrue result ↔ AreOver self.now fields }
    {
        self.rules.are_over(self.width, fields)
    }

    /// Makes the block at the words of the fields, and answers the words of the output fields.
    ///
    /// It makes at most as many gates as the block weighs, exactly so many in a circuit that doesn't
    /// fold, and no input. Wherever variable 0 is true and each gate's variable has its gate's value,
    /// the words read as the values of the terms of the tuple that the selectors choose. After want of
    /// memory the circuit begins with its earlier variables and clauses.
    /// [`crate::theorems::blocks_make_their_weight`] says that its gates stand over earlier variables.
    pub fn at(&self, circuit: &mut Circuit, fields: &[WordLits]) -> Result<Words, AllocError>
        requires selectors { 1 + selectors_of self.now ≤ circuit.old.vars }
        requires over { AreOver self.now (length fields.now) }
        requires fields { All (IsWord self.now.width circuit.old.vars) fields.now }
        requires room { HasRoom (weight_of_block self.now) circuit.old }

        ensures ok { IfOk result (λ r.
            GivesStep (block self.now fields.now) (weight_of_block self.now) (AreOutputs self.now)
            circuit.old r circuit.new) }
        ensures count { circuit.old.folding ≡ false →
            OnOk result (circuit.new.vars ≡ circuit.old.vars + weight_of_block self.now) }
        ensures meaning { (v : ℕ → Bool) →
            Means v (block self.now fields.now) (ReadAs self.now fields.now v (decoded self.now v)) }
        ensures begins { Begins circuit.old circuit.new }
    {
        let block = Block {
            alloc: self.alloc,
            rules: &self.rules,
            width: self.width,
            fields,
        };
        let words = block.words(circuit, self.depth - 1, 1, self.starts.as_slice())?;
        let outputs = copied_words(self.alloc, words.as_slice())?;
        Ok(outputs)
    }

    /// The tuple of trees that an assignment chooses. Where the assignment satisfies the template's
    /// clauses, the trees derive from the starts.
    pub fn decode(&self, a: &Assignment) -> Result<Trees, AllocError>
        requires { 1 + selectors_of self.now ≤ length a.now.values }
        ensures trees { IfOk result (λ r. r ≡ decoded self.now (value_at a.now.values)) }
        ensures derived { Satisfies (value_at a.now.values) (slot_clauses_of self.now) → IfOk result
            (IsDerivedTuple self.now) }
    {
        let choices = Choices {
            alloc: self.alloc,
            rules: &self.rules,
            assignment: a,
        };
        choices.trees(self.depth - 1, 1, self.starts.as_slice())
    }

    /// What a template keeps of the grammar.
    fn of(alloc: Global, w: Width, grammar: &Grammar) -> Result<Template, AllocError>
        requires { length (layout_of grammar.now.rules grammar.now.starts grammar.now.depth) ≤ 256 }
        ensures { IfOk result (λ t. t ≡ record {
          rules = grammar.now.rules;
          starts = grammar.now.starts;
          depth = grammar.now.depth;
          width = w;
        }) }
    {
        prove!(0 < w.bits());
        let rules = RuleTable::new(alloc, grammar)?;
        let selectors = rules.room(alloc, grammar.depth - 1, grammar.starts.as_slice())?;
        Ok(Template {
            alloc,
            rules,
            starts: copied_symbols(alloc, grammar.starts.as_slice())?,
            depth: grammar.depth,
            width: w,
            selectors,
        })
    }

    /// The clauses of all slots.
    fn clauses(&self) -> Result<Clauses, AllocError>
        ensures { IfOk result (λ r. r ≡ slot_clauses_of self.now) }
    {
        let mut clauses = Clauses::new(self.alloc);
        let asked = roots(self.alloc, self.starts.as_slice())?;
        push_clauses(
            self.alloc,
            &mut clauses,
            &self.rules,
            self.depth - 1,
            1,
            asked.as_slice(),
        )?;
        Ok(clauses)
    }
}

/// Copies of the words.
fn copied_words(alloc: Global, words: &[WordLits]) -> Result<Words, AllocError>
    ensures { IfOk result (λ r. r ≡ words.now) }
{
    let mut copies = Words::new(alloc);
    for word in words {
        copies.push(copied(alloc, word.as_slice())?)?;
    }
    Ok(copies)
}
