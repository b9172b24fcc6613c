//! The state of a search, and its moves.

ghost use Rattle.std.specs.Prelude.{◌≡◌, ◌+◌, ◌-◌, ◌^◌, ◌<◌, ◌≤◌, ℕ, [], ◌∷◌, ◌++◌, All, length, OnOk, IfOk, Ok};
ghost use Rattle.std.specs.Prelude.{Contains, ◌↔◌};
ghost use Rattle.std.specs.List.Sorted.{IsStrictlyIncreasing};
ghost use Rattle.am_lit.specs.Literal.{variable_of};
ghost use Rattle.am_lit.specs.Clause.{IsNormal};
ghost use Rattle.am_lit.specs.UnitRow.{IsFree, IsNew, IsSettled};
ghost use Rattle.am_chain.specs.Chains.{clause_of};
ghost use Rattle.am_trail.specs.Trails.{decided, literals, returned};
ghost use Rattle.am_watch.specs.Watching.{Extends, IsPropagated, empty_trail};
ghost use Rattle.am_solve.specs.inside.Searches.{CanChoose, Searches, SettlesBelow};

use crate::choice::Choice;
use am_chain::{Chain, Log};
use am_lit::{Clauses, Formula, Lit};
use am_trail::Trail;
use am_watch::Watch;
use std::alloc::{AllocError, Global};

/// A search: the learnt clauses, a chain for each, the watches and the trail.
#[derive(Drop)]
pub struct Search {
    pub learnt: Clauses,
    pub log: Log,
    pub watch: Watch,
    pub trail: Trail,
    pub choice: Choice,
}

impl Search {
    /// A search that has learnt and decided nothing.
    pub fn new(alloc: Global, formula: &Formula) -> Result<Search, AllocError>
        ensures searches { IfOk result (Searches formula.now.clauses) }
        ensures learnt { IfOk result (λ s. s.learnt ≡ []) }
        ensures trail { IfOk result (λ s. s.trail ≡ empty_trail formula.now.vars) }
        ensures chooses { IfOk result CanChoose }
    {
        Ok(Search {
            learnt: Clauses::new(alloc),
            log: Log::new(alloc),
            watch: Watch::new(alloc, formula)?,
            trail: Trail::new(alloc, formula.vars)?,
            choice: Choice::new(alloc, formula.vars)?,
        })
    }

    /// Decides a literal, where each clause is settled.
    pub fn decide(&mut self, given: &Clauses, l: Lit)
        requires searches { Searches given.now self.old }
        requires end { self.old.trail.head ≡ length self.old.trail.entries }
        requires settled { All (IsSettled (literals self.old.trail.entries)) (given.now ++ self.old.learnt) }
        requires variable { variable_of l < self.old.trail.vars }
        requires free { IsFree (literals self.old.trail.entries) l }
        ensures searches { Searches given.now self.new }
        ensures choice { self.new.choice ≡ self.old.choice }
        ensures trail { self.new.trail ≡ decided self.old.trail l }
        ensures learnt { self.new.learnt ≡ self.old.learnt }
    {
        self.trail.known();
        self.trail.decide(l);
    }

    /// Goes back to a level.
    pub fn back_to(&mut self, given: &Clauses, level: u32)
        requires searches { Searches given.now self.old }
        requires chooses { CanChoose self.old }
        requires level { level ≤ self.old.trail.level }
        ensures searches { Searches given.now self.new }
        ensures trail { self.new.trail ≡ returned self.old.trail level }
        ensures learnt { self.new.learnt ≡ self.old.learnt }
        ensures chooses { CanChoose self.new }
        ensures log { self.new.log ≡ self.old.log }
    {
        self.trail.known();
        self.choice.give_back(&self.trail, level);
        self.trail.back_to(level);
    }

    /// Propagates until each clause is settled, or one is false.
    pub fn propagate(&mut self, formula: &Formula) -> Result<Option<u32>, AllocError>
        requires searches { Searches formula.now.clauses self.old }
        requires number { length (formula.now.clauses ++ self.old.learnt) < 2 ^ 32 }
        ensures searches { OnOk result (Searches formula.now.clauses self.new) }
        ensures answer { IfOk result (IsPropagated (formula.now.clauses ++ self.new.learnt) self.new.trail) }
        ensures learnt { self.new.learnt ≡ self.old.learnt }
        ensures vars { self.new.trail.vars ≡ self.old.trail.vars }
        ensures choice { self.new.choice ≡ self.old.choice }
        ensures extends { Extends (formula.now.clauses ++ self.old.learnt) self.old.trail self.new.trail }
        ensures log { self.new.log ≡ self.old.log }
    {
        let answer = self
            .watch
            .propagate(&mut self.trail, formula, &self.learnt)?;
        Ok(answer)
    }

    /// Learns a new clause with its chain.
    pub fn learn(&mut self, given: &Clauses, clause: &[Lit], chain: Chain) -> Result<(), AllocError>
        requires searches { Searches given.now self.old }
        requires number { length (given.now ++ self.old.learnt) < 2 ^ 32 - 1 }
        requires normal { IsNormal self.old.trail.vars clause.now }
        requires derived { clause_of (given.now ++ self.old.learnt) chain ≡ Ok clause.now }
        requires new { IsNew (given.now ++ self.old.learnt) clause.now }
        requires steps { length chain.steps ≤ self.old.trail.vars }
        requires below { SettlesBelow given.now self.old clause.now }
        ensures searches { OnOk result (Searches given.now self.new) }
        ensures learnt { OnOk result (self.new.learnt ≡ self.old.learnt ++ clause.now ∷ []) }
        ensures choice { self.new.choice ≡ self.old.choice }
        ensures trail { self.new.trail ≡ self.old.trail }
    {
        let number = given.len() + self.learnt.len();
        self.learnt.push(clause)?;
        self.log.push(chain)?;
        self.watch.add(number, clause)?;
        Ok(())
    }
}

/// The literals of a learnt clause, in order.
pub fn in_order(kept: Vec<Lit>, last: Lit) -> Result<Vec<Lit>, AllocError>
    ensures rising { IfOk result (λ c. IsStrictlyIncreasing c.items) }
    ensures members { IfOk result (λ c. (m : ℕ) → Contains c.items m ↔ Contains (kept.items ++ last ∷ []) m) }
{
    let mut clause = kept;
    clause.push(last)?;
    clause.sort()?;
    clause.dedup();
    Ok(clause)
}
