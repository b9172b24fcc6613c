//! Propagating and deciding until there is a conflict or an assignment.

ghost use Rattle.std.specs.Prelude.{◌≡◌, ◌+◌, ◌^◌, ◌<◌, ◌≤◌, ℕ, true, false, List, ◌++◌, All, length, OnOk, IfOk};
ghost use Rattle.am_lit.specs.UnitRow.{Determines, IsSettled};
ghost use Rattle.am_trail.specs.Trails.{literals};
ghost use Rattle.am_solve.specs.inside.Choosing.{IsTotal};
ghost use Rattle.am_solve.specs.inside.Searches.{CanChoose, HasCome, Searches, StaysOver};

use crate::search::Search;
use am_lit::{Clauses, Formula};
use std::alloc::AllocError;

/// After how many conflicts the search goes back to level 0.
const RESTART_AFTER: u64 = 25;

impl Search {
    /// Goes back to level 0 after each few conflicts.
    pub fn restart(&mut self, given: &Clauses, conflicts: u64)
        requires searches { Searches given.now self.old }
        requires chooses { CanChoose self.old }
        ensures searches { Searches given.now self.new }
        ensures chooses { CanChoose self.new }
        ensures learnt { self.new.learnt ≡ self.old.learnt }
        ensures vars { self.new.trail.vars ≡ self.old.trail.vars }
        ensures keeps { (base : List ℕ) → StaysOver base self.old → StaysOver base self.new }
    {
        if conflicts % RESTART_AFTER == 0 {
            self.back_to(given, 0);
        }
    }

    /// Decides a literal of a variable without a value, one of a list while there is one. False says
    /// that each variable has a value.
    fn branch(&mut self, given: &Clauses, first: &[u32]) -> bool
        requires searches { Searches given.now self.old }
        requires end { self.old.trail.head ≡ length self.old.trail.entries }
        requires settled { All (IsSettled (literals self.old.trail.entries)) (given.now ++ self.old.learnt) }
        requires small { self.old.trail.vars < 2 ^ 31 }
        requires chooses { CanChoose self.old }
        requires below { All (λ v. v < self.old.trail.vars) first.now }
        ensures searches { Searches given.now self.new }
        ensures learnt { self.new.learnt ≡ self.old.learnt }
        ensures vars { self.new.trail.vars ≡ self.old.trail.vars }
        ensures chooses { CanChoose self.new }
        ensures room { length self.new.trail.entries ≤ self.new.trail.vars }
        ensures longer { result ≡ true → length self.new.trail.entries ≡ length self.old.trail.entries + 1 }
        ensures stays { result ≡ false → self.new.trail ≡ self.old.trail }
        ensures total { result ≡ false → IsTotal self.old.trail.vars self.old.trail.entries }
        ensures keeps { Determines given.now self.old.trail.vars first.now
            → StaysOver first.now self.old → StaysOver first.now self.new }
    {
        self.trail.known();
        match self.choice.pick(&self.trail, first) {
            Some(l) => {
                self.decide(given, l);
                self.trail.known();
                true
            }
            None => false,
        }
    }

    /// Propagates and decides until a clause is false, whose number is given, or each variable has a
    /// value.
    pub fn descend(&mut self, formula: &Formula, first: &[u32]) -> Result<Option<u32>, AllocError>
        requires searches { Searches formula.now.clauses self.old }
        requires number { length (formula.now.clauses ++ self.old.learnt) < 2 ^ 32 }
        requires small { self.old.trail.vars < 2 ^ 31 }
        requires chooses { CanChoose self.old }
        requires below { All (λ v. v < self.old.trail.vars) first.now }
        ensures searches { OnOk result (Searches formula.now.clauses self.new) }
        ensures answer { IfOk result (HasCome formula.now.clauses self.new) }
        ensures learnt { self.new.learnt ≡ self.old.learnt }
        ensures vars { self.new.trail.vars ≡ self.old.trail.vars }
        ensures chooses { OnOk result (CanChoose self.new) }
        ensures keeps { OnOk result (Determines formula.now.clauses self.old.trail.vars first.now
            → StaysOver first.now self.old → StaysOver first.now self.new) }
    {
        loop {
            self.trail.known();
            if let Some(conflict) = self.propagate(formula)? {
                return Ok(Some(conflict));
            }
            self.trail.known();
            if !self.branch(&formula.clauses, first) {
                return Ok(None);
            }
        }
    }
}
