//! Learning from a conflict, and refuting at level 0.

ghost use Rattle.std.specs.Prelude.{◌≡◌, ◌+◌, ◌-◌, ◌^◌, ◌<◌, ℕ, true, List, ◌++◌, All, length, OnOk, IfOk};
ghost use Rattle.am_chain.specs.declared.chain.Chain.{Chain};
ghost use Rattle.am_chain.specs.Replay.{Refutes};
ghost use Rattle.am_trail.specs.Trails.{literals};
ghost use Rattle.am_solve.specs.Answers.{ChainsAreShort};
ghost use Rattle.am_solve.specs.inside.Marking.{OpposesDecision, WasDecided};
ghost use Rattle.am_solve.specs.inside.Searching.{IsFalseClause};
ghost use Rattle.am_solve.specs.inside.Searches.{CanChoose, IsAnalysis, Searches, StaysOver};

use crate::analysis::{Found, analyse};
use crate::back::greatest_level;
use crate::implied::{Resolved, analyse_decided, resolve_all};
use crate::search::{Search, in_order};
use am_chain::Chain;
use am_lit::Clauses;
use std::alloc::{AllocError, Global};

impl Search {
    /// The clause of a conflict above level 0. With `over_base` only opposites of decided literals
    /// are left in it.
    fn analyse(
        &self,
        alloc: Global,
        given: &Clauses,
        conflict: u32,
        over_base: bool,
    ) -> Result<Found, AllocError>
        requires searches { Searches given.now self.now }
        requires level { 0 < self.now.trail.level }
        requires number { conflict < length (given.now ++ self.now.learnt) }
        requires untrue { IsFalseClause (given.now ++ self.now.learnt) self.now.trail.entries conflict }
        ensures analysed { IfOk result (IsAnalysis (given.now ++ self.now.learnt) self.now.trail conflict) }
        ensures kept { IfOk result (λ f. over_base ≡ true → All (OpposesDecision self.now.trail.entries) f.kept.items) }
        ensures left { IfOk result (λ f. over_base ≡ true → WasDecided self.now.trail.entries f.place) }
    {
        if over_base {
            let found = analyse_decided(alloc, &self.trail, given, &self.learnt, conflict)?;
            return Ok(found);
        }
        let found = analyse(alloc, &self.trail, given, &self.learnt, conflict)?;
        Ok(found)
    }

    /// Learns from a false clause, above level 0, and goes back.
    pub fn learn_from(
        &mut self,
        alloc: Global,
        given: &Clauses,
        conflict: u32,
        over_base: bool,
    ) -> Result<(), AllocError>
        requires searches { Searches given.now self.old }
        requires chooses { CanChoose self.old }
        requires level { 0 < self.old.trail.level }
        requires room { length (given.now ++ self.old.learnt) < 2 ^ 32 - 1 }
        requires number { conflict < length (given.now ++ self.old.learnt) }
        requires untrue { IsFalseClause (given.now ++ self.old.learnt) self.old.trail.entries conflict }
        ensures searches { OnOk result (Searches given.now self.new) }
        ensures longer { OnOk result (length self.new.learnt ≡ length self.old.learnt + 1) }
        ensures vars { self.new.trail.vars ≡ self.old.trail.vars }
        ensures chooses { OnOk result (CanChoose self.new) }
        ensures keeps { OnOk result ((base : List ℕ) → over_base ≡ true
            → StaysOver base self.old → StaysOver base self.new) }
    {
        self.trail.known();
        let Found { kept, steps, place } = self.analyse(alloc, given, conflict, over_base)?;
        let left = self.trail.literal(place).opposite();
        let level = greatest_level(&self.trail, kept.as_slice());
        let clause = in_order(kept, left)?;
        let learnt = clause.as_slice();
        self.choice.raise(steps.as_slice(), learnt);
        self.back_to(given, level);
        let chain = Chain {
            first: conflict,
            steps,
        };
        self.learn(given, learnt, chain)?;
        Ok(())
    }

    /// Logs the chain to the empty clause, where a clause is false at level 0.
    pub fn refute(
        &mut self,
        alloc: Global,
        given: &Clauses,
        conflict: u32,
    ) -> Result<(), AllocError>
        requires searches { Searches given.now self.old }
        requires level { self.old.trail.level ≡ 0 }
        requires number { conflict < length (given.now ++ self.old.learnt) }
        requires untrue { IsFalseClause (given.now ++ self.old.learnt) self.old.trail.entries conflict }
        ensures refutes { OnOk result (Refutes given.now self.new.log) }
        ensures longer { OnOk result (length self.new.log ≡ length self.old.learnt + 1) }
        ensures short { OnOk result (ChainsAreShort self.old.trail.vars self.new.log) }
    {
        self.trail.known();
        let Resolved {
            marks: _marks,
            steps,
        } = resolve_all(alloc, &self.trail, given, &self.learnt, conflict)?;
        self.log.push(Chain {
            first: conflict,
            steps,
        })?;
        Ok(())
    }
}
