//! Unit propagation over watchers, pairs and fresh clauses.

ghost use Rattle.std.specs.Prelude.{◌≡◌, ◌≢◌, ℕ, ◌+◌, ◌*◌, ◌^◌, ◌<◌, ◌≤◌, List, [], ◌∷◌, ◌++◌, All, Contains, length};
ghost use Rattle.std.specs.Prelude.{slice_index_or, ◌⊎◌, OnErr, OnOk, vec_capacity, vec_len, IfOk, IfNone, IfSome};
ghost use Rattle.std.specs.Prelude.{if◌then◌else◌, ◌==◌};
ghost use Rattle.am_lit.specs.Literal.{opposite_of, variable_of};
ghost use Rattle.am_lit.specs.SearchLaws.{IsFalseIn};
ghost use Rattle.am_lit.specs.UnitRow.{IsSettled};
ghost use Rattle.am_trail.specs.Trails.{Assigned, literals};
ghost use Rattle.am_watch.specs.declared.watcher.Watcher.{Watcher};
ghost use Rattle.am_watch.specs.declared.watcher.Pair.{Pair};
ghost use Rattle.am_watch.specs.Pairs.{IsPairOf, no_pair, other_of, pair_at};
ghost use Rattle.am_watch.specs.Lists.{list_at};
ghost use Rattle.am_watch.specs.inside.Rows.{IsCutAt};
ghost use Rattle.am_watch.specs.Watching.{Extends, IsTrueUpTo, IsGuarded, IsWatched, IsPropagated, clause_at};
ghost use Rattle.am_watch.specs.Watching.{empty_trail};
ghost use Rattle.am_watch.specs.inside.Sweeps.{IsLookedAt, AreLookedAt, IsSwept, IsWatchTurn, IsVisited, HasStepped};

use crate::lists::Lists;
use crate::looks::{
    clause_at, false_at_level, first_open, force, is_for_good, is_true, open_besides,
};
use crate::watcher::{Pair, Visit, Watcher, other_of};
use am_lit::{Clauses, Formula, Lit};
use am_trail::Trail;
use std::alloc::{AllocError, Global};

/// The watchers of each literal, the two watched literals of each clause, and the numbers of the fresh
/// clauses, which are looked at by themselves.
#[derive(Drop)]
pub struct Watches {
    lists: Lists,
    pairs: Vec<Pair>,
    fresh: Vec<u32>,
}

impl Watches {
    ghost use Rattle.am_watch.specs.inside.Kept.{AreKeptWatches};

    /// The watches of a formula's clauses, for an empty trail.
    pub fn new(alloc: Global, formula: &Formula) -> Result<Watches, AllocError>
        ensures { IfOk result (λ w. AreKeptWatches w formula.now.clauses (empty_trail formula.now.vars)) }
    {
        let mut watch = Watches {
            lists: Lists::new(alloc, formula.vars)?,
            pairs: Vec::new(alloc),
            fresh: Vec::new(alloc),
        };
        for i in 0..formula.clauses.len() {
            watch.add(i)?;
        }
        Ok(watch)
    }

    /// One more clause, with the next number. It is fresh.
    pub fn add(&mut self, clause: u32) -> Result<(), AllocError>
        ensures lists { self.new.lists ≡ self.old.lists }
        ensures pairs { OnOk result (self.new.pairs.items ≡ self.old.pairs.items ++ no_pair ∷ []) }
        ensures fresh { OnOk result (self.new.fresh.items ≡ self.old.fresh.items ++ clause ∷ []) }
        ensures same_pairs { OnErr result (self.new.pairs.items ≡ self.old.pairs.items) }
        ensures same_fresh { OnErr result (self.new.fresh.items ≡ self.old.fresh.items) }
    {
        let none = Lit::new(0, false);
        let pair = Pair {
            first: none,
            second: none,
        };
        self.fresh.reserve(1)?;
        self.pairs.push(pair)?;
        self.fresh.push_reserved(clause);
        Ok(())
    }

    /// The watcher at a place in the list of a false literal turns to another literal of its clause.
    fn turn(
        &mut self,
        trail: &Trail,
        given: &Clauses,
        learnt: &Clauses,
        l: Lit,
        j: usize,
        number: u32,
        other: Lit,
        next: Lit,
    ) -> Result<(), AllocError>
        requires holds { AreKeptWatches self.old (given.now ++ learnt.now) trail.now }
        requires turn { IsWatchTurn self.old.lists self.old.pairs.items (given.now ++ learnt.now)
            (literals trail.now.entries) l j number other next }
        requires l { l < length self.old.lists }
        requires next { next < length self.old.lists }
        ensures holds { OnOk result (AreKeptWatches self.new (given.now ++ learnt.now) trail.now) }
        ensures cut { OnOk result (IsCutAt j (list_at self.old.lists l) (list_at self.new.lists l)) }
        ensures fresh { self.new.fresh.items ≡ self.old.fresh.items }
    {
        let watcher = Watcher {
            clause: number,
            blocker: other,
        };
        self.lists.push(next, watcher)?;
        self.pairs[number as usize] = Pair {
            first: other,
            second: next,
        };
        self.lists.remove(l, j);
        Ok(())
    }

    /// Looks at the watcher at a place in the list of a false literal.
    fn visit(
        &mut self,
        trail: &mut Trail,
        given: &Clauses,
        learnt: &Clauses,
        l: Lit,
        j: usize,
    ) -> Result<Visit, AllocError>
        requires holds { AreKeptWatches self.old (given.now ++ learnt.now) trail.old }
        requires number { length (given.now ++ learnt.now) < 2 ^ 32 }
        requires untrue { Contains (literals trail.old.entries) (opposite_of l) }
        requires l { l < length self.old.lists }
        requires j { j < length (list_at self.old.lists l) }
        ensures holds { OnOk result (AreKeptWatches self.new (given.now ++ learnt.now) trail.new) }
        ensures extends { Extends (given.now ++ learnt.now) trail.old trail.new }
        ensures head { trail.new.head ≡ trail.old.head }
        ensures visited { IfOk result
            (IsVisited (given.now ++ learnt.now) l j self.old.lists self.new.lists trail.new.entries) }
        ensures fresh { self.new.fresh.items ≡ self.old.fresh.items }
    {
        let watcher = self.lists.get(l, j);
        if is_true(trail, watcher.blocker) {
            return Ok(Visit::Stays);
        }
        let number = watcher.clause;
        let other = other_of(self.pairs[number as usize], l);
        if is_true(trail, other) {
            let blocked = Watcher {
                clause: number,
                blocker: other,
            };
            self.lists.set(l, j, blocked);
            return Ok(Visit::Stays);
        }
        let clause = clause_at(given, learnt, number);
        if let Some(next) = open_besides(clause, other, trail) {
            self.turn(trail, given, learnt, l, j, number, other, next)?;
            Ok(Visit::Goes)
        } else if force(trail, given, learnt, number, other) {
            Ok(Visit::Stays)
        } else {
            Ok(Visit::Conflicts(number))
        }
    }

    /// Visits all watchers of a false literal.
    fn sweep(
        &mut self,
        trail: &mut Trail,
        given: &Clauses,
        learnt: &Clauses,
        l: Lit,
    ) -> Result<Option<u32>, AllocError>
        requires holds { AreKeptWatches self.old (given.now ++ learnt.now) trail.old }
        requires number { length (given.now ++ learnt.now) < 2 ^ 32 }
        requires untrue { Contains (literals trail.old.entries) (opposite_of l) }
        requires l { l < length self.old.lists }
        ensures holds { OnOk result (AreKeptWatches self.new (given.now ++ learnt.now) trail.new) }
        ensures extends { Extends (given.now ++ learnt.now) trail.old trail.new }
        ensures head { trail.new.head ≡ trail.old.head }
        ensures swept { IfOk result (IsSwept (given.now ++ learnt.now) l self.new.lists trail.new.entries) }
        ensures fresh { self.new.fresh.items ≡ self.old.fresh.items }
    {
        let mut j = 0;
        while j < self.lists.len(l) {
            match self.visit(trail, given, learnt, l, j)? {
                Visit::Stays => j += 1,
                Visit::Goes => {}
                Visit::Conflicts(i) => return Ok(Some(i)),
            }
        }
        Ok(None)
    }

    /// A fresh clause is watched from now on.
    fn watch(
        &mut self,
        trail: &Trail,
        given: &Clauses,
        learnt: &Clauses,
        k: usize,
        number: u32,
        pair: Pair,
    ) -> Result<(), AllocError>
        requires holds { AreKeptWatches self.old (given.now ++ learnt.now) trail.now }
        requires k { k < length self.old.fresh.items }
        requires number { (d : ℕ) → slice_index_or self.old.fresh.items k d ≡ number }
        requires pair { IsPairOf (clause_at (given.now ++ learnt.now) number) pair }
        requires first { IsGuarded trail.now (clause_at (given.now ++ learnt.now) number) pair.first }
        requires second { IsGuarded trail.now (clause_at (given.now ++ learnt.now) number) pair.second }
        ensures holds { OnOk result (AreKeptWatches self.new (given.now ++ learnt.now) trail.now) }
        ensures cut { OnOk result (IsCutAt k self.old.fresh.items self.new.fresh.items) }
    {
        let Pair { first, second } = pair;
        self.pairs[number as usize] = pair;
        let to_first = Watcher {
            clause: number,
            blocker: second,
        };
        self.lists.push(first, to_first)?;
        let to_second = Watcher {
            clause: number,
            blocker: first,
        };
        self.lists.push(second, to_second)?;
        let _ = self.fresh.swap_remove(k);
        Ok(())
    }

    /// A fresh clause that is true at level 0 needs no look any more.
    fn drop_fresh(
        &mut self,
        trail: &Trail,
        given: &Clauses,
        learnt: &Clauses,
        k: usize,
        number: u32,
    )
        requires holds { AreKeptWatches self.old (given.now ++ learnt.now) trail.now }
        requires k { k < length self.old.fresh.items }
        requires number { (d : ℕ) → slice_index_or self.old.fresh.items k d ≡ number }
        requires settled { IsTrueUpTo trail.now.entries (clause_at (given.now ++ learnt.now) number) 0 }
        ensures holds { AreKeptWatches self.new (given.now ++ learnt.now) trail.now }
        ensures cut { IsCutAt k self.old.fresh.items self.new.fresh.items }
    {
        let _ = self.fresh.swap_remove(k);
    }

    /// Looks at a fresh clause by itself. It is watched from now on where two of its literals aren't
    /// false, or one isn't and a false one is of the current level. It needs no more looks where it is
    /// true at level 0.
    fn look(
        &mut self,
        trail: &mut Trail,
        given: &Clauses,
        learnt: &Clauses,
        k: usize,
    ) -> Result<Visit, AllocError>
        requires holds { AreKeptWatches self.old (given.now ++ learnt.now) trail.old }
        requires number { length (given.now ++ learnt.now) < 2 ^ 32 }
        requires k { k < length self.old.fresh.items }
        ensures holds { OnOk result (AreKeptWatches self.new (given.now ++ learnt.now) trail.new) }
        ensures extends { Extends (given.now ++ learnt.now) trail.old trail.new }
        ensures head { trail.new.head ≡ trail.old.head }
        ensures looked { IfOk result
            (IsLookedAt (given.now ++ learnt.now) k self.old.fresh.items self.new.fresh.items trail.new.entries) }
    {
        let number = self.fresh[k];
        let clause = clause_at(given, learnt, number);
        let Some(first) = first_open(clause, trail) else {
            return Ok(Visit::Conflicts(number));
        };
        if let Some(second) = open_besides(clause, first, trail) {
            self.watch(trail, given, learnt, k, number, Pair { first, second })?;
            return Ok(Visit::Goes);
        }
        if !force(trail, given, learnt, number, first) {
            return Ok(Visit::Conflicts(number));
        }
        if is_for_good(trail, first) {
            self.drop_fresh(trail, given, learnt, k, number);
            return Ok(Visit::Goes);
        }
        trail.known();
        if let Some(second) = false_at_level(clause, first, trail) {
            self.watch(trail, given, learnt, k, number, Pair { first, second })?;
            return Ok(Visit::Goes);
        }
        Ok(Visit::Stays)
    }

    /// Looks at each fresh clause by itself.
    fn look_at_fresh(
        &mut self,
        trail: &mut Trail,
        given: &Clauses,
        learnt: &Clauses,
    ) -> Result<Option<u32>, AllocError>
        requires holds { AreKeptWatches self.old (given.now ++ learnt.now) trail.old }
        requires number { length (given.now ++ learnt.now) < 2 ^ 32 }
        ensures holds { OnOk result (AreKeptWatches self.new (given.now ++ learnt.now) trail.new) }
        ensures extends { Extends (given.now ++ learnt.now) trail.old trail.new }
        ensures looked { IfOk result (AreLookedAt (given.now ++ learnt.now) self.new.fresh.items trail.new.entries) }
    {
        let mut k = 0;
        while k < self.fresh.len() {
            match self.look(trail, given, learnt, k)? {
                Visit::Stays => k += 1,
                Visit::Goes => {}
                Visit::Conflicts(i) => return Ok(Some(i)),
            }
        }
        Ok(None)
    }

    /// Propagates the entry at the head, and passes it unless a clause is false.
    fn step(
        &mut self,
        trail: &mut Trail,
        given: &Clauses,
        learnt: &Clauses,
    ) -> Result<Option<u32>, AllocError>
        requires holds { AreKeptWatches self.old (given.now ++ learnt.now) trail.old }
        requires number { length (given.now ++ learnt.now) < 2 ^ 32 }
        requires head { trail.old.head < length trail.old.entries }
        ensures holds { OnOk result (AreKeptWatches self.new (given.now ++ learnt.now) trail.new) }
        ensures extends { Extends (given.now ++ learnt.now) trail.old trail.new }
        ensures fresh { self.new.fresh.items ≡ self.old.fresh.items }
        ensures stepped { IfOk result (HasStepped (given.now ++ learnt.now) trail.old trail.new) }
    {
        trail.known();
        let l = trail.literal(trail.head()).opposite();
        if let Some(i) = self.sweep(trail, given, learnt, l)? {
            return Ok(Some(i));
        }
        trail.known();
        trail.pass();
        Ok(None)
    }

    /// Implies literals until each clause is settled, or one is false, whose number is given.
    pub fn propagate(
        &mut self,
        trail: &mut Trail,
        given: &Clauses,
        learnt: &Clauses,
    ) -> Result<Option<u32>, AllocError>
        requires holds { AreKeptWatches self.old (given.now ++ learnt.now) trail.old }
        requires number { length (given.now ++ learnt.now) < 2 ^ 32 }
        ensures holds { OnOk result (AreKeptWatches self.new (given.now ++ learnt.now) trail.new) }
        ensures extends { Extends (given.now ++ learnt.now) trail.old trail.new }
        ensures answer { IfOk result (IsPropagated (given.now ++ learnt.now) trail.new) }
    {
        if let Some(i) = self.look_at_fresh(trail, given, learnt)? {
            return Ok(Some(i));
        }
        while trail.head() < trail.len() {
            trail.known();
            if let Some(i) = self.step(trail, given, learnt)? {
                return Ok(Some(i));
            }
        }
        trail.known();
        Ok(None)
    }
}
