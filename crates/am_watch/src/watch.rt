//! The watches of a formula's clauses and of learnt ones.

ghost use Rattle.std.specs.Prelude.{◌≡◌, ◌^◌, ◌<◌, [], ◌∷◌, ◌++◌, All, List, ℕ, length, IfOk, OnErr, OnOk};
ghost use Rattle.am_lit.specs.Literal.{variable_of};
ghost use Rattle.am_trail.specs.Trails.{Assigned};
ghost use Rattle.am_watch.specs.Watching.{Extends, IsPropagated, WatchesHold, empty_trail};

use crate::watches::Watches;
use am_lit::{Clauses, Formula, Lit};
use am_trail::Trail;
use std::alloc::{AllocError, Global};
use std::marker::Model;

/// The watched literals of each clause of a formula and of the learnt clauses, whose numbers follow
/// those of the formula's. `WatchesHold` is the invariant between watches, clauses and trail.
#[derive(Drop)]
pub struct Watch {
    watches: Watches,
}

impl Model for Watch {
    ghost use Rattle.am_watch.specs.Watching.{Watched};

    ghost Value = { Watched };

    ghost view = { λ a. record {
      lists = a.watches.lists;
      pairs = a.watches.pairs.items;
      fresh = a.watches.fresh.items;
    } };
}

impl Watch {
    /// The watches of a formula's clauses, for an empty trail.
    pub fn new(alloc: Global, formula: &Formula) -> Result<Watch, AllocError>
        ensures { IfOk result (λ w. WatchesHold w formula.now.clauses (empty_trail formula.now.vars)) }
    {
        let watches = Watches::new(alloc, formula)?;
        Ok(Watch { watches })
    }

    /// One more clause, with the next number, which was pushed to the learnt ones. A refused call
    /// changes nothing.
    pub fn add(&mut self, clause: u32, lits: &[Lit]) -> Result<(), AllocError>
        ensures ok { OnOk result ((clauses : List (List ℕ)) (t : Assigned)
            → WatchesHold self.old clauses t → clause ≡ length clauses → All (λ l. variable_of l < t.vars) lits.now
            → WatchesHold self.new (clauses ++ lits.now ∷ []) t) }
        ensures err { OnErr result (self.new ≡ self.old) }
    {
        self.watches.add(clause)
    }

    /// Implies literals until no clause is false and none is unit, and then the head stands at the
    /// trail's end; or until a clause is false, whose number is the answer. After want of memory
    /// the watches are of no use any more.
    pub fn propagate(
        &mut self,
        trail: &mut Trail,
        formula: &Formula,
        learnt: &Clauses,
    ) -> Result<Option<u32>, AllocError>
        requires holds { WatchesHold self.old (formula.now.clauses ++ learnt.now) trail.old }
        requires number { length (formula.now.clauses ++ learnt.now) < 2 ^ 32 }
        ensures holds { OnOk result (WatchesHold self.new (formula.now.clauses ++ learnt.now) trail.new) }
        ensures extends { Extends (formula.now.clauses ++ learnt.now) trail.old trail.new }
        ensures answer { IfOk result (IsPropagated (formula.now.clauses ++ learnt.now) trail.new) }
    {
        self.watches.propagate(trail, &formula.clauses, learnt)
    }
}
