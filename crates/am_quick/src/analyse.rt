//! Learning from a conflict.

use crate::rows::{NONE, at, put};
use crate::scratch::{CLEAR, IN_CLAUSE, RESOLVED};
use crate::search::Search;
use std::alloc::AllocError;

impl Search {
    /// Takes in the literals of a clause, but for the pivot. The answer is how many of them are new and of the
    /// current level.
    fn take_in(&mut self, clause: u32, pivot: u32) -> Result<u32, AllocError> {
        let mut open: u32 = 0;
        for l in self.arena.lits(clause) {
            let v = *l / 2;
            if v == pivot || self.scratch.mark(v) != CLEAR {
                continue;
            }
            let level = self.trail.level_of(v);
            if level == 0 {
                self.scratch.fix(v)?;
                continue;
            }
            self.scratch.touch(v, IN_CLAUSE)?;
            self.order.bump(v);
            if level == self.trail.level {
                open = open.wrapping_add(1);
            } else {
                self.scratch.clause.push(*l)?;
            }
        }
        Ok(open)
    }

    /// Notes that a learnt clause was of use, and its LBD if that is less now.
    fn use_clause(&mut self, clause: u32) {
        let lbd = self.arena.lbd(clause);
        if lbd == 0 {
            return;
        }
        self.arena.set_used(clause, 1);
        if lbd > 2 {
            let now = self
                .scratch
                .count_levels(&self.trail, self.arena.lits(clause));
            if now < lbd {
                self.arena.set_lbd(clause, now);
            }
        }
    }

    /// The last place before one whose variable stands in the clause.
    #[inline(always)]
    fn place_before(&self, place: usize) -> usize {
        let mut place = place;
        for _ in 0..u64::MAX {
            place = place.saturating_sub(1);
            if place == 0 || self.scratch.mark(self.trail.lit(place) / 2) == IN_CLAUSE {
                break;
            }
        }
        place
    }

    /// Resolves back to the first unique implication point. Its opposite is the answer.
    fn resolve_back(&mut self, conflict: u32) -> Result<u32, AllocError> {
        let mut open: u32 = 0;
        let mut place = self.trail.count;
        let mut clause = conflict;
        let mut pivot = NONE;
        for _ in 0..u64::MAX {
            self.use_clause(clause);
            open = open.wrapping_add(self.take_in(clause, pivot)?);
            place = self.place_before(place);
            let l = self.trail.lit(place);
            pivot = l / 2;
            open = open.saturating_sub(1);
            if open == 0 {
                return Ok(l ^ 1);
            }
            self.scratch.set(pivot, RESOLVED);
            clause = self.trail.reason_of(pivot);
            self.derivation.step(pivot, self.arena.number(clause))?;
        }
        Ok(NONE)
    }

    /// Puts a literal of the greatest level second, and gives that level.
    fn put_greatest_second(&mut self) -> u32 {
        let mut greatest: u32 = 0;
        for i in 1..self.scratch.clause.len() {
            let l = at(self.scratch.clause.as_slice(), i);
            let level = self.trail.level_of(l / 2);
            if level > greatest {
                greatest = level;
                let second = at(self.scratch.clause.as_slice(), 1);
                put(self.scratch.clause.as_mut_slice(), i, second);
                put(self.scratch.clause.as_mut_slice(), 1, l);
            }
        }
        greatest
    }

    /// Learns the clause of a conflict, and goes back to the level where it implies a literal.
    pub fn learn(&mut self, conflict: u32) -> Result<(), AllocError> {
        self.scratch.clause.clear();
        self.scratch.fixed.clear();
        let number = self.derivation.begin(self.arena.number(conflict))?;
        let asserting = self.resolve_back(conflict)?;
        self.minimise()?;
        self.resolve_rest()?;
        self.scratch.clear();
        self.scratch.take_kept(asserting)?;
        let lbd = self.scratch.count_levels_of_clause(&self.trail).max(1);
        let level = self.put_greatest_second();
        self.pace.note(lbd);
        self.order.age();
        self.back_to(level);
        let clause = self.add_learnt(number, lbd)?;
        self.trail.assign(asserting, clause);
        Ok(())
    }

    /// Stores the clause that was learnt and watches it.
    fn add_learnt(&mut self, number: u32, lbd: u32) -> Result<u32, AllocError> {
        let lits = self.scratch.clause.as_slice();
        let clause = self.arena.push(lits, number, lbd, 1)?;
        self.learnt.push(clause)?;
        self.watch(clause)?;
        Ok(clause)
    }
}
