//! Bounded elimination of variables: the clauses of a variable make way for their resolvents where these aren't more.

use crate::occurrences::{Occurrences, drop_removed};
use crate::rows::{NONE, at};
use crate::search::Search;
use crate::trail::FREE;
use std::alloc::AllocError;

/// No clause that is resolved, and no resolvent, has more literals.
const LONGEST: usize = 20;

/// Variables of at most this and two clauses are eliminated.
const ROUNDS: usize = 16;

impl Search {
    /// Adds a clause of the resolvent's literals.
    pub fn add_resolvent(&mut self, number: u32) -> Result<u32, AllocError> {
        let lits = self.eliminated.resolvent.as_slice();
        let clause = self.arena.push(lits, number, 0, 0)?;
        self.given.push(clause)?;
        Ok(clause)
    }

    /// Whether one of some clauses is too long to be resolved.
    fn has_long(&self, clauses: &[u32]) -> bool {
        for clause in clauses {
            if self.arena.size(*clause) > LONGEST {
                return true;
            }
        }
        false
    }

    /// How many resolvents of a clause with some others there are, or `NONE` where one is too long.
    fn count_with(&mut self, clause: u32, others: &[u32], pivot: u32) -> u32 {
        let size = self.arena.size(clause);
        let mut count: u32 = 0;
        self.eliminated.mark(self.arena.lits(clause), pivot, 1);
        for other in others {
            let more = self
                .eliminated
                .count_more(self.arena.lits(*other), pivot ^ 1);
            if more == NONE {
                continue;
            }
            count = count.saturating_add(1);
            if size.saturating_add(more as usize) > LONGEST + 1 {
                count = NONE;
                break;
            }
        }
        self.eliminated.mark(self.arena.lits(clause), pivot, 0);
        count
    }

    /// Whether the resolvents on a literal are at most so many, and none is too long.
    fn are_few(&mut self, first: &[u32], second: &[u32], pivot: u32) -> bool {
        let most = first.len().saturating_add(second.len());
        let mut count: u32 = 0;
        for clause in first {
            count = count.saturating_add(self.count_with(*clause, second, pivot));
            if count as usize > most {
                return false;
            }
        }
        true
    }

    /// Adds the resolvents of a clause with some others.
    fn resolve_with(
        &mut self,
        occurrences: &mut Occurrences,
        clause: u32,
        others: &[u32],
        pivot: u32,
    ) -> Result<(), AllocError> {
        self.eliminated.mark(self.arena.lits(clause), pivot, 1);
        for other in others {
            let (lits, more) = (self.arena.lits(clause), self.arena.lits(*other));
            if self.eliminated.count_more(more, pivot ^ 1) == NONE {
                continue;
            }
            self.eliminated.resolve(lits, more, pivot)?;
            let number = self.derivation.begin(self.arena.number(clause))?;
            self.derivation.step(pivot / 2, self.arena.number(*other))?;
            let resolvent = self.add_resolvent(number)?;
            occurrences.note(resolvent, self.arena.lits(resolvent))?;
            self.take_unit(resolvent)?;
        }
        self.eliminated.mark(self.arena.lits(clause), pivot, 0);
        Ok(())
    }

    /// Makes the literal of a clause of one true, if it has no value.
    pub fn take_unit(&mut self, clause: u32) -> Result<(), AllocError> {
        if self.arena.size(clause) == 1 {
            let l = self.arena.lit(clause, 0);
            if self.trail.value(l) == FREE {
                self.trail.assign(l, clause);
                self.derive_units()?;
            }
        }
        Ok(())
    }

    /// Saves clauses of a literal.
    fn save_all(&mut self, clauses: &[u32], l: u32) -> Result<(), AllocError> {
        for clause in clauses {
            self.eliminated.save(self.arena.lits(*clause), l)?;
        }
        Ok(())
    }

    /// Removes clauses, and notes their variables as changed.
    pub fn remove_all(&mut self, clauses: &[u32]) {
        for clause in clauses {
            self.eliminated.refresh(self.arena.lits(*clause));
            self.arena.remove(*clause);
        }
    }

    /// Puts the resolvents on a literal in the place of the clauses that have it and its opposite. The fewer of these
    /// are saved, and a unit clause in place of the others.
    fn replace(
        &mut self,
        occurrences: &mut Occurrences,
        first: &[u32],
        second: &[u32],
        pivot: u32,
    ) -> Result<(), AllocError> {
        for clause in first {
            self.resolve_with(occurrences, *clause, second, pivot)?;
        }
        if first.len() < second.len() {
            self.save_all(first, pivot)?;
            self.eliminated.save(&[], pivot ^ 1)?;
        } else {
            self.save_all(second, pivot ^ 1)?;
            self.eliminated.save(&[], pivot)?;
        }
        self.remove_all(first);
        self.remove_all(second);
        self.eliminated.set_gone(pivot / 2);
        Ok(())
    }

    /// Tries to eliminate a variable, if it has at most so many clauses.
    fn eliminate(
        &mut self,
        occurrences: &mut Occurrences,
        v: u32,
        most: usize,
    ) -> Result<(), AllocError> {
        let pivot = v.wrapping_mul(2);
        let is_open = self.trail.value(pivot) == FREE && !self.eliminated.is_gone(v);
        if !is_open || !self.eliminated.is_fresh(v) {
            return Ok(());
        }
        let first = occurrences.take(self.alloc, &self.arena, pivot);
        let second = occurrences.take(self.alloc, &self.arena, pivot ^ 1);
        if first.len().saturating_add(second.len()) <= most {
            self.eliminated.set_tried(v);
            let is_long = self.has_long(first.as_slice()) || self.has_long(second.as_slice());
            if !is_long && self.are_few(first.as_slice(), second.as_slice(), pivot) {
                return self.replace(occurrences, first.as_slice(), second.as_slice(), pivot);
            }
        }
        occurrences.put_back(pivot, first);
        occurrences.put_back(pivot ^ 1, second);
        Ok(())
    }

    /// Where the clauses stand that are still there.
    fn occurrences(&self, vars: u32) -> Result<Occurrences, AllocError> {
        let mut occurrences = Occurrences::new(self.alloc, (vars as usize).saturating_mul(2))?;
        for clause in self.given.as_slice() {
            if !self.arena.is_removed(*clause) {
                occurrences.note(*clause, self.arena.lits(*clause))?;
            }
        }
        Ok(occurrences)
    }

    /// Eliminates variables, those of few clauses first.
    fn eliminate_all(&mut self, vars: u32) -> Result<(), AllocError> {
        let mut occurrences = self.occurrences(vars)?;
        for round in 0..ROUNDS {
            for v in 0..vars {
                self.eliminate(&mut occurrences, v, 2 + round)?;
            }
        }
        Ok(())
    }

    /// Simplifies the formula on level 0. The answer is a false clause or `NONE`.
    pub fn simplify(&mut self, vars: u32) -> Result<u32, AllocError> {
        let mut conflict = self.clean()?;
        if conflict == NONE {
            self.eliminate_all(vars)?;
            conflict = self.clean()?;
        }
        drop_removed(&mut self.given, &self.arena);
        Ok(conflict)
    }
}
