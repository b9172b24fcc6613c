//! Taking the values of level 0 into the clauses.

use crate::rows::{NONE, at};
use crate::search::Search;
use crate::trail::{FALSE, TRUE};
use std::alloc::AllocError;

/// What the values of level 0 make of a clause.
enum State {
    True,
    False,
    /// All literals but this one are false.
    Unit(u32),
    /// Some are false, and at least two are free.
    Shorter,
    Same,
}

impl Search {
    /// What the values of level 0 make of a clause.
    fn state_of(&self, clause: u32) -> State {
        let mut free: usize = 0;
        let mut last = NONE;
        for l in self.arena.lits(clause) {
            let value = self.trail.value(*l);
            if value == TRUE {
                return State::True;
            }
            if value != FALSE {
                free = free.wrapping_add(1);
                last = *l;
            }
        }
        if free == 0 {
            State::False
        } else if free == 1 {
            State::Unit(last)
        } else if free < self.arena.size(clause) {
            State::Shorter
        } else {
            State::Same
        }
    }

    /// Takes the values of level 0 into a clause. The answer is the clause where it is false, else `NONE`.
    fn clean_clause(&mut self, clause: u32) -> Result<u32, AllocError> {
        match self.state_of(clause) {
            State::False => return Ok(clause),
            State::True => self.arena.remove(clause),
            State::Unit(l) => {
                self.trail.assign(l, clause);
                self.derive_units()?;
                self.arena.remove(clause);
            }
            State::Shorter => self.shorten(clause)?,
            State::Same => {}
        }
        Ok(NONE)
    }

    /// Puts a clause without its false literals in its place.
    fn shorten(&mut self, clause: u32) -> Result<(), AllocError> {
        let number = self.derivation.begin(self.arena.number(clause))?;
        self.eliminated.resolvent.clear();
        for l in self.arena.lits(clause) {
            if self.trail.value(*l) == FALSE {
                let v = *l / 2;
                self.derivation
                    .step(v, at(self.units.as_slice(), v as usize))?;
            } else {
                self.eliminated.resolvent.push(*l)?;
            }
        }
        let _clause = self.add_resolvent(number)?;
        self.arena.remove(clause);
        Ok(())
    }

    /// Takes the values of level 0 into each clause once. The answer is a false clause or `NONE`.
    fn clean_once(&mut self) -> Result<u32, AllocError> {
        for i in 0..self.given.len() {
            let clause = at(self.given.as_slice(), i);
            if !self.arena.is_removed(clause) {
                let conflict = self.clean_clause(clause)?;
                if conflict != NONE {
                    return Ok(conflict);
                }
            }
        }
        Ok(NONE)
    }

    /// Takes the values of level 0 into all clauses. The answer is a false clause or `NONE`.
    pub fn clean(&mut self) -> Result<u32, AllocError> {
        for _ in 0..u64::MAX {
            let before = self.trail.count;
            let conflict = self.clean_once()?;
            if conflict != NONE {
                return Ok(conflict);
            }
            if self.trail.count == before {
                break;
            }
        }
        Ok(NONE)
    }
}
