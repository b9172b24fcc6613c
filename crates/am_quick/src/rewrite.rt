//! Writing clauses over the roots of equal variables, without the literals that are false on level 0.

use crate::rows::{NONE, at, put};
use crate::search::Search;
use crate::trail::{FALSE, FREE, TRUE};
use std::alloc::AllocError;

/// The place of the first of some rising literals that isn't below one.
fn place_of(lits: &[u32], l: u32) -> usize {
    for i in 0..lits.len() {
        if lits[i] >= l {
            return i;
        }
    }
    lits.len()
}

/// Puts a literal into a row of rising ones, unless it is there. False says that its opposite is.
fn insert(row: &mut Vec<u32>, l: u32) -> Result<bool, AllocError> {
    let place = place_of(row.as_slice(), l);
    if at(row.as_slice(), place) == l {
        return Ok(true);
    }
    if place_of(row.as_slice(), l ^ 1) < row.len() && row.as_slice().contains(&(l ^ 1)) {
        return Ok(false);
    }
    row.push(l)?;
    for i in (place.saturating_add(1)..row.len()).rev() {
        let before = at(row.as_slice(), i.saturating_sub(1));
        put(row.as_mut_slice(), i, before);
    }
    put(row.as_mut_slice(), place, l);
    Ok(true)
}

impl Search {
    /// Whether a clause has a literal that has a value or equals another one.
    fn is_stale(&self, clause: u32) -> bool {
        for l in self.arena.lits(clause) {
            if self.trail.value(*l) != FREE || !self.equalities.is_root(*l) {
                return true;
            }
        }
        false
    }

    /// A clause over roots alone that says the same of what is free, or `NONE` where the clause is true. The old one
    /// is removed if it isn't the answer.
    pub fn rewritten(&mut self, clause: u32) -> Result<u32, AllocError> {
        if !self.is_stale(clause) {
            return Ok(clause);
        }
        let number = self.derivation.begin(self.arena.number(clause))?;
        let mut row = Vec::from_slice(self.alloc, self.arena.lits(clause))?;
        row.sort_unstable();
        self.arena.remove(clause);
        self.eliminated.resolvent.clear();
        for _ in 0..u64::MAX {
            let Some(l) = row.pop() else {
                break;
            };
            if !self.rewrite_literal(&mut row, l)? {
                self.derivation.drop_last();
                return Ok(NONE);
            }
        }
        self.eliminated.resolvent.reverse();
        self.add_resolvent(number)
    }

    /// Puts the partner of a literal into the row of those that are left, or keeps it. False says that the clause is
    /// true.
    fn rewrite_literal(&mut self, row: &mut Vec<u32>, l: u32) -> Result<bool, AllocError> {
        let value = self.trail.value(l);
        if value == TRUE {
            return Ok(false);
        }
        if value == FALSE {
            let unit = at(self.units.as_slice(), (l / 2) as usize);
            self.derivation.step(l / 2, unit)?;
            return Ok(true);
        }
        if self.equalities.is_root(l) {
            self.eliminated.resolvent.push(l)?;
            return Ok(true);
        }
        let reason = self.equalities.reason(l);
        self.derivation.step(l / 2, self.arena.number(reason))?;
        insert(row, self.equalities.partner(l))
    }
}
