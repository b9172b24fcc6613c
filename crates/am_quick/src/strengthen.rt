//! Making the clauses of a definition simpler by each other.

use crate::rows::{NONE, at};
use crate::search::Search;
use std::alloc::AllocError;

/// How a clause makes another one simpler.
enum Effect {
    Nothing,
    /// The other one says no more.
    Subsumes,
    /// Resolving on this literal's variable leaves the other one without its opposite.
    Strengthens(u32),
}

/// How a clause makes another one simpler.
fn effect_of(lits: &[u32], other: &[u32]) -> Effect {
    let mut pivot = NONE;
    for l in lits {
        if other.contains(l) {
            continue;
        }
        if pivot != NONE || !other.contains(&(*l ^ 1)) {
            return Effect::Nothing;
        }
        pivot = *l;
    }
    if pivot == NONE {
        Effect::Subsumes
    } else {
        Effect::Strengthens(pivot)
    }
}

impl Search {
    /// Derives a clause without the opposite of a literal, by resolving with one that has the literal.
    fn strengthened(&mut self, clause: u32, by: u32, l: u32) -> Result<u32, AllocError> {
        let number = self.derivation.begin(self.arena.number(clause))?;
        self.derivation.step(l / 2, self.arena.number(by))?;
        self.eliminated.resolvent.clear();
        for other in self.arena.lits(clause) {
            if *other != (l ^ 1) {
                self.eliminated.resolvent.push(*other)?;
            }
        }
        self.arena.remove(clause);
        let new = self.add_resolvent(number)?;
        self.take_unit(new)?;
        Ok(new)
    }

    /// Makes the clause at one place simpler by that at another one. False says that nothing changes.
    fn strengthen(&mut self, row: &mut Vec<u32>, i: usize, by: usize) -> Result<bool, AllocError> {
        let (clause, other) = (at(row.as_slice(), i), at(row.as_slice(), by));
        if i == by || clause == NONE || other == NONE || i >= row.len() {
            return Ok(false);
        }
        match effect_of(self.arena.lits(other), self.arena.lits(clause)) {
            Effect::Nothing => return Ok(false),
            Effect::Subsumes => {
                self.arena.remove(clause);
                row[i] = NONE;
            }
            Effect::Strengthens(l) => row[i] = self.strengthened(clause, other, l)?,
        }
        Ok(true)
    }

    /// Makes the clause at a place simpler by the others. False says that nothing changes.
    fn strengthen_at(&mut self, row: &mut Vec<u32>, i: usize) -> Result<bool, AllocError> {
        let mut changes = false;
        for by in 0..row.len() {
            if self.strengthen(row, i, by)? {
                changes = true;
            }
        }
        Ok(changes)
    }

    /// Makes each clause simpler by the others once.
    fn strengthen_once(&mut self, row: &mut Vec<u32>) -> Result<bool, AllocError> {
        let mut changes = false;
        for i in 0..row.len() {
            if self.strengthen_at(row, i)? {
                changes = true;
            }
        }
        row.retain(|clause| *clause != NONE);
        Ok(changes)
    }

    /// Makes the clauses of a definition simpler until nothing changes.
    pub fn strengthen_all(&mut self, row: &mut Vec<u32>) -> Result<(), AllocError> {
        for _ in 0..u64::MAX {
            if !self.strengthen_once(row)? {
                break;
            }
        }
        Ok(())
    }
}
