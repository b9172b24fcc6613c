//! The variables that are eliminated, and how they get values again.

use crate::rows::{NONE, at, mark_at, put_mark};
use crate::trail::{FALSE, TRUE};
use std::alloc::{AllocError, Global};

/// What is eliminated, and what resolvents are worked out in.
#[derive(Drop)]
pub struct Eliminated {
    /// For each variable, whether it is eliminated.
    gone: Vec<u8>,
    /// For each variable, whether its clauses changed since it was tried.
    fresh: Vec<u8>,
    /// The literals of the clause that others are resolved with.
    marks: Vec<u8>,
    pub resolvent: Vec<u32>,
    /// The clauses that went: the literals of each, that of its variable first, and then how many they are.
    saved: Vec<u32>,
}

impl Eliminated {
    pub fn new(alloc: Global, vars: usize) -> Result<Eliminated, AllocError> {
        Ok(Eliminated {
            gone: vec![in alloc; 0; vars]?,
            fresh: vec![in alloc; 1; vars]?,
            marks: vec![in alloc; 0; vars.saturating_mul(2)]?,
            resolvent: Vec::new(alloc),
            saved: Vec::new(alloc),
        })
    }

    /// Whether a variable is eliminated.
    #[inline(always)]
    pub fn is_gone(&self, v: u32) -> bool {
        mark_at(self.gone.as_slice(), v as usize) == 1
    }

    pub fn set_gone(&mut self, v: u32) {
        put_mark(self.gone.as_mut_slice(), v as usize, 1);
    }

    /// Whether a variable's clauses changed since it was tried.
    pub fn is_fresh(&self, v: u32) -> bool {
        mark_at(self.fresh.as_slice(), v as usize) == 1
    }

    pub fn set_tried(&mut self, v: u32) {
        put_mark(self.fresh.as_mut_slice(), v as usize, 0);
    }

    /// Notes that the clauses of some literals changed.
    pub fn refresh(&mut self, lits: &[u32]) {
        for l in lits {
            put_mark(self.fresh.as_mut_slice(), (*l / 2) as usize, 1);
        }
    }

    /// Sets the marks of the literals of a clause, but for one.
    pub fn mark(&mut self, lits: &[u32], besides: u32, mark: u8) {
        for l in lits {
            if *l != besides {
                put_mark(self.marks.as_mut_slice(), *l as usize, mark);
            }
        }
    }

    #[inline(always)]
    fn is_marked(&self, l: u32) -> bool {
        mark_at(self.marks.as_slice(), l as usize) == 1
    }

    /// How many literals of a clause but for one aren't marked, or `NONE` where the opposite of one is.
    pub fn count_more(&self, lits: &[u32], besides: u32) -> u32 {
        let mut count: u32 = 0;
        for l in lits {
            if *l == besides || self.is_marked(*l) {
                continue;
            }
            if self.is_marked(*l ^ 1) {
                return NONE;
            }
            count = count.wrapping_add(1);
        }
        count
    }

    /// Makes the resolvent of a marked clause and another one, in which the pivot's opposite stands.
    pub fn resolve(&mut self, marked: &[u32], other: &[u32], pivot: u32) -> Result<(), AllocError> {
        self.resolvent.clear();
        for l in marked {
            if *l != pivot {
                self.resolvent.push(*l)?;
            }
        }
        self.append_unmarked(other, pivot ^ 1)
    }

    /// Appends to the resolvent the literals of a clause but for one that aren't marked.
    fn append_unmarked(&mut self, lits: &[u32], besides: u32) -> Result<(), AllocError> {
        for l in lits {
            if *l != besides && !self.is_marked(*l) {
                self.resolvent.push(*l)?;
            }
        }
        Ok(())
    }

    /// Puts the literals of a clause but for a variable's into the resolvent, those that aren't there.
    pub fn include(&mut self, lits: &[u32], besides: u32) -> Result<(), AllocError> {
        for l in lits {
            if *l / 2 != besides && !self.resolvent.as_slice().contains(l) {
                self.resolvent.push(*l)?;
            }
        }
        Ok(())
    }

    /// Saves a clause with a literal first.
    pub fn save(&mut self, lits: &[u32], first: u32) -> Result<(), AllocError> {
        self.saved.push(first)?;
        let mut count: u32 = 1;
        for l in lits {
            if *l != first {
                self.saved.push(*l)?;
                count = count.wrapping_add(1);
            }
        }
        self.saved.push(count)?;
        Ok(())
    }

    /// Gives the eliminated variables values under which the saved clauses are true: those saved last come first, and
    /// the first literal of each that isn't true yet is made true.
    pub fn extend(&self, values: &mut [u8]) {
        let mut end = self.saved.len();
        for _ in 0..u64::MAX {
            if end == 0 {
                break;
            }
            end -= 1;
            let count = at(self.saved.as_slice(), end) as usize;
            let start = end.saturating_sub(count);
            if !has_true(self.saved.as_slice(), start, end, values) {
                let l = at(self.saved.as_slice(), start);
                put_mark(values, l as usize, TRUE);
                put_mark(values, (l ^ 1) as usize, FALSE);
            }
            end = start;
        }
    }
}

/// Whether one of the literals between two places is true.
fn has_true(lits: &[u32], start: usize, end: usize, values: &[u8]) -> bool {
    for i in start..end {
        if mark_at(values, at(lits, i) as usize) == TRUE {
            return true;
        }
    }
    false
}
