//! What a conflict is worked out in.

use crate::rows::{at, mark_at, put, put_mark};
use crate::trail::Trail;
use std::alloc::{AllocError, Global};

/// The marks of variables. One without a mark:
pub const CLEAR: u8 = 0;

/// It stands in the clause.
pub const IN_CLAUSE: u8 = 1;

/// Its literal is implied by the clause's others.
pub const IMPLIED: u8 = 2;

/// It is implied, and its reason is needed for the chain.
pub const NEEDED: u8 = 3;

/// It was resolved on.
pub const RESOLVED: u8 = 4;

/// It has its value on level 0.
pub const FIXED: u8 = 5;

/// Marks, stamps, and the clause that is learnt.
#[derive(Drop)]
pub struct Scratch {
    marks: Vec<u8>,
    /// The variables that have marks.
    pub touched: Vec<u32>,
    /// The literals of the clause.
    pub clause: Vec<u32>,
    /// Those of them that the others don't imply.
    pub kept: Vec<u32>,
    /// Variables whose reasons are still to be looked at.
    pub stack: Vec<u32>,
    /// The places of the variables that are resolved on after the first unique implication point.
    pub cone: Vec<u32>,
    /// The variables of level 0.
    pub fixed: Vec<u32>,
    /// For each level when it was last counted.
    stamps: Vec<u32>,
    stamp: u32,
}

impl Scratch {
    pub fn new(alloc: Global, vars: usize) -> Result<Scratch, AllocError> {
        Ok(Scratch {
            marks: vec![in alloc; CLEAR; vars]?,
            touched: Vec::new(alloc),
            clause: Vec::new(alloc),
            kept: Vec::new(alloc),
            stack: Vec::new(alloc),
            cone: Vec::new(alloc),
            fixed: Vec::new(alloc),
            stamps: vec![in alloc; 0; vars.saturating_add(1)]?,
            stamp: 0,
        })
    }

    #[inline(always)]
    pub fn mark(&self, v: u32) -> u8 {
        mark_at(self.marks.as_slice(), v as usize)
    }

    #[inline(always)]
    pub fn set(&mut self, v: u32, mark: u8) {
        put_mark(self.marks.as_mut_slice(), v as usize, mark);
    }

    /// Marks a variable that has no mark.
    #[inline(always)]
    pub fn touch(&mut self, v: u32, mark: u8) -> Result<(), AllocError> {
        self.set(v, mark);
        self.touched.push(v)?;
        Ok(())
    }

    /// Marks a variable of level 0.
    #[inline(always)]
    pub fn fix(&mut self, v: u32) -> Result<(), AllocError> {
        self.touch(v, FIXED)?;
        self.fixed.push(v)?;
        Ok(())
    }

    /// Takes all marks away.
    pub fn clear(&mut self) {
        for i in 0..self.touched.len() {
            let v = at(self.touched.as_slice(), i);
            self.set(v, CLEAR);
        }
        self.touched.clear();
    }

    /// Whether a level was stamped by the last count.
    #[inline(always)]
    pub fn is_stamped(&self, level: u32) -> bool {
        at(self.stamps.as_slice(), level as usize) == self.stamp
    }

    /// Stamps a level. The answer is 1 where it wasn't stamped, else 0.
    #[inline(always)]
    fn stamp(&mut self, level: u32) -> u32 {
        if self.is_stamped(level) {
            return 0;
        }
        put(self.stamps.as_mut_slice(), level as usize, self.stamp);
        1
    }

    /// How many levels some literals stand on. Their levels are stamped.
    pub fn count_levels(&mut self, trail: &Trail, lits: &[u32]) -> u32 {
        self.stamp = self.stamp.wrapping_add(1);
        let mut count: u32 = 0;
        for l in lits {
            count = count.wrapping_add(self.stamp(trail.level_of(*l / 2)));
        }
        count
    }

    /// How many levels the clause stands on. They are stamped.
    pub fn count_levels_of_clause(&mut self, trail: &Trail) -> u32 {
        self.stamp = self.stamp.wrapping_add(1);
        let mut count: u32 = 0;
        for i in 0..self.clause.len() {
            let level = trail.level_of(at(self.clause.as_slice(), i) / 2);
            count = count.wrapping_add(self.stamp(level));
        }
        count
    }

    /// Makes the clause of the asserting literal and the kept ones.
    pub fn take_kept(&mut self, asserting: u32) -> Result<(), AllocError> {
        self.clause.clear();
        self.clause.push(asserting)?;
        self.clause.extend_from_slice(self.kept.as_slice())?;
        Ok(())
    }
}
