//! The values of the literals, and the trail of those that are true.

use crate::rows::{NONE, at, mark_at, put, put_mark, short};
use std::alloc::{AllocError, Global};

/// A literal's value.
pub const FREE: u8 = 0;

pub const TRUE: u8 = 1;

pub const FALSE: u8 = 2;

/// Of each literal its value; of each variable its level, its reason, its place on the trail and its kept phase
/// (1 for false); and the true literals in the order of their coming.
#[derive(Drop)]
pub struct Trail {
    pub values: Vec<u8>,
    levels: Vec<u32>,
    reasons: Vec<u32>,
    places: Vec<u32>,
    phases: Vec<u8>,
    lits: Vec<u32>,
    /// How many literals stood on the trail when each level began.
    starts: Vec<u32>,
    pub count: usize,
    /// How many literals have been propagated.
    pub head: usize,
    pub level: u32,
}

impl Trail {
    /// An empty trail. All phases are false.
    pub fn new(alloc: Global, vars: usize) -> Result<Trail, AllocError> {
        Ok(Trail {
            values: vec![in alloc; FREE; vars.saturating_mul(2)]?,
            levels: vec![in alloc; 0; vars]?,
            reasons: vec![in alloc; NONE; vars]?,
            places: vec![in alloc; 0; vars]?,
            phases: vec![in alloc; 1; vars]?,
            lits: vec![in alloc; 0; vars]?,
            starts: vec![in alloc; 0; vars]?,
            count: 0,
            head: 0,
            level: 0,
        })
    }

    #[inline(always)]
    pub fn value(&self, l: u32) -> u8 {
        mark_at(self.values.as_slice(), l as usize)
    }

    #[inline(always)]
    pub fn level_of(&self, variable: u32) -> u32 {
        at(self.levels.as_slice(), variable as usize)
    }

    /// The clause that made a variable's literal true, or `NONE` for a decision.
    #[inline(always)]
    pub fn reason_of(&self, variable: u32) -> u32 {
        at(self.reasons.as_slice(), variable as usize)
    }

    #[inline(always)]
    pub fn set_reason(&mut self, variable: u32, clause: u32) {
        put(self.reasons.as_mut_slice(), variable as usize, clause);
    }

    #[inline(always)]
    pub fn place_of(&self, variable: u32) -> u32 {
        at(self.places.as_slice(), variable as usize)
    }

    /// 1 where a variable is to be decided false, else 0.
    #[inline(always)]
    pub fn phase_of(&self, variable: u32) -> u32 {
        u32::from(mark_at(self.phases.as_slice(), variable as usize) != 0)
    }

    /// The literal at a place of the trail.
    #[inline(always)]
    pub fn lit(&self, i: usize) -> u32 {
        at(self.lits.as_slice(), i)
    }

    /// Makes a literal true on the current level.
    #[inline(always)]
    pub fn assign(&mut self, l: u32, reason: u32) {
        let variable = (l / 2) as usize;
        put_mark(self.values.as_mut_slice(), l as usize, TRUE);
        put_mark(self.values.as_mut_slice(), (l ^ 1) as usize, FALSE);
        put(self.levels.as_mut_slice(), variable, self.level);
        put(self.reasons.as_mut_slice(), variable, reason);
        put(self.places.as_mut_slice(), variable, short(self.count));
        put(self.lits.as_mut_slice(), self.count, l);
        self.count = self.count.wrapping_add(1);
    }

    /// Begins a level with a decided literal.
    pub fn decide(&mut self, l: u32) {
        put(
            self.starts.as_mut_slice(),
            self.level as usize,
            short(self.count),
        );
        self.level = self.level.wrapping_add(1);
        self.assign(l, NONE);
    }

    /// Takes the last literal away, which keeps its phase, and gives its variable.
    #[inline(always)]
    pub fn take_last(&mut self) -> u32 {
        self.count = self.count.saturating_sub(1);
        let l = self.lit(self.count);
        put_mark(self.values.as_mut_slice(), l as usize, FREE);
        put_mark(self.values.as_mut_slice(), (l ^ 1) as usize, FREE);
        put_mark(self.phases.as_mut_slice(), (l / 2) as usize, (l % 2) as u8);
        l / 2
    }

    /// How many literals stand on the trail up to a level.
    pub fn end_of(&self, level: u32) -> usize {
        at(self.starts.as_slice(), level as usize) as usize
    }
}
