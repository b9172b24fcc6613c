//! When to restart, and when to forget learnt clauses.

use crate::rows::{at, put};
use std::alloc::{AllocError, Global};

/// The average LBD of so many last clauses is compared. No restart comes sooner after another.
const RECENT: u32 = 50;

/// A restart comes where the recent average is more than so many percent of the whole one.
const PERCENT: u64 = 125;

/// After so many conflicts clauses are forgotten first.
const FIRST: u64 = 700;

/// By so many conflicts the next time comes later.
const LONGER: u64 = 300;

/// The LBD of the clauses that were learnt, and the number of conflicts.
#[derive(Drop)]
pub struct Pace {
    recent: Vec<u32>,
    next: u32,
    recent_sum: u64,
    sum: u64,
    pub conflicts: u64,
    /// Conflicts since the last restart.
    since: u64,
    next_forget: u64,
    forget_step: u64,
}

impl Pace {
    pub fn new(alloc: Global) -> Result<Pace, AllocError> {
        Ok(Pace {
            recent: vec![in alloc; 0; RECENT as usize]?,
            next: 0,
            recent_sum: 0,
            sum: 0,
            conflicts: 0,
            since: 0,
            next_forget: FIRST,
            forget_step: FIRST,
        })
    }

    /// Notes a conflict, whose clause has this LBD.
    pub fn note(&mut self, lbd: u32) {
        let old = at(self.recent.as_slice(), self.next as usize);
        put(self.recent.as_mut_slice(), self.next as usize, lbd);
        self.recent_sum = self
            .recent_sum
            .wrapping_add(lbd as u64)
            .wrapping_sub(old as u64);
        self.next = if self.next < RECENT - 1 {
            self.next + 1
        } else {
            0
        };
        self.sum = self.sum.wrapping_add(lbd as u64);
        self.conflicts = self.conflicts.wrapping_add(1);
        self.since = self.since.wrapping_add(1);
    }

    /// Whether it is time to restart: the last clauses are bad against the average.
    pub fn restarts(&mut self) -> bool {
        if self.since < RECENT as u64 {
            return false;
        }
        let recent = self
            .recent_sum
            .wrapping_mul(self.conflicts)
            .wrapping_mul(100);
        let whole = self.sum.wrapping_mul(RECENT as u64).wrapping_mul(PERCENT);
        if recent > whole {
            self.since = 0;
            return true;
        }
        false
    }

    /// Whether it is time to forget clauses.
    pub fn forgets(&mut self) -> bool {
        if self.conflicts < self.next_forget {
            return false;
        }
        self.forget_step = self.forget_step.wrapping_add(LONGER);
        self.next_forget = self.conflicts.wrapping_add(self.forget_step);
        true
    }
}
