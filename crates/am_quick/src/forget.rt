//! Forgetting learnt clauses.

use crate::arena::Arena;
use crate::rows::{NONE, at, put};
use crate::search::Search;
use crate::trail::{TRUE, Trail};
use crate::watches::{Watch, Watches, put_watch};
use std::alloc::AllocError;

/// Clauses of an LBD up to this are never forgotten.
const KEPT: u32 = 2;

/// Clauses of an LBD up to this aren't forgotten where they were used of late.
const KEPT_IF_USED: u32 = 6;

/// So many percent of the clauses that may be forgotten are.
const PERCENT: u64 = 75;

/// An LBD from here on counts as one less than this.
const DISTANCES: usize = 256;

fn distance(lbd: u32) -> usize {
    (lbd as usize).min(DISTANCES - 1)
}

impl Search {
    /// Whether a clause may be forgotten.
    fn may_go(&self, clause: u32) -> bool {
        let lbd = self.arena.lbd(clause);
        lbd > KEPT
            && self.arena.size(clause) > 2
            && (self.arena.used(clause) == 0 || lbd > KEPT_IF_USED)
            && !self.is_reason(clause)
    }

    /// Whether a clause made a literal true.
    fn is_reason(&self, clause: u32) -> bool {
        for l in self.arena.lits(clause) {
            if self.trail.reason_of(*l / 2) == clause && self.trail.value(*l) == TRUE {
                return true;
            }
        }
        false
    }

    /// Forgets most of the clauses that may go, those of great LBD first.
    pub fn forget(&mut self) -> Result<(), AllocError> {
        let counts = self.count_distances()?;
        let mut all: u32 = 0;
        for count in counts.as_slice() {
            all = all.saturating_add(*count);
        }
        let quota = (all as u64 * PERCENT / 100) as u32;
        self.remove_far(counts.as_slice(), quota);
        self.collect()
    }

    /// For each LBD, how many clauses may go.
    fn count_distances(&self) -> Result<Vec<u32>, AllocError> {
        let mut counts = vec![in self.alloc; 0u32; DISTANCES]?;
        for clause in self.learnt.as_slice() {
            if self.may_go(*clause) {
                let place = distance(self.arena.lbd(*clause));
                let count = at(counts.as_slice(), place);
                put(counts.as_mut_slice(), place, count.wrapping_add(1));
            }
        }
        Ok(counts)
    }

    /// Removes so many clauses, those of great LBD first.
    fn remove_far(&mut self, counts: &[u32], quota: u32) {
        let (limit, mut left) = limit_of(counts, quota);
        for i in 0..self.learnt.len() {
            let clause = at(self.learnt.as_slice(), i);
            let place = distance(self.arena.lbd(clause));
            if place >= limit && self.may_go(clause) {
                if place > limit {
                    self.arena.remove(clause);
                } else if left > 0 {
                    left -= 1;
                    self.arena.remove(clause);
                }
            }
            self.arena.set_used(clause, 0);
        }
    }

    /// Copies the clauses that stay to a new store.
    fn collect(&mut self) -> Result<(), AllocError> {
        let mut arena = Arena::new(self.alloc);
        move_clauses(&mut self.arena, &mut arena, self.given.as_mut_slice())?;
        move_clauses(&mut self.arena, &mut arena, self.learnt.as_mut_slice())?;
        self.learnt.retain(|clause| *clause != NONE);
        move_watches(&self.arena, &mut self.watches);
        move_watches(&self.arena, &mut self.pairs);
        move_reasons(&self.arena, &mut self.trail);
        self.arena = arena;
        Ok(())
    }
}

/// The least LBD of which clauses go, and how many of it, where so many go in all.
fn limit_of(counts: &[u32], quota: u32) -> (usize, u32) {
    let mut left = quota;
    for limit in (0..DISTANCES).rev() {
        let count = at(counts, limit);
        if count >= left {
            return (limit, left);
        }
        left -= count;
    }
    (0, left)
}

/// Copies the clauses that stay. The word for use in the old store then has the new place.
fn move_clauses(from: &mut Arena, to: &mut Arena, clauses: &mut [u32]) -> Result<(), AllocError> {
    for i in 0..clauses.len() {
        let clause = clauses[i];
        let lbd = from.lbd(clause);
        let place = if lbd == NONE {
            NONE
        } else {
            to.push(
                from.lits(clause),
                from.number(clause),
                lbd,
                from.used(clause),
            )?
        };
        from.set_used(clause, place);
        clauses[i] = place;
    }
    Ok(())
}

fn move_row(arena: &Arena, row: &mut Vec<Watch>) {
    let mut kept: usize = 0;
    for i in 0..row.len() {
        let watch = row[i];
        let place = arena.used(watch.clause);
        if place != NONE {
            let moved = Watch {
                clause: place,
                blocker: watch.blocker,
            };
            put_watch(row.as_mut_slice(), kept, moved);
            kept = kept.wrapping_add(1);
        }
    }
    row.truncate(kept);
}

fn move_watches(arena: &Arena, watches: &mut Watches) {
    for i in 0..watches.rows.len() {
        let row = &mut watches.rows[i];
        move_row(arena, row);
    }
}

fn move_reasons(arena: &Arena, trail: &mut Trail) {
    for i in 0..trail.count {
        let v = trail.lit(i) / 2;
        let reason = trail.reason_of(v);
        if reason != NONE {
            trail.set_reason(v, arena.used(reason));
        }
    }
}
