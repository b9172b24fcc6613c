//! Unit propagation.

use crate::rows::{NONE, mark_at};
use crate::search::Search;
use crate::trail::{FALSE, TRUE, Trail};
use crate::watches::{Watch, put_watch, watch_at};
use std::alloc::AllocError;

/// The place, from 2 on, of a literal of a clause that isn't false, or the clause's size.
#[inline(always)]
fn open_place(lits: &[u32], values: &[u8]) -> usize {
    for k in 2..lits.len() {
        if mark_at(values, lits[k] as usize) != FALSE {
            return k;
        }
    }
    lits.len()
}

/// What became of a watch.
enum Visit {
    /// It stays, with this blocker.
    Stays(u32),
    /// Its clause is watched elsewhere now.
    Goes,
    /// Its clause is false.
    Fails(u32),
}

impl Trail {
    /// Looks at the clauses of two literals that have a false one. The answer is a false clause or
    /// `NONE`.
    #[inline(always)]
    fn sweep_pairs(&mut self, pairs: &[Watch]) -> u32 {
        for watch in pairs {
            let value = self.value(watch.blocker);
            if value == FALSE {
                return watch.clause;
            }
            if value != TRUE {
                self.assign(watch.blocker, watch.clause);
            }
        }
        NONE
    }
}

impl Search {
    /// Looks at a clause whose blocker isn't true.
    #[inline(always)]
    fn visit(&mut self, clause: u32, gone: u32) -> Result<Visit, AllocError> {
        let other = self.arena.other(clause, gone);
        let value = self.trail.value(other);
        if value == TRUE {
            return Ok(Visit::Stays(other));
        }
        let lits = self.arena.lits(clause);
        let k = open_place(lits, self.trail.values.as_slice());
        if k < lits.len() {
            let next = lits[k];
            self.arena.exchange(clause, other, next, k, gone);
            self.watches.push(
                next,
                Watch {
                    clause,
                    blocker: other,
                },
            )?;
            return Ok(Visit::Goes);
        }
        if value == FALSE {
            return Ok(Visit::Fails(other));
        }
        self.trail.assign(other, clause);
        Ok(Visit::Stays(other))
    }

    /// Looks at the longer clauses that watch a false literal. The answer is a false clause or `NONE`.
    #[inline(always)]
    fn sweep(&mut self, gone: u32) -> Result<u32, AllocError> {
        let mut row = self.watches.take(self.alloc, gone);
        let mut kept: usize = 0;
        let mut conflict = NONE;
        for i in 0..row.len() {
            let mut watch = watch_at(row.as_slice(), i);
            if conflict == NONE && self.trail.value(watch.blocker) != TRUE {
                match self.visit(watch.clause, gone)? {
                    Visit::Stays(blocker) => watch.blocker = blocker,
                    Visit::Goes => continue,
                    Visit::Fails(blocker) => {
                        watch.blocker = blocker;
                        conflict = watch.clause;
                    }
                }
            }
            put_watch(row.as_mut_slice(), kept, watch);
            kept = kept.wrapping_add(1);
        }
        row.truncate(kept);
        self.watches.put_back(gone, row);
        Ok(conflict)
    }

    /// Propagates until nothing is left, or a clause is false, which is the answer.
    pub fn propagate(&mut self) -> Result<u32, AllocError> {
        for _ in 0..u64::MAX {
            if self.trail.head >= self.trail.count {
                break;
            }
            let gone = self.trail.lit(self.trail.head) ^ 1;
            self.trail.head = self.trail.head.wrapping_add(1);
            let pair = self.trail.sweep_pairs(self.pairs.row(gone));
            if pair != NONE {
                return Ok(pair);
            }
            let conflict = self.sweep(gone)?;
            if conflict != NONE {
                return Ok(conflict);
            }
        }
        Ok(NONE)
    }
}
