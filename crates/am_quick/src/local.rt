//! Deriving a short clause from a few others by unit propagation over these alone.

use crate::arena::Arena;
use crate::rows::{NONE, at};
use crate::search::Search;
use std::alloc::{AllocError, Global};

/// A few literals that are true, and the clauses that made them so.
#[derive(Drop)]
struct Local {
    lits: Vec<u32>,
    reasons: Vec<u32>,
}

/// What the true literals make of a clause.
enum State {
    Open,
    Unit(u32),
    False,
}

impl Local {
    fn new(alloc: Global) -> Local {
        Local {
            lits: Vec::new(alloc),
            reasons: Vec::new(alloc),
        }
    }

    fn assume(&mut self, l: u32, reason: u32) -> Result<(), AllocError> {
        self.lits.push(l)?;
        self.reasons.push(reason)?;
        Ok(())
    }

    /// Assumes the opposites of some literals.
    fn refuse(&mut self, lits: &[u32]) -> Result<(), AllocError> {
        for l in lits {
            self.assume(*l ^ 1, NONE)?;
        }
        Ok(())
    }

    fn state_of(&self, lits: &[u32]) -> State {
        let mut last = NONE;
        for l in lits {
            if self.lits.as_slice().contains(l) || (last != NONE && !self.is_false(*l)) {
                return State::Open;
            }
            if !self.is_false(*l) {
                last = *l;
            }
        }
        if last == NONE {
            State::False
        } else {
            State::Unit(last)
        }
    }

    fn is_false(&self, l: u32) -> bool {
        self.lits.as_slice().contains(&(l ^ 1))
    }

    /// Looks at each clause once. The answer is a false one or `NONE`.
    fn propagate_once(&mut self, arena: &Arena, clauses: &[u32]) -> Result<u32, AllocError> {
        for clause in clauses {
            match self.state_of(arena.lits(*clause)) {
                State::Open => {}
                State::Unit(l) => self.assume(l, *clause)?,
                State::False => return Ok(*clause),
            }
        }
        Ok(NONE)
    }

    /// Propagates until a clause is false, which is the answer, or nothing changes, which `NONE` says.
    fn propagate(&mut self, arena: &Arena, clauses: &[u32]) -> Result<u32, AllocError> {
        for _ in 0..u64::MAX {
            let before = self.lits.len();
            let conflict = self.propagate_once(arena, clauses)?;
            if conflict != NONE || self.lits.len() == before {
                return Ok(conflict);
            }
        }
        Ok(NONE)
    }
}

impl Search {
    /// Derives a clause of some of these literals from some clauses by unit propagation. `NONE` says that it fails.
    pub fn derive(&mut self, lits: &[u32], clauses: &[u32]) -> Result<u32, AllocError> {
        let mut local = Local::new(self.alloc);
        local.refuse(lits)?;
        let conflict = local.propagate(&self.arena, clauses)?;
        if conflict == NONE {
            return Ok(NONE);
        }
        let number = self.derivation.begin(self.arena.number(conflict))?;
        self.eliminated.resolvent.clear();
        self.eliminated.include(self.arena.lits(conflict), NONE)?;
        self.resolve_local(&local)?;
        self.eliminated.resolvent.sort_unstable();
        self.add_resolvent(number)
    }

    /// Resolves the clause in the making with the reasons of the literals whose opposites it has.
    fn resolve_local(&mut self, local: &Local) -> Result<(), AllocError> {
        for i in (0..local.lits.len()).rev() {
            let l = at(local.lits.as_slice(), i);
            let reason = at(local.reasons.as_slice(), i);
            if reason != NONE && self.eliminated.resolvent.as_slice().contains(&(l ^ 1)) {
                self.derivation.step(l / 2, self.arena.number(reason))?;
                self.eliminated.resolvent.retain(|other| *other != (l ^ 1));
                self.eliminated.include(self.arena.lits(reason), l / 2)?;
            }
        }
        Ok(())
    }
}
