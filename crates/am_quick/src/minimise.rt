//! Leaving out of a learnt clause the literals that its others imply.

use crate::rows::{NONE, at};
use crate::scratch::{CLEAR, FIXED, IMPLIED, IN_CLAUSE, NEEDED};
use crate::search::Search;
use std::alloc::AllocError;

/// A literal is left out where its opposite is implied through at most so many other variables.
const FARTHEST: usize = 8;

impl Search {
    /// Whether the other literals of the clause, and those of level 0, imply the opposite of a literal.
    fn is_implied(&mut self, variable: u32) -> Result<bool, AllocError> {
        let before = self.scratch.touched.len();
        self.scratch.stack.clear();
        self.scratch.stack.push(variable)?;
        for _ in 0..=FARTHEST {
            let Some(v) = self.scratch.stack.pop() else {
                return Ok(true);
            };
            if !self.follow(v)? {
                break;
            }
        }
        self.forget_implied(before);
        Ok(false)
    }

    /// Takes back the marks of the touched variables from a place on.
    fn forget_implied(&mut self, before: usize) {
        for i in before..self.scratch.touched.len() {
            let v = at(self.scratch.touched.as_slice(), i);
            if self.scratch.mark(v) == IMPLIED {
                self.scratch.set(v, CLEAR);
            }
        }
    }

    /// Looks at the reason of a variable. False says that it leads out of the clause.
    #[inline(always)]
    fn follow(&mut self, variable: u32) -> Result<bool, AllocError> {
        let reason = self.trail.reason_of(variable);
        for l in self.arena.lits(reason) {
            let v = *l / 2;
            let mark = self.scratch.mark(v);
            if v == variable || mark == IN_CLAUSE || mark == IMPLIED || mark == FIXED {
                continue;
            }
            let level = self.trail.level_of(v);
            if level == 0 {
                continue;
            }
            if self.trail.reason_of(v) == NONE || !self.scratch.is_stamped(level) {
                return Ok(false);
            }
            self.scratch.touch(v, IMPLIED)?;
            self.scratch.stack.push(v)?;
        }
        Ok(true)
    }

    /// Keeps the literals that the others don't imply. The places of those that go are noted for the chain.
    pub fn minimise(&mut self) -> Result<(), AllocError> {
        let _levels = self.scratch.count_levels_of_clause(&self.trail);
        self.scratch.kept.clear();
        self.scratch.cone.clear();
        for i in 0..self.scratch.clause.len() {
            let l = at(self.scratch.clause.as_slice(), i);
            let v = l / 2;
            if self.trail.reason_of(v) != NONE && self.is_implied(v)? {
                self.scratch.cone.push(self.trail.place_of(v))?;
            } else {
                self.scratch.kept.push(l)?;
            }
        }
        Ok(())
    }

    /// Resolves away the literals that were left out, and those of level 0.
    pub fn resolve_rest(&mut self) -> Result<(), AllocError> {
        self.complete_cone()?;
        self.scratch.cone.sort_unstable();
        for i in (0..self.scratch.cone.len()).rev() {
            let v = self.cone_variable(i);
            let reason = self.trail.reason_of(v);
            self.derivation.step(v, self.arena.number(reason))?;
        }
        self.resolve_fixed()
    }

    /// The variable at a place of the cone.
    #[inline(always)]
    fn cone_variable(&self, i: usize) -> u32 {
        self.trail.lit(at(self.scratch.cone.as_slice(), i) as usize) / 2
    }

    /// Adds to the cone what the reasons of its variables bring in.
    fn complete_cone(&mut self) -> Result<(), AllocError> {
        for i in 0..u32::MAX as usize {
            if i >= self.scratch.cone.len() {
                break;
            }
            let v = self.cone_variable(i);
            self.need_reason(v)?;
        }
        Ok(())
    }

    /// Notes the variables that the reason of one brings in.
    #[inline(always)]
    fn need_reason(&mut self, variable: u32) -> Result<(), AllocError> {
        let reason = self.trail.reason_of(variable);
        for l in self.arena.lits(reason) {
            let v = *l / 2;
            if v == variable {
                continue;
            }
            let mark = self.scratch.mark(v);
            if mark == IMPLIED {
                self.scratch.set(v, NEEDED);
                self.scratch.cone.push(self.trail.place_of(v))?;
            } else if mark == CLEAR && self.trail.level_of(v) == 0 {
                self.scratch.fix(v)?;
            }
        }
        Ok(())
    }

    /// Resolves away the literals of level 0 that were met.
    fn resolve_fixed(&mut self) -> Result<(), AllocError> {
        for v in self.scratch.fixed.as_slice() {
            self.derivation
                .step(*v, at(self.units.as_slice(), *v as usize))?;
        }
        Ok(())
    }
}
