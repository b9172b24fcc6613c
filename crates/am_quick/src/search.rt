//! The search.

use crate::arena::Arena;
use crate::derivation::Derivation;
use crate::eliminated::Eliminated;
use crate::equalities::Equalities;
use crate::found::Found;
use crate::order::Order;
use crate::pace::Pace;
use crate::rows::{NONE, at, mark_at, put};
use crate::scratch::Scratch;
use crate::trail::{FALSE, FREE, TRUE, Trail};
use crate::watches::{Watch, Watches};
use am_lit::{Formula, Values};
use std::alloc::{AllocError, Global};

/// A search: its clauses, its trail, and what it derived.
#[derive(Drop)]
pub struct Search {
    pub alloc: Global,
    pub arena: Arena,
    /// The formula's clauses and what simplifying put in their place.
    pub given: Vec<u32>,
    /// The clauses that conflicts gave.
    pub learnt: Vec<u32>,
    /// Watches of the clauses of two literals, and of the longer ones.
    pub pairs: Watches,
    pub watches: Watches,
    pub trail: Trail,
    pub order: Order,
    pub pace: Pace,
    pub derivation: Derivation,
    pub scratch: Scratch,
    pub equalities: Equalities,
    pub eliminated: Eliminated,
    /// For each variable of level 0 the number of its unit clause.
    pub units: Vec<u32>,
    /// How many literals of the trail have unit clauses.
    units_end: usize,
}

impl Search {
    fn new(alloc: Global, formula: &Formula) -> Result<Search, AllocError> {
        let vars = formula.vars as usize;
        Ok(Search {
            alloc,
            arena: Arena::new(alloc),
            given: Vec::new(alloc),
            learnt: Vec::new(alloc),
            pairs: Watches::new(alloc, vars.saturating_mul(2))?,
            watches: Watches::new(alloc, vars.saturating_mul(2))?,
            trail: Trail::new(alloc, vars)?,
            order: Order::new(alloc, vars)?,
            pace: Pace::new(alloc)?,
            derivation: Derivation::new(alloc, formula.clauses.len()),
            scratch: Scratch::new(alloc, vars)?,
            equalities: Equalities::new(alloc, vars)?,
            eliminated: Eliminated::new(alloc, vars)?,
            units: vec![in alloc; NONE; vars]?,
            units_end: 0,
        })
    }

    /// Watches the first two literals of a clause, if it has them.
    pub fn watch(&mut self, clause: u32) -> Result<(), AllocError> {
        let size = self.arena.size(clause);
        if size < 2 {
            return Ok(());
        }
        let first = self.arena.lit(clause, 0);
        let second = self.arena.lit(clause, 1);
        let of_first = Watch {
            clause,
            blocker: second,
        };
        let of_second = Watch {
            clause,
            blocker: first,
        };
        if size == 2 {
            self.pairs.push(first, of_first)?;
            self.pairs.push(second, of_second)
        } else {
            self.watches.push(first, of_first)?;
            self.watches.push(second, of_second)
        }
    }

    /// Stores a clause of the formula.
    fn take_clause(&mut self, formula: &Formula, number: u32) -> Result<u32, AllocError> {
        let mut lits = Vec::new(self.alloc);
        if number < formula.clauses.len() {
            for l in formula.clauses.clause(number) {
                lits.push(l.code())?;
            }
        }
        let clause = self.arena.push(lits.as_slice(), number, 0, 0)?;
        self.given.push(clause)?;
        Ok(clause)
    }

    /// Stores the formula's clauses, and makes the literals of unit clauses true. The answer is a false clause or
    /// `NONE`.
    fn take_formula(&mut self, formula: &Formula) -> Result<u32, AllocError> {
        let mut conflict = NONE;
        for number in 0..formula.clauses.len() {
            let clause = self.take_clause(formula, number)?;
            let size = self.arena.size(clause);
            let l = self.arena.lit(clause, 0);
            let value = self.trail.value(l);
            if size == 0 || (size == 1 && value == FALSE) {
                conflict = clause;
            } else if size == 1 && value == FREE {
                self.trail.assign(l, clause);
            }
        }
        Ok(conflict)
    }

    /// Watches all clauses.
    fn watch_all(&mut self) -> Result<(), AllocError> {
        for i in 0..self.given.len() {
            let clause = at(self.given.as_slice(), i);
            self.watch(clause)?;
        }
        Ok(())
    }

    /// Gives each literal of level 0 a unit clause.
    pub fn derive_units(&mut self) -> Result<(), AllocError> {
        for i in self.units_end..self.trail.count {
            let v = self.trail.lit(i) / 2;
            let reason = self.trail.reason_of(v);
            let number = self.arena.number(reason);
            if self.arena.size(reason) == 1 {
                put(self.units.as_mut_slice(), v as usize, number);
            } else {
                let unit = self.derivation.begin(number)?;
                self.resolve_units(reason, v)?;
                put(self.units.as_mut_slice(), v as usize, unit);
            }
        }
        self.units_end = self.trail.count;
        Ok(())
    }

    /// Resolves the literals of a clause with their unit clauses, but for a variable.
    fn resolve_units(&mut self, clause: u32, besides: u32) -> Result<(), AllocError> {
        for l in self.arena.lits(clause) {
            let v = *l / 2;
            if v != besides {
                self.derivation
                    .step(v, at(self.units.as_slice(), v as usize))?;
            }
        }
        Ok(())
    }

    /// Goes back to a level.
    pub fn back_to(&mut self, level: u32) {
        if level >= self.trail.level {
            return;
        }
        let end = self.trail.end_of(level);
        for _ in 0..u64::MAX {
            if self.trail.count <= end {
                break;
            }
            let v = self.trail.take_last();
            self.order.hold(v);
        }
        self.trail.head = self.trail.count;
        self.trail.level = level;
    }

    /// Decides a literal. False says that each variable has a value or is eliminated.
    fn decide(&mut self) -> bool {
        for _ in 0..u64::MAX {
            let Some(v) = self.order.take_first() else {
                return false;
            };
            let positive = v.wrapping_mul(2);
            if self.trail.value(positive) == FREE && !self.eliminated.is_gone(v) {
                self.trail.decide(positive | self.trail.phase_of(v));
                return true;
            }
        }
        false
    }

    /// The values of all variables.
    fn values(&self, vars: u32) -> Result<Values, AllocError> {
        let mut all = Vec::from_slice(self.alloc, self.trail.values.as_slice())?;
        self.eliminated.extend(all.as_mut_slice());
        let mut values = Values::new(self.alloc);
        for v in 0..vars as usize {
            values.push(mark_at(all.as_slice(), v * 2) == TRUE)?;
        }
        Ok(values)
    }

    /// The refutation that a false clause at level 0 gives.
    fn refutation(&mut self, conflict: u32) -> Result<Found, AllocError> {
        self.derive_units()?;
        let _number = self.derivation.begin(self.arena.number(conflict))?;
        self.resolve_units(conflict, NONE)?;
        let log = self.derivation.trimmed(self.alloc, self.units.len())?;
        Ok(Found::Refutation(log))
    }

    /// Restarts and forgets where it is time to.
    fn keep_pace(&mut self) -> Result<(), AllocError> {
        if self.trail.level == 0 {
            self.derive_units()?;
        }
        if self.pace.restarts() {
            self.back_to(0);
        }
        if self.pace.forgets() {
            self.forget()?;
        }
        Ok(())
    }

    /// Searches with at most so many conflicts.
    fn run(&mut self, vars: u32, conflicts: u64) -> Result<Found, AllocError> {
        for _ in 0..u64::MAX {
            let conflict = self.propagate()?;
            if conflict == NONE {
                self.keep_pace()?;
                if !self.decide() {
                    return Ok(Found::Model(self.values(vars)?));
                }
            } else if self.trail.level == 0 {
                return self.refutation(conflict);
            } else if self.pace.conflicts >= conflicts || self.arena.is_full() {
                break;
            } else {
                self.learn(conflict)?;
            }
        }
        Ok(Found::Nothing)
    }

    /// Simplifies and searches.
    fn find(&mut self, formula: &Formula, conflicts: u64) -> Result<Found, AllocError> {
        let wrong = self.take_formula(formula)?;
        if wrong != NONE {
            return self.refutation(wrong);
        }
        self.derive_units()?;
        let wrong = self.close(formula.vars)?;
        if wrong != NONE {
            return self.refutation(wrong);
        }
        let wrong = self.simplify(formula.vars)?;
        if wrong != NONE {
            return self.refutation(wrong);
        }
        self.watch_all()?;
        self.run(formula.vars, conflicts)
    }
}

/// Looks for values that satisfy a formula, or for chains that refute it, with at most so many conflicts.
///
/// After an error there was no memory, and nothing is known of the formula.
pub fn find(alloc: Global, formula: &Formula, conflicts: u64) -> Result<Found, AllocError> {
    let mut search = Search::new(alloc, formula)?;
    search.find(formula, conflicts)
}
