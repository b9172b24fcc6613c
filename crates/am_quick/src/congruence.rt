//! Congruence closure: gates with equal inputs have equal outputs.
//!
//! The clauses in which a variable is the last one are its definition. They are written over the roots of equal
//! variables and made simpler by each other, until they are a gate. Of two gates that compute the same, the later
//! output becomes the earlier one.

use crate::gates::{Gate, Gates, Kind};
use crate::occurrences::Occurrences;
use crate::recognise::gate_of;
use crate::rows::{NONE, at};
use crate::search::Search;
use crate::trail::FREE;
use std::alloc::AllocError;

/// Definitions of more clauses are left alone.
const MOST: usize = 16;

/// Definitions with a longer clause are left alone.
const LONGEST: usize = 8;

/// The last variable of a clause.
fn last_variable(lits: &[u32]) -> u32 {
    let mut last = 0;
    for l in lits {
        last = last.max(*l / 2);
    }
    last
}

impl Search {
    /// For each variable the clauses in which it is the last one.
    fn definitions(&self, vars: u32) -> Result<Occurrences, AllocError> {
        let mut definitions = Occurrences::new(self.alloc, vars as usize)?;
        for clause in self.given.as_slice() {
            let lits = self.arena.lits(*clause);
            if lits.len() > 1 {
                definitions.push(last_variable(lits), *clause)?;
            }
        }
        Ok(definitions)
    }

    /// Whether a definition is small enough to be looked at.
    fn is_small(&self, clauses: &[u32]) -> bool {
        for clause in clauses {
            if self.arena.size(*clause) > LONGEST {
                return false;
            }
        }
        clauses.len() <= MOST
    }

    /// Writes the clauses of a definition over roots. Unit clauses give their literals values. The answer is a false
    /// clause or `NONE`.
    fn rewrite_definition(&mut self, row: &mut Vec<u32>) -> Result<u32, AllocError> {
        for i in 0..row.len() {
            let clause = self.rewritten(at(row.as_slice(), i))?;
            if clause != NONE {
                if self.arena.size(clause) == 0 {
                    return Ok(clause);
                }
                self.take_unit(clause)?;
            }
            if i < row.len() {
                row[i] = clause;
            }
        }
        row.retain(|clause| *clause != NONE);
        Ok(NONE)
    }

    /// Tells the table of the gate of a variable, or joins the variable with the output of one that computes the
    /// same.
    fn look_at_gate(
        &mut self,
        definitions: &Occurrences,
        gates: &mut Gates,
        clauses: &[u32],
        gate: Gate,
    ) -> Result<bool, AllocError> {
        let other = gates.find(&gate);
        if other == NONE {
            gates.push(gate)?;
            return Ok(false);
        }
        if self.trail.value(other) != FREE || !self.equalities.is_root(other) {
            return Ok(false);
        }
        let mut all = Vec::from_slice(self.alloc, clauses)?;
        all.extend_from_slice(definitions.row(other / 2))?;
        self.join_outputs(&mut all, gate, other)
    }

    /// Derives that a gate's output and another one are equal, and joins them.
    fn join_outputs(
        &mut self,
        clauses: &mut Vec<u32>,
        gate: Gate,
        other: u32,
    ) -> Result<bool, AllocError> {
        let forth = self.derive_implication(clauses, gate, gate.output, other)?;
        let back = self.derive_implication(clauses, gate, other, gate.output)?;
        if self.arena.size(forth) == 2 && self.arena.size(back) == 2 {
            self.join(gate.output, other, forth, back)?;
            return Ok(true);
        }
        Ok(false)
    }

    /// Derives the clause that a literal implies another one, but for a conjunction by way of one with a gate's first
    /// input.
    fn derive_implication(
        &mut self,
        clauses: &mut Vec<u32>,
        gate: Gate,
        from: u32,
        to: u32,
    ) -> Result<u32, AllocError> {
        if gate.kind != Kind::And {
            let clause = self.derive(&[from ^ 1, to, gate.inputs[0]], clauses.as_slice())?;
            if clause == NONE {
                return Ok(NONE);
            }
            clauses.push(clause)?;
            self.arena.remove(clause);
        }
        let clause = self.derive(&[from ^ 1, to], clauses.as_slice())?;
        self.arena.remove(clause);
        Ok(clause)
    }

    /// Makes a literal equal to another one of a variable before its own. The clauses of both are removed, but say
    /// how models are extended.
    fn join(&mut self, l: u32, other: u32, forth: u32, back: u32) -> Result<(), AllocError> {
        self.equalities.join(l, other, forth, back);
        self.eliminated.set_gone(l / 2);
        self.eliminated.save(&[other ^ 1], l)?;
        self.eliminated.save(&[], l ^ 1)
    }

    /// Joins the variables of two clauses of two literals, where these are opposite. False says that they aren't.
    fn join_pair(&mut self, first: u32, second: u32) -> Result<bool, AllocError> {
        let (a, b) = (self.arena.lit(first, 0), self.arena.lit(first, 1));
        let is_pair = self.arena.size(first) == 2 && self.arena.size(second) == 2;
        let other = self.arena.lits(second);
        if !is_pair || !other.contains(&(a ^ 1)) || !other.contains(&(b ^ 1)) {
            return Ok(false);
        }
        self.arena.remove(first);
        self.arena.remove(second);
        if a > b {
            self.join(a, b ^ 1, second, first)?;
        } else {
            self.join(b, a ^ 1, second, first)?;
        }
        Ok(true)
    }

    /// Looks at what the clauses of a definition make of its variable. True says that it was joined.
    fn recognise(
        &mut self,
        definitions: &Occurrences,
        gates: &mut Gates,
        v: u32,
        clauses: &[u32],
    ) -> Result<bool, AllocError> {
        if clauses.len() == 2 {
            return self.join_pair(at(clauses, 0), at(clauses, 1));
        }
        if self.trail.value(v.wrapping_mul(2)) != FREE {
            return Ok(false);
        }
        match gate_of(&self.arena, clauses, v) {
            Some(gate) => self.look_at_gate(definitions, gates, clauses, gate),
            None => Ok(false),
        }
    }

    /// Looks at the definition of a variable. The answer is a false clause or `NONE`.
    fn close_at(
        &mut self,
        definitions: &mut Occurrences,
        gates: &mut Gates,
        v: u32,
    ) -> Result<u32, AllocError> {
        let mut row = definitions.take(self.alloc, &self.arena, v);
        let mut conflict = NONE;
        if self.is_small(row.as_slice()) {
            conflict = self.rewrite_definition(&mut row)?;
            if conflict == NONE {
                self.strengthen_all(&mut row)?;
                if self.recognise(definitions, gates, v, row.as_slice())? {
                    self.remove_all(row.as_slice());
                    row.clear();
                }
            }
        }
        definitions.put_back(v, row);
        Ok(conflict)
    }

    /// Looks at each definition once. The answer is a false clause or `NONE`.
    fn close_once(&mut self, definitions: &mut Occurrences, vars: u32) -> Result<u32, AllocError> {
        let mut gates = Gates::new(self.alloc, vars as usize)?;
        for v in 0..vars {
            let conflict = self.close_at(definitions, &mut gates, v)?;
            if conflict != NONE {
                return Ok(conflict);
            }
        }
        Ok(NONE)
    }

    /// Writes all clauses over roots. The answer is a false clause or `NONE`.
    fn rewrite_all(&mut self) -> Result<u32, AllocError> {
        for i in 0..self.given.len() {
            let clause = at(self.given.as_slice(), i);
            if !self.arena.is_removed(clause) {
                let new = self.rewritten(clause)?;
                if new != NONE && self.arena.size(new) == 0 {
                    return Ok(new);
                }
                self.take_unit(new)?;
            }
        }
        Ok(NONE)
    }

    /// Joins the outputs of equal gates until nothing changes. The answer is a false clause or `NONE`.
    pub fn close(&mut self, vars: u32) -> Result<u32, AllocError> {
        let mut definitions = self.definitions(vars)?;
        for _ in 0..u64::MAX {
            let before = (self.equalities.count, self.trail.count);
            let conflict = self.close_once(&mut definitions, vars)?;
            if conflict != NONE {
                return Ok(conflict);
            }
            if before.0 == self.equalities.count && before.1 == self.trail.count {
                break;
            }
        }
        self.rewrite_all()
    }
}
