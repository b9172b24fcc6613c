//! For each literal the clauses that have it.

use crate::arena::Arena;
use std::alloc::{AllocError, Global};
use std::mem;

/// A row of clauses for each literal. Clauses that were removed may still stand in it.
#[derive(Drop)]
pub struct Occurrences {
    rows: Vec<Vec<u32>>,
}

impl Occurrences {
    /// Empty rows for so many literals.
    pub fn new(alloc: Global, lits: usize) -> Result<Occurrences, AllocError> {
        let mut rows = Vec::new(alloc);
        for _ in 0..lits {
            rows.push(Vec::new(alloc))?;
        }
        Ok(Occurrences { rows })
    }

    /// Adds a clause to the row of a literal.
    pub fn push(&mut self, l: u32, clause: u32) -> Result<(), AllocError> {
        let i = l as usize;
        if i < self.rows.len() {
            let row = &mut self.rows[i];
            row.push(clause)?;
        }
        Ok(())
    }

    /// Notes a clause at each of its literals.
    pub fn note(&mut self, clause: u32, lits: &[u32]) -> Result<(), AllocError> {
        for l in lits {
            self.push(*l, clause)?;
        }
        Ok(())
    }

    /// Takes the clauses of a literal out that are still there.
    pub fn take(&mut self, alloc: Global, arena: &Arena, l: u32) -> Vec<u32> {
        let i = l as usize;
        let empty = Vec::new(alloc);
        if i < self.rows.len() {
            let own = &mut self.rows[i];
            let mut row = mem::replace(own, empty);
            drop_removed(&mut row, arena);
            row
        } else {
            empty
        }
    }

    /// The clauses of a literal.
    pub fn row(&self, l: u32) -> &[u32] {
        row_at(self.rows.as_slice(), l as usize)
    }

    /// Puts the clauses of a literal back.
    pub fn put_back(&mut self, l: u32, row: Vec<u32>) {
        let i = l as usize;
        if i < self.rows.len() {
            let own = &mut self.rows[i];
            let _empty = mem::replace(own, row);
        }
    }
}

fn row_at(rows: &[Vec<u32>], i: usize) -> &[u32] {
    if i < rows.len() {
        rows[i].as_slice()
    } else {
        &[]
    }
}

/// Leaves the clauses that are still there.
pub fn drop_removed(row: &mut Vec<u32>, arena: &Arena) {
    row.retain(|clause| !arena.is_removed(*clause));
}
