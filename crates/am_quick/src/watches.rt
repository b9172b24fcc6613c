//! For each literal the clauses that watch it.

use std::alloc::{AllocError, Global};
use std::mem;

/// A clause, and its blocker: another literal of it, which is looked at first.
#[derive(Clone, Copy)]
pub struct Watch {
    pub clause: u32,
    pub blocker: u32,
}

/// A row of watches for each literal.
#[derive(Drop)]
pub struct Watches {
    pub rows: Vec<Vec<Watch>>,
}

impl Watches {
    /// Empty rows for so many literals.
    pub fn new(alloc: Global, lits: usize) -> Result<Watches, AllocError> {
        let mut rows = Vec::new(alloc);
        for _ in 0..lits {
            rows.push(Vec::new(alloc))?;
        }
        Ok(Watches { rows })
    }

    /// Adds a watch to the row of a literal.
    #[inline(always)]
    pub fn push(&mut self, l: u32, watch: Watch) -> Result<(), AllocError> {
        let i = l as usize;
        if i < self.rows.len() {
            let row = &mut self.rows[i];
            row.push(watch)?;
        }
        Ok(())
    }

    /// Takes the row of a literal out, and leaves an empty one.
    #[inline(always)]
    pub fn take(&mut self, alloc: Global, l: u32) -> Vec<Watch> {
        let i = l as usize;
        let empty = Vec::new(alloc);
        if i < self.rows.len() {
            let own = &mut self.rows[i];
            mem::replace(own, empty)
        } else {
            empty
        }
    }

    /// Puts a row back.
    #[inline(always)]
    pub fn put_back(&mut self, l: u32, row: Vec<Watch>) {
        let i = l as usize;
        if i < self.rows.len() {
            let own = &mut self.rows[i];
            let _empty = mem::replace(own, row);
        }
    }

    /// The row of a literal.
    #[inline(always)]
    pub fn row(&self, l: u32) -> &[Watch] {
        row_at(self.rows.as_slice(), l as usize)
    }
}

#[inline(always)]
fn row_at(rows: &[Vec<Watch>], i: usize) -> &[Watch] {
    if i < rows.len() {
        rows[i].as_slice()
    } else {
        &[]
    }
}

/// Writes a watch, but not past the end.
#[inline(always)]
pub fn put_watch(row: &mut [Watch], i: usize, watch: Watch) {
    if i < row.len() {
        row[i] = watch;
    }
}

/// The watch at a place, or one of the first clause past the end.
#[inline(always)]
pub fn watch_at(row: &[Watch], i: usize) -> Watch {
    if i < row.len() {
        row[i]
    } else {
        Watch {
            clause: 0,
            blocker: 0,
        }
    }
}
