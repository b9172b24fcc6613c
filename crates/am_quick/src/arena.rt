//! A store of clauses in one row of words.
//!
//! A clause is named by the place of its head, which has its size, its number in the log, its literal block distance
//! (LBD: how many levels its literals stood on when it was learnt; 0 for a clause of the formula) and whether it was
//! used of late. Its literals follow.

use crate::rows::{NONE, at, put, short};
use std::alloc::{AllocError, Global};

/// The words before a clause's literals.
pub const HEAD: usize = 4;

/// With so many words the store counts as full.
const ROOM: usize = 1 << 30;

/// The store.
#[derive(Drop)]
pub struct Arena {
    pub words: Vec<u32>,
}

impl Arena {
    pub fn new(alloc: Global) -> Arena {
        Arena {
            words: Vec::new(alloc),
        }
    }

    /// Whether no more clauses should be stored.
    pub fn is_full(&self) -> bool {
        self.words.len() >= ROOM
    }

    /// Appends a clause and gives its place.
    pub fn push(
        &mut self,
        lits: &[u32],
        number: u32,
        lbd: u32,
        used: u32,
    ) -> Result<u32, AllocError> {
        let place = short(self.words.len());
        self.words.push(short(lits.len()))?;
        self.words.push(number)?;
        self.words.push(lbd)?;
        self.words.push(used)?;
        self.words.extend_from_slice(lits)?;
        Ok(place)
    }

    #[inline(always)]
    pub fn size(&self, clause: u32) -> usize {
        at(self.words.as_slice(), clause as usize) as usize
    }

    #[inline(always)]
    pub fn number(&self, clause: u32) -> u32 {
        at(self.words.as_slice(), clause as usize + 1)
    }

    #[inline(always)]
    pub fn lbd(&self, clause: u32) -> u32 {
        at(self.words.as_slice(), clause as usize + 2)
    }

    #[inline(always)]
    pub fn used(&self, clause: u32) -> u32 {
        at(self.words.as_slice(), clause as usize + 3)
    }

    #[inline(always)]
    pub fn set_lbd(&mut self, clause: u32, lbd: u32) {
        put(self.words.as_mut_slice(), clause as usize + 2, lbd);
    }

    #[inline(always)]
    pub fn set_used(&mut self, clause: u32, used: u32) {
        put(self.words.as_mut_slice(), clause as usize + 3, used);
    }

    /// Whether a clause was removed.
    #[inline(always)]
    pub fn is_removed(&self, clause: u32) -> bool {
        self.lbd(clause) == NONE
    }

    /// Marks a clause as removed. Its words stay until the store is copied.
    pub fn remove(&mut self, clause: u32) {
        self.set_lbd(clause, NONE);
    }

    /// The other one of the first two literals, of which one is known.
    #[inline(always)]
    pub fn other(&self, clause: u32, known: u32) -> u32 {
        let start = clause as usize + HEAD;
        let words = self.words.as_slice();
        at(words, start) ^ at(words, start + 1) ^ known
    }

    /// Puts `other` first, `next`, which stood at a place, second, and `gone` at that place.
    #[inline(always)]
    pub fn exchange(&mut self, clause: u32, other: u32, next: u32, place: usize, gone: u32) {
        let start = clause as usize + HEAD;
        let words = self.words.as_mut_slice();
        put(words, start, other);
        put(words, start + 1, next);
        put(words, start.wrapping_add(place), gone);
    }

    /// The literal at a place of a clause.
    pub fn lit(&self, clause: u32, i: usize) -> u32 {
        at(
            self.words.as_slice(),
            (clause as usize + HEAD).wrapping_add(i),
        )
    }

    /// The literals of a clause.
    #[inline(always)]
    pub fn lits(&self, clause: u32) -> &[u32] {
        lits_at(self.words.as_slice(), clause)
    }
}

/// The literals of the clause at a place.
#[inline(always)]
fn lits_at(words: &[u32], clause: u32) -> &[u32] {
    let start = clause as usize + HEAD;
    let end = start + at(words, clause as usize) as usize;
    if end <= words.len() {
        &words[start..end]
    } else {
        &words[..0]
    }
}
