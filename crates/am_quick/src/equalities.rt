//! Variables that equal a literal of a variable before them.

use crate::rows::{NONE, at, put, short};
use std::alloc::{AllocError, Global};

/// For each variable a literal that it equals, and the clauses that say so.
#[derive(Drop)]
pub struct Equalities {
    /// At first each variable's own literal.
    partners: Vec<u32>,
    /// For each literal the clause of its opposite and its partner.
    reasons: Vec<u32>,
    pub count: u32,
}

impl Equalities {
    pub fn new(alloc: Global, vars: usize) -> Result<Equalities, AllocError> {
        let mut partners = Vec::new(alloc);
        for v in 0..vars {
            partners.push(short(v).wrapping_mul(2))?;
        }
        Ok(Equalities {
            partners,
            reasons: vec![in alloc; NONE; vars.saturating_mul(2)]?,
            count: 0,
        })
    }

    /// The literal that a literal equals.
    #[inline(always)]
    pub fn partner(&self, l: u32) -> u32 {
        at(self.partners.as_slice(), (l / 2) as usize) ^ (l & 1)
    }

    /// Whether a literal equals none of a variable before its own.
    #[inline(always)]
    pub fn is_root(&self, l: u32) -> bool {
        self.partner(l) == l
    }

    /// The clause of a literal's opposite and its partner.
    pub fn reason(&self, l: u32) -> u32 {
        at(self.reasons.as_slice(), l as usize)
    }

    /// Notes that a literal equals another one. `forth` is the clause that it implies the other one, `back` that the
    /// other one implies it.
    pub fn join(&mut self, l: u32, other: u32, forth: u32, back: u32) {
        put(
            self.partners.as_mut_slice(),
            (l / 2) as usize,
            other ^ (l & 1),
        );
        put(self.reasons.as_mut_slice(), l as usize, forth);
        put(self.reasons.as_mut_slice(), (l ^ 1) as usize, back);
        self.count = self.count.wrapping_add(1);
    }
}
