//! Intervals of words as unsigned numbers.

ghost use Rattle.am_interval.specs.Domains.{unsigned_intervals};
ghost use Rattle.am_interval.specs.lemmas.Domains.{unsigned_laws, unsigned_walks};

use crate::terms::{between_term, order_term};
use am_bv::{Op, Term, Width};
use am_domain::{Anchored, Domain, Fields};
use std::alloc::{AllocError, Global};

/// The domain of unsigned intervals. A value is a least and a greatest word, and its members are the
/// words between them.
#[derive(Clone, Copy, PartialEq, Eq, Debug)]
pub struct Unsigned;

impl Domain for Unsigned {
    ghost abstraction = { λ _. unsigned_intervals };

    fn fields(&self) -> u32 {
        2
    }

    fn valid(&self, _w: Width, a: &Fields) -> bool {
        a.get(0) <= a.get(1)
    }

    fn contains(&self, _w: Width, a: &Fields, c: u8) -> bool {
        a.get(0) <= c && c <= a.get(1)
    }

    fn top(&self, w: Width) -> Fields {
        Fields::pair(0, w.mask())
    }

    fn of_word(&self, _w: Width, c: u8) -> Fields {
        Fields::pair(c, c)
    }

    fn some_member(&self, _w: Width, a: &Fields) -> u8 {
        a.get(0)
    }

    fn join(&self, _w: Width, a: &Fields, b: &Fields) -> Fields {
        Fields::pair(a.get(0).min(b.get(0)), a.get(1).max(b.get(1)))
    }

    fn tidy(&self, w: Width, raw: &Fields) -> Option<Fields> {
        if self.valid(w, raw) {
            Some(raw.copy())
        } else {
            None
        }
    }

    fn rank(&self, w: Width, a: &Fields) -> u32 {
        u32::from(w.mask() - (a.get(1) - a.get(0)))
    }

    fn valid_term(&self, alloc: Global, _w: Width) -> Result<Term, AllocError> {
        order_term(alloc, Op::Ule)
    }

    fn member_term(&self, alloc: Global, _w: Width) -> Result<Term, AllocError> {
        between_term(alloc, Op::Ule)
    }

    ghost keeps_laws = { λ _. unsigned_laws };
}

impl Anchored for Unsigned {
    ghost is_anchored = { λ _. unsigned_walks };
}
