//! Intervals of words as numbers in two's complement.

ghost use Rattle.std.specs.Prelude.{◌≡◌, ◌^◌, ◌<◌};
ghost use Rattle.am_bv.specs.Words.{signed};
ghost use Rattle.am_interval.specs.Intervals.{greater, lesser};
ghost use Rattle.am_interval.specs.Domains.{signed_intervals};
ghost use Rattle.am_interval.specs.lemmas.Domains.{signed_laws, signed_walks};

use crate::terms::{between_term, order_term};
use am_bv::{Op, Term, Width};
use am_domain::{Anchored, Domain, Fields};
use std::alloc::{AllocError, Global};

/// The domain of signed intervals. A value is a least and a greatest word, and its members are the
/// words between them, where a word stands for its number in two's complement.
#[derive(Clone, Copy, PartialEq, Eq, Debug)]
pub struct Signed;

/// The lesser of two words in signed order.
fn lesser(w: Width, c: u8, d: u8) -> u8
    requires first { c < 2 ^ w }
    requires second { d < 2 ^ w }
    ensures { result ≡ lesser signed w c d }
{
    if w.signed(d) < w.signed(c) { d } else { c }
}

/// The greater of two words in signed order.
fn greater(w: Width, c: u8, d: u8) -> u8
    requires first { c < 2 ^ w }
    requires second { d < 2 ^ w }
    ensures { result ≡ greater signed w c d }
{
    if w.signed(c) < w.signed(d) { d } else { c }
}

impl Domain for Signed {
    ghost abstraction = { λ _. signed_intervals };

    fn fields(&self) -> u32 {
        2
    }

    fn valid(&self, w: Width, a: &Fields) -> bool {
        w.signed(a.get(0)) <= w.signed(a.get(1))
    }

    fn contains(&self, w: Width, a: &Fields, c: u8) -> bool {
        let number = w.signed(c);
        w.signed(a.get(0)) <= number && number <= w.signed(a.get(1))
    }

    fn top(&self, w: Width) -> Fields {
        let last = w.mask() >> 1;
        Fields::pair(last + 1, last)
    }

    fn of_word(&self, _w: Width, c: u8) -> Fields {
        Fields::pair(c, c)
    }

    fn some_member(&self, _w: Width, a: &Fields) -> u8 {
        a.get(0)
    }

    fn join(&self, w: Width, a: &Fields, b: &Fields) -> Fields {
        Fields::pair(
            lesser(w, a.get(0), b.get(0)),
            greater(w, a.get(1), b.get(1)),
        )
    }

    fn tidy(&self, w: Width, raw: &Fields) -> Option<Fields> {
        if self.valid(w, raw) {
            Some(raw.copy())
        } else {
            None
        }
    }

    fn rank(&self, w: Width, a: &Fields) -> u32 {
        let span = w.signed(a.get(1)).abs_diff(w.signed(a.get(0)));
        u32::from(w.mask()) - u32::from(span)
    }

    fn valid_term(&self, alloc: Global, _w: Width) -> Result<Term, AllocError> {
        order_term(alloc, Op::Sle)
    }

    fn member_term(&self, alloc: Global, _w: Width) -> Result<Term, AllocError> {
        between_term(alloc, Op::Sle)
    }

    ghost keeps_laws = { λ _. signed_laws };
}

impl Anchored for Signed {
    ghost is_anchored = { λ _. signed_walks };
}
