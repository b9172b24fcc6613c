//! Parity.

ghost use Rattle.am_bits.specs.Parities.{all_parities};
ghost use Rattle.am_bits.specs.lemmas.ParityLaws.{parity_laws};

use am_bv::{Op, Term, Width};
use am_domain::{Domain, Fields};
use std::alloc::{AllocError, Global};

/// The parity of words, as one word of which bit 0 stands for the even words and bit 1 for the odd
/// ones.
#[derive(Clone, Copy, PartialEq, Eq, Debug)]
pub struct Parity;

impl Domain for Parity {
    ghost abstraction = { λ _. all_parities };

    fn fields(&self) -> u32 {
        1
    }

    fn valid(&self, _w: Width, a: &Fields) -> bool {
        matches!(a.get(0), 1..=3)
    }

    fn contains(&self, _w: Width, a: &Fields, c: u8) -> bool {
        (a.get(0) >> (c % 2)) & 1 == 1
    }

    fn top(&self, _w: Width) -> Fields {
        Fields::single(3)
    }

    fn of_word(&self, _w: Width, c: u8) -> Fields {
        Fields::single(if c % 2 == 0 { 1 } else { 2 })
    }

    fn some_member(&self, _w: Width, a: &Fields) -> u8 {
        if a.get(0) & 1 == 1 { 0 } else { 1 }
    }

    fn join(&self, _w: Width, a: &Fields, b: &Fields) -> Fields {
        Fields::single(a.get(0) | b.get(0))
    }

    fn tidy(&self, _w: Width, raw: &Fields) -> Option<Fields> {
        let p = raw.get(0) & 3;
        if p == 0 {
            None
        } else {
            Some(Fields::single(p))
        }
    }

    fn rank(&self, _w: Width, a: &Fields) -> u32 {
        2 - a.get(0).count_ones()
    }

    fn valid_term(&self, alloc: Global, _w: Width) -> Result<Term, AllocError> {
        let least = Term::binary(alloc, Op::Ule, Term::Const(1), Term::Field(0))?;
        let most = Term::binary(alloc, Op::Ule, Term::Field(0), Term::Const(3))?;
        Term::binary(alloc, Op::And, least, most)
    }

    fn member_term(&self, alloc: Global, _w: Width) -> Result<Term, AllocError> {
        let place = Term::binary(alloc, Op::And, Term::Field(1), Term::Const(1))?;
        let bit = Term::binary(alloc, Op::Lshr, Term::Field(0), place)?;
        Term::binary(alloc, Op::And, bit, Term::Const(1))
    }

    ghost keeps_laws = { λ _. parity_laws };
}
