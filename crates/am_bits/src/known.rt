//! Known bits.

ghost use Rattle.am_bits.specs.KnownBits.{all_known_bits};
ghost use Rattle.am_bits.specs.lemmas.KnownLaws.{known_laws};

use am_bv::{Op, Term, Width};
use am_domain::{Domain, Fields};
use std::alloc::{AllocError, Global};

/// The known bits of words, as two words: the bits that are 0 and the bits that are 1.
#[derive(Clone, Copy, PartialEq, Eq, Debug)]
pub struct Known;

impl Domain for Known {
    ghost abstraction = { λ _. all_known_bits };

    fn fields(&self) -> u32 {
        2
    }

    fn valid(&self, _w: Width, a: &Fields) -> bool {
        a.get(0) & a.get(1) == 0
    }

    fn contains(&self, _w: Width, a: &Fields, c: u8) -> bool {
        let ones = a.get(1);
        c & a.get(0) == 0 && c & ones == ones
    }

    fn top(&self, _w: Width) -> Fields {
        Fields::pair(0, 0)
    }

    fn of_word(&self, w: Width, c: u8) -> Fields {
        Fields::pair(w.mask() - c, c)
    }

    fn some_member(&self, _w: Width, a: &Fields) -> u8 {
        a.get(1)
    }

    fn join(&self, _w: Width, a: &Fields, b: &Fields) -> Fields {
        Fields::pair(a.get(0) & b.get(0), a.get(1) & b.get(1))
    }

    fn tidy(&self, _w: Width, raw: &Fields) -> Option<Fields> {
        let zeros = raw.get(0);
        let ones = raw.get(1);
        if zeros & ones == 0 {
            Some(Fields::pair(zeros, ones))
        } else {
            None
        }
    }

    fn rank(&self, _w: Width, a: &Fields) -> u32 {
        a.get(0).count_ones() + a.get(1).count_ones()
    }

    fn valid_term(&self, alloc: Global, _w: Width) -> Result<Term, AllocError> {
        let common = Term::binary(alloc, Op::And, Term::Field(0), Term::Field(1))?;
        Term::binary(alloc, Op::Eq, common, Term::Const(0))
    }

    fn member_term(&self, alloc: Global, _w: Width) -> Result<Term, AllocError> {
        let zeros = Term::binary(alloc, Op::And, Term::Field(2), Term::Field(0))?;
        let clear = Term::binary(alloc, Op::Eq, zeros, Term::Const(0))?;
        let ones = Term::binary(alloc, Op::And, Term::Field(2), Term::Field(1))?;
        let set = Term::binary(alloc, Op::Eq, ones, Term::Field(1))?;
        Term::binary(alloc, Op::And, clear, set)
    }

    ghost keeps_laws = { λ _. known_laws };
}
