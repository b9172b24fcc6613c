//! Congruences modulo powers of two.

ghost use Rattle.std.specs.Prelude.{◌≡◌};
ghost use Rattle.am_bits.specs.Congruences.{all_congruences, low, modulo};
ghost use Rattle.am_bits.specs.lemmas.CongruenceLaws.{congruence_laws};

use am_bv::{Op, Term, Width};
use am_domain::{Domain, Fields};
use std::alloc::{AllocError, Global};

/// Congruences modulo powers of two, as two words: the modulus less 1, which is a mask of low bits,
/// and the residue.
#[derive(Clone, Copy, PartialEq, Eq, Debug)]
pub struct Congruence;

impl Domain for Congruence {
    ghost abstraction = { λ _. all_congruences };

    fn fields(&self) -> u32 {
        2
    }

    fn valid(&self, _w: Width, a: &Fields) -> bool {
        let mask = a.get(0);
        mask & mask.wrapping_add(1) == 0 && a.get(1) <= mask
    }

    fn contains(&self, _w: Width, a: &Fields, c: u8) -> bool {
        (c ^ a.get(1)) & a.get(0) == 0
    }

    fn top(&self, _w: Width) -> Fields {
        Fields::pair(0, 0)
    }

    fn of_word(&self, w: Width, c: u8) -> Fields {
        Fields::pair(w.mask(), c)
    }

    fn some_member(&self, _w: Width, a: &Fields) -> u8 {
        a.get(1)
    }

    fn join(&self, _w: Width, a: &Fields, b: &Fields) -> Fields {
        let differing = a.get(1) ^ b.get(1);
        modulo(low(a.get(0) & b.get(0) & !differing), a.get(1))
    }

    fn tidy(&self, _w: Width, raw: &Fields) -> Option<Fields> {
        Some(modulo(low(raw.get(0)), raw.get(1)))
    }

    fn rank(&self, _w: Width, a: &Fields) -> u32 {
        a.get(0).count_ones()
    }

    fn valid_term(&self, alloc: Global, _w: Width) -> Result<Term, AllocError> {
        let next = Term::binary(alloc, Op::Add, Term::Field(0), Term::Const(1))?;
        let common = Term::binary(alloc, Op::And, Term::Field(0), next)?;
        let masked = Term::binary(alloc, Op::Eq, common, Term::Const(0))?;
        let outside = Term::unary(alloc, Op::Not, Term::Field(0))?;
        let above = Term::binary(alloc, Op::And, Term::Field(1), outside)?;
        let within = Term::binary(alloc, Op::Eq, above, Term::Const(0))?;
        Term::binary(alloc, Op::And, masked, within)
    }

    fn member_term(&self, alloc: Global, _w: Width) -> Result<Term, AllocError> {
        let differing = Term::binary(alloc, Op::Xor, Term::Field(2), Term::Field(1))?;
        let masked = Term::binary(alloc, Op::And, differing, Term::Field(0))?;
        Term::binary(alloc, Op::Eq, masked, Term::Const(0))
    }

    ghost keeps_laws = { λ _. congruence_laws };
}

/// The residue of a number modulo a mask.
fn modulo(mask: u8, number: u8) -> Fields
    ensures { result ≡ modulo mask number }
{
    Fields::pair(mask, number & mask)
}

/// The greatest number 2^j - 1 whose bits are all in `x`.
fn low(x: u8) -> u8
    ensures { result ≡ low x }
{
    ((1u16 << x.trailing_ones()) - 1) as u8
}
