//! Wrapped intervals.

ghost use Rattle.std.specs.Prelude.{◌≡◌, ◌^◌, ◌<◌, ◌↔◌, IsTrue};
ghost use Rattle.am_domain.specs.Tuple.{IsTuple};
ghost use Rattle.am_wrap.specs.WrappedIntervals.{all_wrapped_intervals, both_lie_in, bridge, lies_in, LiesIn, span};
ghost use Rattle.am_wrap.specs.lemmas.WrappedLaws.{wrapped_laws, wrapped_walks};

use am_bv::{Op, Term, Width};
use am_domain::{Anchored, Domain, Fields};
use std::alloc::{AllocError, Global};

/// The domain of wrapped intervals. A value is a start and an end, and its members are the words from
/// the start upwards by 1, modulo 2^w, to the end.
#[derive(Clone, Copy, PartialEq, Eq, Debug)]
pub struct Wrapped;

/// How many steps lead from the start to the end.
fn span(w: Width, a: &Fields) -> u8
    requires { IsTuple w 2 a.now }
    ensures value { result ≡ span w a.now }
    ensures word { result < 2 ^ w }
{
    w.difference(a.get(1), a.get(0))
}

/// Whether each member of `a` is a member of `b`.
fn lies_in(w: Width, a: &Fields, b: &Fields) -> bool
    requires first { IsTuple w 2 a.now }
    requires second { IsTuple w 2 b.now }
    ensures members { IsTrue result ↔ LiesIn w a.now b.now }
    ensures rule { result ≡ lies_in w a.now b.now }
{
    let room = span(w, b);
    let before = w.difference(a.get(0), b.get(0));
    room == w.mask() || u32::from(before) + u32::from(span(w, a)) <= u32::from(room)
}

/// Whether both lie in a third.
fn both_lie_in(w: Width, a: &Fields, b: &Fields, c: &Fields) -> bool
    requires first { IsTuple w 2 a.now }
    requires second { IsTuple w 2 b.now }
    requires third { IsTuple w 2 c.now }
    ensures { result ≡ both_lie_in w a.now b.now c.now }
{
    lies_in(w, a, c) && lies_in(w, b, c)
}

/// The narrower one of the two intervals from the start of the one to the end of the other in which
/// both lie, or all words.
fn bridge(w: Width, a: &Fields, b: &Fields) -> Fields
    requires first { IsTuple w 2 a.now }
    requires second { IsTuple w 2 b.now }
    ensures { result ≡ bridge w a.now b.now }
{
    let there = Fields::pair(a.get(0), b.get(1));
    let back = Fields::pair(b.get(0), a.get(1));
    let is_narrower = span(w, &back) < span(w, &there);
    match (both_lie_in(w, a, b, &there), both_lie_in(w, a, b, &back)) {
        (true, true) => if is_narrower { back } else { there },
        (true, false) => there,
        (false, true) => back,
        (false, false) => Fields::pair(a.get(0), w.difference(a.get(0), 1)),
    }
}

impl Domain for Wrapped {
    ghost abstraction = { λ _. all_wrapped_intervals };

    fn fields(&self) -> u32 {
        2
    }

    fn valid(&self, _w: Width, _a: &Fields) -> bool {
        true
    }

    fn contains(&self, w: Width, a: &Fields, c: u8) -> bool {
        w.difference(c, a.get(0)) <= span(w, a)
    }

    fn top(&self, w: Width) -> Fields {
        Fields::pair(0, w.mask())
    }

    fn of_word(&self, _w: Width, c: u8) -> Fields {
        Fields::pair(c, c)
    }

    fn some_member(&self, _w: Width, a: &Fields) -> u8 {
        a.get(0)
    }

    fn join(&self, w: Width, a: &Fields, b: &Fields) -> Fields {
        if lies_in(w, b, a) {
            a.copy()
        } else if lies_in(w, a, b) {
            b.copy()
        } else {
            bridge(w, a, b)
        }
    }

    fn tidy(&self, _w: Width, raw: &Fields) -> Option<Fields> {
        Some(raw.copy())
    }

    fn rank(&self, w: Width, a: &Fields) -> u32 {
        u32::from(w.mask() - span(w, a))
    }

    fn valid_term(&self, _alloc: Global, _w: Width) -> Result<Term, AllocError> {
        Ok(Term::Const(1))
    }

    fn member_term(&self, alloc: Global, _w: Width) -> Result<Term, AllocError> {
        let word = Term::binary(alloc, Op::Sub, Term::Field(2), Term::Field(0))?;
        let end = Term::binary(alloc, Op::Sub, Term::Field(1), Term::Field(0))?;
        Term::binary(alloc, Op::Ule, word, end)
    }

    ghost keeps_laws = { λ _. wrapped_laws };
}

impl Anchored for Wrapped {
    ghost is_anchored = { λ _. wrapped_walks };
}
