//! Products of two domains.

ghost use Rattle.std.specs.Prelude.{◌≡◌, ◌^◌, ◌<◌, ◌≤◌};
ghost use Rattle.std.specs.Option.{ForSome};
ghost use Rattle.am_domain.specs.Meaning.{IsAbstract};
ghost use Rattle.am_pair.specs.Pairs.{common, domain_product, hull_of_words};
ghost use Rattle.am_pair.specs.inside.Hulls.{hull_with, IsHull};
ghost use Rattle.am_pair.specs.lemmas.PairLaws.{product_laws};
ghost use Rattle.am_pair.specs.lemmas.Parts.{paired};

use crate::parts::{fields_and_word, fields_from_two, first, joined, second};
use am_bv::{Op, Term, Width};
use am_domain::{Anchored, Domain, Fields};
use std::alloc::{AllocError, Global};

/// The product of a domain whose values are walks from one word to another, and a domain with at most
/// two fields. A tuple has the fields of the first and then those of the second.
#[derive(Drop)]
pub struct Pair<A: Anchored, B: Domain> {
    /// The domain of the first two fields.
    pub a: A,
    /// The domain of the further fields.
    pub b: B,
    ghost few: { (B.abstraction b).meaning.fields ≤ 2 },
}

impl<A: Anchored, B: Domain> Pair<A, B> {
    /// The product of two domains, of which the second has at most two fields.
    pub fn new(a: A, b: B) -> Pair<A, B>
        requires { (B.abstraction b).meaning.fields ≤ 2 }
        ensures first { result.a ≡ a }
        ensures second { result.b ≡ b }
    {
        Pair { a, b }
    }

    /// The hull of some words and one more, from the hull of the former.
    fn with_word(&self, w: Width, hull: Option<Fields>, c: u8) -> Fields
        requires word { c < 2 ^ w }
        requires hull { ForSome hull (IsHull (B.abstraction self.now.b).meaning w) }
        ensures { result ≡ hull_with (B.abstraction self.now.b) w hull c }
    {
        let value = self.b.of_word(w, c);
        match hull {
            None => joined(&Fields::pair(c, c), &value),
            Some(p) => {
                let rest = self.b.join(w, &second(&p), &value);
                joined(&Fields::pair(p.get(0), c), &rest)
            }
        }
    }

    /// The hull of the common words of two values.
    fn hull_of_common(&self, w: Width, x: &Fields, y: &Fields) -> Option<Fields>
        requires first { IsAbstract (A.abstraction self.now.a).meaning w x.now }
        requires second { IsAbstract (B.abstraction self.now.b).meaning w y.now }
        ensures { let b = B.abstraction self.now.b in result ≡ hull_of_words b w (common b w x.now y.now) }
    {
        let mask = w.mask();
        let count = u32::from(w.difference(x.get(1), x.get(0))) + 1;
        let mut c = x.get(0);
        let mut hull = None;
        for _i in 0..count {
            if self.b.contains(w, y, c) {
                hull = Some(self.with_word(w, hull, c));
            }
            c = w.difference(c, mask); // c + 1 modulo 2^w
        }
        hull
    }
}

impl<A: Anchored, B: Domain> Domain for Pair<A, B> {
    ghost abstraction = { λ d. domain_product (A.abstraction d.a) (B.abstraction d.b) };

    fn fields(&self) -> u32 {
        2 + self.b.fields()
    }

    fn valid(&self, w: Width, p: &Fields) -> bool {
        let x = first(p);
        let y = second(p);
        self.a.valid(w, &x) && self.b.valid(w, &y) && self.b.contains(w, &y, p.get(0))
    }

    fn contains(&self, w: Width, p: &Fields, c: u8) -> bool {
        self.a.contains(w, &first(p), c) && self.b.contains(w, &second(p), c)
    }

    fn top(&self, w: Width) -> Fields {
        joined(&self.a.top(w), &self.b.top(w))
    }

    fn of_word(&self, w: Width, c: u8) -> Fields {
        joined(&self.a.of_word(w, c), &self.b.of_word(w, c))
    }

    fn some_member(&self, _w: Width, p: &Fields) -> u8 {
        p.get(0)
    }

    fn join(&self, w: Width, p: &Fields, q: &Fields) -> Fields {
        let x = self.a.join(w, &first(p), &first(q));
        let y = self.b.join(w, &second(p), &second(q));
        joined(&x, &y)
    }

    fn tidy(&self, w: Width, raw: &Fields) -> Option<Fields> {
        let x = self.a.tidy(w, &first(raw))?;
        let y = self.b.tidy(w, &second(raw))?;
        self.hull_of_common(w, &x, &y)
    }

    fn rank(&self, w: Width, p: &Fields) -> u32 {
        self.a.rank(w, &first(p)) + self.b.rank(w, &second(p))
    }

    fn valid_term(&self, alloc: Global, w: Width) -> Result<Term, AllocError> {
        let count = self.b.fields();
        let first = self.a.valid_term(alloc, w)?;
        let second = self.b.valid_term(alloc, w)?;
        let second = second.rename(alloc, fields_from_two(count).as_slice())?;
        let member = self.b.member_term(alloc, w)?;
        let meets = member.rename(alloc, fields_and_word(count, 0).as_slice())?;
        let rest = Term::ternary(alloc, Op::Ite, second, meets, Term::Const(0))?;
        Term::ternary(alloc, Op::Ite, first, rest, Term::Const(0))
    }

    fn member_term(&self, alloc: Global, w: Width) -> Result<Term, AllocError> {
        let count = self.b.fields();
        let first = self.a.member_term(alloc, w)?;
        let first = first.rename(alloc, &[0, 1, 2 + count])?;
        let second = self.b.member_term(alloc, w)?;
        let second = second.rename(alloc, fields_and_word(count, 2 + count).as_slice())?;
        Term::ternary(alloc, Op::Ite, first, second, Term::Const(0))
    }

    ghost keeps_laws = { λ d.
        product_laws (paired (A.is_anchored d.a) (A.keeps_laws d.a) (B.keeps_laws d.b) d.few) };
}
