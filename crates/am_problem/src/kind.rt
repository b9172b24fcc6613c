//! The abstract domains that a problem names.

ghost use Rattle.std.specs.Prelude.{◌≡◌};
ghost use Rattle.am_problem.specs.Grammar.{kind_named};
ghost use Rattle.am_problem.specs.Kinds.{abstraction_of, kind_name};
ghost use Rattle.am_problem.specs.lemmas.KindLaws.{laws_of};

use am_bits::{Congruence, Known, Parity};
use am_bv::{Term, Width};
use am_domain::{Domain, Fields};
use am_interval::{Signed, Unsigned};
use am_pair::Pair;
use am_wrap::Wrapped;
use std::alloc::{AllocError, Global};

/// The abstract domains that a problem names.
#[derive(Clone, Copy, PartialEq, Eq, Debug)]
pub enum Kind {
    /// Intervals of unsigned numbers, `u-interval`.
    UInterval,
    /// Intervals of signed numbers, `s-interval`.
    SInterval,
    /// Known bits, `known-bits`.
    KnownBits,
    /// Parities, `parity`.
    Parity,
    /// Residues modulo powers of two, `congruence`.
    Congruence,
    /// Intervals that may wrap, `w-interval`.
    WInterval,
    /// Intervals of unsigned numbers with known bits, `u-interval+known-bits`.
    UIntervalKnown,
    /// Intervals of unsigned numbers with residues, `u-interval+congruence`.
    UIntervalCongruence,
    /// Intervals that may wrap with residues, `w-interval+congruence`.
    WIntervalCongruence,
}

/// All of them, in the order in which they are listed.
const KINDS: [Kind; 9] = [
    Kind::UInterval,
    Kind::SInterval,
    Kind::KnownBits,
    Kind::Parity,
    Kind::Congruence,
    Kind::WInterval,
    Kind::UIntervalKnown,
    Kind::UIntervalCongruence,
    Kind::WIntervalCongruence,
];

impl Kind {
    /// The name by which a problem's text calls the domain.
    pub fn name(self) -> &'static [u8]
        ensures { result.now ≡ kind_name self }
    {
        match self {
            Kind::UInterval => b"u-interval",
            Kind::SInterval => b"s-interval",
            Kind::KnownBits => b"known-bits",
            Kind::Parity => b"parity",
            Kind::Congruence => b"congruence",
            Kind::WInterval => b"w-interval",
            Kind::UIntervalKnown => b"u-interval+known-bits",
            Kind::UIntervalCongruence => b"u-interval+congruence",
            Kind::WIntervalCongruence => b"w-interval+congruence",
        }
    }

    /// The domain of this name.
    #[tactic(auto, using(crate::proofs::Finds::find_more), unfolding(crate::specs::Grammar::kind_named))]
    pub fn named(word: &[u8]) -> Option<Kind>
        ensures { result ≡ kind_named word.now }
    {
        for kind in KINDS {
            if kind.name() == word {
                return Some(kind);
            }
        }
        None
    }
}

/// The call at the domain of a kind.
macro_rules! at_domain {
    ($kind:expr, $domain:ident => $call:expr) => {
        match $kind {
            Kind::UInterval => {
                let $domain = Unsigned;
                $call
            }
            Kind::SInterval => {
                let $domain = Signed;
                $call
            }
            Kind::KnownBits => {
                let $domain = Known;
                $call
            }
            Kind::Parity => {
                let $domain = Parity;
                $call
            }
            Kind::Congruence => {
                let $domain = Congruence;
                $call
            }
            Kind::WInterval => {
                let $domain = Wrapped;
                $call
            }
            Kind::UIntervalKnown => {
                let $domain = Pair::new(Unsigned, Known);
                $call
            }
            Kind::UIntervalCongruence => {
                let $domain = Pair::new(Unsigned, Congruence);
                $call
            }
            Kind::WIntervalCongruence => {
                let $domain = Pair::new(Wrapped, Congruence);
                $call
            }
        }
    };
}

impl Domain for Kind {
    ghost abstraction = { abstraction_of };

    fn fields(&self) -> u32 {
        at_domain!(self, domain => domain.fields())
    }

    fn valid(&self, w: Width, a: &Fields) -> bool {
        at_domain!(self, domain => domain.valid(w, a))
    }

    fn contains(&self, w: Width, a: &Fields, c: u8) -> bool {
        at_domain!(self, domain => domain.contains(w, a, c))
    }

    fn top(&self, w: Width) -> Fields {
        at_domain!(self, domain => domain.top(w))
    }

    fn of_word(&self, w: Width, c: u8) -> Fields {
        at_domain!(self, domain => domain.of_word(w, c))
    }

    fn some_member(&self, w: Width, a: &Fields) -> u8 {
        at_domain!(self, domain => domain.some_member(w, a))
    }

    fn join(&self, w: Width, a: &Fields, b: &Fields) -> Fields {
        at_domain!(self, domain => domain.join(w, a, b))
    }

    fn tidy(&self, w: Width, raw: &Fields) -> Option<Fields> {
        at_domain!(self, domain => domain.tidy(w, raw))
    }

    fn rank(&self, w: Width, a: &Fields) -> u32 {
        at_domain!(self, domain => domain.rank(w, a))
    }

    fn valid_term(&self, alloc: Global, w: Width) -> Result<Term, AllocError> {
        at_domain!(self, domain => domain.valid_term(alloc, w))
    }

    fn member_term(&self, alloc: Global, w: Width) -> Result<Term, AllocError> {
        at_domain!(self, domain => domain.member_term(alloc, w))
    }

    ghost keeps_laws = { laws_of };
}
