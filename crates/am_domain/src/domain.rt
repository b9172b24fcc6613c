//! Abstract domains, and the laws that each of them keeps.

ghost use Rattle.std.specs.Prelude.{◌≡◌, ◌<◌, ◌≤◌, ◌^◌, ◌↔◌, IsTrue, IfOk};
ghost use Rattle.am_domain.specs.Abstraction.{Abstraction};
ghost use Rattle.am_domain.specs.Laws.{KeepsLaws};
ghost use Rattle.am_domain.specs.Meaning.{IsAbstract};
ghost use Rattle.am_domain.specs.Tuple.{IsTuple};

use crate::fields::Fields;
use am_bv::{Term, Width};
use std::alloc::{AllocError, Global};

/// An abstract domain over the words of every width from 2 to 8.
///
/// Membership is defined for every tuple of words. The valid tuples are the abstract values. The
/// laws stand below the methods, and generic code may cite them for every domain.
pub trait Domain {
    /// What the domain means, and what its operations answer.
    ghost abstraction: { Self → Abstraction };

    /// How many words a tuple has, from 1 to 4.
    fn fields(&self) -> u32
        ensures value { result ≡ (abstraction self.now).meaning.fields }
        ensures most { result ≤ 4 };

    /// Whether the tuple is an abstract value.
    fn valid(&self, w: Width, a: &Fields) -> bool
        requires { IsTuple w (abstraction self.now).meaning.fields a.now }
        ensures { IsTrue result ↔ (abstraction self.now).meaning.Valid w a.now };

    /// Whether the word is a member of the tuple.
    fn contains(&self, w: Width, a: &Fields, c: u8) -> bool
        requires tuple { IsTuple w (abstraction self.now).meaning.fields a.now }
        requires word { c < 2 ^ w }
        ensures { IsTrue result ↔ (abstraction self.now).meaning.Member w a.now c };

    /// The value that has all words.
    fn top(&self, w: Width) -> Fields
        ensures { result ≡ (abstraction self.now).top w };

    /// A value that has the word.
    fn of_word(&self, w: Width, c: u8) -> Fields
        requires { c < 2 ^ w }
        ensures { result ≡ (abstraction self.now).of_word w c };

    /// A member of a value.
    fn some_member(&self, w: Width, a: &Fields) -> u8
        requires { IsAbstract (abstraction self.now).meaning w a.now }
        ensures { result ≡ (abstraction self.now).some_member w a.now };

    /// A value that has the members of both.
    fn join(&self, w: Width, a: &Fields, b: &Fields) -> Fields
        requires first { IsAbstract (abstraction self.now).meaning w a.now }
        requires second { IsAbstract (abstraction self.now).meaning w b.now }
        ensures { result ≡ (abstraction self.now).join w a.now b.now };

    /// A value that has the members of a raw tuple, or `None`, which comes only where it has none.
    fn tidy(&self, w: Width, raw: &Fields) -> Option<Fields>
        requires { IsTuple w (abstraction self.now).meaning.fields raw.now }
        ensures { result ≡ (abstraction self.now).tidy w raw.now };

    /// A number that falls with each join that changes the value.
    fn rank(&self, w: Width, a: &Fields) -> u32
        requires { IsAbstract (abstraction self.now).meaning w a.now }
        ensures { result ≡ (abstraction self.now).rank w a.now };

    /// A term over the fields of a tuple that isn't 0 exactly where the tuple is valid.
    fn valid_term(&self, alloc: Global, w: Width) -> Result<Term, AllocError>
        ensures { IfOk result (λ t. t ≡ (abstraction self.now).valid_term w) };

    /// A term over the fields of a tuple and then a word, that isn't 0 exactly where the word is a
    /// member of the tuple.
    fn member_term(&self, alloc: Global, w: Width) -> Result<Term, AllocError>
        ensures { IfOk result (λ t. t ≡ (abstraction self.now).member_term w) };

    /// All laws of a domain hold.
    ghost keeps_laws: { (d : Self) → KeepsLaws (abstraction d) };
}
