//! The value of a term.

ghost use Rattle.std.specs.Prelude.{◌≡◌, ◌^◌, ◌<◌, length, IsTrue};
ghost use Rattle.am_bv.specs.Words.{AreWords};
ghost use Rattle.am_bv.specs.Terms.{val, fits};

use crate::term::Term;
use crate::width::Width;
use arrayvec::ArrayVec;

/// The value of a term where field `i` has the word `env[i]`. Takes no memory.
#[tactic(auto, using(crate::proofs::ByKind::laws))]
pub fn value(w: Width, t: &Term, env: &[u8]) -> u8
    requires fits { IsTrue (fits w (length env.now) t.now) }
    requires words { AreWords w env.now }
    ensures value { result ≡ val w t.now env.now }
    ensures word { result < 2 ^ w }
{
    match t {
        Term::Const(c) => *c,
        Term::Field(i) => env[*i as usize],
        Term::Node(op, args) => {
            let mut words = ArrayVec::<u8, 3>::new();
            for t in args.as_slice() {
                words.push(value(w, t, env));
            }
            op.apply(w, words.as_slice())
        }
    }
}
