//! Why a token is refused in the place of another.

ghost use Rattle.std.specs.Prelude.{◌≡◌};
ghost use Rattle.am_syntax.specs.Pieces.{cause_of};

use crate::numerals::is_name;
use crate::refusal::Cause;

/// Why another token is refused in the place of a key word or of a nonterminal.
#[derive(Clone, Copy)]
pub enum Otherwise<'w> {
    /// Each is against the syntax.
    Syntax,
    /// Each makes a wrong count.
    Count,
    /// A nonterminal is one too many, and each other token is against the syntax.
    NameTooMany,
    /// This word comes too early, so something is missing, and each other token is against the syntax.
    TooEarly(&'w [u8]),
}

impl<'w> Otherwise<'w> {
    /// Why this token is refused.
    pub fn cause(&self, word: &[u8]) -> Cause
        ensures { result ≡ cause_of self.now word.now }
    {
        let miscounts = match self {
            Otherwise::Syntax => false,
            Otherwise::Count => true,
            Otherwise::NameTooMany => is_name(word),
            Otherwise::TooEarly(early) => word == *early,
        };
        if miscounts {
            Cause::Count
        } else {
            Cause::Syntax
        }
    }
}
