//! Nonterminals, by their names.

ghost use Rattle.am_syntax.specs.Pieces.{name};
ghost use Rattle.am_syntax.specs.Readers.{GivesRead};

use crate::judge::{Judge, take};
use crate::numerals;
use crate::otherwise::Otherwise;
use crate::refusal::Cause;
use am_text::Cursor;

/// A nonterminal's name, and why another token is refused in its place.
#[derive(Clone, Copy)]
pub struct Name<'w> {
    pub otherwise: Otherwise<'w>,
}

impl<'a, 'w> Judge<'a> for Name<'w> {
    ghost use Rattle.am_syntax.specs.Pieces.{cause_of, name_judge};
    ghost use Rattle.am_syntax.specs.Readers.{Word};

    type Value = &'a [u8];

    ghost Shown = { Word };

    ghost view = { λ name. name.now };

    ghost verdict = { λ own word. name_judge (cause_of own.otherwise) word };

    ghost known = { λ _ _. Unit {0} };

    fn judge(&self, word: &'a [u8]) -> Result<&'a [u8], Cause> {
        if numerals::is_name(word) {
            Ok(word)
        } else {
            Err(self.otherwise.cause(word))
        }
    }
}

/// Takes a nonterminal's name.
#[tactic(auto, unfolding(crate::specs::Pieces::name_or))]
pub fn take_name<'a>(text: &mut Cursor<'a>) -> Result<&'a [u8], Cause>
    ensures { GivesRead (λ v. v.now) result text.old text.new name.read }
{
    let otherwise = Otherwise::Syntax;
    take(text, &Name { otherwise })
}
