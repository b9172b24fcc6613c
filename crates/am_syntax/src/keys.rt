//! Key words.

ghost use Rattle.std.specs.Prelude.{◌≡◌};
ghost use Rattle.am_text.specs.Tokens.{words};
ghost use Rattle.am_syntax.specs.Pieces.{cause_of, closing, key, key_or, next_is};
ghost use Rattle.am_syntax.specs.Readers.{GivesRead};

use crate::judge::{Judge, take};
use crate::otherwise::Otherwise;
use crate::refusal::Cause;
use am_text::Cursor;

/// A key word, and why another token is refused in its place.
#[derive(Clone, Copy)]
pub struct Key<'w> {
    pub word: &'w [u8],
    pub otherwise: Otherwise<'w>,
}

impl<'a, 'w> Judge<'a> for Key<'w> {
    ghost use Rattle.am_syntax.specs.Pieces.{cause_of, key_judge};

    type Value = ();

    ghost Shown = { Unit {0} };

    ghost view = { λ _. tt };

    ghost verdict = { λ own word. key_judge (cause_of own.otherwise) own.word.now word };

    ghost known = { λ _ _. Unit {0} };

    fn judge(&self, word: &'a [u8]) -> Result<(), Cause> {
        if word == self.word {
            Ok(())
        } else {
            Err(self.otherwise.cause(word))
        }
    }
}

/// Whether this word comes next.
pub fn is_next(text: &Cursor<'_>, word: &[u8]) -> bool
    ensures { result ≡ next_is word.now (words text.now) }
{
    match text.peek() {
        Some(token) => token.text == word,
        None => false,
    }
}

/// Takes a key word, in whose place another token is refused so.
#[tactic(auto, unfolding(crate::specs::Pieces::key_or))]
pub fn take_key_or<'w>(
    text: &mut Cursor<'_>,
    word: &'w [u8],
    otherwise: Otherwise<'w>,
) -> Result<(), Cause>
    ensures { GivesRead (λ _. tt) result text.old text.new (key_or (cause_of otherwise.entry) word.now).read }
{
    take(text, &Key { word, otherwise })
}

/// Takes a key word.
pub fn take_key(text: &mut Cursor<'_>, word: &[u8]) -> Result<(), Cause>
    ensures { GivesRead (λ _. tt) result text.old text.new (key word.now).read }
{
    take_key_or(text, word, Otherwise::Syntax)
}

/// Takes a closing parenthesis after the last argument of an operator.
pub fn take_closing(text: &mut Cursor<'_>) -> Result<(), Cause>
    ensures { GivesRead (λ _. tt) result text.old text.new closing.read }
{
    take_key_or(text, b")", Otherwise::Count)
}
