//! Taking the next token by a judge's verdict.

ghost use Rattle.std.specs.Prelude.{Err, IfOk, OnOk};
ghost use Rattle.am_syntax.specs.Readers.{GivesRead, Says, judged};

use crate::refusal::Cause;
use am_text::Cursor;

/// A test of one token.
pub trait Judge<'a> {
    ghost use Rattle.std.specs.Prelude.{Result};
    ghost use Rattle.am_syntax.specs.declared.refusal.Cause.{Cause as Why};
    ghost use Rattle.am_syntax.specs.Readers.{Word};

    /// What a token says that passes.
    type Value: Drop;

    /// The value as plain data.
    ghost Shown: { Type 0 };

    ghost view: { Self.Value → Shown };

    /// The verdict on a token: its value, or why it is refused.
    ghost verdict: { Self → Word → Result Shown Why };

    /// What is known of each value.
    ghost known: { Self → Self.Value → Type 0 };

    fn judge(&self, word: &'a [u8]) -> Result<Self::Value, Cause>
        ensures verdict { Says view result (verdict self.now word.now) }
        ensures known { IfOk result (known self.now) };
}

/// Takes the next token where it passes.
///
/// # Errors
///
/// The judge's verdict, or `Syntax` at the end of the text. The cursor stays.
pub fn take<'a, J: Judge<'a>>(text: &mut Cursor<'a>, judge: &J) -> Result<J::Value, Cause>
    ensures value { GivesRead J.view result text.old text.new (judged (J.verdict judge.now)) }
    ensures known { IfOk result (J.known judge.now) }
{
    let mut behind = text.fork();
    let Some(token) = behind.next() else {
        return Err(Cause::Syntax);
    };
    let value = judge.judge(token.text)?;
    *text = behind;
    Ok(value)
}

/// No token.
#[derive(Clone, Copy)]
struct Nothing {
    /// Why each is refused.
    cause: Cause,
}

impl<'a> Judge<'a> for Nothing {
    ghost use Rattle.std.specs.Prelude.{Err};

    type Value = ();

    ghost Shown = { Unit {0} };

    ghost view = { λ _. tt };

    ghost verdict = { λ own _. Err own.cause };

    ghost known = { λ _ _. ⊥ };

    fn judge(&self, _word: &'a [u8]) -> Result<(), Cause> {
        Err(self.cause)
    }
}

/// Refuses the next token, whatever it is, for this cause.
///
/// # Errors
///
/// Always: the cause, or `Syntax` at the end of the text. The cursor stays.
pub fn refuse_next(text: &mut Cursor<'_>, cause: Cause) -> Result<(), Cause>
    ensures value { GivesRead (λ _. tt) result text.old text.new (judged {X = Unit {0}} (λ _. Err cause)) }
    ensures never { OnOk result ⊥ }
{
    take(text, &Nothing { cause })
}
