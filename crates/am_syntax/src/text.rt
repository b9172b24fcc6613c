//! The edges of a text.

ghost use Rattle.std.specs.Prelude.{◌≡◌, IfErr, IfOk, None, OnOk, Some};
ghost use Rattle.am_text.specs.Tokens.{bad_byte, text_left};
ghost use Rattle.am_syntax.specs.declared.refusal.Refusal.TheVariants.{BadByte};
ghost use Rattle.am_syntax.specs.Texts.{answer_at_end, placed};

use crate::refusal::{Failure, ReadError, Refusal};
use am_text::{Cursor, Tokens};

/// A cursor at the beginning of a text.
///
/// # Errors
///
/// `BadByte`: some byte is not printable ASCII, a space or a newline.
pub fn open(text: &[u8]) -> Result<Cursor<'_>, Refusal>
    ensures ok { IfOk result (λ cursor. cursor ≡ text_left text.now) }
    ensures good { OnOk result (bad_byte text.now ≡ None) }
    ensures bad { IfErr result (λ r. (at : _) × (bad_byte text.now ≡ Some at) × (r ≡ BadByte at)) }
{
    match Tokens::new(text) {
        Ok(tokens) => Ok(Cursor::new(tokens)),
        Err(bad) => Err(Refusal::BadByte(bad.0)),
    }
}

/// What was read, or why nothing was, with the place of the refused token.
pub fn placed<T>(read: Result<T, Failure>, text: &Cursor<'_>) -> Result<T, ReadError>
    ensures { result ≡ placed text.now read }
{
    match read {
        Ok(value) => Ok(value),
        Err(Failure::Refused(cause)) => Err(ReadError::Refused(cause.at(text.place()))),
        Err(Failure::NoMemory) => Err(ReadError::NoMemory),
    }
}

/// What was read from a whole text, after which nothing stands.
///
/// # Errors
///
/// Why nothing was read, with the place of the refused token, or `Syntax` at a token after the
/// value.
pub fn close<T: Drop>(read: Result<T, Failure>, text: &Cursor<'_>) -> Result<T, ReadError>
    ensures { result ≡ answer_at_end text.now read }
{
    let value = placed(read, text)?;
    match text.peek() {
        Some(token) => Err(ReadError::Refused(Refusal::Syntax(token.at))),
        None => Ok(value),
    }
}
