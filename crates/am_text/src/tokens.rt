//! The tokens of a text, and its first bad byte.

ghost use Rattle.std.specs.Prelude.{◌≡◌, IfErr, IfOk, None, OnOk, Some};
ghost use Rattle.am_text.specs.Tokens.{AreTokensOf, bad_byte, text_left};

use crate::scan;
use std::marker::Model;

/// The place of the first byte that no text may have.
#[derive(Clone, Copy, PartialEq, Eq, Debug)]
pub struct BadByte(pub usize);

/// The tokens of a text of allowed bytes. They are found as a cursor goes over them.
#[derive(Drop)]
pub struct Tokens<'a> {
    pub(crate) text: &'a [u8],
}

impl<'a> Model for Tokens<'a> {
    ghost use Rattle.am_text.specs.Tokens.{Left, left_code, text_left};

    ghost Value = { Left };

    ghost coded = { left_code };

    ghost view = { λ t. text_left t.text.now };
}

impl<'a> Tokens<'a> {
    /// Tests the bytes of a text.
    ///
    /// # Errors
    ///
    /// `BadByte`: some byte is not printable ASCII, a space or a newline.
    pub fn new(text: &'a [u8]) -> Result<Tokens<'a>, BadByte>
        ensures ok { IfOk result (λ tokens. tokens ≡ text_left text.now) }
        ensures good { OnOk result (bad_byte text.now ≡ None) }
        ensures bad { IfErr result (λ e. bad_byte text.now ≡ Some e.0) }

        ensures tokens { IfOk result (λ tokens. AreTokensOf text.now tokens.tokens) }
    {
        match scan::bad_byte(text) {
            Some(at) => Err(BadByte(at)),
            None => Ok(Tokens { text }),
        }
    }
}
