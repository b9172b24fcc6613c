//! One token of a text.

/// A token: its bytes, a slice of the text, and the place of the first.
#[derive(Clone, Copy, PartialEq, Eq, Debug)]
pub struct Token<'a> {
    pub text: &'a [u8],
    pub at: usize,
}
