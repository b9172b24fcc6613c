//! The tokens of a text, and a writer of texts.
//!
//! A text has printable ASCII bytes, spaces and newlines. `(` and `)` are tokens by themselves, and
//! each other longest row of bytes without a space, a newline or a parenthesis is one: a word.
//! [`Tokens::new`] tests the bytes, and a [`Cursor`] goes over the tokens, which are slices of the
//! text with their places. Nothing is copied, and no memory is taken. A [`Writer`] is a text that
//! grows by words, numbers, spaces and newlines. A [`Gather`] joins the pieces of a stream, up to a
//! limit.
//!
//! ```text
//! fn width(text: &[u8]) -> Result<&[u8], usize> {
//!     let mut cursor = Cursor::new(Tokens::new(text).map_err(|bad| bad.0)?);
//!     cursor.expect(b"width")?;
//!     let end = cursor.place();
//!     cursor.next().map(|token| token.text).ok_or(end)
//! }
//! ```
//!
//! # What is proved
//!
//! [`Tokens::new`] answers [`BadByte`] exactly where a byte is neither printable ASCII, a space nor
//! a newline, with the first such place. Otherwise its tokens are the text's: each is the slice at
//! its place, a parenthesis or a longest row of other bytes; places rise; no byte but spaces and
//! newlines is left out; no byte is copied. A [`Cursor`] is the list of tokens left and the text's
//! end: `peek` and `next` give the first token, and `None` exactly at the end; `expect` takes the
//! word, or answers the next place exactly where another token or none stands there, and stays. A
//! [`Writer`] holds exactly the bytes appended so far, with numbers in decimal, and is unchanged
//! where memory is missing. [`Gather::end`] gives all pieces joined, in order. It answers
//! [`GatherEnd::NoMemory`] exactly where a piece found no memory, and else [`GatherEnd::Long`] exactly
//! where they have more bytes than the limit.
#![tactic(auto)]

mod cursor;
mod gather;
mod scan;
mod token;
mod tokens;
mod writer;

pub use cursor::Cursor;
pub use gather::{Gather, GatherEnd};
pub use token::Token;
pub use tokens::{BadByte, Tokens};
pub use writer::Writer;
