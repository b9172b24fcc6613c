//! Reading of text formats, with the first refusal and its place; numbers, names and terms.
//!
//! A format is written twice, as a grammar and as code. The grammar is a *piece*
//! (`specs/Pieces.antt`): how a value is spelled, which values are good, and how one is read from
//! left to right. Pieces are put together from single tokens, one after the other, after a key
//! word, so many of them, as many as follow, or by a choice, and each way of putting together has
//! one law: what a piece reads is spelled so and is good, and what is good and spelled so is read.
//! The code is one function for each line of the grammar, a straight line of `?`, over [`take`],
//! [`read_times`] and [`read_list`]. It answers exactly what the piece reads.
//!
//! A refusal is born at one place, the verdict of a [`Judge`] on one token, and carries no place:
//! the cursor stays at the refused token, and [`Cause::at`] adds the place at the edge. Key words,
//! numbers and nonterminals have one judge each: [`Key`], [`Number`] and [`Name`]; [`Otherwise`]
//! says why another token is refused in the place of a key word or of a nonterminal.
//!
//! ```text
//! /// `turns` and the number of turns.
//! fn take_turns(text: &mut Cursor<'_>) -> Result<u64, Cause>
//!     ensures { Gives (λ n. n) result text.old text.new (keyed (codes "turns") (number 0 4096)).read }
//! {
//!     take_key(text, b"turns")?;
//!     take_number(text, 0, 4096)
//! }
//! ```
//!
//! [`read_number`], [`read_name`] and [`read_term`] answer refusals with their places, and
//! [`print_term`] writes what [`read_term`] reads. [`print_line`] writes a line of a key word and of words,
//! numbers and terms, and [`print_word`] one more word on a line.
//!
//! # What is proved
//!
//! For each way of putting pieces together one law is proved, once: what a piece reads is spelled
//! so and is good; what is good and spelled so is read, where what follows may follow; and the tokens
//! that are left after a value, or from a refused token on, are the rest of those that were left.
//! [`take`], [`read_times`] and [`read_list`] answer exactly what the pieces read, for every judge
//! and item. A refusal leaves the cursor at the refused token, and want of memory leaves it in its
//! place; only an [`Item`] that finds no memory may leave its cursor anywhere, since [`read_times`] and
//! [`read_list`] give that one up. [`follow`] keeps this for a format's own calls: what was read ahead
//! moves the cursor, unless memory was wanting. [`read_number`], [`read_name`] and [`read_term`] answer
//! exactly the number, name or term that is spelled, or the first refusal with the place of its token; a
//! text of a term has a value or a first refusal, and not both. [`print_term`] appends the term's canonical text, and
//! after want of memory the writer holds its old text and a part of the new; a printed term has the
//! term's words, and reads back. [`print_line`] and [`print_word`] append a line and a word in the same
//! way. The depth of the calls of [`read_term`] is at most the nesting allowed, which is tested before
//! going down.
#![tactic(auto)]

mod ahead;
mod item;
mod judge;
mod keys;
mod limits;
mod lines;
mod names;
mod nonterminals;
mod numbers;
mod numerals;
mod otherwise;
mod print;
mod reading;
mod refusal;
mod terms;
mod text;
pub mod theorems;

pub use ahead::follow;
pub use item::{Each, Item, Listed, read_list, read_times};
pub use judge::{Judge, refuse_next, take};
pub use keys::{Key, is_next, take_closing, take_key, take_key_or};
pub use limits::{Letter, TermLimits};
pub use lines::{Entry, print_line, print_word};
pub use names::{Operator, no_name, op_name, op_named, take_operator};
pub use nonterminals::{Name, take_name};
pub use numbers::{
    End, Number, is_number_next, take_below, take_keyed_number, take_number, take_width,
};
pub use numerals::{is_digits, is_name};
pub use otherwise::Otherwise;
pub use print::print_term;
pub use reading::{read_name, read_number, read_term};
pub use refusal::{Cause, Failure, ReadError, Refusal};
pub use terms::take_term;
pub use text::{close, open, placed};
