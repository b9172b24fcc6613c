//! The product of two abstract domains: [`Pair`].
//!
//! A value of a product has a value of each part, and its members are the words that are members of
//! both. The first part is a domain whose values are walks from one word to another, as an interval is,
//! and its first word has to be a member of the second part. Tidying lets each part take facts from the
//! other. A product implements `Domain` again, so that generic code may rest on its laws.
//!
//! ```
//! let domain = Pair::new(Unsigned, Known);
//! let w = Width::new(4).ok_or("no width")?;
//! let raw = Fields::from_slice(&[1, 15, 3, 4]); // from 1 to 15; bits 0 and 1 are 0, and bit 2 is 1
//! let tidied = domain.tidy(w, &raw); // 4, 12, 3, 4
//! ```
//!
//! The definitions stand in `specs/Pairs.antt`. The proofs of the laws are in `specs/lemmas`.
//!
//! # What is proved
//!
//! Each method equals its definition, and each law of `Domain` holds, for all words and tuples of every
//! width from 2 to 8. This is proved once, from the laws of the two parts, for all domains that meet the
//! bounds. Tidying takes the hull of the common words of the two tidied parts, and [`theorems`] says that
//! these are the words that are members of both.
#![tactic(auto)]

mod pair;
mod parts;
pub mod theorems;

pub use pair::Pair;
