//! Intervals of words: the abstract domains [`Unsigned`] and [`Signed`].
//!
//! A value is a least and a greatest word, and its members are the words between them, as unsigned
//! numbers or as numbers in two's complement. Both types implement `Domain`, so that generic code
//! may rest on its laws.
//!
//! ```
//! let w = Width::new(4).ok_or("no width")?;
//! let minus_two = Signed.of_word(w, w.truncate(14));
//! let three = Signed.of_word(w, w.truncate(3));
//! let hull = Signed.join(w, &minus_two, &three);
//! let zero = Signed.contains(w, &hull, w.truncate(0)); // true
//! let rank = Signed.rank(w, &hull); // 10, the number of words outside
//! ```
//!
//! The definitions stand in `specs/Intervals.antt`, once for both ways to read a word as a number,
//! those of the terms for validity and membership in `specs/Terms.antt`, and both domains as records in
//! `specs/Domains.antt`. The proofs of the laws are in `specs/lemmas`.
//!
//! # What is proved
//!
//! Each method equals its row of the definitions, and each law is proved for all words and tuples
//! of every width from 2 to 8.
#![tactic(auto)]

mod signed;
mod terms;
mod unsigned;

pub use signed::Signed;
pub use unsigned::Unsigned;
