//! Abstract domains that speak of the bits of a word: [`Known`], [`Parity`] and [`Congruence`].
//!
//! Known bits tell which bits of a word are 0 and which are 1, a parity whether words are even or
//! odd, and a congruence the residue of words modulo a power of two. All three types implement
//! `Domain`, so that generic code may rest on its laws.
//!
//! ```
//! let w = Width::new(4).ok_or("no width")?;
//! let thirteen = Congruence.of_word(w, w.truncate(13));
//! let five = Congruence.of_word(w, w.truncate(5));
//! let both = Congruence.join(w, &thirteen, &five); // 7 and 5: the words that are 5 modulo 8
//! let six = Congruence.contains(w, &both, w.truncate(6)); // false
//! let common = Known.join(w, &Known.of_word(w, w.truncate(13)), &Known.of_word(w, w.truncate(5)));
//! let zeros = common.get(0); // 2: bit 1 is 0 in both
//! let ones = common.get(1); // 5: bits 0 and 2 are 1 in both
//! ```
//!
//! The definitions stand in `specs/KnownBits.antt`, `specs/Parities.antt` and
//! `specs/Congruences.antt`, each with its domain as a record. The proofs of the laws are in
//! `specs/lemmas`, for all words and tuples of every width from 2 to 8. [`theorems`] says what a
//! congruence is in whole numbers.
//!
//! # What is proved
//!
//! Each method equals its row of the definitions, and each law is proved for all words and tuples
//! of every width from 2 to 8. It is also proved that a word is a member of a congruence exactly
//! where it leaves its residue modulo m + 1.
#![tactic(auto)]

mod congruence;
mod known;
mod parity;
pub mod theorems;

pub use congruence::Congruence;
pub use known::Known;
pub use parity::Parity;
