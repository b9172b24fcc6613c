//! Terms as circuits of gates.
//!
//! [`blast`] makes the circuit of a term over the words of its fields, and answers the term's word.
//! Wherever variable 0 is true and each gate's variable has its gate's value, that word reads as the
//! value of the term. It has exactly as many gates as the term weighs, or fewer where the circuit folds,
//! and no input of its own, and each choice of the earlier variables extends to such truth values.
//!
//! [`apply`] makes the circuit of one operator over words, [`at_each_bit`] a gate at each bit, and
//! [`is_nonzero`] the test whether a word isn't 0. [`constant`] is the word of a number.
//!
//! ```text
//! let mut circuit = Circuit::new(alloc)?;
//! let mut field = WordLits::new(alloc);
//! for _ in 0..w.bits() {
//!     field.push(circuit.input()?)?;
//! }
//! let word = blast(alloc, &mut circuit, w, &term, &[field])?;
//! let formula = circuit.finish();
//! ```
//!
//! The circuit of each operator is one row of the table in `specs/Circuits.antt`. The other files of
//! `specs/` have the adders, tests, shifts, products and divisions that the rows are made of.
//!
//! # What is proved
//!
//! [`blast`] makes exactly the gates of the term's circuit, in that order, and answers its word; it
//! makes no input, and at most as many gates as the term weighs, exactly so many where the circuit
//! doesn't fold, each over earlier variables. Wherever variable 0 is true and each gate's variable
//! has its gate's value, the word reads as the **value of the term**, by whole-number arithmetic,
//! at every width from 2 to 8. Each choice of the earlier variables extends to such truth values.
//! After want of memory the circuit begins with its earlier variables and clauses.
#![tactic(auto)]

mod bitwise;
mod compare;
mod divide;
mod equal;
mod operator;
mod product;
mod relation;
mod shift;
mod sum;
mod terms;
pub mod theorems;
mod word;

pub use bitwise::{Gate, at_each_bit};
pub use equal::is_nonzero;
pub use operator::apply;
pub use sum::zeros;
pub use terms::{blast, constant};
pub use word::{WordLits, Words, copied};
