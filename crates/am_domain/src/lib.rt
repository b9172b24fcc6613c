//! Abstract domains over words, and what is asked of a transformer.
//!
//! An abstract value of a domain is a tuple of at most four words, its [`Fields`]. A domain says
//! which tuples are abstract values and which words are members of a tuple; its type implements
//! [`Domain`], and generic code knows a domain by the trait's clauses alone.
//!
//! ```text
//! /// Whether the word is a member of the join of two values.
//! fn is_in_either<D: Domain>(domain: &D, w: Width, a: &Fields, b: &Fields, c: u8) -> bool {
//!     domain.contains(w, &domain.join(w, a, b), c)
//! }
//! ```
//!
//! What a domain means and what its operations answer is one record, in `specs/Abstraction.antt`, and
//! its laws are another, `KeepsLaws` in `specs/Laws.antt`. A domain is written once as such a record, and
//! an implementation names it and the proof of its laws, beside the methods:
//!
//! ```text
//! impl Domain for Unsigned {
//!     ghost abstraction = { λ _. unsigned_intervals };
//!
//!     fn fields(&self) -> u32 {
//!         2
//!     }
//!
//!     // .. and a body for each further method
//!
//!     ghost keeps_laws = { λ _. unsigned_laws };
//! }
//! ```
//!
//! A domain whose values are walks from one word to another keeps the laws of `specs/AnchoredLaws.antt`
//! as well, and implements [`Anchored`]. The definitions of a sound and of a best transformer stand in
//! `specs/Question.antt`, over any domain, operation, assumption and language of terms.
//!
//! # What is proved
//!
//! The trait's laws: each value has a member; `top` has all words; the value of a word has it; a
//! join is a value with the members of both; the rank is at most the number of fields times 2^w,
//! and a join that changes its first value has a smaller one; tidying a raw tuple loses no member,
//! and gives nothing only where there is none; the two terms fit, are small, and are nonzero
//! exactly where the tuple is valid, or the word a member. Generic code may use these laws for
//! every domain. Only the makers of terms take memory.
//!
//! Of examples it is proved, in [`theorems`], that a sound transformer covers every true positive one,
//! and that one which betters another excludes each negative one that the other excludes; so no
//! transformer is sound where none satisfies true positive examples, and a sound one is best where
//! none that satisfies the examples is closer.
//!
//! # What is not
//!
//! The laws bound no precision. A join or a tidied tuple that has all words keeps them, and the domain
//! is sound and of no use; each domain's own definitions say which value its methods answer.
#![tactic(auto)]

mod anchored;
mod domain;
mod fields;
pub mod theorems;

pub use anchored::Anchored;
pub use domain::Domain;
pub use fields::Fields;
