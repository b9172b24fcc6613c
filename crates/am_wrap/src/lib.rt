//! Wrapped intervals: the abstract domain [`Wrapped`].
//!
//! A value is a start and an end, and its members are the words from the start upwards by 1, modulo
//! 2^w, to the end. So an interval may pass from the greatest word to 0. The type implements `Domain`
//! and `Anchored`, so that generic code may rest on their laws.
//!
//! ```
//! let w = Width::new(4).ok_or("no width")?;
//! let around_zero = Fields::pair(w.truncate(14), w.truncate(1)); // 14, 15, 0 and 1
//! let three_and_four = Fields::pair(w.truncate(3), w.truncate(4));
//! let hull = Wrapped.join(w, &around_zero, &three_and_four); // 14 and 4
//! let two = Wrapped.contains(w, &hull, w.truncate(2)); // true
//! let rank = Wrapped.rank(w, &hull); // 9, the number of words outside
//! ```
//!
//! The join goes by rules, and is neither commutative nor associative nor monotone. At width 2 the join
//! of (0, 0) with (2, 2) is (0, 2), and the other way round it is (2, 0): both are as narrow, and then
//! the interval from the first argument to the second is taken.
//!
//! The definitions stand in `specs/WrappedIntervals.antt`, with the rules of the join in their order,
//! and the domain as a record. The proofs of the laws are in `specs/lemmas`.
//!
//! # What is proved
//!
//! Each method equals its row of the definitions, and each law of `Domain` and of `Anchored` is proved
//! for all words and tuples of every width from 2 to 8. The rule by which one interval lies in another
//! holds exactly where each member of the one is a member of the other.
#![tactic(auto)]

mod wrapped;

pub use wrapped::Wrapped;
