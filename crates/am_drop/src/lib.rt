//! Dropping of negative examples.
//!
//! A new positive example may leave no transformer that satisfies all negative ones beside it. [`keep`] takes
//! the negative examples in order, and keeps each exactly where some transformer satisfies the positive ones,
//! the negative ones kept before it, and it. So the kept ones are maximal: no example can be added to them. They
//! need not be as many as could be kept.
//!
//! # What is proved
//!
//! [`keep`] answers as `specs/Keeping.antt` says: exactly the kept places together with a transformer that
//! satisfies the positive examples and those at the places; or a log that refutes that any transformer satisfies
//! the positive examples; or a log of as many valid chains as the limit, each of whose clauses is new, over the
//! fit of the positive examples and the negative ones at places of which all but the last are kept ones. Where 3
//! to the number of selectors is at most the limit, it isn't spent.
#![tactic(auto)]

mod keeper;
mod keeping;

pub use keeper::keep;
pub use keeping::Keeping;
