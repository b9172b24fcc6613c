//! Tests of the queries and of what stands on them, with values of an independent reference.
//!
//! They stand apart from the crates that they test, since a crate with tests is proved twice, once with them and once
//! without. They use public calls alone.
#![tactic(auto)]

#[cfg(test)]
mod asked;
#[cfg(test)]
mod keeping;
#[cfg(test)]
mod limits;
#[cfg(test)]
mod printing;
#[cfg(test)]
mod queries;
#[cfg(test)]
mod query_cases;
#[cfg(test)]
mod small_problems;
