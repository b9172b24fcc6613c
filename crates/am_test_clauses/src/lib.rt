//! Tests of resolution, trails, propagation and the solvers, and of circuits, with values of an independent reference.
//!
//! They stand apart from the crates that they test, since a crate with tests is proved twice, once with them and once
//! without. They use public calls alone.
#![tactic(auto)]

#[cfg(test)]
mod chains;
#[cfg(test)]
mod circuit_table;
#[cfg(test)]
mod circuits;
#[cfg(test)]
mod codes;
#[cfg(test)]
mod quick;
#[cfg(test)]
mod solving;
#[cfg(test)]
mod trails;
#[cfg(test)]
mod watching;
