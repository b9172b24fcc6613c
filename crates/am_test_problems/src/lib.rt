//! Tests of words, domains, grammars, streams, texts and problems, with values of an independent reference.
//!
//! They stand apart from the crates that they test, since a crate with tests is proved twice, once with them and once
//! without. They use public calls alone.
#![tactic(auto)]

#[cfg(test)]
mod domains;
#[cfg(test)]
mod generator;
#[cfg(test)]
mod grammars;
#[cfg(test)]
mod streams;
#[cfg(test)]
mod texts;
#[cfg(test)]
mod words;
