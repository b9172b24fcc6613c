//! Circuits of gates as clauses.
//!
//! A [`Circuit`] makes inputs, gates and clauses, one after another, and answers a literal for each
//! input and gate. [`Circuit::finish`] gives the formula, whose satisfying assignments are exactly
//! the truth values that the gates and the forced clauses allow. In each of them the literal that a
//! gate call answered has the gate's value, and the inputs determine the formula by unit rows.
//!
//! A circuit of [`Circuit::new_folding`] folds constants: a gate call for which another literal has the
//! gate's value, by the table in `specs/Folding.antt`, answers that literal and makes nothing.
//!
//! ```text
//! let mut circuit = Circuit::new(alloc)?;
//! let a = circuit.input()?;
//! let b = circuit.input()?;
//! let both = circuit.and(a, b)?;
//! circuit.force(both)?;
//! let formula = circuit.finish();
//! ```
//!
//! Circuits are written as steps (`specs/Build.antt`), and the rules for what steps mean, make and give
//! stand in `proofs/Laws`, for this crate and those above it.
//!
//! # What is proved
//!
//! A circuit starts with one variable, number 0, which is forced to be true. `input`, `and`, `xor`
//! and `mux` each answer a literal: that of the next variable, whose clauses stand in
//! `specs/Circuit.antt` and are appended exactly so, or, in a circuit that folds, the literal of
//! the first line of `specs/Folding.antt` that fits. `force` and `clause` append theirs and fold
//! nothing. Each clause is sorted by code and freed of repeats first, and isn't added where a
//! variable stands in both signs. A call that finds no memory leaves the circuit as it was. For
//! every list of events that makes the circuit, the satisfying assignments of what `finish` gives
//! are **exactly** those in which variable 0 is true, each made gate's variable has its gate's
//! value and each forced clause holds; in each of them the literal that a gate call answered has
//! the gate's value; and where each event stands over earlier variables, the variables that `input`
//! made determine the formula by unit rows. `finish` takes no memory.
#![tactic(auto)]

mod circuit;
pub mod circuit_laws;
mod fold;
mod sorted;

pub use circuit::Circuit;
