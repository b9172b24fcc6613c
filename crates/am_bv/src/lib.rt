//! Bit-vector terms over words of 2 to 8 bits: the words, the operators, the terms, and a proved
//! evaluator of them.
//!
//! A word of width w is a number from 0 to 2^w - 1, held in a `u8`. A term is a constant, a field or
//! an operator at terms, and [`value`] is its meaning by whole-number arithmetic modulo 2^w, as
//! SMT-LIB's fixed-size bit-vectors have it. A comparison answers the word 1 or 0.
//!
//! ```
//! let w = Width::new(4).ok_or("no width")?;
//! let mut args = Row::new(alloc);
//! args.push(Term::Field(0))?;
//! args.push(Term::Const(9))?;
//! let sum = Term::Node(Op::Add, args);
//! if sum.fits(w, 1) {
//!     let word = value(w, &sum, &[w.truncate(8)]); // 1, since 8 + 9 is 16 + 1
//! }
//! ```
//!
//! What the operators and terms mean stands in `specs/Words.antt`, `specs/Operators.antt` and
//! `specs/Terms.antt`. [`theorems`] has laws on them for the proofs of other crates.
//!
//! # What is proved
//!
//! A word of width w, from 2 to 8, is a number below 2^w. The 23 operators are whole-number
//! arithmetic modulo 2^w: division by zero gives the greatest word, the remainder by zero is the
//! dividend, `shl` and `lshr` by w or more give 0, and `ashr` by w or more gives copies of the top
//! bit. The value of a term, when it fits a width and a number of fields, its nodes and its weight
//! are folds over the term. [`value`] and [`Op::apply`] equal these definitions, although the code
//! works with masks and wrapping bytes. [`Op::arity`], [`Op::weight`], [`Term::fits`],
//! [`Term::has_arities`], [`Term::weight`] equal theirs; [`Term::nodes`] is the number of nodes, or
//! 2^32 where there are more. [`Term::copy`] gives an equal term, and [`Term::rename`] the term with
//! other fields. [`Term::equals`], which is what `==` answers, holds exactly where the terms are the
//! same. [`Width::new`] is `None` exactly outside 2 to 8. A [`Row`] is the list of its items,
//! unchanged by a refused push.
//!
//! # What is not
//!
//! No clause bounds the stack. [`value`], the methods of a term, `==` and dropping a term call
//! themselves once for each level of nesting, so that a term of a million nested `not` may end the
//! process. A reader of terms from outside has to bound their nesting, as that of `am_syntax` does
//! before it goes down.
#![tactic(auto)]

mod apply;
mod evaluation;
mod op;
mod row;
mod term;
pub mod theorems;
mod width;

pub use evaluation::value;
pub use op::Op;
pub use row::Row;
pub use term::{Term, Terms};
pub use width::Width;
