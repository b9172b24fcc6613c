//! The terms for intervals, whichever the order of their words.

ghost use Rattle.std.specs.Prelude.{◌≡◌, IfOk};
ghost use Rattle.am_bv.specs.Operators.{arity};
ghost use Rattle.am_interval.specs.Terms.{between_term, order_term};

use am_bv::{Op, Term};
use std::alloc::{AllocError, Global};

/// The term for validity, by an operator that tells whether a word is at most another.
pub fn order_term(alloc: Global, at_most: Op) -> Result<Term, AllocError>
    requires { arity at_most ≡ 2 }
    ensures { IfOk result (λ t. t ≡ order_term at_most) }
{
    Term::binary(alloc, at_most, Term::Field(0), Term::Field(1))
}

/// The term for membership of the word after the ends.
pub fn between_term(alloc: Global, at_most: Op) -> Result<Term, AllocError>
    requires { arity at_most ≡ 2 }
    ensures { IfOk result (λ t. t ≡ between_term at_most) }
{
    let above = Term::binary(alloc, at_most, Term::Field(0), Term::Field(2))?;
    let below = Term::binary(alloc, at_most, Term::Field(2), Term::Field(1))?;
    Term::binary(alloc, Op::And, above, below)
}
