//! Kept examples of problems of which two terms are best, or none is.

use crate::asked::examples_of;
use crate::small_problems::{INCOMPARABLE, SWAPPED_ENDS};
use am_bv::{Op, Term};
use am_drop::{Keeping, keep};
use am_problem::{Transformer, read_problem};
use std::alloc::{AllocError, Global};
use std::process::Abort;
use std::test::Fail;

/// Whether the terms are field 0 with all bits but those of the word cleared, and field 1.
fn are_masked(alloc: Global, t: &Transformer, word: u8) -> Result<bool, AllocError> {
    let low = Term::binary(alloc, Op::And, Term::Field(0), Term::Const(word))?;
    Ok(t.as_slice() == [low, Term::Field(1)].as_slice())
}

/// What is kept of the negative examples of these words beside the positive ones.
fn kept(rt: &impl Abort, alloc: Global, text: &str, words: &str) -> Result<Keeping, Fail> {
    let p = read_problem(alloc, text.as_bytes())?;
    let e = examples_of(rt, alloc, &p, words)?;
    Ok(keep(alloc, &p, &e.pos, &e.neg, 100_000)?)
}

#[test]
fn the_first_of_two_examples_is_kept(rt: HostRuntime) -> Result<(), Fail> {
    let alloc = rt.alloc();
    for words in ["-11/0 -22/1", "+00/0 -11/0 -22/1"] {
        let Keeping::Kept { places, term } = kept(&rt, alloc, INCOMPARABLE, words)? else {
            return Err(Fail::from("nothing was kept"));
        };
        assert_eq!(rt; places.as_slice(), [0].as_slice());
        assert!(rt; are_masked(alloc, &term, 1)?);
    }
    Ok(())
}

#[test]
fn nothing_is_kept_beside_an_example_that_none_covers(rt: HostRuntime) -> Result<(), Fail> {
    let keeping = kept(&rt, rt.alloc(), SWAPPED_ENDS, "+01/0 -11/0")?;
    assert!(rt; matches!(keeping, Keeping::Nothing(_)));
    Ok(())
}
