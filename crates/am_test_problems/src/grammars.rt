//! The numbers of a grammar's trees and slots.

use am_problem::read_problem;
use std::test::Fail;

/// Exclusive or over known bits.
const EXCLUSIVE: &str = "amurth 1 width 3 operation 2 (xor x0 x1) domain known-bits start Z O
depth 3 turns 0 conflicts 1 rule Z (or A A) rule O (or A A) rule A (and B B) rule B f0 f1 f2 f3 end";

#[test]
fn a_grammar_has_its_trees_and_slots(rt: HostRuntime) -> Result<(), Fail> {
    let problem = read_problem(rt.alloc(), EXCLUSIVE.as_bytes())?;
    let layout = problem.grammar().layout(rt.alloc())?;
    assert_eq!(rt;
        (problem.grammar().count(), layout.len()),
        (Some(65_536), 14)
    );
    Ok(())
}
