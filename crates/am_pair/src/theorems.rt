//! Of which words tidying a pair takes the hull, for the proofs of other crates. The function does
//! nothing: its clause is the law, and a call brings it into the caller's proof.

ghost use Rattle.am_pair.specs.Theorems.{CommonAreMembersOfBoth};

use am_domain::{Anchored, Domain};

/// The common words of two values are the members of both.
pub fn common_are_members_of_both<A: Anchored, B: Domain>(first: &A, second: &B)
    ensures { CommonAreMembersOfBoth (A.abstraction first.now) (B.abstraction second.now) }
{}
