//! The trees of each start, with the values of their terms.

ghost use Rattle.std.specs.Prelude.{◌≡◌, ◌<◌, ◌^◌, All, IfOk, IsTrue, length, map};
ghost use Rattle.std.specs.List.{AllZip};
ghost use Rattle.am_bv.specs.Terms.{fits};
ghost use Rattle.am_bv.specs.Words.{AreWords};
ghost use Rattle.am_tree.specs.Trees.{Derives};
ghost use Rattle.am_all.specs.inside.Candidates.{AreCandidates, HasCaseValues, values_at};
ghost use Rattle.am_all.specs.inside.Cases.{AreCases};
ghost use Rattle.am_all.specs.inside.Levels.{AreLevels};

use crate::cases::Case;
use crate::levels::Level;
use crate::listing::trees_of;
use am_bv::{Row, Term, Width, value};
use am_problem::Problem;
use am_tree::Tree;
use std::alloc::{AllocError, Global};

/// A tree, and the value of its term at each case.
#[derive(Drop)]
pub struct Candidate {
    pub tree: Tree,
    pub values: Row<u8>,
}

/// The trees of each start, in order.
pub fn all_candidates(
    alloc: Global,
    p: &Problem,
    levels: &[Level],
    cases: &[Case],
) -> Result<Row<Row<Candidate>>, AllocError>
    requires depth { length levels.now ≡ p.now.depth }
    requires levels { AreLevels p.now.rules levels.now }
    requires cases { AreCases p.now cases.now }
    ensures { IfOk result (AllZip (AreCandidates p.now cases.now) p.now.starts) }
{
    p.keeps_limits();
    let mut lists = Row::new(alloc);
    for start in p.grammar().starts.as_slice() {
        lists.push(candidates(alloc, p, levels, cases, *start)?)?;
    }
    Ok(lists)
}

/// The trees of a start, in order.
fn candidates(
    alloc: Global,
    p: &Problem,
    levels: &[Level],
    cases: &[Case],
    start: u32,
) -> Result<Row<Candidate>, AllocError>
    requires start { start < length p.now.rules }
    requires depth { length levels.now ≡ p.now.depth }
    requires levels { AreLevels p.now.rules levels.now }
    requires cases { AreCases p.now cases.now }
    ensures { IfOk result (AreCandidates p.now cases.now start) }
{
    let trees = trees_of(alloc, p.grammar(), levels, start)?;
    let mut candidates = Row::new(alloc);
    for tree in trees.as_slice() {
        candidates.push(evaluated(alloc, p, cases, start, tree)?)?;
    }
    Ok(candidates)
}

/// The tree with the values of its term.
fn evaluated(
    alloc: Global,
    p: &Problem,
    cases: &[Case],
    start: u32,
    tree: &Tree,
) -> Result<Candidate, AllocError>
    requires cases { AreCases p.now cases.now }
    requires tree { Derives p.now.rules p.now.depth start tree.now }
    ensures { IfOk result (λ c. (c.tree ≡ tree.now) × HasCaseValues p.now cases.now start c) }
{
    p.keeps_limits();
    let term = p.grammar().term_of(alloc, start, tree)?;
    Ok(Candidate {
        tree: tree.copy(alloc)?,
        values: values(alloc, p.width(), &term, cases)?,
    })
}

/// The values of the term at the cases.
fn values(alloc: Global, w: Width, term: &Term, cases: &[Case]) -> Result<Row<u8>, AllocError>
    requires { All (λ case. IsTrue (fits w (length case.fields) term.now) × AreWords w case.fields) cases.now }
    ensures { IfOk result (λ values. values ≡ values_at w cases.now term.now) }
{
    let mut values = Row::new(alloc);
    for case in cases {
        values.push(value(w, term, case.fields.as_slice()))?;
    }
    Ok(values)
}
