//! All best tuples of trees.

ghost use Rattle.std.specs.Prelude.{◌≡◌, ◌*◌, ◌≤◌, IfOk, length};
ghost use Rattle.am_problem.specs.Kinds.{fields_of};
ghost use Rattle.am_all.specs.AllBest.{AreAllBest};
ghost use Rattle.am_all.specs.Sizes.{IsSmallProblem};
ghost use Rattle.am_all.specs.inside.Levels.{AreLevels};

use crate::candidates::all_candidates;
use crate::cases::all_cases;
use crate::choices::{choices, slices};
use crate::leaders::{best, leaders};
use crate::levels::{Level, have_trees, levels};
use crate::listing::TreeRows;
use crate::values::{abstract_values, all_members};
use am_bv::Row;
use am_problem::Problem;
use std::alloc::{AllocError, Global};

/// All tuples of trees from the problem's starts with its depth whose terms are best, ordered by the tree of
/// the first start, then by that of the second, and so on. Trees of a start are ordered by their productions,
/// then by the first child, then by the second, and so on. Two tuples with the same terms are both listed.
/// There is none exactly where no transformer is sound.
pub fn all_best(alloc: Global, p: &Problem) -> Result<TreeRows, AllocError>
    requires { IsSmallProblem p.now }
    ensures { IfOk result (AreAllBest p.now) }
{
    p.keeps_limits();
    let grammar = p.grammar();
    let levels = levels(alloc, grammar)?;
    let Some((last, below)) = levels.as_slice().split_last() else {
        return Ok(Row::new(alloc));
    };
    if !have_trees(grammar.starts.as_slice(), last.as_slice()) {
        return Ok(Row::new(alloc));
    }
    best_above(alloc, p, below)
}

/// All best tuples of trees whose children have the levels below them.
fn best_above(alloc: Global, p: &Problem, levels: &[Level]) -> Result<TreeRows, AllocError>
    requires few { p.now.width * fields_of p.now.kind ≤ 16 }
    requires depth { length levels.now ≡ p.now.depth }
    requires levels { AreLevels p.now.rules levels.now }
    ensures { IfOk result (AreAllBest p.now) }
{
    let sets = all_members(alloc, p)?;
    let values = abstract_values(alloc, p, sets.as_slice())?;
    let cases = all_cases(alloc, p, values.as_slice())?;
    let lists = all_candidates(alloc, p, levels, cases.as_slice())?;
    let slices = slices(alloc, lists.as_slice())?;
    let tuples = choices(alloc, slices.as_slice())?;
    let (sets, cases, tuples) = (sets.as_slice(), cases.as_slice(), tuples.as_slice());
    let leaders = leaders(alloc, p, sets, cases, tuples)?;
    best(alloc, p, sets, cases, tuples, leaders.as_slice())
}
