//! Those tuples of trees whose results no other sound one betters.

ghost use Rattle.std.specs.Prelude.{◌≡◌, ℕ, ◌*◌, ◌<◌, ◌≤◌, List, [], ◌∷◌, ◌++◌, All, IfOk, MatchBool, length, map};
ghost use Rattle.std.specs.List.{Any};
ghost use Rattle.am_problem.specs.Kinds.{fields_of};
ghost use Rattle.am_tree.specs.Trees.{AreTrees};
ghost use Rattle.am_all.specs.AllBest.{GivesBest, KeepsWhere};
ghost use Rattle.am_tree.specs.Listed.{tuples_of};
ghost use Rattle.am_all.specs.inside.Cases.{AreCases};
ghost use Rattle.am_all.specs.inside.Leaders.{AreFacts, AreJoinedLeaders, AreLeaders, AreTuples, IsLeading, IsLed};
ghost use Rattle.am_all.specs.inside.Leaders.{IsResult, IsTupleOf, all_numbers, tree_numbers};
ghost use Rattle.am_all.specs.inside.Results.{IsBeyond, IsResultInside};
ghost use Rattle.am_all.specs.inside.Seen.{seen, seen_rows};

use crate::candidates::Candidate;
use crate::cases::Case;
use crate::choices::Choice;
use crate::listing::TreeRows;
use crate::results::{Numbers, is_covering, is_inside, numbers};
use crate::word_set::WordSet;
use am_bv::Row;
use am_problem::Problem;
use am_tree::Trees;
use std::alloc::{AllocError, Global};

/// Results of sound tuples, of which one is inside that of each sound tuple.
pub fn leaders(
    alloc: Global,
    p: &Problem,
    sets: &[WordSet],
    cases: &[Case],
    tuples: &[Choice<'_, Candidate>],
) -> Result<Vec<Numbers>, AllocError>
    requires facts { AreFacts p.now sets.now cases.now }
    requires tuples { AreTuples p.now cases.now (seen_rows tuples.now) }
    ensures { IfOk result (λ leaders. AreLeaders cases.now sets.now (all_numbers p.now cases.now) leaders.items) }
{
    p.keeps_limits();
    let mut leaders = Vec::new(alloc);
    for tuple in tuples {
        let numbers = results(alloc, p, cases, tuple.as_slice())?;
        leaders = next_leaders(alloc, cases, sets, leaders, numbers)?;
    }
    Ok(leaders)
}

/// The leaders after one more result.
fn next_leaders(
    alloc: Global,
    cases: &[Case],
    sets: &[WordSet],
    leaders: Vec<Numbers>,
    numbers: Numbers,
) -> Result<Vec<Numbers>, AllocError>
    requires leaders { All (IsResult (length cases.now) (length sets.now)) leaders.items }
    requires result { IsResult (length cases.now) (length sets.now) numbers }
    ensures { IfOk result (λ next. (listed : List (List ℕ)) →
        AreLeaders cases.now sets.now listed leaders.items →
        AreLeaders cases.now sets.now (listed ++ numbers ∷ []) next.items) }
{
    if !is_covering(cases, sets, numbers.as_slice())
        || is_led(sets, leaders.as_slice(), numbers.as_slice())
    {
        return Ok(leaders);
    }
    with_leader(alloc, sets, leaders, numbers)
}

/// The numbers of the results of the tuple's terms.
fn results(
    alloc: Global,
    p: &Problem,
    cases: &[Case],
    tuple: &[&Candidate],
) -> Result<Numbers, AllocError>
    requires few { p.now.width * fields_of p.now.kind ≤ 16 }
    requires cases { AreCases p.now cases.now }
    requires tuple { IsTupleOf p.now cases.now (seen tuple.now) }
    requires trees { AreTrees p.now.rules p.now.starts p.now.depth (map (λ c. c.now.tree) tuple.now) }
    ensures { IfOk result (λ numbers. numbers ≡ tree_numbers p.now cases.now (map (λ c. c.now.tree) tuple.now)) }
{
    p.keeps_limits();
    numbers(alloc, p.width(), tuple, cases.len())
}

/// Whether one of the leaders is inside the result.
fn is_led(sets: &[WordSet], leaders: &[Numbers], numbers: &[u16]) -> bool
    requires leaders { All (IsResult (length numbers.now) (length sets.now)) leaders.now }
    requires result { All (λ n. n < length sets.now) numbers.now }
    ensures { MatchBool result (Any (λ leader. IsResultInside sets.now leader numbers.now) leaders.now)
        (All (λ leader. IsBeyond sets.now leader numbers.now) leaders.now) }
{
    for leader in leaders {
        if is_inside(sets, leader.as_slice(), numbers) {
            return true;
        }
    }
    false
}

/// Those leaders that the result isn't inside, and the result.
fn with_leader(
    alloc: Global,
    sets: &[WordSet],
    leaders: Vec<Numbers>,
    numbers: Numbers,
) -> Result<Vec<Numbers>, AllocError>
    requires leaders { All (IsResult (length numbers) (length sets.now)) leaders.items }
    requires result { All (λ n. n < length sets.now) numbers }
    ensures { IfOk result (λ joined. AreJoinedLeaders sets.now leaders.items numbers joined.items) }
{
    let mut rest = leaders;
    let mut joined = Vec::new(alloc);
    while let Some(leader) = rest.pop() {
        if is_inside(sets, numbers.as_slice(), leader.as_slice()) {
            continue;
        }
        joined.push(leader)?;
    }
    joined.push(numbers)?;
    Ok(joined)
}

/// Those tuples that are best, in order.
pub fn best(
    alloc: Global,
    p: &Problem,
    sets: &[WordSet],
    cases: &[Case],
    tuples: &[Choice<'_, Candidate>],
    leaders: &[Numbers],
) -> Result<TreeRows, AllocError>
    requires facts { AreFacts p.now sets.now cases.now }
    requires tuples { AreTuples p.now cases.now (seen_rows tuples.now) }
    requires leaders { AreLeaders cases.now sets.now (all_numbers p.now cases.now) leaders.now }
    ensures { IfOk result (KeepsWhere (GivesBest p.now) (tuples_of p.now.rules p.now.starts p.now.depth)) }
{
    p.keeps_limits();
    let mut best = Row::new(alloc);
    for tuple in tuples {
        let numbers = results(alloc, p, cases, tuple.as_slice())?;
        if is_leading(cases, sets, leaders, numbers.as_slice()) {
            best.push(trees(alloc, tuple.as_slice())?)?;
        }
    }
    Ok(best)
}

/// Whether the result covers all images, and no leader is strictly inside it.
fn is_leading(cases: &[Case], sets: &[WordSet], leaders: &[Numbers], numbers: &[u16]) -> bool
    requires leaders { All (IsResult (length cases.now) (length sets.now)) leaders.now }
    requires result { IsResult (length cases.now) (length sets.now) numbers.now }
    ensures { MatchBool result (IsLeading cases.now sets.now leaders.now numbers.now)
        (IsLed cases.now sets.now leaders.now numbers.now) }
{
    if !is_covering(cases, sets, numbers) {
        return false;
    }
    for leader in leaders {
        if is_inside(sets, leader.as_slice(), numbers)
            && !is_inside(sets, numbers, leader.as_slice())
        {
            return false;
        }
    }
    true
}

/// The trees of the tuple.
fn trees(alloc: Global, tuple: &[&Candidate]) -> Result<Trees, AllocError>
    ensures { IfOk result (λ trees. trees ≡ map (λ c. c.now.tree) tuple.now) }
{
    let mut trees = Row::new(alloc);
    for candidate in tuple {
        trees.push(candidate.tree.copy(alloc)?)?;
    }
    Ok(trees)
}
