//! The public call.

ghost use Rattle.std.specs.Prelude.{◌≡◌, ◌+◌, ◌^◌, ◌<◌, ◌≤◌, ◌↔◌, ℕ, List, [], All, length, IfOk, IfSome, IsTrue, true};
ghost use Rattle.std.specs.List.Sorted.{IsStrictlyIncreasing};
ghost use Rattle.am_lit.specs.UnitRow.{Determines, IsUnitRow, MeetsConflict};
ghost use Rattle.am_solve.specs.Answers.{IsSolverAnswer, IsSpentAnswer};

use crate::answer::Answer;
use crate::assignment::assignment_of;
use crate::quick::quick_answer;
use crate::search::Search;
use am_lit::Formula;
use am_lit::unit_rows::new_clauses_are_few;
use std::alloc::{AllocError, Global};

/// How many conflicts the exact search has before the quick one is tried.
const FEW: u64 = 500;

/// Up to this limit the exact search is tried alone, since a spent answer would take much longer else.
const SMALL: u64 = 5_000;

/// Whether a limit is at least 3 to a power.
fn is_enough(limit: u64, power: usize) -> bool
    requires { power < 2 ^ 32 }
    ensures { IsTrue result ↔ 3 ^ power ≤ limit }
{
    match 3u64.checked_pow(power as u32) {
        Some(least) => least <= limit,
        None => false,
    }
}

/// The variables that are decided first: those of the base where the search works over it, and
/// else none.
fn preferred(base: &[u32], over_base: bool) -> &[u32]
    ensures base { over_base ≡ true → result.now ≡ base.now }
    ensures below { (vars : ℕ) → All (λ v. v < vars) base.now → All (λ v. v < vars) result.now }
{
    if over_base { base } else { &base[..0] }
}

/// The answer of the exact search, which forgets no clause that it learnt, so that each is new.
fn solve_exactly(
    alloc: Global,
    formula: &Formula,
    base: &[u32],
    limit: u64,
) -> Result<Answer, AllocError>
    requires least { 1 ≤ limit }
    requires most { limit ≤ 2 ^ 30 }
    requires vars { formula.now.vars < 2 ^ 30 }
    requires clauses { length formula.now.clauses < 2 ^ 31 }
    requires rises { IsStrictlyIncreasing base.now }
    requires below { All (λ v. v < formula.now.vars) base.now }
    ensures answer { IfOk result (IsSolverAnswer formula.now.clauses formula.now.vars limit) }
    ensures enough { IfOk result (λ a. Determines formula.now.clauses formula.now.vars base.now
        → 3 ^ length base.now ≤ limit → ¬ (IsSpentAnswer a)) }
    ensures conflict { IfOk result (λ a. (row : List ℕ) → IsUnitRow formula.now.clauses [] row
        → MeetsConflict formula.now.clauses row → ¬ (IsSpentAnswer a)) }
{
    let over_base = is_enough(limit, base.len());
    let first = preferred(base, over_base);
    let mut search = Search::new(alloc, formula)?;
    for conflicts in 0..limit {
        let Some(conflict) = search.descend(formula, first)? else {
            let assignment = assignment_of(alloc, &search.trail, formula.vars)?;
            return Ok(Answer::Sat(assignment));
        };
        if search.trail.level() == 0 {
            search.refute(alloc, &formula.clauses, conflict)?;
            return Ok(Answer::Unsat(search.log));
        }
        search.learn_from(alloc, &formula.clauses, conflict, over_base)?;
        search.choice.age(conflicts + 1);
        search.restart(&formula.clauses, conflicts + 1);
    }
    // Over a base of B variables there are fewer than 3^B new clauses.
    new_clauses_are_few();
    Ok(Answer::Spent(search.log))
}

/// The answer of the exact search where it comes after few conflicts.
fn solve_soon(
    alloc: Global,
    formula: &Formula,
    base: &[u32],
    limit: u64,
) -> Result<Option<Answer>, AllocError>
    requires least { 500 ≤ limit }
    requires most { limit ≤ 2 ^ 30 }
    requires vars { formula.now.vars < 2 ^ 30 }
    requires clauses { length formula.now.clauses < 2 ^ 31 }
    requires rises { IsStrictlyIncreasing base.now }
    requires below { All (λ v. v < formula.now.vars) base.now }
    ensures answer { IfOk result (λ o. IfSome o (IsSolverAnswer formula.now.clauses formula.now.vars limit)) }
    ensures found { IfOk result (λ o. IfSome o (λ a. ¬ (IsSpentAnswer a))) }
{
    match solve_exactly(alloc, formula, base, FEW)? {
        Answer::Sat(assignment) => Ok(Some(Answer::Sat(assignment))),
        Answer::Unsat(log) => Ok(Some(Answer::Unsat(log))),
        Answer::Spent(_) => Ok(None),
    }
}

/// Looks for an assignment that satisfies every clause of a formula, and logs a chain for each clause
/// that it learns, at most `limit` of them.
///
/// `base` lists variables, in order of their numbers, that determine the formula by unit propagation,
/// as the inputs of a circuit do, or else all variables. The answer is right for every base. Where 3
/// to the number of its variables is at most the limit, they are decided first, and learnt clauses
/// have decided literals alone; then a base that determines the formula is enough for the limit.
///
/// After an error there was no memory, and nothing is known of the formula.
pub fn solve(
    alloc: Global,
    formula: &Formula,
    base: &[u32],
    limit: u64,
) -> Result<Answer, AllocError>
    requires least { 1 ≤ limit }
    requires most { limit ≤ 2 ^ 30 }
    requires vars { formula.now.vars < 2 ^ 30 }
    requires clauses { length formula.now.clauses < 2 ^ 31 }
    requires rises { IsStrictlyIncreasing base.now }
    requires below { All (λ v. v < formula.now.vars) base.now }
    ensures answer { IfOk result (IsSolverAnswer formula.now.clauses formula.now.vars limit) }
    ensures enough { IfOk result (λ a. Determines formula.now.clauses formula.now.vars base.now
        → 3 ^ length base.now ≤ limit → ¬ (IsSpentAnswer a)) }
    ensures conflict { IfOk result (λ a. (row : List ℕ) → IsUnitRow formula.now.clauses [] row
        → MeetsConflict formula.now.clauses row → ¬ (IsSpentAnswer a)) }
{
    if limit <= SMALL {
        return solve_exactly(alloc, formula, base, limit);
    }
    if let Some(answer) = solve_soon(alloc, formula, base, limit)? {
        return Ok(answer);
    }
    if let Some(answer) = quick_answer(alloc, formula, limit)? {
        return Ok(answer);
    }
    solve_exactly(alloc, formula, base, limit)
}
