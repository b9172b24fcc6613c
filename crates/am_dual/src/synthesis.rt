//! The loop of turns.

ghost use Rattle.std.specs.Prelude.{ℕ, ◌+◌, ◌*◌, ◌^◌, ◌≤◌, IfOk};
ghost use Rattle.am_tree.specs.Counts.{tuple_count};
ghost use Rattle.am_dual.specs.inside.Underway.{GoesOn, IsEnd, IsRightNext, trace_of, trace_so_far};
ghost use Rattle.am_dual.specs.Synthesis.{AreConflictsSpent, AreTurnsSpent, IsSynthesis, most_inputs};

use crate::turns::{Next, Synthesis};
use am_problem::Problem;
use am_query::Outcome;
use std::alloc::{AllocError, Global};

/// Looks for a best transformer of the problem, within its turns and derived clauses.
///
/// The answer is right whatever may be spent. After an error there was no memory.
pub fn synthesise(alloc: Global, p: &Problem) -> Result<Outcome, AllocError>
    ensures answer { IfOk result (IsSynthesis p.now) }
    ensures turns { let k = tuple_count p.now.rules p.now.starts p.now.depth in
        IfOk result (λ o. k * (k + 1) ≤ p.now.turns → ¬ AreTurnsSpent o) }
    ensures conflicts { IfOk result (λ o. 3 ^ most_inputs p.now ≤ p.now.conflicts → ¬ AreConflictsSpent o) }
{
    let next = Synthesis::start(alloc, p)?;
    let outcome = to_the_end(alloc, p, next)?;
    Ok(outcome)
}

/// Goes on turn by turn to the end, and loses none of the turns.
fn to_the_end(alloc: Global, p: &Problem, mut next: Next) -> Result<Outcome, AllocError>
    requires { IsRightNext p.now next }
    ensures end { IfOk result (IsEnd p.now) }
    ensures turns { IfOk result (λ o. GoesOn (trace_so_far next) (trace_of o)) }
{
    loop {
        match next {
            Next::Turn(synthesis) => next = synthesis.turn(alloc, p)?,
            Next::End(outcome) => return Ok(outcome),
        }
    }
}
