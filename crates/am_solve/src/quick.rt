//! Answers of the quick search, each checked before it is given.

ghost use Rattle.std.specs.Prelude.{◌≡◌, ◌+◌, ◌^◌, ◌<◌, ◌≤◌, List, ℕ, All, length, IsTrue, IfOk, IfSome};
ghost use Rattle.am_lit.specs.Truth.{Satisfies, clause_value, literal_value, value_at};
ghost use Rattle.am_chain.specs.Replay.{Refutes};
ghost use Rattle.am_solve.specs.Answers.{ChainsAreShort, IsSolverAnswer, IsSpentAnswer};

use crate::answer::Answer;
use am_chain::{Log, refutes};
use am_lit::{Assignment, Clauses, Formula, Lit};
use am_quick::{Found, find};
use std::alloc::{AllocError, Global};

/// Whether a literal is true. Variables without a value count as false.
fn is_true(assignment: &Assignment, l: Lit) -> bool
    ensures { result ≡ literal_value (value_at assignment.now.values) l }
{
    let variable = l.variable() as usize;
    if variable < assignment.values.len() {
        *assignment.values.get(variable) != l.negated()
    } else {
        l.negated()
    }
}

/// Whether a literal of a clause is true.
fn has_true(assignment: &Assignment, clause: &[Lit]) -> bool
    ensures { IsTrue result → IsTrue (clause_value (value_at assignment.now.values) clause.now) }
{
    clause.iter().any(|l| is_true(assignment, *l))
}

/// Whether every clause is true.
fn satisfies(assignment: &Assignment, clauses: &Clauses) -> bool
    ensures { IsTrue result → Satisfies (value_at assignment.now.values) clauses.now }
{
    for i in 0..clauses.len() {
        if !has_true(assignment, clauses.clause(i)) {
            return false;
        }
    }
    true
}

/// Whether no chain has more steps than there are variables.
fn are_short(log: &Log, vars: u32) -> bool
    ensures { IsTrue result → ChainsAreShort vars log.now }
{
    for k in 0..log.len() {
        if log.get(k).steps.len() > vars as usize {
            return false;
        }
    }
    true
}

/// Whether a log refutes a formula, and is as short as an answer has to be.
fn is_refutation(
    alloc: Global,
    formula: &Formula,
    limit: u64,
    log: &Log,
) -> Result<bool, AllocError>
    requires most { limit ≤ 2 ^ 30 }
    requires clauses { length formula.now.clauses < 2 ^ 31 }
    ensures { IfOk result (λ right. IsTrue right → Refutes formula.now.clauses log.now
        × (length log.now ≤ limit) × ChainsAreShort formula.now.vars log.now) }
{
    if log.len() as u64 > limit || !are_short(log, formula.vars) {
        return Ok(false);
    }
    let right = refutes(alloc, formula, log)?;
    Ok(right)
}

/// What the quick search finds with at most half of so many conflicts, if it is an answer.
pub fn quick_answer(
    alloc: Global,
    formula: &Formula,
    limit: u64,
) -> Result<Option<Answer>, AllocError>
    requires most { limit ≤ 2 ^ 30 }
    requires clauses { length formula.now.clauses < 2 ^ 31 }
    ensures answer { IfOk result (λ o. IfSome o (IsSolverAnswer formula.now.clauses formula.now.vars limit)) }
    ensures found { IfOk result (λ o. IfSome o (λ a. ¬ (IsSpentAnswer a))) }
{
    match find(alloc, formula, limit / 2)? {
        Found::Model(values) => {
            let assignment = Assignment { values };
            if assignment.values.len() == formula.vars as usize
                && satisfies(&assignment, &formula.clauses)
            {
                return Ok(Some(Answer::Sat(assignment)));
            }
        }
        Found::Refutation(log) => {
            if is_refutation(alloc, formula, limit, &log)? {
                return Ok(Some(Answer::Unsat(log)));
            }
        }
        Found::Nothing => {}
    }
    Ok(None)
}
