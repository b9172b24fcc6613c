//! Finished formulas of queries.

ghost use Rattle.std.specs.Prelude.{◌≡◌, ◌^◌, ◌<◌, ◌≤◌, All, IfOk, length};
ghost use Rattle.std.specs.List.Sorted.{IsStrictlyIncreasing};
ghost use Rattle.am_lit.specs.UnitRow.{Determines};
ghost use Rattle.am_chain.specs.Replay.{Refutes};
ghost use Rattle.am_gate.specs.Circuit.{HasInputs, start};
ghost use Rattle.am_solve.specs.Answers.{ChainsAreShort};
ghost use Rattle.am_query.specs.Answers.{IsSpentQuery};
ghost use Rattle.am_query.specs.inside.Solved.{IsSolved};

use crate::answers::QueryAnswer;
use am_bv::Row;
use am_chain::chain_laws::trimmed_chains_are_the_logs;
use am_chain::{Log, trimmed};
use am_gate::Circuit;
use am_lit::{Assignment, Formula};
use am_solve::{Answer, solve};
use std::alloc::{AllocError, Global};

/// Numbers of variables.
pub type Variables = Row<u32>;

/// The formula of a query, and the variables of its circuit's inputs, in order.
#[derive(Drop)]
pub struct Stated {
    pub formula: Formula,
    pub base: Variables,
}

impl Stated {
    /// The formula of a circuit with these inputs.
    pub fn of(circuit: Circuit, base: Variables) -> Stated
        requires { HasInputs base circuit }
        ensures clauses { result.formula.clauses ≡ circuit.clauses }
        ensures vars { result.formula.vars ≡ circuit.vars }
        ensures base { result.base ≡ base }
        ensures determined { Determines result.formula.clauses result.formula.vars base }
        ensures rising { IsStrictlyIncreasing base }
        ensures below { All (λ x. x < result.formula.vars) base }
    {
        Stated {
            formula: circuit.finish(),
            base,
        }
    }

    /// Solves the formula, with at most `limit` clauses derived: satisfying truth values, or the chains that refute
    /// it, or as many chains as the limit.
    pub fn solved(&self, alloc: Global, limit: u64) -> Result<QueryAnswer<Assignment>, AllocError>
        requires least { 1 ≤ limit }
        requires most { limit ≤ 2 ^ 30 }
        requires few_vars { self.now.formula.vars < 2 ^ 30 }
        requires few_clauses { length self.now.formula.clauses < 2 ^ 31 }
        requires rising { IsStrictlyIncreasing self.now.base }
        requires below { All (λ v. v < self.now.formula.vars) self.now.base }
        ensures answer { IfOk result (IsSolved self.now.formula limit) }
        ensures enough { IfOk result (λ a. Determines self.now.formula.clauses self.now.formula.vars self.now.base
            → 3 ^ length self.now.base ≤ limit → ¬ IsSpentQuery a) }
    {
        match solve(alloc, &self.formula, self.base.as_slice(), limit)? {
            Answer::Sat(assignment) => Ok(QueryAnswer::Found(assignment)),
            Answer::Unsat(log) => {
                let kept = self.refutation(alloc, &log)?;
                Ok(QueryAnswer::Refuted(kept))
            }
            Answer::Spent(log) => Ok(QueryAnswer::Spent(log)),
        }
    }

    /// Of a log that refutes the formula, the chains that its last one needs.
    fn refutation(&self, alloc: Global, log: &Log) -> Result<Log, AllocError>
        requires refutes { Refutes self.now.formula.clauses log.now }
        requires short { ChainsAreShort self.now.formula.vars log.now }
        requires few_clauses { length self.now.formula.clauses < 2 ^ 31 }
        requires few_chains { length log.now ≤ 2 ^ 30 }
        ensures refutes { IfOk result (λ kept. Refutes self.now.formula.clauses kept) }
        ensures fewer { IfOk result (λ kept. length kept ≤ length log.now) }
        ensures short { IfOk result (λ kept. ChainsAreShort self.now.formula.vars kept) }
    {
        trimmed_chains_are_the_logs();
        let kept = trimmed(alloc, &self.formula, log)?;
        Ok(kept)
    }
}

/// A new circuit, which folds or doesn't.
pub fn new_circuit(alloc: Global, folding: bool) -> Result<Circuit, AllocError>
    ensures { IfOk result (λ c. c ≡ start folding) }
{
    if folding {
        Circuit::new_folding(alloc)
    } else {
        Circuit::new(alloc)
    }
}
