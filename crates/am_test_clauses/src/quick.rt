//! The quick search: each answer is evaluated or replayed, and compared with that of another solver.

ghost use Rattle.std.specs.Prelude.{◌+◌, ◌<◌, ◌^◌, length};

use am_chain::{Log, refutes};
use am_lit::{Clauses, Formula, Lit, Values};
use am_quick::{Found, find};
use std::alloc::{AllocError, Global};
use std::test::Fail;

/// A right answer.
#[derive(Clone, Copy, Debug, PartialEq, Eq)]
enum Verdict {
    Sat,
    Unsat,
    Nothing,
}

/// Numbers that look random.
#[derive(Clone, Copy)]
struct Random {
    state: u64,
}

impl Random {
    fn below(&mut self, end: u32) -> u32 {
        self.state = self
            .state
            .wrapping_mul(6_364_136_223_846_793_005)
            .wrapping_add(1_442_695_040_888_963_407);
        ((self.state >> 33) as u32) % end.max(1)
    }
}

/// Clauses of three literals, one of each third of the variables.
fn threes(alloc: Global, seed: u64, third: u32, count: u32) -> Result<Formula, Fail> {
    let mut random = Random { state: seed };
    let mut clauses = Clauses::new(alloc);
    let mut row = Vec::new(alloc);
    for _ in 0..count.min(10_000) {
        row.clear();
        for part in 0..3u32 {
            let variable = part.wrapping_mul(third).wrapping_add(random.below(third)) % (1 << 20);
            row.push(Lit::new(variable, random.below(2) == 1))?;
        }
        if clauses.len() < 1_000_000 {
            clauses.push(row.as_slice())?;
        }
    }
    Ok(Formula::new(clauses, third.wrapping_mul(3)).ok_or("no formula")?)
}

fn holds(values: &Values, l: Lit) -> bool {
    let variable = l.variable() as usize;
    variable < values.len() && *values.get(variable) != l.negated()
}

fn satisfies(values: &Values, formula: &Formula) -> bool {
    for i in 0..formula.clauses.len() {
        let clause = formula.clauses.clause(i);
        if !clause.iter().any(|l| holds(values, *l)) {
            return false;
        }
    }
    true
}

fn is_refuted(alloc: Global, formula: &Formula, log: &Log) -> Result<bool, AllocError> {
    if log.len() > 1_000_000 || formula.clauses.len() > 1_000_000 {
        return Ok(false);
    }
    refutes(alloc, formula, log)
}

/// What is found with so many conflicts, if it is right.
fn judge(alloc: Global, formula: &Formula, conflicts: u64) -> Result<Verdict, Fail> {
    match find(alloc, formula, conflicts)? {
        Found::Model(values) if satisfies(&values, formula) => Ok(Verdict::Sat),
        Found::Model(_) => Err("it doesn't satisfy".into()),
        Found::Refutation(log) if is_refuted(alloc, formula, &log)? => Ok(Verdict::Unsat),
        Found::Refutation(_) => Err("it doesn't refute".into()),
        Found::Nothing => Ok(Verdict::Nothing),
    }
}

/// How many of 200 formulas of sixty variables have assignments, as another solver found.
const SATISFIABLE: u32 = 110;

#[test]
fn random_clauses_of_three(rt: HostRuntime) -> Result<(), Fail> {
    let alloc = rt.alloc();
    let mut satisfiable: u32 = 0;
    for seed in 0..200u64 {
        match judge(alloc, &threes(alloc, seed, 20, 256)?, 1_000)? {
            Verdict::Sat => satisfiable = satisfiable.saturating_add(1),
            Verdict::Unsat => {}
            Verdict::Nothing => return Err("nothing is found".into()),
        }
    }
    assert_eq!(rt; satisfiable, SATISFIABLE);
    Ok(())
}

#[test]
fn few_conflicts_find_what_they_can(rt: HostRuntime) -> Result<(), Fail> {
    let alloc = rt.alloc();
    for seed in 0..50u64 {
        let formula = threes(alloc, seed, 20, 256)?;
        let all = judge(alloc, &formula, 1_000)?;
        for conflicts in 0..2u64 {
            let few = judge(alloc, &formula, conflicts)?;
            assert!(rt; few == all || few == Verdict::Nothing);
        }
    }
    Ok(())
}
