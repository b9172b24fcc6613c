//! Resolution, and a log that is trimmed, by example.

ghost use Rattle.std.specs.Prelude.{◌≡◌, ◌<◌, All, length, IfOk};

use am_chain::{Chain, Log, Step, Steps, has_pivot, refutes, resolve, trimmed};
use am_lit::{Clauses, Formula, Lit};
use std::alloc::{AllocError, Global};
use std::test::Fail;

fn lit(code: u32) -> Lit
    ensures { result ≡ code }
{
    Lit::new(code / 2, code % 2 == 1)
}

#[test]
fn clauses_are_resolved_by_themselves(rt: HostRuntime) -> Result<(), Fail> {
    let first = [lit(1), lit(4)];
    let second = [lit(0), lit(4)];
    assert!(rt; has_pivot(0, first.as_slice(), second.as_slice()));
    assert!(rt; !has_pivot(3, first.as_slice(), second.as_slice()));
    let mut merged = Vec::new(rt.alloc());
    resolve(0, first.as_slice(), second.as_slice(), &mut merged)?;
    assert_eq!(rt; merged.as_slice(), [lit(4)].as_slice());
    Ok(())
}

/// The formula of these clauses of two literals each, given by their codes.
fn formula_of(alloc: Global, vars: u32, pairs: &[(u32, u32)]) -> Result<Formula, Fail>
    requires { length pairs.now < 100 }
    ensures { IfOk result (λ f. length f.clauses ≡ length pairs.now) }
{
    let mut clauses = Clauses::new(alloc);
    for (l, m) in pairs {
        clauses.push([lit(*l), lit(*m)].as_slice())?;
    }
    Ok(Formula::new(clauses, vars).ok_or("no formula")?)
}

/// The log of these chains of one step each: a first clause, a variable and the other clause.
fn log_of(alloc: Global, rows: &[(u32, u32, u32)]) -> Result<Log, AllocError>
    ensures chains { IfOk result (λ log. length log ≡ length rows.now) }
    ensures steps { IfOk result (λ log. All (λ chain. length chain.steps ≡ 1) log) }
{
    let mut log = Log::new(alloc);
    for (first, variable, clause) in rows {
        let mut steps = Steps::new(alloc);
        steps.push(Step {
            variable: *variable,
            clause: *clause,
        })?;
        log.push(Chain {
            first: *first,
            steps,
        })?;
    }
    Ok(log)
}

/// The steps of a log's chains, each with its chain's first clause.
fn rows_of(alloc: Global, log: &Log) -> Result<Vec<(u32, u32, u32)>, AllocError> {
    let mut rows = Vec::new(alloc);
    for k in 0..log.len() {
        let chain = log.get(k);
        for step in chain.steps.as_slice() {
            rows.push((chain.first, step.variable, step.clause))?;
        }
    }
    Ok(rows)
}

/// Three pigeons have no place in two holes: variable 2 i + j says that pigeon i is in hole j. Three
/// of the 14 chains aren't needed.
#[test]
fn a_log_of_pigeons_is_trimmed(rt: HostRuntime) -> Result<(), Fail> {
    let pigeons = [
        (0, 2),
        (4, 6),
        (8, 10),
        (1, 5),
        (1, 9),
        (5, 9),
        (3, 7),
        (3, 11),
        (7, 11),
    ];
    let formula = formula_of(rt.alloc(), 6, pigeons.as_slice())?;
    let rows = [
        (1, 2, 3),
        (0, 1, 7),
        (1, 3, 6),
        (9, 3, 6),
        (1, 3, 8),
        (2, 4, 4),
        (2, 4, 5),
        (0, 1, 11),
        (10, 5, 15),
        (13, 5, 14),
        (3, 0, 17),
        (13, 5, 2),
        (16, 0, 18),
        (19, 2, 21),
    ];
    let log = log_of(rt.alloc(), rows.as_slice())?;
    if !refutes(rt.alloc(), &formula, &log)? {
        return Err(Fail::from("the log doesn't refute the formula"));
    }
    let kept = trimmed(rt.alloc(), &formula, &log)?;
    let expected = [
        (0, 1, 7),
        (1, 3, 6),
        (1, 3, 8),
        (2, 4, 4),
        (2, 4, 5),
        (0, 1, 10),
        (9, 5, 13),
        (11, 5, 12),
        (3, 0, 15),
        (14, 0, 16),
        (17, 2, 18),
    ];
    let left = rows_of(rt.alloc(), &kept)?;
    assert_eq!(rt; left.as_slice(), expected.as_slice());
    assert!(rt; refutes(rt.alloc(), &formula, &kept)?);
    Ok(())
}
