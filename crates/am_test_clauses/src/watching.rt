//! Propagation by watched literals by example.

ghost use Rattle.std.specs.Prelude.{◌≡◌, ◌+◌, ◌<◌, IfOk, OnOk, length};

use am_lit::{Clauses, Formula, Lit};
use am_trail::Trail;
use am_watch::Watch;
use std::alloc::{AllocError, Global};
use std::test::Fail;

fn lit(code: u32) -> Lit
    ensures { result ≡ code }
{
    Lit::new(code / 2, code % 2 == 1)
}

/// The formula of these clauses, of one or two literals each, over four variables.
fn formula_of(alloc: Global, rows: [&[u32]; 2]) -> Result<Formula, Fail>
    ensures vars { IfOk result (λ f. f.vars ≡ 4) }
    ensures few { IfOk result (λ f. length f.clauses ≡ 2) }
{
    let mut clauses = Clauses::new(alloc);
    push(alloc, &mut clauses, rows[0])?;
    push(alloc, &mut clauses, rows[1])?;
    Ok(Formula::new(clauses, 4).ok_or("no formula")?)
}

fn push(alloc: Global, clauses: &mut Clauses, codes: &[u32]) -> Result<(), AllocError>
    requires { length clauses.old < 100 }
    ensures { OnOk result (length clauses.new ≡ length clauses.old + 1) }
{
    let lits: Vec<Lit> = codes.iter().map(|c| lit(*c)).collect(alloc)?;
    clauses.push(lits.as_slice())
}

/// The trail of what is propagated at first, if no clause is false.
fn propagated(alloc: Global, formula: &Formula) -> Result<Trail, Fail>
    requires vars { formula.now.vars ≡ 4 }
    requires few { length formula.now.clauses ≡ 2 }
{
    let learnt = Clauses::new(alloc);
    let mut watch = Watch::new(alloc, formula)?;
    let mut trail = Trail::new(alloc, formula.vars)?;
    match watch.propagate(&mut trail, formula, &learnt)? {
        None => Ok(trail),
        Some(_) => Err(Fail::from("a clause is false")),
    }
}

/// The literal at a place, with its level and its reason.
fn shown(trail: &Trail, i: u32) -> Option<(u32, u32, Option<u32>)> {
    if i >= trail.len() {
        return None;
    }
    let entry = trail.entry(i);
    Some((entry.literal.code(), entry.level, entry.reason))
}

#[test]
fn unit_clauses_are_propagated(rt: HostRuntime) -> Result<(), Fail> {
    let formula = formula_of(rt.alloc(), [[5].as_slice(), [3, 4].as_slice()])?;
    let trail = propagated(rt.alloc(), &formula)?;
    let seen = [shown(&trail, 0), shown(&trail, 1), shown(&trail, 2)];
    assert_eq!(rt; seen, [Some((5, 0, Some(0))), Some((3, 0, Some(1))), None]);
    Ok(())
}
