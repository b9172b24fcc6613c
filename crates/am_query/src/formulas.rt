//! The formulas of the queries.

ghost use Rattle.std.specs.Prelude.{◌≡◌, ◌+◌, ◌^◌, ◌<◌, ◌≤◌, IfOk, length, true, false};
ghost use Rattle.am_problem.specs.Loads.{load_of};
ghost use Rattle.am_query.specs.Formulas.{query_circuit};
ghost use Rattle.am_query.specs.Queries.{IsQueryOf, input_count};
ghost use Rattle.am_query.specs.inside.Stated.{IsStated};

use crate::fit_query::stated_fit;
use crate::precision::stated_precise;
use crate::query::Query;
use crate::soundness::stated_sound;
use crate::stated::Stated;
use am_lit::Formula;
use am_problem::Problem;
use std::alloc::{AllocError, Global};

/// The formula of a query, made in a circuit that folds constants.
///
/// Beside the true variable and the inputs it has at most as many gates as the problem's load, and fewer than 2^31
/// clauses.
pub fn formula_of(alloc: Global, p: &Problem, q: &Query) -> Result<Formula, AllocError>
    requires { IsQueryOf p.now q.now }
    ensures clauses { IfOk result (λ f. f.clauses ≡ (query_circuit true p.now q.now).clauses) }
    ensures vars { IfOk result (λ f. f.vars ≡ (query_circuit true p.now q.now).vars) }
    ensures few { IfOk result (λ f. length f.clauses < 2 ^ 31) }
    ensures few_vars { IfOk result (λ f. f.vars < 2 ^ 30) }
    ensures gates { IfOk result (λ f. f.vars ≤ 1 + input_count p.now q.now + load_of p.now) }
{
    p.keeps_limits();
    let stated = stated(alloc, true, p, q)?;
    Ok(stated.formula)
}

/// The formula of a query, made in a circuit that folds nothing.
///
/// Beside the true variable and the inputs it has at most as many gates as the problem's load, and fewer than 2^31
/// clauses.
pub fn formula_one_of(alloc: Global, p: &Problem, q: &Query) -> Result<Formula, AllocError>
    requires { IsQueryOf p.now q.now }
    ensures clauses { IfOk result (λ f. f.clauses ≡ (query_circuit false p.now q.now).clauses) }
    ensures vars { IfOk result (λ f. f.vars ≡ (query_circuit false p.now q.now).vars) }
    ensures few { IfOk result (λ f. length f.clauses < 2 ^ 31) }
    ensures few_vars { IfOk result (λ f. f.vars < 2 ^ 30) }
    ensures gates { IfOk result (λ f. f.vars ≤ 1 + input_count p.now q.now + load_of p.now) }
{
    p.keeps_limits();
    let stated = stated(alloc, false, p, q)?;
    Ok(stated.formula)
}

/// The finished formula of a query, in either form.
fn stated(alloc: Global, folding: bool, p: &Problem, q: &Query) -> Result<Stated, AllocError>
    requires { IsQueryOf p.now q.now }
    ensures { IfOk result (IsStated folding p.now q.now) }
{
    match q {
        Query::Fit { pos, neg } => {
            let (stated, _) = stated_fit(alloc, folding, p, pos, neg)?;
            Ok(stated)
        }
        Query::Sound { term } => {
            let (stated, _) = stated_sound(alloc, folding, p, term)?;
            Ok(stated)
        }
        Query::Precise { term, pos, neg } => {
            let (stated, _, _) = stated_precise(alloc, folding, p, term, pos, neg)?;
            Ok(stated)
        }
    }
}
