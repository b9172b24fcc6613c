//! Formulas and answers of small problems, as an independent reference has them.

ghost use Rattle.am_query.specs.Queries.{IsQueryOf};

use crate::asked::{examples_of, fitted, precise_answer, sound_answer, transformer};
use crate::query_cases::{
    Case, congruences_and_parities, known_bits, products, read_case, signed_and_wrapped_intervals,
    unsigned_intervals,
};
use crate::small_problems::{COMPLEMENT, INCOMPARABLE};
use am_lit::{Formula, Lit};
use am_problem::{Problem, read_problem};
use am_query::{Query, formula_of, formula_one_of};
use std::alloc::{AllocError, Global};
use std::process::Abort;
use std::test::Fail;

/// A sum of numbers with a further one, as FNV-1a has it.
fn added(sum: u32, number: u32) -> u32 {
    (sum ^ number).wrapping_mul(16_777_619)
}

/// A sum with the codes of a clause's literals, and its end.
fn clause_added(sum: u32, clause: &[Lit]) -> u32 {
    let mut sum = sum;
    for l in clause {
        sum = added(sum, l.code());
    }
    added(sum, u32::MAX)
}

/// The sum of the numbers of a formula's DIMACS text.
fn formula_sum(f: &Formula) -> u32 {
    let mut sum = added(added(2_166_136_261, f.vars), f.clauses.len());
    for i in 0..f.clauses.len() {
        sum = clause_added(sum, f.clauses.clause(i));
    }
    sum
}

fn formula_said(alloc: Global, f: &Formula) -> Result<String, AllocError> {
    let vars = f.vars;
    let sum = formula_sum(f);
    format!(in alloc; "{vars} {sum}")
}

/// What is said of both formulas of a query.
fn formulas_said(alloc: Global, p: &Problem, q: &Query) -> Result<String, AllocError>
    requires { IsQueryOf p.now q.now }
{
    let folded = formula_said(alloc, &formula_of(alloc, p, q)?)?;
    let plain = formula_said(alloc, &formula_one_of(alloc, p, q)?)?;
    format!(in alloc; "{folded} {plain}")
}

fn fit_said(rt: &impl Abort, alloc: Global, p: &Problem, words: &str) -> Result<String, Fail> {
    let e = examples_of(rt, alloc, p, words)?;
    let answer = match fitted(alloc, p, &e)? {
        Some(_) => "found",
        None => "nothing",
    };
    let (pos, neg) = (e.pos, e.neg);
    let formulas = formulas_said(alloc, p, &Query::Fit { pos, neg })?;
    Ok(format!(in alloc; "{formulas} {answer}")?)
}

fn sound_said(rt: &impl Abort, alloc: Global, p: &Problem, alone: &str) -> Result<String, Fail> {
    let term = transformer(rt, alloc, p, alone)?;
    let answer = sound_answer(alloc, p, &term)?;
    let formulas = formulas_said(alloc, p, &Query::Sound { term })?;
    Ok(format!(in alloc; "{formulas} {answer}")?)
}

fn precise_said(
    rt: &impl Abort,
    alloc: Global,
    p: &Problem,
    alone: &str,
    words: &str,
) -> Result<String, Fail> {
    let term = transformer(rt, alloc, p, alone)?;
    let e = examples_of(rt, alloc, p, words)?;
    let answer = precise_answer(alloc, p, &term, &e)?;
    let (pos, neg) = (e.pos, e.neg);
    let formulas = formulas_said(alloc, p, &Query::Precise { term, pos, neg })?;
    Ok(format!(in alloc; "{formulas} {answer}")?)
}

/// What is said of the three queries, on a line each.
fn said(
    rt: &impl Abort,
    alloc: Global,
    p: &Problem,
    alone: &str,
    given: &str,
) -> Result<String, Fail> {
    let fit = fit_said(rt, alloc, p, given)?;
    let sound = sound_said(rt, alloc, p, alone)?;
    let precise = precise_said(rt, alloc, p, alone, given)?;
    Ok(format!(in alloc; "fit {fit}\nsound {sound}\nprecise {precise}")?)
}

/// The problem of a case's lines.
fn problem_of(alloc: Global, lines: &str) -> Result<Problem, Fail> {
    let text = format!(in alloc; "amurth 1 width {lines} end")?;
    Ok(read_problem(alloc, text.as_bytes())?)
}

fn check(rt: &impl Abort, alloc: Global, case: Case<'_>) -> Result<(), Fail> {
    let p = problem_of(alloc, case.problem)?;
    let said = said(rt, alloc, &p, case.alone, case.given)?;
    assert_eq!(rt; said.as_str(), case.said, "{}", case.problem);
    Ok(())
}

fn check_all(rt: &impl Abort, alloc: Global, cases: &str) -> Result<(), Fail> {
    for lines in cases.split("\n\n") {
        check(rt, alloc, read_case(lines).ok_or("no case")?)?;
    }
    Ok(())
}

#[test]
fn queries_say_what_the_reference_has(rt: HostRuntime) -> Result<(), Fail> {
    for cases in [
        unsigned_intervals::CASES,
        signed_and_wrapped_intervals::CASES,
        known_bits::CASES,
        congruences_and_parities::CASES,
        products::CASES,
    ] {
        check_all(&rt, rt.alloc(), cases)?;
    }
    Ok(())
}

/// Examples of the complement that `(not f1)`, `(not f0)` alone satisfies.
const OPPOSITES: &str = "+12/2 -12/0 -12/3";

/// Examples of the complement that `0`, `3` alone satisfies.
const CONSTANTS: &str = "+12/0 +12/3";

/// What is said of the three queries of a problem.
fn said_of(
    rt: &impl Abort,
    alloc: Global,
    text: &str,
    alone: &str,
    given: &str,
) -> Result<String, Fail> {
    let p = read_problem(alloc, text.as_bytes())?;
    said(rt, alloc, &p, alone, given)
}

/// Whether these are the numbers of variables of a query's folded formula and of its plain one.
fn has_variables(line: &str, folded: &str, plain: &str) -> bool {
    let mut words = line.split(' ');
    words.nth(1) == Some(folded) && words.nth(1) == Some(plain)
}

#[test]
fn formulas_have_their_variables(rt: HostRuntime) -> Result<(), Fail> {
    for (text, alone, given, place, folded, plain) in [
        (INCOMPARABLE, "-22/1", "-22/1", 0, "6", "30"),
        (COMPLEMENT, OPPOSITES, "", 1, "34", "47"),
        (COMPLEMENT, CONSTANTS, "", 2, "41", "62"),
    ] {
        let said = said_of(&rt, rt.alloc(), text, alone, given)?;
        let line = said.lines().nth(place).unwrap_or("");
        assert!(rt; has_variables(line, folded, plain), "{said}");
    }
    Ok(())
}
