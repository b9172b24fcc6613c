//! A summary of the synthesis of a made problem.

ghost use Rattle.std.specs.Prelude.{◌≡◌, ◌≤◌, ◌<◌, ◌^◌, ◌++◌, All, IfOk, IsTrue, OnOk, map};
ghost use Rattle.am_cert.specs.Printing.{term_row};
ghost use Rattle.am_dual.specs.Synthesis.{IsSynthesis};
ghost use Rattle.am_problem.specs.Generator.{made_problem_of};
ghost use Rattle.am_problem.specs.declared.generator.TheConstants.{LAST_PROBLEM};
ghost use Rattle.am_syntax.specs.Canonical.{line, lines};
ghost use Rattle.am_syntax.specs.Lines.{is_apart};
ghost use Rattle.am_syntax.specs.Spelling.{FitsSomewhere};
ghost use Rattle.am_tree.specs.Counts.{tuple_count};
ghost use Rattle.amurth.specs.Made.{IsMadeText, IsMakeDue, number_row, summary};

use crate::response::Response;
use crate::synthesising::{certificate_text, status_of};
use am_bv::Term;
use am_dual::synthesise;
use am_problem::{Problem, make_problem};
use am_query::Outcome;
use am_syntax::{Entry, Letter, print_line};
use am_text::Writer;
use std::alloc::{AllocError, Global};

/// The response of `make` to a number.
pub fn made(alloc: Global, number: u32) -> Result<Response, AllocError>
    requires { number ≤ LAST_PROBLEM }
    ensures { IfOk result (λ r. IsMakeDue number r.status r.text.items) }
{
    let problem = make_problem(alloc, number)?;
    let outcome = synthesise(alloc, &problem)?;
    let status = status_of(&outcome);
    let text = text_of(alloc, number, problem, outcome)?;
    Ok(Response { text, status })
}

/// The summary of a best transformer, or the certificate of what was spent.
fn text_of(
    alloc: Global,
    number: u32,
    problem: Problem,
    outcome: Outcome,
) -> Result<Vec<u8>, AllocError>
    requires made { problem ≡ made_problem_of number }
    requires synthesis { IsSynthesis problem outcome }
    ensures { IfOk result (λ text. IsMadeText number outcome text.items) }
{
    match outcome {
        Outcome::Best { term, .. } => summary(alloc, number, &problem, term.as_slice()),
        Outcome::Absent { .. } => unreachable!(),
        spent => certificate_text(alloc, problem, spent),
    }
}

/// The number of the problem, what it has, and best terms.
fn summary(
    alloc: Global,
    number: u32,
    problem: &Problem,
    terms: &[Term],
) -> Result<Vec<u8>, AllocError>
    requires made { problem.now ≡ made_problem_of number }
    requires terms { All FitsSomewhere terms.now }
    ensures { IfOk result (λ text. text.items ≡ summary number terms.now) }
{
    let mut out = Writer::new(alloc);
    print_number(&mut out, b"make", u64::from(number))?;
    print_number(&mut out, b"slots", problem.grammar().slots())?;
    print_number(&mut out, b"tuples", tuples_of(problem))?;
    print_number(&mut out, b"load", problem.load())?;
    print_line(&mut out, b"answer", &[Entry::Word(b"best")])?;
    print_terms(&mut out, terms)?;
    Ok(out.finish())
}

/// How many tuples of trees a problem has.
fn tuples_of(problem: &Problem) -> u64
    requires { let p = problem.now in tuple_count p.rules p.starts p.depth < 2 ^ 64 }
    ensures { let p = problem.now in result ≡ tuple_count p.rules p.starts p.depth }
{
    problem.grammar().count().unwrap() as u64
}

/// Appends a line of a key word and a number.
fn print_number(out: &mut Writer, key: &[u8], n: u64) -> Result<(), AllocError>
    requires { IsTrue (is_apart key.now) }
    ensures { OnOk result (out.new ≡ out.old ++ line (number_row key.now n)) }
{
    print_line(out, key, &[Entry::Number(n)])
}

/// Appends a line for each term.
fn print_terms(out: &mut Writer, terms: &[Term]) -> Result<(), AllocError>
    requires { All FitsSomewhere terms.now }
    ensures { OnOk result (out.new ≡ out.old ++ lines (map term_row terms.now)) }
{
    for term in terms {
        print_line(out, b"term", &[Entry::Term(Letter::F, term)])?;
    }
    Ok(())
}
