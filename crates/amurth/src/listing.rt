//! All best transformers of a small problem.

ghost use Rattle.std.specs.Prelude.{◌≡◌, ◌≤◌, ◌++◌, All, IfOk, List, OnOk, length, map};
ghost use Rattle.am_all.specs.AllBest.{AreAllBest};
ghost use Rattle.am_all.specs.Sizes.{IsSmallProblem};
ghost use Rattle.am_cert.specs.declared.limits.TheConstants.{MOST_BYTES};
ghost use Rattle.am_syntax.specs.Canonical.{line, lines};
ghost use Rattle.am_syntax.specs.Spelling.{FitsSomewhere};
ghost use Rattle.am_tree.specs.Trees.{AreTrees, terms_of};
ghost use Rattle.am_tree.specs.declared.tree.Tree.{Tree};
ghost use Rattle.amurth.specs.Listed.{IsListDue, IsListing, list_text, terms_row};

use crate::response::Response;
use crate::status::Status;
use am_all::{all_best, small};
use am_bv::Term;
use am_problem::{Problem, read_problem};
use am_syntax::{Entry, Letter, ReadError, print_line};
use am_text::Writer;
use am_tree::Trees;
use std::alloc::{AllocError, Global};

/// The response of `list` to a text.
pub fn listed(alloc: Global, input: &[u8]) -> Result<Response, AllocError>
    requires { length input.now ≤ MOST_BYTES }
    ensures { IfOk result (λ r. IsListDue r.status input.now r.text.items) }
{
    match read_problem(alloc, input) {
        Ok(problem) => best_listed(alloc, &problem),
        Err(ReadError::Refused(refusal)) => Response::refused(alloc, refusal),
        Err(ReadError::NoMemory) => Err(AllocError),
    }
}

/// The response to a problem.
fn best_listed(alloc: Global, problem: &Problem) -> Result<Response, AllocError>
    ensures { IfOk result (λ r. IsListing problem.now r.status r.text.items) }
{
    match small(problem) {
        Ok(()) => Ok(Response {
            text: list_text(alloc, problem)?,
            status: Status::Done,
        }),
        Err(refusal) => Response::refused(alloc, refusal),
    }
}

/// All tuples of trees of a small problem whose terms are best.
fn list_text(alloc: Global, problem: &Problem) -> Result<Vec<u8>, AllocError>
    requires { IsSmallProblem problem.now }
    ensures { IfOk result (λ text. (tuples : List (List Tree)) × AreAllBest problem.now tuples
        × (text.items ≡ list_text problem.now tuples)) }
{
    let best = all_best(alloc, problem)?;
    let mut out = Writer::new(alloc);
    print_line(&mut out, b"best", &[Entry::Number(best.len() as u64)])?;
    print_tuples(alloc, &mut out, problem, best.as_slice())?;
    Ok(out.finish())
}

/// Appends a line for each tuple of trees.
fn print_tuples(
    alloc: Global,
    out: &mut Writer,
    problem: &Problem,
    tuples: &[Trees],
) -> Result<(), AllocError>
    requires { All (AreTrees problem.now.rules problem.now.starts problem.now.depth) tuples.now }
    ensures { let p = problem.now in OnOk result (out.new ≡
        out.old ++ lines (map (λ trees. terms_row (terms_of p.rules p.starts trees)) tuples.now)) }
{
    problem.keeps_limits();
    for trees in tuples {
        let terms = problem.grammar().terms_of(alloc, trees)?;
        print_tuple(out, terms.as_slice())?;
    }
    Ok(())
}

/// Appends a line of all terms.
fn print_tuple(out: &mut Writer, terms: &[Term]) -> Result<(), AllocError>
    requires { All FitsSomewhere terms.now }
    ensures { OnOk result (out.new ≡ out.old ++ line (terms_row terms.now)) }
{
    print_line(out, b"terms", &[Entry::Terms(Letter::F, terms)])
}
