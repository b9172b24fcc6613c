//! The certificate of the synthesis of a problem.

ghost use Rattle.std.specs.Prelude.{◌≡◌, ◌≤◌, IfOk, length};
ghost use Rattle.am_cert.specs.Printing.{certificate_text};
ghost use Rattle.am_cert.specs.declared.limits.TheConstants.{MOST_BYTES};
ghost use Rattle.am_dual.specs.Synthesis.{IsSynthesis};
ghost use Rattle.amurth.specs.Synthesised.{IsCertified, IsSynthDue, certificate, status_of};

use crate::response::Response;
use crate::status::Status;
use am_cert::{Certificate, Version, print_certificate};
use am_dual::synthesise;
use am_problem::{Problem, read_problem};
use am_query::Outcome;
use am_syntax::ReadError;
use am_text::Writer;
use std::alloc::{AllocError, Global};

/// The response of `synth` to a text.
pub fn synthesised(alloc: Global, input: &[u8]) -> Result<Response, AllocError>
    requires { length input.now ≤ MOST_BYTES }
    ensures { IfOk result (λ r. IsSynthDue r.status input.now r.text.items) }
{
    match read_problem(alloc, input) {
        Ok(problem) => certified(alloc, problem),
        Err(ReadError::Refused(refusal)) => Response::refused(alloc, refusal),
        Err(ReadError::NoMemory) => Err(AllocError),
    }
}

/// The response to a problem.
fn certified(alloc: Global, problem: Problem) -> Result<Response, AllocError>
    ensures { IfOk result (λ r. IsCertified problem r.status r.text.items) }
{
    let outcome = synthesise(alloc, &problem)?;
    let status = status_of(&outcome);
    let text = certificate_text(alloc, problem, outcome)?;
    Ok(Response { text, status })
}

/// The status of an outcome.
pub fn status_of(outcome: &Outcome) -> Status
    ensures { result ≡ status_of outcome.now }
{
    match outcome {
        Outcome::Best { .. } | Outcome::Absent { .. } => Status::Done,
        Outcome::Turns { .. } => Status::SpentTurns,
        Outcome::Conflicts { .. } => Status::SpentConflicts,
    }
}

/// The text of the certificate of an outcome.
pub fn certificate_text(
    alloc: Global,
    problem: Problem,
    outcome: Outcome,
) -> Result<Vec<u8>, AllocError>
    requires { IsSynthesis problem outcome }
    ensures { IfOk result (λ text. text.items ≡ certificate_text (certificate problem outcome)) }
{
    let certificate = Certificate::new(Version::Two, problem, outcome);
    let mut out = Writer::new(alloc);
    print_certificate(&mut out, &certificate)?;
    Ok(out.finish())
}
