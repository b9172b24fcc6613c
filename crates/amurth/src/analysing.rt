//! The table of a flow over certified operations.

ghost use Rattle.std.specs.Prelude.{◌≡◌, ◌<◌, ◌≤◌, ◌^◌, All, IfErr, IfOk, OnOk, length, map, true};
ghost use Rattle.am_cert.specs.Certificate.{IsCertificate};
ghost use Rattle.am_cert.specs.declared.limits.TheConstants.{MOST_BYTES};
ghost use Rattle.am_flow.specs.Flows.{AllFit, IsFlow};
ghost use Rattle.am_flow.specs.Runs.{CoversRuns};
ghost use Rattle.am_flow.specs.States.{IsTable, State};
ghost use Rattle.am_flow.specs.Stored.{seen_operation, seen_operations};
ghost use Rattle.am_flow.specs.Texts.{table_text};
ghost use Rattle.amurth.specs.Analysed.{IsAnalyseDue, IsAnalysisDue, is_best, operation, signature};
ghost use Rattle.amurth.specs.Checked.{IsProved};
ghost use Rattle.amurth.specs.inside.Analyses.{IsFailureAmong, IsFailureAt, seen_analysis};
ghost use Rattle.amurth.specs.declared.limits.TheConstants.{MOST_CERTIFICATES};

use crate::inputs::{Analysis, read_analysis};
use crate::lines::fault_line;
use crate::response::Response;
use crate::status::Status;
use am_cert::{Certificate, CheckFail, check};
use am_flow::theorems::tables_cover_runs;
use am_flow::{Flow, Operation, Signature, analyse, print_table};
use am_query::{Fault, Outcome};
use am_syntax::ReadError;
use am_text::Writer;
use std::alloc::{AllocError, Global};

/// Why not all certificates were accepted.
#[derive(Clone, Copy, PartialEq, Eq, Debug)]
pub enum Unaccepted {
    /// The certificate with this number is the first that isn't, and this is its first fault.
    Rejected(u32, Fault),
    /// There was no memory.
    NoMemory,
}

/// The response of `analyse` to a text.
pub fn analysed(alloc: Global, input: &[u8]) -> Result<Response, AllocError>
    requires { length input.now ≤ MOST_BYTES }
    ensures { IfOk result (λ r. IsAnalyseDue r.status input.now r.text.items) }
{
    match read_analysis(alloc, input) {
        Ok(analysis) => matched(alloc, &analysis),
        Err(ReadError::Refused(refusal)) => Response::refused(alloc, refusal),
        Err(ReadError::NoMemory) => Err(AllocError),
    }
}

/// The response to certificates and a flow.
fn matched(alloc: Global, analysis: &Analysis) -> Result<Response, AllocError>
    requires flow { IsFlow (length analysis.now.certificates.items) analysis.now.flow }
    requires few { length analysis.now.certificates.items ≤ MOST_CERTIFICATES }
    ensures { IfOk result (λ r. IsAnalysisDue (seen_analysis analysis.now) r.status r.text.items) }
{
    let signatures = signatures(alloc, analysis.certificates.as_slice())?;
    match analysis.flow.matches(signatures.as_slice()) {
        Ok(()) => accepted(alloc, analysis),
        Err(refusal) => Response::refused(alloc, refusal),
    }
}

/// The response to certificates whose operations fit into a flow.
fn accepted(alloc: Global, analysis: &Analysis) -> Result<Response, AllocError>
    requires flow { IsFlow (length analysis.now.certificates.items) analysis.now.flow }
    requires few { length analysis.now.certificates.items ≤ MOST_CERTIFICATES }
    requires fit { AllFit analysis.now.flow (map signature analysis.now.certificates.items) }
    ensures { IfOk result (λ r. IsAnalysisDue (seen_analysis analysis.now) r.status r.text.items) }
{
    let certificates = analysis.certificates.as_slice();
    match check_all(alloc, certificates) {
        Ok(()) => Ok(Response {
            text: table_text(alloc, &analysis.flow, certificates)?,
            status: Status::Done,
        }),
        Err(Unaccepted::Rejected(number, fault)) => Ok(Response {
            text: fault_line(alloc, &[number], fault)?,
            status: Status::Rejected,
        }),
        Err(Unaccepted::NoMemory) => Err(AllocError),
    }
}

/// What an operation is over, and whether a best transformer of it is known.
fn signature(certificate: &Certificate) -> Signature
    ensures { result ≡ signature certificate.now }
{
    let problem = certificate.problem();
    Signature {
        width: problem.width(),
        inputs: problem.inputs(),
        kind: problem.kind(),
        best: is_best(certificate.outcome()),
    }
}

/// Whether a best transformer was found.
fn is_best(outcome: &Outcome) -> bool
    ensures { result ≡ is_best outcome.now }
{
    match outcome {
        Outcome::Best { .. } => true,
        Outcome::Absent { .. } | Outcome::Turns { .. } | Outcome::Conflicts { .. } => false,
    }
}

/// What the operations of certificates are over.
fn signatures(alloc: Global, certificates: &[Certificate]) -> Result<Vec<Signature>, AllocError>
    ensures { IfOk result (λ all. all.items ≡ map signature certificates.now) }
{
    let mut signatures = Vec::with_capacity(alloc, certificates.len())?;
    'certificates: for certificate in certificates {
        signatures.push(signature(certificate))?;
    }
    Ok(signatures)
}

/// Whether a certificate is accepted, by its number.
fn check_one(alloc: Global, number: u32, certificate: &Certificate) -> Result<(), Unaccepted>
    ensures accepted { OnOk result (IsProved certificate.now) }
    ensures rejected { IfErr result (IsFailureAt number certificate.now) }
{
    match check(alloc, certificate) {
        Ok(()) => Ok(()),
        Err(CheckFail::Rejected(fault)) => Err(Unaccepted::Rejected(number, fault)),
        Err(CheckFail::NoMemory) => Err(Unaccepted::NoMemory),
    }
}

/// Whether all certificates are accepted.
fn check_all(alloc: Global, certificates: &[Certificate]) -> Result<(), Unaccepted>
    requires { length certificates.now < 2 ^ 32 }
    ensures accepted { OnOk result (All IsProved certificates.now) }
    ensures rejected { IfErr result (IsFailureAmong certificates.now) }
{
    'certificates: for (i, certificate) in certificates.iter().enumerate() {
        check_one(alloc, i as u32, certificate)?;
    }
    Ok(())
}

/// A certificate's problem and its best transformer.
fn operation(certificate: &Certificate) -> Operation<'_>
    requires { is_best certificate.now.outcome ≡ true }
    ensures { seen_operation result ≡ operation certificate.now }
{
    match certificate.outcome() {
        Outcome::Best { term, .. } => Operation {
            problem: certificate.problem(),
            transformer: term,
        },
        Outcome::Absent { .. } | Outcome::Turns { .. } | Outcome::Conflicts { .. } => {
            unreachable!()
        }
    }
}

/// The operations of certificates.
fn operations(alloc: Global, certificates: &[Certificate]) -> Result<Vec<Operation<'_>>, AllocError>
    requires { All (λ c. is_best c.outcome ≡ true) certificates.now }
    ensures value { IfOk result (λ all. seen_operations all.items ≡ map operation certificates.now) }
    ensures limits { OnOk result (All IsCertificate certificates.now) }
{
    let mut operations = Vec::with_capacity(alloc, certificates.len())?;
    'certificates: for certificate in certificates {
        certificate.keeps_limits();
        operations.push(operation(certificate))?;
    }
    Ok(operations)
}

/// The text of the table of a flow over operations whose certificates are accepted.
fn table_text(
    alloc: Global,
    flow: &Flow,
    certificates: &[Certificate],
) -> Result<Vec<u8>, AllocError>
    requires flow { IsFlow (length certificates.now) flow.now }
    requires fit { AllFit flow.now (map signature certificates.now) }
    requires proved { All IsProved certificates.now }
    ensures { let operations = map operation certificates.now in
        IfOk result (λ text. (table : State) × IsTable flow.now operations table
        × CoversRuns flow.now operations table × (text.items ≡ table_text table)) }
{
    let operations = operations(alloc, certificates)?;
    tables_cover_runs();
    let table = analyse(alloc, flow, operations.as_slice())?;
    let mut out = Writer::new(alloc);
    print_table(&mut out, &table)?;
    Ok(out.finish())
}
