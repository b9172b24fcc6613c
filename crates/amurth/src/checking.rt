//! The verdict on a certificate.

ghost use Rattle.std.specs.Prelude.{◌≡◌, ◌≤◌, IfOk, length};
ghost use Rattle.am_cert.specs.declared.limits.TheConstants.{MOST_BYTES};
ghost use Rattle.amurth.specs.Checked.{IsCheckDue, IsJudged, accepted_text};

use crate::response::Response;
use crate::status::Status;
use am_cert::{Certificate, CheckFail, check, read_certificate};
use am_syntax::{ReadError, print_line};
use am_text::Writer;
use std::alloc::{AllocError, Global};

/// The response of `check` to a text.
pub fn checked(alloc: Global, input: &[u8]) -> Result<Response, AllocError>
    requires { length input.now ≤ MOST_BYTES }
    ensures { IfOk result (λ r. IsCheckDue r.status input.now r.text.items) }
{
    match read_certificate(alloc, input) {
        Ok(certificate) => judged(alloc, &certificate),
        Err(ReadError::Refused(refusal)) => Response::refused(alloc, refusal),
        Err(ReadError::NoMemory) => Err(AllocError),
    }
}

/// The response to a certificate.
fn judged(alloc: Global, certificate: &Certificate) -> Result<Response, AllocError>
    ensures { IfOk result (λ r. IsJudged certificate.now r.status r.text.items) }
{
    match check(alloc, certificate) {
        Ok(()) => Ok(Response {
            text: accepted_text(alloc)?,
            status: Status::Done,
        }),
        Err(CheckFail::Rejected(fault)) => Response::rejected(alloc, fault),
        Err(CheckFail::NoMemory) => Err(AllocError),
    }
}

/// That a certificate is accepted.
fn accepted_text(alloc: Global) -> Result<Vec<u8>, AllocError>
    ensures { IfOk result (λ text. text.items ≡ accepted_text) }
{
    let mut out = Writer::new(alloc);
    print_line(&mut out, b"accepted", &[])?;
    Ok(out.finish())
}
