//! A certificate with hints in place of its chains.

ghost use Rattle.std.specs.Prelude.{◌≤◌, IfOk, length};
ghost use Rattle.am_cert.specs.Checking.{IsAcceptable};
ghost use Rattle.am_cert.specs.declared.limits.TheConstants.{MOST_BYTES};
ghost use Rattle.amurth.specs.Translated.{IsHintedText, IsTranslateDue, IsTranslated};

use crate::response::Response;
use crate::status::Status;
use am_cert::{Certificate, CheckFail, check, print_certificate, read_certificate};
use am_syntax::ReadError;
use am_text::Writer;
use std::alloc::{AllocError, Global};

/// The response of `translate` to a text.
pub fn translated(alloc: Global, input: &[u8]) -> Result<Response, AllocError>
    requires { length input.now ≤ MOST_BYTES }
    ensures { IfOk result (λ r. IsTranslateDue r.status input.now r.text.items) }
{
    match read_certificate(alloc, input) {
        Ok(certificate) => restated(alloc, certificate),
        Err(ReadError::Refused(refusal)) => Response::refused(alloc, refusal),
        Err(ReadError::NoMemory) => Err(AllocError),
    }
}

/// The response to a certificate.
fn restated(alloc: Global, certificate: Certificate) -> Result<Response, AllocError>
    ensures { IfOk result (λ r. IsTranslated certificate r.status r.text.items) }
{
    match check(alloc, &certificate) {
        Ok(()) => Ok(Response {
            text: hinted_text(alloc, certificate)?,
            status: Status::Done,
        }),
        Err(CheckFail::Rejected(fault)) => Response::rejected(alloc, fault),
        Err(CheckFail::NoMemory) => Err(AllocError),
    }
}

/// The text of an accepted certificate, with hints in place of its chains.
fn hinted_text(alloc: Global, certificate: Certificate) -> Result<Vec<u8>, AllocError>
    requires { IsAcceptable certificate }
    ensures { IfOk result (λ text. IsHintedText certificate text.items) }
{
    let hinted = certificate.translated(alloc)?;
    hinted.keeps_limits();
    let mut out = Writer::new(alloc);
    print_certificate(&mut out, &hinted)?;
    Ok(out.finish())
}
