//! What is written for an input.

ghost use Rattle.std.specs.Prelude.{◌≡◌, [], IfOk};
ghost use Rattle.amurth.specs.Lines.{fault_line, refusal_line};
ghost use Rattle.amurth.specs.declared.status.Status.TheVariants.{Refused, Rejected};

use crate::lines::{fault_line, refusal_line};
use crate::status::Status;
use am_query::Fault;
use am_syntax::Refusal;
use std::alloc::{AllocError, Global};

/// A whole text, and the status to end with once it is written.
#[derive(Drop)]
pub struct Response {
    pub text: Vec<u8>,
    pub status: Status,
}

impl Response {
    /// The line of a refusal.
    pub fn refused(alloc: Global, refusal: Refusal) -> Result<Response, AllocError>
        ensures { IfOk result (λ r. (r.status ≡ Refused) × (r.text.items ≡ refusal_line refusal)) }
    {
        Ok(Response {
            text: refusal_line(alloc, refusal)?,
            status: Status::Refused,
        })
    }

    /// The line of a certificate's first fault.
    pub fn rejected(alloc: Global, fault: Fault) -> Result<Response, AllocError>
        ensures { IfOk result (λ r. (r.status ≡ Rejected) × (r.text.items ≡ fault_line [] fault)) }
    {
        Ok(Response {
            text: fault_line(alloc, &[], fault)?,
            status: Status::Rejected,
        })
    }
}
