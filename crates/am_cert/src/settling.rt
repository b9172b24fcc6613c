//! The certificate that a draft settles to.

ghost use Rattle.am_syntax.specs.Texts.{Answers};
ghost use Rattle.am_cert.specs.StoredDraft.{seen_draft};
ghost use Rattle.am_cert.specs.Texts.{settled};

use crate::answer::Answer;
use crate::certificate::Certificate;
use crate::draft::CertificateDraft;
use am_syntax::ReadError;
use std::alloc::Global;

impl<'a> CertificateDraft<'a> {
    /// The certificate of the draft.
    ///
    /// # Errors
    ///
    /// `Refused` with `Undefined`, where a name of the problem has no rule; else with `Slots`, where its grammar has
    /// more slots than allowed; else with `Load`, where its load is greater than allowed. `NoMemory`.
    pub fn settle(self, alloc: Global) -> Result<Certificate, ReadError>
        ensures { Answers (λ c. c) result (settled (seen_draft self.entry)) }
    {
        let CertificateDraft {
            version,
            problem,
            answer: Answer { outcome, proofs },
        } = self;
        let problem = problem.settle(alloc)?;
        problem.keeps_limits();
        Ok(Certificate {
            version,
            problem,
            outcome,
            proofs,
        })
    }
}
