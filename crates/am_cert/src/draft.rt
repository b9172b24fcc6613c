//! Certificates as they are read, before the names of their problems are looked up.

ghost use Rattle.am_problem.specs.StoredDraft.{seen_draft as seen};
ghost use Rattle.am_cert.specs.inside.Drafts.{CanFollow};
ghost use Rattle.am_cert.specs.lemmas.Facts.{follow-prop};

use crate::answer::Answer;
use crate::version::Version;
use am_problem::Draft;

/// A certificate as it was read, before the names of its problem are numbered and its size is tested.
#[derive(Drop)]
pub struct CertificateDraft<'a> {
    pub(crate) version: Version,
    pub(crate) problem: Draft<'a>,
    pub(crate) answer: Answer,
    pub(crate) ghost can: { CanFollow version (seen problem) answer } by { follow-prop version (seen problem) answer },
}
