//! Whether a certificate is accepted.

ghost use Rattle.std.specs.Prelude.{◌≡◌, Err, IfErr, OnOk, []};
ghost use Rattle.am_query.specs.AcceptanceLaws.{IsRight};
ghost use Rattle.am_query.specs.declared.outcome.Outcome.TheVariants.{Absent, Best};
ghost use Rattle.am_cert.specs.Certificate.{IsBounded};
ghost use Rattle.am_query.specs.declared.fault.Fault.TheVariants.{Unfinished};
ghost use Rattle.am_cert.specs.Checking.{IsAcceptable, IsFailureOf, IsUnfinished, acceptance_of};
ghost use Rattle.am_cert.specs.declared.checking.CheckFail.TheVariants.{Rejected};
ghost use Rattle.am_cert.specs.inside.Verdicts.{AreCounted, AreStoredAfter, IsVerdictOf, acceptance_but};

use crate::certificate::Certificate;
use crate::conditions::{negatives_true, positives_true, terms_inside};
use crate::refutation::{closer_refuted, fit_refuted, unsound_refuted};
use am_chain::Log;
use am_problem::Transformer;
use am_query::{Fault, Outcome, State, Trace};
use std::alloc::{AllocError, Global};
use thiserror::Error;

/// Why a certificate wasn't accepted.
#[derive(Clone, Copy, PartialEq, Eq, Debug, Error)]
pub enum CheckFail {
    /// This is its first fault.
    #[error("rejected")]
    Rejected(Fault),
    /// There was no memory.
    #[error("no memory")]
    NoMemory,
}

impl From<AllocError> for CheckFail {
    ghost use Rattle.std.specs.Prelude.{◌≡◌};
    ghost use Rattle.am_cert.specs.declared.checking.CheckFail.TheVariants.{NoMemory};

    ghost from_gives = { λ _ e. e ≡ NoMemory };

    fn from(_error: AllocError) -> CheckFail {
        CheckFail::NoMemory
    }
}

/// Accepts a certificate by its contents alone. No solver is asked, and nothing is trusted of where it came from: the
/// terms are looked up in the grammar, the examples are tested, and the chains are replayed, or the hints tested, over
/// the formulas, which are made anew. An accepted certificate's term is best, or its problem has no sound transformer.
///
/// # Errors
///
/// `Rejected`: a condition of acceptance doesn't hold, with the first fault; `NoMemory`, but not for an outcome whose
/// turns or conflicts are spent, which is `Unfinished`.
pub fn check(alloc: Global, c: &Certificate) -> Result<(), CheckFail>
    ensures accepted { OnOk result (IsAcceptable c.now) }
    ensures right { OnOk result (IsRight c.now.problem c.now.outcome) }
    ensures rejected { IfErr result (IsFailureOf c.now) }
    ensures unfinished { IsUnfinished c.now.outcome → result ≡ Err (Rejected Unfinished) }
{
    c.keeps_limits();
    verdict(alloc, c)
}

/// The verdict of acceptance.
fn verdict(alloc: Global, c: &Certificate) -> Result<(), CheckFail>
    ensures verdict { IsVerdictOf (acceptance_of c.now) result }
    ensures unfinished { IsUnfinished c.now.outcome → result ≡ Err (Rejected Unfinished) }
{
    c.keeps_limits();
    match c.outcome() {
        Outcome::Best {
            term,
            trace,
            sound_log,
            best_log,
        } => best(alloc, c, term, trace, sound_log, best_log),
        Outcome::Absent { trace, log } => absent(alloc, c, trace, log),
        Outcome::Turns { .. } | Outcome::Conflicts { .. } => {
            Err(CheckFail::Rejected(Fault::Unfinished))
        }
    }
}

/// Whether the terms are best: they stand in the language, the positive examples are true, the terms exclude the
/// negative ones, and the logs or the hints refute that the terms aren't sound, and that there are closer ones.
fn best(
    alloc: Global,
    c: &Certificate,
    terms: &Transformer,
    trace: &Trace,
    sound_log: &Log,
    best_log: &Log,
) -> Result<(), CheckFail>
    requires counted { AreCounted c.now.problem terms.now }
    requires stored { AreStoredAfter c.now.problem trace.now }
    requires sound_log { IsBounded sound_log.now }
    requires best_log { IsBounded best_log.now }
    ensures { IsVerdictOf (acceptance_but c.now (Best terms.now trace.now sound_log.now best_log.now) sound_log.now
        best_log.now) result }
{
    let p = c.problem();
    p.keeps_limits();
    terms_inside(alloc, p, terms)?;
    let state = State::after(alloc, trace)?;
    positives_true(p, &state.positives)?;
    negatives_true(p, terms, &state.negatives)?;
    unsound_refuted(alloc, c, terms, sound_log)?;
    closer_refuted(alloc, c, terms, state, best_log)
}

/// Whether there is no sound transformer: the positive examples are true, and the log or the hints refute that a
/// transformer covers them.
fn absent(alloc: Global, c: &Certificate, trace: &Trace, log: &Log) -> Result<(), CheckFail>
    requires stored { AreStoredAfter c.now.problem trace.now }
    requires log { IsBounded log.now }
    ensures { IsVerdictOf (acceptance_but c.now (Absent trace.now log.now) log.now []) result }
{
    let p = c.problem();
    p.keeps_limits();
    let positives = State::after(alloc, trace)?.positives;
    positives_true(p, &positives)?;
    fit_refuted(alloc, c, positives, log)
}
