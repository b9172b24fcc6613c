//! Certificates with hints, of certificates with chains.

ghost use Rattle.std.specs.Prelude.{◌≡◌, ◌<◌, ◌^◌, All, IfOk, false, length};
ghost use Rattle.am_chain.specs.Replay.{Refutes};
ghost use Rattle.am_hint.specs.HintReplay.{HintsRefute};
ghost use Rattle.am_query.specs.declared.outcome.Outcome.TheVariants.{Absent, Best};
ghost use Rattle.am_cert.specs.Certificate.{AreHints, IsBounded};
ghost use Rattle.am_cert.specs.Checking.{IsAcceptable};
ghost use Rattle.am_cert.specs.Translating.{IsTranslation, without_logs};
ghost use Rattle.am_cert.specs.Versions.{has_hints};
ghost use Rattle.am_cert.specs.inside.Translations.{AreProofsFor, HaveSmallNumbers};

use crate::answer::Proofs;
use crate::certificate::Certificate;
use crate::refutation::{closer_formula, fit_formula, unsound_formula};
use am_chain::Log;
use am_hint::{Hints, translate};
use am_lit::Formula;
use am_problem::Transformer;
use am_query::{Outcome, State, Trace};
use std::alloc::{AllocError, Global};

impl Certificate {
    /// The certificate with hints of an accepted one: of version 3 for version 1, of version 4 for version 2, and
    /// itself where it has hints already. It is accepted too.
    ///
    /// # Errors
    ///
    /// There was no memory.
    pub fn translated(self, alloc: Global) -> Result<Certificate, AllocError>
        requires { IsAcceptable self }
        ensures { IfOk result (IsTranslation self) }
    {
        self.keeps_limits();
        if self.version.has_hints() {
            return Ok(self);
        }
        let proofs = proofs_of(alloc, &self)?;
        let Certificate {
            version,
            problem,
            outcome,
            proofs: _,
        } = self;
        Ok(Certificate {
            version: version.with_hints(),
            problem,
            outcome: without_logs(alloc, outcome),
            proofs,
        })
    }
}

/// The outcome without its logs.
fn without_logs(alloc: Global, outcome: Outcome) -> Outcome
    ensures { result ≡ without_logs outcome }
{
    let none = Log::new(alloc);
    match outcome {
        Outcome::Best { term, trace, .. } => Outcome::Best {
            term,
            trace,
            sound_log: none,
            best_log: Log::new(alloc),
        },
        Outcome::Absent { trace, .. } => Outcome::Absent { trace, log: none },
        Outcome::Turns { trace } => Outcome::Turns { trace },
        Outcome::Conflicts { trace, asked, .. } => Outcome::Conflicts {
            trace,
            asked,
            log: none,
        },
    }
}

/// The hints of an accepted certificate with chains.
fn proofs_of(alloc: Global, c: &Certificate) -> Result<Proofs, AllocError>
    requires chains { has_hints c.now.version ≡ false }
    requires accepted { IsAcceptable c.now }
    ensures { IfOk result (AreProofsFor c.now) }
{
    c.keeps_limits();
    match c.outcome() {
        Outcome::Best {
            term,
            trace,
            sound_log,
            best_log,
        } => best_proofs(alloc, c, term, trace, sound_log, best_log),
        Outcome::Absent { trace, log } => absent_proofs(alloc, c, trace, log),
        Outcome::Turns { .. } | Outcome::Conflicts { .. } => unreachable!(),
    }
}

/// The hints where a transformer is best.
fn best_proofs(
    alloc: Global,
    c: &Certificate,
    terms: &Transformer,
    trace: &Trace,
    sound_log: &Log,
    best_log: &Log,
) -> Result<Proofs, AllocError>
    requires chains { has_hints c.now.version ≡ false }
    requires accepted { IsAcceptable c.now }
    requires outcome { c.now.outcome ≡ Best terms.now trace.now sound_log.now best_log.now }
    ensures { IfOk result (AreProofsFor c.now) }
{
    c.keeps_limits();
    let unsound = unsound_formula(alloc, c, terms)?;
    let first = hints_of(alloc, &unsound, sound_log)?;
    let state = State::after(alloc, trace)?;
    let closer = closer_formula(alloc, c, terms, state)?;
    let second = hints_of(alloc, &closer, best_log)?;
    Ok(Proofs::Hinted { first, second })
}

/// The hints where no transformer is sound.
fn absent_proofs(
    alloc: Global,
    c: &Certificate,
    trace: &Trace,
    log: &Log,
) -> Result<Proofs, AllocError>
    requires chains { has_hints c.now.version ≡ false }
    requires accepted { IsAcceptable c.now }
    requires outcome { c.now.outcome ≡ Absent trace.now log.now }
    ensures { IfOk result (AreProofsFor c.now) }
{
    c.keeps_limits();
    let state = State::after(alloc, trace)?;
    let fit = fit_formula(alloc, c, state.positives)?;
    let first = hints_of(alloc, &fit, log)?;
    let second = Hints::new(alloc);
    Ok(Proofs::Hinted { first, second })
}

/// The hints of a log that refutes a formula.
fn hints_of(alloc: Global, formula: &Formula, log: &Log) -> Result<Hints, AllocError>
    requires refutes { Refutes formula.now.clauses log.now }
    requires few { length formula.now.clauses < 2 ^ 31 }
    requires few_vars { formula.now.vars < 2 ^ 30 }
    requires bounded { IsBounded log.now }
    ensures refute { IfOk result (HintsRefute formula.now.vars formula.now.clauses) }
    ensures bounded { IfOk result AreHints }
{
    let hints = translate(alloc, formula, log)?;
    have_small_numbers(&hints);
    Ok(hints)
}

/// The codes and the places of hints are numbers of 32 bits, by their types.
fn have_small_numbers(hints: &Hints)
    ensures { HaveSmallNumbers hints.now }
{
    'hints: for i in 0..hints.len() {
        let hint = hints.get(i);
        are_small(hint.clause.as_slice());
        are_small(hint.by.as_slice());
    }
}

/// Numbers are of 32 bits, by their type.
fn are_small(numbers: &[u32])
    ensures { All (λ n. n < 2 ^ 32) numbers.now }
{
    let _ = numbers.len();
}
