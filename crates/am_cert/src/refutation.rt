//! The conditions on logs and hints: each refutes the formula of its query.

ghost use Rattle.std.specs.Prelude.{◌≡◌, ◌<◌, ◌^◌, [], IfOk, length};
ghost use Rattle.am_query.specs.Acceptance.{hints_refute, refuted};
ghost use Rattle.am_query.specs.Formulas.{query_circuit};
ghost use Rattle.am_query.specs.Queries.{AreCompared, AreFitted, IsQueryOf};
ghost use Rattle.am_query.specs.Transformers.{IsTransformerOf};
ghost use Rattle.am_query.specs.declared.query.Query.TheVariants.{Fit, Precise, Sound};
ghost use Rattle.am_cert.specs.Certificate.{AreHints, IsBounded};
ghost use Rattle.am_cert.specs.Versions.{folds};
ghost use Rattle.am_cert.specs.inside.Verdicts.{IsFormulaOf, IsVerdictOf, first_refuted, second_refuted};

use crate::answer::Proofs;
use crate::certificate::Certificate;
use crate::checking::CheckFail;
use crate::version::Version;
use am_chain::{AddError, Checker, Log};
use am_hint::{HintChecker, HintError, Hints};
use am_lit::Formula;
use am_problem::{Negatives, Positives, Transformer};
use am_query::{Fault, Query, State, formula_of, formula_one_of};
use std::alloc::{AllocError, Global};

/// Whether it is refuted that the terms aren't sound: refutation number 0 of a best transformer.
pub fn unsound_refuted(
    alloc: Global,
    c: &Certificate,
    terms: &Transformer,
    log: &Log,
) -> Result<(), CheckFail>
    requires transformer { IsTransformerOf c.now.problem terms.now }
    requires bounded { IsBounded log.now }
    ensures { let net = query_circuit (folds c.now.version) c.now.problem (Sound terms.now) in
        IsVerdictOf (first_refuted c.now.proofs log.now net.vars net.clauses) result }
{
    let formula = unsound_formula(alloc, c, terms)?;
    first_refuted(alloc, c, &formula, log)
}

/// Whether it is refuted that there are closer terms that satisfy the examples: refutation number 1 of a best
/// transformer.
pub fn closer_refuted(
    alloc: Global,
    c: &Certificate,
    terms: &Transformer,
    examples: State,
    log: &Log,
) -> Result<(), CheckFail>
    requires compared { AreCompared c.now.problem terms.now examples.positives examples.negatives }
    requires bounded { IsBounded log.now }
    ensures { let net = query_circuit (folds c.now.version) c.now.problem
        (Precise terms.now examples.positives examples.negatives) in
        IsVerdictOf (second_refuted c.now.proofs log.now net.vars net.clauses) result }
{
    let formula = closer_formula(alloc, c, terms, examples)?;
    second_refuted(alloc, c, &formula, log)
}

/// Whether it is refuted that some transformer covers the positive examples: refutation number 0 where none is sound.
pub fn fit_refuted(
    alloc: Global,
    c: &Certificate,
    pos: Positives,
    log: &Log,
) -> Result<(), CheckFail>
    requires fitted { AreFitted c.now.problem pos [] }
    requires bounded { IsBounded log.now }
    ensures { let net = query_circuit (folds c.now.version) c.now.problem (Fit pos []) in
        IsVerdictOf (first_refuted c.now.proofs log.now net.vars net.clauses) result }
{
    let formula = fit_formula(alloc, c, pos)?;
    first_refuted(alloc, c, &formula, log)
}

/// The formula that the terms aren't sound.
pub fn unsound_formula(
    alloc: Global,
    c: &Certificate,
    terms: &Transformer,
) -> Result<Formula, AllocError>
    requires { IsTransformerOf c.now.problem terms.now }
    ensures { IfOk result (IsFormulaOf c.now (Sound terms.now)) }
{
    let term = copied(alloc, terms)?;
    formula(alloc, c, &Query::Sound { term })
}

/// The formula that there are closer terms that satisfy the examples.
pub fn closer_formula(
    alloc: Global,
    c: &Certificate,
    terms: &Transformer,
    examples: State,
) -> Result<Formula, AllocError>
    requires { AreCompared c.now.problem terms.now examples.positives examples.negatives }
    ensures { IfOk result (IsFormulaOf c.now (Precise terms.now examples.positives examples.negatives)) }
{
    let State {
        positives: pos,
        negatives: neg,
    } = examples;
    let term = copied(alloc, terms)?;
    formula(alloc, c, &Query::Precise { term, pos, neg })
}

/// The formula that some transformer covers the positive examples.
pub fn fit_formula(alloc: Global, c: &Certificate, pos: Positives) -> Result<Formula, AllocError>
    requires { AreFitted c.now.problem pos [] }
    ensures { IfOk result (IsFormulaOf c.now (Fit pos [])) }
{
    let neg = Negatives::new(alloc);
    formula(alloc, c, &Query::Fit { pos, neg })
}

/// The formula of a query, in the form that the certificate's version says.
fn formula(alloc: Global, c: &Certificate, q: &Query) -> Result<Formula, AllocError>
    requires { IsQueryOf c.now.problem q.now }
    ensures { IfOk result (IsFormulaOf c.now q.now) }
{
    match c.version() {
        Version::One | Version::Three => formula_one_of(alloc, c.problem(), q),
        Version::Two | Version::Four => formula_of(alloc, c.problem(), q),
    }
}

/// Whether the log, or the first hints in its place, refutes the formula: refutation number 0.
fn first_refuted(
    alloc: Global,
    c: &Certificate,
    formula: &Formula,
    log: &Log,
) -> Result<(), CheckFail>
    requires few { length formula.now.clauses < 2 ^ 31 }
    requires bounded { IsBounded log.now }
    ensures { IsVerdictOf (first_refuted c.now.proofs log.now formula.now.vars formula.now.clauses) result }
{
    c.keeps_limits();
    match c.proofs() {
        Proofs::Chains => replayed(alloc, 0, formula, log),
        Proofs::Hinted { first, .. } => tested(alloc, 0, formula, first),
    }
}

/// Whether the log, or the second hints in its place, refutes the formula: refutation number 1.
fn second_refuted(
    alloc: Global,
    c: &Certificate,
    formula: &Formula,
    log: &Log,
) -> Result<(), CheckFail>
    requires few { length formula.now.clauses < 2 ^ 31 }
    requires bounded { IsBounded log.now }
    ensures { IsVerdictOf (second_refuted c.now.proofs log.now formula.now.vars formula.now.clauses) result }
{
    c.keeps_limits();
    match c.proofs() {
        Proofs::Chains => replayed(alloc, 1, formula, log),
        Proofs::Hinted { second, .. } => tested(alloc, 1, formula, second),
    }
}

/// Replays the log over the formula, chain by chain.
fn replayed(alloc: Global, j: u32, formula: &Formula, log: &Log) -> Result<(), CheckFail>
    requires few { length formula.now.clauses < 2 ^ 31 }
    requires bounded { IsBounded log.now }
    ensures { IsVerdictOf (refuted j formula.now.clauses log.now) result }
{
    let mut checker = Checker::new(alloc, formula);
    for k in 0..log.len() {
        match checker.add(log.get(k)) {
            Ok(()) => {}
            Err(AddError::Fault(fault)) => {
                return Err(CheckFail::Rejected(Fault::BadChain {
                    refutation: j,
                    chain: k as u32,
                    step: fault.step,
                    why: fault.why,
                }));
            }
            Err(AddError::NoMemory) => return Err(CheckFail::NoMemory),
        }
    }
    if checker.refuted() {
        Ok(())
    } else {
        Err(CheckFail::Rejected(Fault::NotEmpty(j)))
    }
}

/// Tests the hints over the formula, one after another.
fn tested(alloc: Global, j: u32, formula: &Formula, hints: &Hints) -> Result<(), CheckFail>
    requires few { length formula.now.clauses < 2 ^ 31 }
    requires bounded { AreHints hints.now }
    ensures { IsVerdictOf (hints_refute j formula.now.vars formula.now.clauses hints.now) result }
{
    let mut checker = HintChecker::new(alloc, formula)?;
    for k in 0..hints.len() {
        match checker.add(hints.get(k)) {
            Ok(()) => {}
            Err(HintError::Fault(fault)) => {
                return Err(CheckFail::Rejected(Fault::BadHint {
                    refutation: j,
                    clause: k as u32,
                    hint: fault.place,
                    why: fault.why,
                }));
            }
            Err(HintError::NoMemory) => return Err(CheckFail::NoMemory),
        }
    }
    if checker.refuted() {
        Ok(())
    } else {
        Err(CheckFail::Rejected(Fault::NotEmpty(j)))
    }
}

/// The same terms.
fn copied(alloc: Global, terms: &Transformer) -> Result<Transformer, AllocError>
    ensures { IfOk result (λ copy. copy ≡ terms.now) }
{
    let mut copy = Transformer::new(alloc);
    for term in terms.as_slice() {
        copy.push(term.copy(alloc)?)?;
    }
    Ok(copy)
}
