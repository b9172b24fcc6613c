//! Certificates.

ghost use Rattle.std.specs.Prelude.{◌≡◌, false};
ghost use Rattle.am_cert.specs.Certificate.{IsCertificate};
ghost use Rattle.am_cert.specs.Printing.{IsWritable};
ghost use Rattle.am_cert.specs.Versions.{has_hints};
ghost use Rattle.am_cert.specs.declared.answer.Proofs.TheVariants.{Chains};

use crate::answer::Proofs;
use crate::version::Version;
use am_problem::Problem;
use am_query::Outcome;
use std::marker::Model;

/// A problem, how its synthesis ended, what shows it, and the form of its formulas. Contracts see the parts. Each
/// certificate can be written; versions 1 and 2 have chains, and versions 3 and 4 hints in their place. A log or a list
/// of hints has fewer than 2^30 items; a chain has fewer than 2^30 steps, and a hint fewer than 2^31 codes and places.
#[derive(Drop)]
pub struct Certificate {
    pub(crate) version: Version,
    pub(crate) problem: Problem,
    pub(crate) outcome: Outcome,
    pub(crate) proofs: Proofs,
}

impl Model for Certificate {
    ghost use Rattle.std.specs.Coded.{codes};
    ghost use Rattle.am_bv.specs.contracts.term.Term as term;
    ghost use Rattle.am_tree.specs.contracts.grammar.Production as production;
    ghost use Rattle.am_cert.specs.Certificate.{Certificate as Data, IsCertificate};

    ghost Value = { Data };

    ghost coded = { Prim.hlevel (codes, term.the_row.coded, production.the_row.coded) };

    ghost view = { λ c. record {
      version = c.version;
      problem = c.problem;
      outcome = c.outcome;
      proofs = c.proofs;
    } };

    ghost invariant = { λ c. IsCertificate (record {
      version = c.version;
      problem = c.problem;
      outcome = c.outcome;
      proofs = c.proofs;
    }) };
}

impl Certificate {
    /// The certificate of a problem with an outcome of its synthesis, in a version with chains. The logs of such an
    /// outcome are over formulas that fold constants, so a certificate of version 1 with them need not be accepted.
    pub fn new(version: Version, problem: Problem, outcome: Outcome) -> Certificate
        requires chains { has_hints version ≡ false }
        requires writable { IsWritable problem outcome }
        ensures { result ≡ record { version = version; problem = problem; outcome = outcome; proofs = Chains } }
    {
        problem.keeps_limits();
        Certificate {
            version,
            problem,
            outcome,
            proofs: Proofs::Chains,
        }
    }

    /// Each certificate can be written, and keeps the bounds of its logs and hints.
    pub fn keeps_limits(&self)
        ensures { IsCertificate self.now }
    {
        let _ = &self.version;
    }

    /// In which form its formulas are.
    pub fn version(&self) -> Version
        ensures { result ≡ self.now.version }
    {
        self.version
    }

    /// Its problem.
    pub fn problem(&self) -> &Problem
        ensures { result.now ≡ self.now.problem }
    {
        &self.problem
    }

    /// How the synthesis ended.
    pub fn outcome(&self) -> &Outcome
        ensures { result.now ≡ self.now.outcome }
    {
        &self.outcome
    }

    /// What refutes the formulas of its queries.
    pub fn proofs(&self) -> &Proofs
        ensures { result.now ≡ self.now.proofs }
    {
        &self.proofs
    }
}
