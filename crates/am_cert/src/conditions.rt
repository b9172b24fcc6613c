//! The conditions on terms and examples. Each call makes one test of its items in turn.

ghost use Rattle.std.specs.Prelude.{◌<◌, ◌^◌, ◌↔◌, All, IsTrue, OnOk, length};
ghost use Rattle.am_problem.specs.Examples.{IsNegative, IsPositive, IsTransformer};
ghost use Rattle.am_query.specs.Acceptance.{IsExcluded, negatives_true, positives_true, terms_inside};
ghost use Rattle.am_query.specs.Transformers.{IsTransformerOf};
ghost use Rattle.am_cert.specs.inside.Verdicts.{AreCounted, IsVerdictOf};

use crate::checking::CheckFail;
use am_problem::{Negative, Negatives, Positives, Problem, Transformer};
use am_query::Fault;
use std::alloc::Global;

/// Whether each term is given by a tree from its start. Then the terms are a transformer of the problem.
pub fn terms_inside(alloc: Global, p: &Problem, terms: &Transformer) -> Result<(), CheckFail>
    requires { AreCounted p.now terms.now }
    ensures verdict { IsVerdictOf (terms_inside p.now terms.now) result }
    ensures transformer { OnOk result (IsTransformerOf p.now terms.now) }
{
    p.keeps_limits();
    let grammar = p.grammar();
    for (i, term) in terms.as_slice().iter().enumerate() {
        let start = *grammar.starts.get(i);
        let tree = grammar.find_tree(alloc, start, grammar.depth, term)?;
        if tree.is_none() {
            return Err(CheckFail::Rejected(Fault::TermOutside(i as u32)));
        }
    }
    Ok(())
}

/// Whether each positive example is true.
pub fn positives_true(p: &Problem, positives: &Positives) -> Result<(), CheckFail>
    requires stored { All (IsPositive p.now) positives.now }
    requires few { length positives.now < 2 ^ 32 }
    ensures { IsVerdictOf (positives_true p.now positives.now) result }
{
    for (i, e) in positives.as_slice().iter().enumerate() {
        if !p.is_true(e) {
            return Err(CheckFail::Rejected(Fault::PositiveFalse(i as u32)));
        }
    }
    Ok(())
}

/// Whether each negative example is valid, and the terms satisfy it.
pub fn negatives_true(
    p: &Problem,
    terms: &Transformer,
    negatives: &Negatives,
) -> Result<(), CheckFail>
    requires transformer { IsTransformer p.now terms.now }
    requires stored { All (IsNegative p.now) negatives.now }
    requires few { length negatives.now < 2 ^ 32 }
    ensures { IsVerdictOf (negatives_true p.now terms.now negatives.now) result }
{
    for (i, e) in negatives.as_slice().iter().enumerate() {
        if !is_excluded(p, terms, e) {
            return Err(CheckFail::Rejected(Fault::NegativeFalse(i as u32)));
        }
    }
    Ok(())
}

/// Whether the negative example is valid, and the terms satisfy it.
fn is_excluded(p: &Problem, terms: &Transformer, e: &Negative) -> bool
    requires transformer { IsTransformer p.now terms.now }
    requires stored { IsNegative p.now e.now }
    ensures { IsTrue result ↔ IsExcluded p.now terms.now e.now }
{
    p.is_valid(&e.inputs) && p.satisfies_negative(terms, e)
}
