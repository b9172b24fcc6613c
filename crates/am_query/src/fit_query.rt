//! The fit: a transformer that satisfies examples.

ghost use Rattle.std.specs.Prelude.{ℕ, ◌≡◌, ◌+◌, ◌^◌, ◌≤◌, IfOk, length};
ghost use Rattle.std.specs.List.{range_with_len};
ghost use Rattle.am_gate.specs.Circuit.{HasInputs, HasRoom, start};
ghost use Rattle.am_gate.specs.Build.{Follows};
ghost use Rattle.am_slot.specs.Template.{selectors_of};
ghost use Rattle.am_query.specs.Answers.{IsFitAnswer, IsSpentQuery};
ghost use Rattle.am_query.specs.Formulas.{encoding_of, fit};
ghost use Rattle.am_query.specs.Queries.{AreFitted, input_count};
ghost use Rattle.am_query.specs.declared.query.Query.TheVariants.{Fit};
ghost use Rattle.am_query.specs.inside.Stated.{IsStated};

use crate::answers::{FitAnswer, QueryAnswer};
use crate::stated::{Stated, Variables, new_circuit};
use crate::statements::Statements;
use am_chain::soundness::refutations_are_sound;
use am_gate::Circuit;
use am_problem::{Negatives, Positives, Problem};
use am_slot::Template;
use std::alloc::{AllocError, Global};

/// Looks for a transformer that satisfies the examples, with at most `limit` clauses derived.
///
/// The answer is right whatever the limit is. Where 3 to the number of the grammar's selectors is at most the
/// limit, it isn't `Spent`. After an error there was no memory.
pub fn fit(
    alloc: Global,
    p: &Problem,
    pos: &Positives,
    neg: &Negatives,
    limit: u64,
) -> Result<FitAnswer, AllocError>
    requires examples { AreFitted p.now pos.now neg.now }
    requires least { 1 ≤ limit }
    requires most { limit ≤ 2 ^ 30 }
    ensures answer { IfOk result (IsFitAnswer p.now pos.now neg.now limit) }
    ensures enough { IfOk result (λ a. 3 ^ input_count p.now (Fit pos.now neg.now) ≤ limit → ¬ IsSpentQuery a) }
{
    p.keeps_limits();
    refutations_are_sound();
    let (stated, template) = stated_fit(alloc, true, p, pos, neg)?;
    match stated.solved(alloc, limit)? {
        QueryAnswer::Found(assignment) => {
            let trees = template.decode(&assignment)?;
            let term = p.grammar().terms_of(alloc, &trees)?;
            Ok(QueryAnswer::Found(term))
        }
        QueryAnswer::Refuted(log) => Ok(QueryAnswer::Refuted(log)),
        QueryAnswer::Spent(log) => Ok(QueryAnswer::Spent(log)),
    }
}

/// The formula of a fit, and the template that chooses the transformer.
pub fn stated_fit(
    alloc: Global,
    folding: bool,
    p: &Problem,
    pos: &Positives,
    neg: &Negatives,
) -> Result<(Stated, Template), AllocError>
    requires { AreFitted p.now pos.now neg.now }
    ensures stated { IfOk result (λ r. IsStated folding p.now (Fit pos.now neg.now) r.0) }
    ensures template { IfOk result (λ r. r.1 ≡ encoding_of p.now) }
    ensures selectors { IfOk result (λ r. 1 + selectors_of r.1 ≤ r.0.formula.vars) }
{
    let mut circuit = new_circuit(alloc, folding)?;
    let statements = Statements::new(alloc, p)?;
    let template = statements.fit(&mut circuit, pos, neg)?;
    let base = first_variables(alloc, template.selectors())?;
    Ok((Stated::of(circuit, base), template))
}

impl Statements<'_> {
    /// States, in a new circuit, that a transformer of the grammar satisfies the examples, and answers the
    /// template that chooses it.
    pub fn fit(
        &self,
        circuit: &mut Circuit,
        pos: &Positives,
        neg: &Negatives,
    ) -> Result<Template, AllocError>
        requires fresh { circuit.old ≡ start circuit.old.folding }
        requires examples { AreFitted self.now pos.now neg.now }
        ensures template { IfOk result (λ t. t ≡ encoding_of self.now) }
        ensures ok { IfOk result (λ t. Follows (fit self.now pos.now neg.now) circuit.old tt circuit.new) }
        ensures room { IfOk result (λ t. HasRoom (2 ^ 27) circuit.new) }
        ensures selectors { IfOk result (λ t. 1 + selectors_of (encoding_of self.now) ≤ circuit.new.vars) }
        ensures inputs { IfOk result (λ t.
            HasInputs (range_with_len 1 (selectors_of (encoding_of self.now))) circuit.new) }
    {
        self.problem.keeps_limits();
        let grammar = self.problem.grammar();
        let template = Template::new(self.alloc, circuit, self.width(), grammar)?;
        self.cover_all(circuit, &template, pos.as_slice())?;
        self.uncover_all(circuit, &template, neg.as_slice())?;
        Ok(template)
    }
}

/// So many variables, from variable 1 on.
pub fn first_variables(alloc: Global, count: u32) -> Result<Variables, AllocError>
    requires { count ≤ 2 ^ 14 }
    ensures { IfOk result (λ v. v ≡ range_with_len 1 count) }
{
    let mut variables = Variables::new(alloc);
    for i in 0..count {
        variables.push(1 + i)?;
    }
    Ok(variables)
}
