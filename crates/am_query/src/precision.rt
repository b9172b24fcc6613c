//! Whether some transformer that satisfies examples is closer than a given one.

ghost use Rattle.std.specs.Prelude.{ℕ, ◌≡◌, ◌+◌, ◌*◌, ◌^◌, ◌≤◌, IfOk, length, map};
ghost use Rattle.am_lit.specs.Truth.{value_at};
ghost use Rattle.am_gate.specs.Build.{Follows};
ghost use Rattle.am_gate.specs.Circuit.{HasInputs, HasRoom};
ghost use Rattle.am_blast.specs.Words.{IsWord, reads};
ghost use Rattle.am_slot.specs.Template.{selectors_of};
ghost use Rattle.am_problem.specs.Examples.{all_fields};
ghost use Rattle.am_query.specs.Answers.{IsPreciseAnswer, IsSpentQuery};
ghost use Rattle.am_query.specs.Formulas.{encoding_of, query_circuit};
ghost use Rattle.am_query.specs.Queries.{AreCompared, input_count};
ghost use Rattle.am_query.specs.Transformers.{IsTransformerOf};
ghost use Rattle.am_query.specs.declared.query.Query.TheVariants.{Fit, Precise};
ghost use Rattle.am_query.specs.inside.Chosen.{ArePreciseInputs};
ghost use Rattle.am_query.specs.inside.Parts.{comparing, comparing_weight, sought};
ghost use Rattle.am_query.specs.inside.Stated.{IsStated};
ghost use Rattle.am_query.specs.inside.Statements.{States};
ghost use Rattle.am_query.specs.inside.Words.{AreWordsIn};

use crate::answers::{Closer, PreciseAnswer, QueryAnswer};
use crate::fit_query::first_variables;
use crate::reading::{row_at, word_at};
use crate::stated::{Stated, Variables, new_circuit};
use crate::statements::Statements;
use crate::words::{blast_all, input_word, input_words};
use am_blast::{WordLits, Words, copied};
use am_chain::soundness::refutations_are_sound;
use am_gate::Circuit;
use am_lit::{Assignment, Lit};
use am_problem::{Negative, Negatives, Positives, Problem, Transformer};
use am_slot::Template;
use std::alloc::{AllocError, Global};

/// Looks for a transformer that satisfies the examples, and excludes at some inputs a word that the given
/// one admits, with at most `limit` clauses derived.
///
/// The answer is right whatever the limit is. Where 3 to the number of the formula's inputs is at most the
/// limit, it isn't `Spent`. After an error there was no memory.
pub fn precise(
    alloc: Global,
    p: &Problem,
    t: &Transformer,
    pos: &Positives,
    neg: &Negatives,
    limit: u64,
) -> Result<PreciseAnswer, AllocError>
    requires compared { AreCompared p.now t.now pos.now neg.now }
    requires least { 1 ≤ limit }
    requires most { limit ≤ 2 ^ 30 }
    ensures answer { IfOk result (IsPreciseAnswer p.now t.now pos.now neg.now limit) }
    ensures enough { IfOk result (λ a.
        3 ^ input_count p.now (Precise t.now pos.now neg.now) ≤ limit → ¬ IsSpentQuery a) }
{
    p.keeps_limits();
    refutations_are_sound();
    let (stated, template, inputs) = stated_precise(alloc, true, p, t, pos, neg)?;
    match stated.solved(alloc, limit)? {
        QueryAnswer::Found(a) => {
            let trees = template.decode(&a)?;
            let term = p.grammar().terms_of(alloc, &trees)?;
            let example = negative_at(p, &a, &inputs);
            Ok(QueryAnswer::Found(Closer { term, example }))
        }
        QueryAnswer::Refuted(log) => Ok(QueryAnswer::Refuted(log)),
        QueryAnswer::Spent(log) => Ok(QueryAnswer::Spent(log)),
    }
}

/// The words of the inputs of a formula of precision, after the fit.
#[derive(Drop)]
pub struct PreciseInputs {
    /// The fields of all inputs.
    pub fields: Words,
    /// The word that is excluded there.
    pub word: WordLits,
}

/// The formula of precision, the template that chooses the transformer, and the words of the inputs.
pub fn stated_precise(
    alloc: Global,
    folding: bool,
    p: &Problem,
    t: &Transformer,
    pos: &Positives,
    neg: &Negatives,
) -> Result<(Stated, Template, PreciseInputs), AllocError>
    requires { AreCompared p.now t.now pos.now neg.now }
    ensures stated { IfOk result (λ r. IsStated folding p.now (Precise t.now pos.now neg.now) r.0) }
    ensures template { IfOk result (λ r. r.1 ≡ encoding_of p.now) }
    ensures selectors { IfOk result (λ r. 1 + selectors_of r.1 ≤ r.0.formula.vars) }
    ensures inputs { IfOk result (λ r.
        ArePreciseInputs p.now (query_circuit folding p.now (Fit pos.now neg.now)).vars r.0.formula.vars r.2) }
{
    let mut circuit = new_circuit(alloc, folding)?;
    let statements = Statements::new(alloc, p)?;
    let template = statements.fit(&mut circuit, pos, neg)?;
    let mut base = first_variables(alloc, template.selectors())?;
    let inputs = statements.closer(&mut circuit, &template, t, &mut base)?;
    Ok((Stated::of(circuit, base), template, inputs))
}

/// The example that an assignment gives to the words of the inputs.
fn negative_at(p: &Problem, a: &Assignment, inputs: &PreciseInputs) -> Negative
    requires fields { AreWordsIn p.now.width (all_fields p.now) (length a.now.values) inputs.now.fields }
    requires word { IsWord p.now.width (length a.now.values) inputs.now.word }
    ensures inputs { result.inputs ≡ map (reads (value_at a.now.values)) inputs.now.fields }
    ensures word { result.word ≡ reads (value_at a.now.values) inputs.now.word }
{
    p.keeps_limits();
    Negative {
        inputs: row_at(a, inputs.fields.as_slice()),
        word: word_at(a, inputs.word.as_slice()),
    }
}

impl Statements<'_> {
    /// States after a fit that at some inputs the chosen transformer excludes a word that the given one
    /// admits, and puts the variables of the circuit's inputs after those of the fit.
    fn closer(
        &self,
        circuit: &mut Circuit,
        template: &Template,
        t: &Transformer,
        base: &mut Variables,
    ) -> Result<PreciseInputs, AllocError>
        requires template { template.now ≡ encoding_of self.now }
        requires selectors { 1 + selectors_of (encoding_of self.now) ≤ circuit.old.vars }
        requires transformer { IsTransformerOf self.now t.now }
        requires first { HasInputs base.old circuit.old }
        requires room { HasRoom (2 ^ 27) circuit.old }
        ensures stated { IfOk result (λ r. Follows (sought self.now t.now) circuit.old tt circuit.new) }
        ensures words { IfOk result (λ r. ArePreciseInputs self.now circuit.old.vars circuit.new.vars r) }
        ensures inputs { IfOk result (λ r. HasInputs base.new circuit.new) }
        ensures count { IfOk result (λ r.
            length base.new ≡ length base.old + (all_fields self.now + 1) * self.now.width) }
        ensures vars { IfOk result (λ r. circuit.old.vars ≤ circuit.new.vars) }
        ensures room { IfOk result (λ r. HasRoom 1 circuit.new) }
    {
        self.problem.keeps_limits();
        let w = self.width();
        let fields = input_words(self.alloc, circuit, w, self.problem.all_fields(), base)?;
        let word = input_word(self.alloc, circuit, w, base)?;
        self.comparing(circuit, template, t, fields.as_slice(), word.as_slice())?;
        Ok(PreciseInputs { fields, word })
    }

    /// States that the fields are those of abstract values, where the chosen transformer excludes the word and
    /// the given one admits it.
    fn comparing(
        &self,
        circuit: &mut Circuit,
        template: &Template,
        t: &Transformer,
        fields: &[WordLits],
        word: &[Lit],
    ) -> Result<(), AllocError>
        requires template { template.now ≡ encoding_of self.now }
        requires selectors { 1 + selectors_of (encoding_of self.now) ≤ circuit.old.vars }
        requires transformer { IsTransformerOf self.now t.now }
        requires fields { AreWordsIn self.now.width (all_fields self.now) circuit.old.vars fields.now }
        requires word { IsWord self.now.width circuit.old.vars word.now }
        requires room { HasRoom (comparing_weight self.now t.now) circuit.old }
        ensures { IfOk result (λ r.
            States (comparing self.now t.now fields.now word.now) (comparing_weight self.now t.now)
            circuit.old r circuit.new) }
    {
        self.problem.keeps_limits();
        self.valid_inputs(circuit, fields)?;
        let closer = template.at(circuit, fields)?;
        let result = blast_all(self.alloc, circuit, self.width(), t.as_slice(), fields)?;
        let admitted = copied(self.alloc, word)?;
        self.admit(circuit, result, admitted)?;
        let excluded = copied(self.alloc, word)?;
        self.exclude(circuit, closer, excluded)?;
        Ok(())
    }
}
