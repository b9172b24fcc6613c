//! Whether a transformer is sound.

ghost use Rattle.std.specs.Prelude.{ℕ, ◌≡◌, ◌+◌, ◌^◌, ◌≤◌, IfOk, length, map};
ghost use Rattle.am_lit.specs.Truth.{value_at};
ghost use Rattle.am_gate.specs.Build.{Follows};
ghost use Rattle.am_gate.specs.Circuit.{HasInputs, HasRoom, start};
ghost use Rattle.am_blast.specs.Words.{reads};
ghost use Rattle.am_problem.specs.Examples.{all_fields};
ghost use Rattle.am_query.specs.Answers.{IsSoundAnswer, IsSpentQuery};
ghost use Rattle.am_query.specs.Formulas.{sound};
ghost use Rattle.am_query.specs.Queries.{input_count};
ghost use Rattle.am_query.specs.Transformers.{IsTransformerOf};
ghost use Rattle.am_query.specs.declared.query.Query.TheVariants.{Sound};
ghost use Rattle.am_query.specs.inside.Chosen.{AreSoundInputs};
ghost use Rattle.am_query.specs.inside.Parts.{failing, failing_weight};
ghost use Rattle.am_query.specs.inside.Stated.{IsStated};
ghost use Rattle.am_query.specs.inside.Statements.{States};
ghost use Rattle.am_query.specs.inside.Words.{AreWordsIn};

use crate::answers::{QueryAnswer, SoundAnswer};
use crate::reading::row_at;
use crate::stated::{Stated, Variables, new_circuit};
use crate::statements::Statements;
use crate::words::{blast_all, input_words};
use am_blast::{WordLits, Words, blast};
use am_chain::soundness::refutations_are_sound;
use am_gate::Circuit;
use am_lit::Assignment;
use am_problem::{Positive, Problem, Transformer};
use std::alloc::{AllocError, Global};

/// Finds out whether a transformer is sound, with at most `limit` clauses derived.
///
/// The answer is right whatever the limit is. Where 3 to the number of the formula's inputs is at most the
/// limit, it isn't `Spent`. After an error there was no memory.
pub fn sound(
    alloc: Global,
    p: &Problem,
    t: &Transformer,
    limit: u64,
) -> Result<SoundAnswer, AllocError>
    requires transformer { IsTransformerOf p.now t.now }
    requires least { 1 ≤ limit }
    requires most { limit ≤ 2 ^ 30 }
    ensures answer { IfOk result (IsSoundAnswer p.now t.now limit) }
    ensures enough { IfOk result (λ a. 3 ^ input_count p.now (Sound t.now) ≤ limit → ¬ IsSpentQuery a) }
{
    p.keeps_limits();
    refutations_are_sound();
    let (stated, inputs) = stated_sound(alloc, true, p, t)?;
    match stated.solved(alloc, limit)? {
        QueryAnswer::Found(a) => Ok(QueryAnswer::Found(positive_at(p, &a, &inputs))),
        QueryAnswer::Refuted(log) => Ok(QueryAnswer::Refuted(log)),
        QueryAnswer::Spent(log) => Ok(QueryAnswer::Spent(log)),
    }
}

/// The words of the inputs of a formula of soundness.
#[derive(Drop)]
pub struct SoundInputs {
    /// The fields of all inputs.
    pub fields: Words,
    /// A word for each input.
    pub words: Words,
}

/// The formula of soundness, and the words of its inputs.
pub fn stated_sound(
    alloc: Global,
    folding: bool,
    p: &Problem,
    t: &Transformer,
) -> Result<(Stated, SoundInputs), AllocError>
    requires { IsTransformerOf p.now t.now }
    ensures stated { IfOk result (λ r. IsStated folding p.now (Sound t.now) r.0) }
    ensures inputs { IfOk result (λ r. AreSoundInputs p.now r.0.formula.vars r.1) }
{
    let mut circuit = new_circuit(alloc, folding)?;
    let statements = Statements::new(alloc, p)?;
    let mut base = Variables::new(alloc);
    let inputs = statements.unsound(&mut circuit, t, &mut base)?;
    Ok((Stated::of(circuit, base), inputs))
}

/// The example that an assignment gives to the words of the inputs.
fn positive_at(p: &Problem, a: &Assignment, inputs: &SoundInputs) -> Positive
    requires fields { AreWordsIn p.now.width (all_fields p.now) (length a.now.values) inputs.now.fields }
    requires words { AreWordsIn p.now.width p.now.inputs (length a.now.values) inputs.now.words }
    ensures inputs { result.inputs ≡ map (reads (value_at a.now.values)) inputs.now.fields }
    ensures words { result.words ≡ map (reads (value_at a.now.values)) inputs.now.words }
{
    p.keeps_limits();
    Positive {
        inputs: row_at(a, inputs.fields.as_slice()),
        words: row_at(a, inputs.words.as_slice()),
    }
}

impl Statements<'_> {
    /// States in a new circuit that the transformer isn't sound, and puts the variables of the circuit's
    /// inputs into an empty list.
    fn unsound(
        &self,
        circuit: &mut Circuit,
        t: &Transformer,
        base: &mut Variables,
    ) -> Result<SoundInputs, AllocError>
        requires fresh { circuit.old ≡ start circuit.old.folding }
        requires first { HasInputs base.old circuit.old }
        requires transformer { IsTransformerOf self.now t.now }
        ensures stated { IfOk result (λ r. Follows (sound self.now t.now) circuit.old tt circuit.new) }
        ensures words { IfOk result (λ r. AreSoundInputs self.now circuit.new.vars r) }
        ensures inputs { IfOk result (λ r. HasInputs base.new circuit.new) }
        ensures count { IfOk result (λ r. length base.new ≡ length base.old + input_count self.now (Sound t.now)) }
        ensures room { IfOk result (λ r. HasRoom 1 circuit.new) }
    {
        self.problem.keeps_limits();
        let w = self.width();
        let fields = input_words(self.alloc, circuit, w, self.problem.all_fields(), base)?;
        let words = input_words(self.alloc, circuit, w, self.problem.inputs(), base)?;
        self.failing(circuit, t, fields.as_slice(), words.as_slice())?;
        Ok(SoundInputs { fields, words })
    }

    /// States that the inputs with these fields are valid, that the words are members of them and meet the
    /// assumption, and that the transformer's result there doesn't have the operation's value.
    fn failing(
        &self,
        circuit: &mut Circuit,
        t: &Transformer,
        fields: &[WordLits],
        words: &[WordLits],
    ) -> Result<(), AllocError>
        requires transformer { IsTransformerOf self.now t.now }
        requires fields { AreWordsIn self.now.width (all_fields self.now) circuit.old.vars fields.now }
        requires words { AreWordsIn self.now.width self.now.inputs circuit.old.vars words.now }
        requires room { HasRoom (failing_weight self.now t.now) circuit.old }
        ensures { IfOk result (λ r.
            States (failing self.now t.now fields.now words.now) (failing_weight self.now t.now)
            circuit.old r circuit.new) }
    {
        self.problem.keeps_limits();
        self.valid_inputs(circuit, fields)?;
        self.members(circuit, fields, words)?;
        self.assumed(circuit, words)?;
        let value = blast(
            self.alloc,
            circuit,
            self.width(),
            self.problem.operation(),
            words,
        )?;
        let result = blast_all(self.alloc, circuit, self.width(), t.as_slice(), fields)?;
        self.exclude(circuit, result, value)?;
        Ok(())
    }
}
