//! What the transformer that a template chooses has to satisfy.

ghost use Rattle.std.specs.Prelude.{ℕ, List, ◌≡◌, ◌+◌, ◌*◌, ◌≤◌, All, IfOk, length};
ghost use Rattle.am_gate.specs.Circuit.{HasInputs, HasRoom};
ghost use Rattle.am_gate.specs.Promises.{GivesStep};
ghost use Rattle.am_slot.specs.Template.{block, selectors_of, weight_of_block};
ghost use Rattle.am_problem.specs.Examples.{IsFieldRow, IsNegative, IsPositive};
ghost use Rattle.am_problem.specs.Kinds.{fields_of};
ghost use Rattle.am_query.specs.Formulas.{constants, covered, each, encoding_of, uncovered};
ghost use Rattle.am_query.specs.inside.Statements.{States};
ghost use Rattle.am_query.specs.inside.Weights.{example_weight};
ghost use Rattle.am_query.specs.inside.Words.{AreWordsIn};

use crate::statements::Statements;
use crate::words::constants;
use am_blast::{Words, constant};
use am_bv::value;
use am_gate::Circuit;
use am_problem::{Inputs, Negative, Positive};
use am_slot::Template;
use std::alloc::AllocError;

impl Statements<'_> {
    /// The words of the chosen transformer's result at the inputs of a row.
    fn block_at(
        &self,
        circuit: &mut Circuit,
        template: &Template,
        row: &Inputs,
    ) -> Result<Words, AllocError>
        requires template { template.now ≡ encoding_of self.now }
        requires row { IsFieldRow self.now row.now }
        requires selectors { 1 + selectors_of (encoding_of self.now) ≤ circuit.old.vars }
        requires room { HasRoom (weight_of_block (encoding_of self.now)) circuit.old }
        ensures { IfOk result (λ r.
            GivesStep (block (encoding_of self.now) (constants self.now row.now))
            (weight_of_block (encoding_of self.now))
            (AreWordsIn self.now.width (fields_of self.now.kind)) circuit.old r circuit.new) }
    {
        self.problem.keeps_limits();
        let fields = constants(self.alloc, circuit, self.width(), row.as_slice())?;
        let result = template.at(circuit, fields.as_slice())?;
        Ok(result)
    }

    /// States that the chosen transformer covers a positive example.
    fn cover(
        &self,
        circuit: &mut Circuit,
        template: &Template,
        e: &Positive,
    ) -> Result<(), AllocError>
        requires template { template.now ≡ encoding_of self.now }
        requires example { IsPositive self.now e.now }
        requires selectors { 1 + selectors_of (encoding_of self.now) ≤ circuit.old.vars }
        requires room { HasRoom (example_weight self.now + 1) circuit.old }
        ensures { IfOk result (λ r.
            States (covered self.now e.now) (example_weight self.now + 1) circuit.old r circuit.new) }
    {
        self.problem.keeps_limits();
        let c = value(self.width(), self.problem.operation(), e.words.as_slice());
        let result = self.block_at(circuit, template, &e.inputs)?;
        let word = constant(self.alloc, circuit, self.width(), c)?;
        self.admit(circuit, result, word)?;
        Ok(())
    }

    /// States that the chosen transformer doesn't admit a negative example.
    fn uncover(
        &self,
        circuit: &mut Circuit,
        template: &Template,
        e: &Negative,
    ) -> Result<(), AllocError>
        requires template { template.now ≡ encoding_of self.now }
        requires example { IsNegative self.now e.now }
        requires selectors { 1 + selectors_of (encoding_of self.now) ≤ circuit.old.vars }
        requires room { HasRoom (example_weight self.now + 1) circuit.old }
        ensures { IfOk result (λ r.
            States (uncovered self.now e.now) (example_weight self.now + 1) circuit.old r circuit.new) }
    {
        let result = self.block_at(circuit, template, &e.inputs)?;
        let word = constant(self.alloc, circuit, self.width(), e.word)?;
        self.exclude(circuit, result, word)?;
        Ok(())
    }

    /// States that the chosen transformer covers each of the positive examples.
    pub fn cover_all(
        &self,
        circuit: &mut Circuit,
        template: &Template,
        pos: &[Positive],
    ) -> Result<(), AllocError>
        requires template { template.now ≡ encoding_of self.now }
        requires examples { All (IsPositive self.now) pos.now }
        requires selectors { 1 + selectors_of (encoding_of self.now) ≤ circuit.old.vars }
        requires room { HasRoom (length pos.now * (example_weight self.now + 1)) circuit.old }
        ensures { IfOk result (λ r.
            States (each (covered self.now) pos.now) (length pos.now * (example_weight self.now + 1))
            circuit.old r circuit.new) }
    {
        for e in pos {
            self.cover(circuit, template, e)?;
        }
        Ok(())
    }

    /// States that the chosen transformer admits none of the negative examples.
    pub fn uncover_all(
        &self,
        circuit: &mut Circuit,
        template: &Template,
        neg: &[Negative],
    ) -> Result<(), AllocError>
        requires template { template.now ≡ encoding_of self.now }
        requires examples { All (IsNegative self.now) neg.now }
        requires selectors { 1 + selectors_of (encoding_of self.now) ≤ circuit.old.vars }
        requires room { HasRoom (length neg.now * (example_weight self.now + 1)) circuit.old }
        ensures { IfOk result (λ r.
            States (each (uncovered self.now) neg.now) (length neg.now * (example_weight self.now + 1))
            circuit.old r circuit.new) }
    {
        for e in neg {
            self.uncover(circuit, template, e)?;
        }
        Ok(())
    }
}
