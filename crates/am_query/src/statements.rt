//! What may be stated of a problem.

ghost use Rattle.std.specs.Prelude.{◌≡◌, ◌+◌, ◌*◌, ◌^◌, ◌<◌, IfOk, IsTrue};
ghost use Rattle.am_gate.specs.Circuit.{IsLiteral, HasRoom};
ghost use Rattle.am_gate.specs.Promises.{GivesStep};
ghost use Rattle.am_blast.specs.Words.{IsWord};
ghost use Rattle.am_problem.specs.Examples.{all_fields};
ghost use Rattle.am_bv.specs.Terms.{fits, nodes};
ghost use Rattle.am_problem.specs.Kinds.{fields_of, member_term_of, valid_term_of};
ghost use Rattle.am_problem.specs.Loads.{assumption_weight};
ghost use Rattle.am_query.specs.Formulas.{assumed, forced, member_test, members, refused, valid};
ghost use Rattle.am_query.specs.inside.Statements.{States};
ghost use Rattle.am_query.specs.inside.Weights.{member_weight, valid_weight};
ghost use Rattle.am_query.specs.inside.Words.{AreWordsIn};

use crate::words::{copies, test};
use am_blast::{WordLits, Words, copied};
use am_bv::{Term, Width};
use am_domain::Domain;
use am_gate::Circuit;
use am_lit::Lit;
use am_problem::Problem;
use std::alloc::{AllocError, Global};
use std::marker::Model;

/// What statements of a problem are made of: the problem, and the tests of its domain as terms. Contracts
/// see the problem.
#[derive(Drop)]
pub struct Statements<'a> {
    pub alloc: Global,
    pub problem: &'a Problem,
    member: Term,
    valid: Term,
}

impl<'a> Model for Statements<'a> {
    ghost use Rattle.std.specs.Prelude.{◌≡◌};
    ghost use Rattle.std.specs.Coded.{codes};
    ghost use Rattle.am_bv.specs.contracts.term.Term as term;
    ghost use Rattle.am_tree.specs.contracts.grammar.Production as production;
    ghost use Rattle.am_problem.specs.Kinds.{member_term_of, valid_term_of};
    ghost use Rattle.am_problem.specs.Problem.{Problem as Data};

    ghost Value = { Data };

    ghost coded = { Prim.hlevel (codes, term.the_row.coded, production.the_row.coded) };

    ghost view = { λ s. s.problem.now };

    ghost invariant = { λ s.
        (s.member ≡ member_term_of s.problem.now.kind s.problem.now.width)
        × (s.valid ≡ valid_term_of s.problem.now.kind s.problem.now.width) };
}

impl<'a> Statements<'a> {
    /// What statements of this problem are made of.
    pub fn new(alloc: Global, problem: &'a Problem) -> Result<Statements<'a>, AllocError>
        ensures { IfOk result (λ s. s ≡ problem.now) }
    {
        let w = problem.width();
        Ok(Statements {
            alloc,
            problem,
            member: problem.kind().member_term(alloc, w)?,
            valid: problem.kind().valid_term(alloc, w)?,
        })
    }

    /// The number of bits of a word.
    pub fn width(&self) -> Width
        ensures { result ≡ self.now.width }
    {
        self.problem.width()
    }

    /// The term over a tuple and a word that tells whether the word is a member.
    fn member(&self) -> &Term
        ensures term { result.now ≡ member_term_of self.now.kind self.now.width }
        ensures fit { IsTrue (fits self.now.width (fields_of self.now.kind + 1) result.now) }
        ensures nodes { nodes result.now < 2 ^ 32 }
    {
        self.problem.keeps_limits();
        &self.member
    }

    /// The term over a tuple that tells whether it is an abstract value.
    fn valid(&self) -> &Term
        ensures term { result.now ≡ valid_term_of self.now.kind self.now.width }
        ensures fit { IsTrue (fits self.now.width (fields_of self.now.kind) result.now) }
        ensures nodes { nodes result.now < 2 ^ 32 }
    {
        self.problem.keeps_limits();
        &self.valid
    }

    /// Whether the word is a member of the tuple.
    fn member_test(
        &self,
        circuit: &mut Circuit,
        tuple: Words,
        word: WordLits,
    ) -> Result<Lit, AllocError>
        requires tuple { AreWordsIn self.now.width (fields_of self.now.kind) circuit.old.vars tuple }
        requires word { IsWord self.now.width circuit.old.vars word }
        requires room { HasRoom (member_weight self.now) circuit.old }
        ensures { IfOk result (λ r.
            GivesStep (member_test self.now tuple word) (member_weight self.now) IsLiteral circuit.old r circuit.new) }
    {
        let mut words = tuple;
        words.push(word)?;
        let l = test(
            self.alloc,
            circuit,
            self.width(),
            self.member(),
            words.as_slice(),
        )?;
        Ok(l)
    }

    /// States that the fields of each input are an abstract value.
    pub fn valid_inputs(&self, circuit: &mut Circuit, fields: &[WordLits]) -> Result<(), AllocError>
        requires fields { AreWordsIn self.now.width (all_fields self.now) circuit.old.vars fields.now }
        requires room { HasRoom (self.now.inputs * (valid_weight self.now + 1)) circuit.old }
        ensures { IfOk result (λ r.
            States (valid self.now fields.now) (self.now.inputs * (valid_weight self.now + 1))
            circuit.old r circuit.new) }
    {
        let count = self.problem.kind().fields() as usize;
        let mut rest = fields;
        for _ in 0..self.problem.inputs() {
            let (tuple, others) = rest.split_at(count);
            let l = test(self.alloc, circuit, self.width(), self.valid(), tuple)?;
            circuit.force(l)?;
            rest = others;
        }
        Ok(())
    }

    /// States that each word is a member of the input at its place.
    pub fn members(
        &self,
        circuit: &mut Circuit,
        fields: &[WordLits],
        words: &[WordLits],
    ) -> Result<(), AllocError>
        requires fields { AreWordsIn self.now.width (all_fields self.now) circuit.old.vars fields.now }
        requires words { AreWordsIn self.now.width self.now.inputs circuit.old.vars words.now }
        requires room { HasRoom (self.now.inputs * (member_weight self.now + 1)) circuit.old }
        ensures { IfOk result (λ r.
            States (members self.now fields.now words.now) (self.now.inputs * (member_weight self.now + 1))
            circuit.old r circuit.new) }
    {
        let count = self.problem.kind().fields() as usize;
        let mut rest = fields;
        for word in words {
            let (tuple, others) = rest.split_at(count);
            let tuple = copies(self.alloc, tuple)?;
            let word = copied(self.alloc, word.as_slice())?;
            self.admit(circuit, tuple, word)?;
            rest = others;
        }
        Ok(())
    }

    /// States that the operation is used at the words.
    pub fn assumed(&self, circuit: &mut Circuit, words: &[WordLits]) -> Result<(), AllocError>
        requires words { AreWordsIn self.now.width self.now.inputs circuit.old.vars words.now }
        requires room { HasRoom (assumption_weight self.now.width self.now.assume + 1) circuit.old }
        ensures { IfOk result (λ r.
            States (assumed self.now words.now self.now.assume) (assumption_weight self.now.width self.now.assume + 1)
            circuit.old r circuit.new) }
    {
        self.problem.keeps_limits();
        if let Some(term) = self.problem.assume() {
            let l = test(self.alloc, circuit, self.width(), term, words)?;
            circuit.force(l)?;
        }
        Ok(())
    }

    /// States that the word is a member of the tuple.
    pub fn admit(
        &self,
        circuit: &mut Circuit,
        tuple: Words,
        word: WordLits,
    ) -> Result<(), AllocError>
        requires tuple { AreWordsIn self.now.width (fields_of self.now.kind) circuit.old.vars tuple }
        requires word { IsWord self.now.width circuit.old.vars word }
        requires room { HasRoom (member_weight self.now + 1) circuit.old }
        ensures { IfOk result (λ r.
            States (forced (member_test self.now tuple word)) (member_weight self.now + 1) circuit.old r circuit.new) }
    {
        let l = self.member_test(circuit, tuple, word)?;
        circuit.force(l)?;
        Ok(())
    }

    /// States that the word is no member of the tuple.
    pub fn exclude(
        &self,
        circuit: &mut Circuit,
        tuple: Words,
        word: WordLits,
    ) -> Result<(), AllocError>
        requires tuple { AreWordsIn self.now.width (fields_of self.now.kind) circuit.old.vars tuple }
        requires word { IsWord self.now.width circuit.old.vars word }
        requires room { HasRoom (member_weight self.now + 1) circuit.old }
        ensures { IfOk result (λ r.
            States (refused (member_test self.now tuple word)) (member_weight self.now + 1) circuit.old r circuit.new) }
    {
        let l = self.member_test(circuit, tuple, word)?;
        circuit.force(l.opposite())?;
        Ok(())
    }
}
