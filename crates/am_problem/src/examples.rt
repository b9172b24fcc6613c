//! Examples of what a transformer has to cover and of what it may not admit, and what a transformer
//! answers at inputs.

ghost use Rattle.std.specs.Prelude.{◌≡◌, ◌^◌, ◌<◌, ◌≤◌, ◌↔◌, [], IsTrue, slice_index_or};
ghost use Rattle.am_domain.specs.Examples.{Covers, Excludes, IsTrueExample};
ghost use Rattle.am_domain.specs.Question.{AreInputs, AreMembers, IsMember, results};
ghost use Rattle.am_domain.specs.Tuple.{IsTuple};
ghost use Rattle.am_problem.specs.Examples.{AreInputWords, IsFieldRow, IsNegative, IsPositive, IsTransformer};
ghost use Rattle.am_problem.specs.Examples.{all_fields, inputs_of, negative_of, positive_of};
ghost use Rattle.am_problem.specs.Kinds.{fields_of};
ghost use Rattle.am_problem.specs.Problem.{question_of};

use crate::problem::Problem;
use crate::rows::{Inputs, WordRow};
use am_bv::{Row, Term, value};
use am_domain::{Domain, Fields};

/// A transformer: a term for each field of the result, over the fields of all inputs.
pub type Transformer = Row<Term>;

/// Positive examples.
pub type Positives = Row<Positive>;

/// Negative examples.
pub type Negatives = Row<Negative>;

/// A positive example: a result at the inputs has to have the operation's value at the words.
#[derive(PartialEq, Debug, Drop)]
pub struct Positive {
    /// The fields of all inputs.
    pub inputs: Inputs,
    /// A word for each input.
    pub words: WordRow,
}

/// A negative example: a result at the inputs may not have the word.
#[derive(PartialEq, Debug, Drop)]
pub struct Negative {
    /// The fields of all inputs.
    pub inputs: Inputs,
    /// The word.
    pub word: u8,
}

impl Positive {
    /// The same example.
    pub fn copy(&self) -> Positive
        ensures { result ≡ self.now }
    {
        Positive {
            inputs: self.inputs.copy(),
            words: self.words.copy(),
        }
    }
}

impl Negative {
    /// The same example.
    pub fn copy(&self) -> Negative
        ensures { result ≡ self.now }
    {
        Negative {
            inputs: self.inputs.copy(),
            word: self.word,
        }
    }
}

/// What a problem says of inputs, words, transformers and examples. None of these calls takes memory.
impl Problem {
    /// How many fields all inputs have together, which is how many words a row of them has.
    pub fn all_fields(&self) -> u32
        ensures value { result ≡ all_fields self.now }
        ensures most { result ≤ 12 }
    {
        self.keeps_limits();
        self.inputs() * self.kind().fields()
    }

    /// What a transformer answers at the inputs: the values of its terms at the fields of all of them.
    pub fn result(&self, t: &Transformer, inputs: &Inputs) -> Fields
        requires transformer { IsTransformer self.now t.now }
        requires row { IsFieldRow self.now inputs.now }
        ensures value { result ≡ results (question_of self.now) t.now (inputs_of self.now inputs.now) }
        ensures tuple { IsTuple self.now.width (fields_of self.now.kind) result }
    {
        self.keeps_limits();
        let mut fields = Fields::new();
        for term in t.as_slice() {
            fields.push(value(self.width(), term, inputs.as_slice()));
        }
        fields
    }

    /// Whether each of the inputs is an abstract value.
    pub fn is_valid(&self, inputs: &Inputs) -> bool
        requires { IsFieldRow self.now inputs.now }
        ensures { IsTrue result ↔ AreInputs (question_of self.now) (inputs_of self.now inputs.now) }
    {
        for i in 0..self.inputs() {
            let input = self.input(inputs, i as usize);
            if !self.kind().valid(self.width(), &input) {
                return false;
            }
        }
        true
    }

    /// Whether there is no assumption, or its value at the words isn't 0.
    pub fn assumed(&self, words: &WordRow) -> bool
        requires { AreInputWords self.now words.now }
        ensures { IsTrue result ↔ (question_of self.now).Assumed words.now }
    {
        self.keeps_limits();
        match self.assume() {
            None => true,
            Some(term) => value(self.width(), term, words.as_slice()) != 0,
        }
    }

    /// Whether the example is true: its inputs are abstract values that have its words, and the assumption
    /// holds at the words.
    pub fn is_true(&self, e: &Positive) -> bool
        requires { IsPositive self.now e.now }
        ensures { IsTrue result ↔ IsTrueExample (question_of self.now) (positive_of self.now e.now) }
    {
        self.is_valid(&e.inputs) && self.are_members(&e.inputs, &e.words) && self.assumed(&e.words)
    }

    /// Whether a transformer's result at the example's inputs has the operation's value at its words.
    pub fn satisfies_positive(&self, t: &Transformer, e: &Positive) -> bool
        requires transformer { IsTransformer self.now t.now }
        requires example { IsPositive self.now e.now }
        ensures { IsTrue result ↔ Covers (question_of self.now) t.now (positive_of self.now e.now) }
    {
        self.keeps_limits();
        let word = value(self.width(), self.operation(), e.words.as_slice());
        self.admits(t, &e.inputs, word)
    }

    /// Whether a transformer's result at the example's inputs doesn't have its word.
    pub fn satisfies_negative(&self, t: &Transformer, e: &Negative) -> bool
        requires transformer { IsTransformer self.now t.now }
        requires example { IsNegative self.now e.now }
        ensures { IsTrue result ↔ Excludes (question_of self.now) t.now (negative_of self.now e.now) }
    {
        !self.admits(t, &e.inputs, e.word)
    }

    /// Whether a transformer's result at the inputs has the word.
    fn admits(&self, t: &Transformer, inputs: &Inputs, word: u8) -> bool
        requires transformer { IsTransformer self.now t.now }
        requires row { IsFieldRow self.now inputs.now }
        requires word { word < 2 ^ self.now.width }
        ensures { let q = question_of self.now in
            IsTrue result ↔ IsMember q (results q t.now (inputs_of self.now inputs.now)) word }
    {
        self.kind()
            .contains(self.width(), &self.result(t, inputs), word)
    }

    /// Whether each of the inputs has the word at its place.
    fn are_members(&self, inputs: &Inputs, words: &WordRow) -> bool
        requires row { IsFieldRow self.now inputs.now }
        requires words { AreInputWords self.now words.now }
        ensures { IsTrue result ↔ AreMembers (question_of self.now) (inputs_of self.now inputs.now) words.now }
    {
        for (i, word) in words.as_slice().iter().enumerate() {
            if !self
                .kind()
                .contains(self.width(), &self.input(inputs, i), *word)
            {
                return false;
            }
        }
        true
    }

    /// The fields of the input at place `i`, counted from 0.
    fn input(&self, inputs: &Inputs, i: usize) -> Fields
        requires row { IsFieldRow self.now inputs.now }
        requires place { i < self.now.inputs }
        ensures value { result ≡ slice_index_or (inputs_of self.now inputs.now) i [] }
        ensures tuple { IsTuple self.now.width (fields_of self.now.kind) result }
    {
        let row = inputs.as_slice();
        let fields = self.kind().fields() as usize;
        let start = i * fields;
        Fields::from_slice(&row[start..start + fields])
    }
}
