//! The circuit of a term.

ghost use Rattle.std.specs.Prelude.{ℕ, Bool, ◌≡◌, false, ◌+◌, ◌%◌, ◌^◌, ◌<◌, ◌==◌, if◌then◌else◌, IfOk, OnOk, All};
ghost use Rattle.std.specs.Prelude.{IsTrue, length, map};
ghost use Rattle.am_gate.specs.Circuit.{truth, falsity, HasRoom, Begins};
ghost use Rattle.am_gate.specs.Build.{Means};
ghost use Rattle.am_bv.specs.Terms.{val, fits, nodes, weight};
ghost use Rattle.am_blast.specs.Words.{IsWord, reads, ReadsAs, constant};
ghost use Rattle.am_blast.specs.Circuits.{blasted};
ghost use Rattle.am_gate.specs.Promises.{GivesStep};

use crate::operator::apply;
use crate::word::{WordLits, Words, copied};
use am_bv::{Term, Width};
use am_gate::Circuit;
use am_lit::Lit;
use std::alloc::{AllocError, Global};

/// Makes the circuit of a term over the words of its fields, and answers the term's word.
///
/// It makes exactly as many gates as the term weighs, or fewer where the circuit folds, and no input. Wherever
/// variable 0 is true and each gate's variable has its gate's value, the word reads as the value of the term
/// where each field has the value that its word reads. After want of memory the circuit begins with its earlier
/// variables and clauses. [`crate::theorems`] says that the gates stand over earlier variables, and that each
/// choice of these extends to such truth values.
pub fn blast(
    alloc: Global,
    circuit: &mut Circuit,
    w: Width,
    term: &Term,
    fields: &[WordLits],
) -> Result<WordLits, AllocError>
    requires fits { IsTrue (fits w (length fields.now) term.now) }
    requires nodes { nodes term.now < 2 ^ 32 }
    requires fields { All (IsWord w circuit.old.vars) fields.now }
    requires room { HasRoom (weight w term.now) circuit.old }
    ensures ok { IfOk result (λ r.
        GivesStep (blasted w fields.now term.now) (weight w term.now) (IsWord w) circuit.old r circuit.new) }
    ensures count { circuit.old.folding ≡ false →
        OnOk result (circuit.new.vars ≡ circuit.old.vars + weight w term.now) }
    ensures meaning { (v : ℕ → Bool) →
        Means v (blasted w fields.now term.now) (ReadsAs v w (val w term.now (map (reads v) fields.now))) }
    ensures begins { Begins circuit.old circuit.new }
{
    prove!(circuit.truth().variable() == 0);
    let word = word_of(alloc, circuit, w, term, fields)?;
    Ok(word)
}

/// The word of a term: its arguments from left to right, then its operator.
#[tactic(auto, using(am_gate::proofs::Laws::begins))]
fn word_of(
    alloc: Global,
    circuit: &mut Circuit,
    w: Width,
    term: &Term,
    fields: &[WordLits],
) -> Result<WordLits, AllocError>
    requires fits { IsTrue (fits w (length fields.now) term.now) }
    requires nodes { nodes term.now < 2 ^ 32 }
    requires fields { All (IsWord w circuit.old.vars) fields.now }
    requires room { HasRoom (weight w term.now) circuit.old }
    requires truth { 0 < circuit.old.vars }
    ensures ok { IfOk result (λ r.
        GivesStep (blasted w fields.now term.now) (weight w term.now) (IsWord w) circuit.old r circuit.new) }
    ensures begins { Begins circuit.old circuit.new }
{
    match term {
        Term::Const(c) => constant(alloc, circuit, w, *c),
        Term::Field(i) => copied(alloc, fields[*i as usize].as_slice()),
        Term::Node(op, args) => {
            let mut words = Words::new(alloc);
            for t in args.as_slice() {
                let word = word_of(alloc, circuit, w, t, fields)?;
                words.push(word)?;
            }
            apply(alloc, circuit, w, *op, words.as_slice())
        }
    }
}

/// The word of a constant: a literal that is true or false for each bit of the width, least bit first. It
/// makes no gate.
pub fn constant(alloc: Global, circuit: &Circuit, w: Width, c: u8) -> Result<WordLits, AllocError>
    ensures { IfOk result (λ r. r ≡ constant w c) }
{
    let on = circuit.truth();
    let mut word = WordLits::new(alloc);
    let mut rest = c;
    for _ in 0..w.bits() {
        word.push(Lit::new(on.variable(), rest % 2 == 0))?;
        rest /= 2;
    }
    Ok(word)
}
