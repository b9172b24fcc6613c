//! Words and tests of a circuit.

ghost use Rattle.std.specs.Prelude.{◌≡◌, ◌+◌, ◌*◌, ◌^◌, ◌<◌, All, IfOk, IsTrue, length, map, sum_by};
ghost use Rattle.am_gate.specs.Circuit.{IsLiteral, HasInputs, HasRoom};
ghost use Rattle.am_gate.specs.Promises.{GivesStep};
ghost use Rattle.am_bv.specs.Terms.{fits, nodes, weight};
ghost use Rattle.am_blast.specs.Words.{IsWord, constant};
ghost use Rattle.am_blast.specs.Circuits.{blasted, in_turn};
ghost use Rattle.am_problem.specs.Loads.{tested_term_weight};
ghost use Rattle.am_query.specs.Formulas.{input_word, input_words, test};
ghost use Rattle.am_query.specs.inside.Words.{AreWordsIn};

use crate::stated::Variables;
use am_blast::{WordLits, Words, blast, constant, copied, is_nonzero};
use am_bv::{Term, Width};
use am_gate::Circuit;
use am_lit::Lit;
use std::alloc::{AllocError, Global};

/// Whether the term's value at the words isn't 0.
pub fn test(
    alloc: Global,
    circuit: &mut Circuit,
    w: Width,
    term: &Term,
    words: &[WordLits],
) -> Result<Lit, AllocError>
    requires fits { IsTrue (fits w (length words.now) term.now) }
    requires nodes { nodes term.now < 2 ^ 32 }
    requires words { All (IsWord w circuit.old.vars) words.now }
    requires room { HasRoom (tested_term_weight w term.now) circuit.old }
    ensures { IfOk result (λ r.
        GivesStep (test w term.now words.now) (tested_term_weight w term.now) IsLiteral circuit.old r circuit.new) }
{
    let value = blast(alloc, circuit, w, term, words)?;
    let l = is_nonzero(circuit, value.as_slice())?;
    Ok(l)
}

/// The words of terms, one after another.
pub fn blast_all(
    alloc: Global,
    circuit: &mut Circuit,
    w: Width,
    terms: &[Term],
    fields: &[WordLits],
) -> Result<Words, AllocError>
    requires fits { All (λ t. IsTrue (fits w (length fields.now) t)) terms.now }
    requires nodes { All (λ t. nodes t < 2 ^ 32) terms.now }
    requires words { All (IsWord w circuit.old.vars) fields.now }
    requires room { HasRoom (sum_by (weight w) terms.now) circuit.old }
    ensures { IfOk result (λ r.
        GivesStep (in_turn (map (blasted w fields.now) terms.now)) (sum_by (weight w) terms.now)
        (AreWordsIn w (length terms.now)) circuit.old r circuit.new) }
{
    let mut words = Words::new(alloc);
    for term in terms {
        let word = blast(alloc, circuit, w, term, fields)?;
        words.push(word)?;
    }
    Ok(words)
}

/// The words of constants.
pub fn constants(
    alloc: Global,
    circuit: &Circuit,
    w: Width,
    row: &[u8],
) -> Result<Words, AllocError>
    ensures { IfOk result (λ r. r ≡ map (constant w) row.now) }
{
    let mut words = Words::new(alloc);
    for c in row {
        let word = constant(alloc, circuit, w, *c)?;
        words.push(word)?;
    }
    Ok(words)
}

/// Copies of the words.
pub fn copies(alloc: Global, words: &[WordLits]) -> Result<Words, AllocError>
    ensures { IfOk result (λ r. r ≡ words.now) }
{
    let mut copies = Words::new(alloc);
    for word in words {
        copies.push(copied(alloc, word.as_slice())?)?;
    }
    Ok(copies)
}

/// A word of inputs. Their variables are put after those of the earlier inputs.
pub fn input_word(
    alloc: Global,
    circuit: &mut Circuit,
    w: Width,
    base: &mut Variables,
) -> Result<WordLits, AllocError>
    requires room { HasRoom w circuit.old }
    requires inputs { HasInputs base.old circuit.old }
    ensures ok { IfOk result (λ r. GivesStep (input_word w) w (IsWord w) circuit.old r circuit.new) }
    ensures inputs { IfOk result (λ r. HasInputs base.new circuit.new) }
    ensures count { IfOk result (λ r. length base.new ≡ length base.old + w) }
{
    let mut word = WordLits::new(alloc);
    for _ in 0..w.bits() {
        let l = circuit.input()?;
        base.push(l.variable())?;
        word.push(l)?;
    }
    Ok(word)
}

/// So many words of inputs. Their variables are put after those of the earlier inputs.
pub fn input_words(
    alloc: Global,
    circuit: &mut Circuit,
    w: Width,
    count: u32,
    base: &mut Variables,
) -> Result<Words, AllocError>
    requires room { HasRoom (count * w) circuit.old }
    requires inputs { HasInputs base.old circuit.old }
    ensures ok { IfOk result (λ r.
        GivesStep (input_words w count) (count * w) (AreWordsIn w count) circuit.old r circuit.new) }
    ensures inputs { IfOk result (λ r. HasInputs base.new circuit.new) }
    ensures count { IfOk result (λ r. length base.new ≡ length base.old + count * w) }
{
    let mut words = Words::new(alloc);
    for _ in 0..count {
        let word = input_word(alloc, circuit, w, base)?;
        words.push(word)?;
    }
    Ok(words)
}
