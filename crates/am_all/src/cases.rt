//! The inputs of a problem, and the operation's values at their members.

ghost use Rattle.std.specs.Prelude.{◌≡◌, ℕ, ◌^◌, ◌<◌, ◌++◌, ◌↔◌, All, Contains, IfOk, IsTrue, OnOk, map};
ghost use Rattle.std.specs.List.{AllZip, Any, concat};
ghost use Rattle.am_bv.specs.Terms.{val};
ghost use Rattle.am_domain.specs.Tuple.{IsTuple};
ghost use Rattle.am_problem.specs.Problem.{IsAssumed};
ghost use Rattle.am_all.specs.inside.Cases.{AreCases, AreIn, AreOutcomes, AreOutcomesAt, IsCaseBy};
ghost use Rattle.am_all.specs.inside.Seen.{seen, seen_rows};
ghost use Rattle.am_all.specs.inside.Sets.{Has};
ghost use Rattle.am_all.specs.inside.Values.{AreAllValues};

use crate::choices::{Choice, choices, repeated};
use crate::values::Value;
use crate::word_set::WordSet;
use am_bv::{Row, Width, value};
use am_problem::Problem;
use std::alloc::{AllocError, Global};

/// Words at which the operation is used, and its value there.
#[derive(Drop)]
pub struct Outcome {
    pub words: Row<u8>,
    pub image: u8,
}

/// The fields of inputs, and the operation's values at their members.
#[derive(Drop)]
pub struct Case {
    pub fields: Row<u8>,
    pub images: WordSet,
}

/// The cases of all inputs.
pub fn all_cases(alloc: Global, p: &Problem, values: &[Value]) -> Result<Row<Case>, AllocError>
    requires { AreAllValues p.now values.now }
    ensures { IfOk result (AreCases p.now) }
{
    let outcomes = all_outcomes(alloc, p)?;
    let lists = repeated(alloc, values, p.inputs())?;
    let rows = choices(alloc, lists.as_slice())?;
    cases(alloc, rows.as_slice(), outcomes.as_slice())
}

/// The case of each row of values.
fn cases(
    alloc: Global,
    rows: &[Choice<'_, Value>],
    outcomes: &[Outcome],
) -> Result<Row<Case>, AllocError>
    ensures { IfOk result (AllZip (IsCaseBy outcomes.now) (seen_rows rows.now)) }
{
    let mut cases = Row::new(alloc);
    for row in rows {
        cases.push(Case {
            fields: joined(alloc, row.as_slice())?,
            images: images(row.as_slice(), outcomes),
        })?;
    }
    Ok(cases)
}

/// The operation's values at all words at which it is used.
fn all_outcomes(alloc: Global, p: &Problem) -> Result<Row<Outcome>, AllocError>
    ensures { IfOk result (AreOutcomes p.now) }
{
    let words = all_words(alloc, p.width())?;
    let lists = repeated(alloc, words.as_slice(), p.inputs())?;
    let rows = choices(alloc, lists.as_slice())?;
    outcomes(alloc, p, rows.as_slice())
}

/// The operation's values at those rows of words at which it is used.
fn outcomes(alloc: Global, p: &Problem, rows: &[Choice<'_, u8>]) -> Result<Row<Outcome>, AllocError>
    requires { All (IsTuple p.now.width p.now.inputs) (seen_rows rows.now) }
    ensures { IfOk result (AreOutcomesAt p.now (seen_rows rows.now)) }
{
    let mut outcomes = Row::new(alloc);
    for row in rows {
        let words = copied(alloc, row.as_slice())?;
        if is_assumed(p, words.as_slice()) {
            let image = operation_at(p, words.as_slice());
            outcomes.push(Outcome { words, image })?;
        }
    }
    Ok(outcomes)
}

/// All words of the width.
fn all_words(alloc: Global, w: Width) -> Result<Row<u8>, AllocError>
    ensures { IfOk result (λ words. (c : ℕ) → Contains words c ↔ (c < 2 ^ w)) }
{
    let mut words = Row::new(alloc);
    for c in 0..=w.mask() {
        words.push(c)?;
    }
    Ok(words)
}

/// The same words.
fn copied(alloc: Global, words: &[&u8]) -> Result<Row<u8>, AllocError>
    ensures { IfOk result (λ copy. copy ≡ seen words.now) }
{
    let mut copy = Row::new(alloc);
    for c in words {
        copy.push(**c)?;
    }
    Ok(copy)
}

/// Whether the operation is used at these words.
fn is_assumed(p: &Problem, words: &[u8]) -> bool
    requires { IsTuple p.now.width p.now.inputs words.now }
    ensures { IsTrue result ↔ IsAssumed p.now.width p.now.assume words.now }
{
    p.keeps_limits();
    match p.assume() {
        None => true,
        Some(assumption) => value(p.width(), assumption, words) != 0,
    }
}

/// The operation's value at these words.
fn operation_at(p: &Problem, words: &[u8]) -> u8
    requires { IsTuple p.now.width p.now.inputs words.now }
    ensures { result ≡ val p.now.width p.now.operation words.now }
{
    p.keeps_limits();
    value(p.width(), p.operation(), words)
}

/// The fields of the values, one after the other.
fn joined(alloc: Global, values: &[&Value]) -> Result<Row<u8>, AllocError>
    ensures { IfOk result (λ fields. fields ≡ concat (map (λ v. v.now.fields) values.now)) }
{
    let mut fields = Row::new(alloc);
    for value in values {
        push_all(&mut fields, value.fields.as_slice())?;
    }
    Ok(fields)
}

/// Puts the words at the end.
fn push_all(row: &mut Row<u8>, words: &[u8]) -> Result<(), AllocError>
    ensures { OnOk result (row.new ≡ row.old ++ words.now) }
{
    for c in words {
        row.push(*c)?;
    }
    Ok(())
}

/// The operation's values at the members of the values.
fn images(values: &[&Value], outcomes: &[Outcome]) -> WordSet
    ensures { (c : ℕ) → Has result c ↔
        Any (λ o. AreIn (seen values.now) o.words × (c ≡ o.image)) outcomes.now }
{
    let mut images = WordSet::new();
    for outcome in outcomes {
        if are_in(values, outcome.words.as_slice()) {
            images.insert(outcome.image);
        }
    }
    images
}

/// Whether each word is a member of the value at its place.
fn are_in(values: &[&Value], words: &[u8]) -> bool
    ensures { IsTrue result ↔ AreIn (seen values.now) words.now }
{
    if values.len() != words.len() {
        return false;
    }
    for (i, value) in values.iter().enumerate() {
        if !value.members.contains(words[i]) {
            return false;
        }
    }
    true
}
