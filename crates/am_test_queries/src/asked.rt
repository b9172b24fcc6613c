//! Examples and transformers of small problems, and the answers of the queries about them.

ghost use Rattle.std.specs.Prelude.{◌≤◌, ◌+◌, All, IfOk, IfSome, length};
ghost use Rattle.am_bv.specs.Words.{AreWords};
ghost use Rattle.am_problem.specs.Examples.{IsNegative, IsPositive};
ghost use Rattle.am_query.specs.Transformers.{IsTransformerOf};

use am_bv::Width;
use am_problem::{
    Inputs, Negative, Negatives, Positive, Positives, Problem, ShortRow, Transformer, WordRow,
};
use am_query::{QueryAnswer, fit, precise, sound};
use std::alloc::Global;
use std::process::Abort;
use std::test::Fail;

/// The limit of each query.
const LIMIT: u64 = 1_000_000;

/// A row of a word for each digit.
fn row<const N: usize>(w: Width, digits: &str) -> ShortRow<N>
    requires { length digits.now ≤ N }
    ensures { AreWords w result }
{
    let mut row = ShortRow::new();
    for digit in digits.as_bytes() {
        row.push(w.truncate(digit.wrapping_sub(b'0')));
    }
    row
}

/// The positive example of a word of a case.
fn positive(rt: &impl Abort, p: &Problem, word: &str) -> Positive
    ensures { IsPositive p.now result }
{
    let (fields, words) = word.split_once('/').unwrap_or((word, ""));
    assert!(rt; fields.len() <= 12);
    assert!(rt; words.len() <= 3);
    let inputs: Inputs = row(p.width(), fields);
    let words: WordRow = row(p.width(), words);
    assert_eq!(rt; inputs.len(), p.all_fields() as usize);
    assert_eq!(rt; words.len(), p.inputs() as usize);
    Positive { inputs, words }
}

/// The negative example of a word of a case.
fn negative(rt: &impl Abort, p: &Problem, word: &str) -> Negative
    ensures { IsNegative p.now result }
{
    let (fields, word) = word.split_once('/').unwrap_or((word, ""));
    assert!(rt; fields.len() <= 12);
    let inputs: Inputs = row(p.width(), fields);
    assert_eq!(rt; inputs.len(), p.all_fields() as usize);
    let word = p.width().truncate(word.parse().unwrap_or(0));
    Negative { inputs, word }
}

/// The positive examples among the words of a case.
fn positives(rt: &impl Abort, alloc: Global, p: &Problem, words: &str) -> Result<Positives, Fail>
    ensures { IfOk result (All (IsPositive p.now)) }
{
    let mut positives = Positives::new(alloc);
    for word in words.split_whitespace() {
        if let Some(example) = word.strip_prefix('+') {
            positives.push(positive(rt, p, example))?;
        }
    }
    Ok(positives)
}

/// The negative examples among the words of a case.
fn negatives(rt: &impl Abort, alloc: Global, p: &Problem, words: &str) -> Result<Negatives, Fail>
    ensures { IfOk result (All (IsNegative p.now)) }
{
    let mut negatives = Negatives::new(alloc);
    for word in words.split_whitespace() {
        if let Some(example) = word.strip_prefix('-') {
            negatives.push(negative(rt, p, example))?;
        }
    }
    Ok(negatives)
}

/// Examples of a problem.
#[derive(Drop)]
pub struct Examples {
    pub pos: Positives,
    pub neg: Negatives,
}

/// The examples of the words of a case.
pub fn examples_of(
    rt: &impl Abort,
    alloc: Global,
    p: &Problem,
    words: &str,
) -> Result<Examples, Fail>
    ensures pos { IfOk result (λ e. All (IsPositive p.now) e.pos) }
    ensures neg { IfOk result (λ e. All (IsNegative p.now) e.neg) }
    ensures few { IfOk result (λ e. length e.pos + length e.neg ≤ p.now.turns) }
{
    let pos = positives(rt, alloc, p, words)?;
    let neg = negatives(rt, alloc, p, words)?;
    assert!(rt; pos.len() + neg.len() <= p.turns() as usize);
    Ok(Examples { pos, neg })
}

/// A transformer that satisfies the examples, or None where there is none.
pub fn fitted(alloc: Global, p: &Problem, e: &Examples) -> Result<Option<Transformer>, Fail>
    requires pos { All (IsPositive p.now) e.now.pos }
    requires neg { All (IsNegative p.now) e.now.neg }
    requires few { length e.now.pos + length e.now.neg ≤ p.now.turns }
    ensures { IfOk result (λ r. IfSome r (IsTransformerOf p.now)) }
{
    match fit(alloc, p, &e.pos, &e.neg, LIMIT)? {
        QueryAnswer::Found(t) => Ok(Some(t)),
        QueryAnswer::Refuted(_) => Ok(None),
        QueryAnswer::Spent(_) => Err(Fail::from("the limit was reached")),
    }
}

/// The transformer that satisfies the examples of these words.
pub fn transformer(
    rt: &impl Abort,
    alloc: Global,
    p: &Problem,
    words: &str,
) -> Result<Transformer, Fail>
    ensures { IfOk result (IsTransformerOf p.now) }
{
    let alone = examples_of(rt, alloc, p, words)?;
    match fitted(alloc, p, &alone)? {
        Some(t) => Ok(t),
        None => Err(Fail::from("none was found")),
    }
}

/// Whether a transformer is sound.
pub fn sound_answer(alloc: Global, p: &Problem, t: &Transformer) -> Result<&'static str, Fail>
    requires { IsTransformerOf p.now t.now }
{
    match sound(alloc, p, t, LIMIT)? {
        QueryAnswer::Refuted(_) => Ok("holds"),
        QueryAnswer::Found(_) => Ok("fails"),
        QueryAnswer::Spent(_) => Ok("spent"),
    }
}

/// Whether there is a closer transformer that satisfies the examples.
pub fn precise_answer(
    alloc: Global,
    p: &Problem,
    t: &Transformer,
    e: &Examples,
) -> Result<&'static str, Fail>
    requires transformer { IsTransformerOf p.now t.now }
    requires pos { All (IsPositive p.now) e.now.pos }
    requires neg { All (IsNegative p.now) e.now.neg }
    requires few { length e.now.pos + length e.now.neg ≤ p.now.turns }
{
    match precise(alloc, p, t, &e.pos, &e.neg, LIMIT)? {
        QueryAnswer::Found(_) => Ok("better"),
        QueryAnswer::Refuted(_) => Ok("best"),
        QueryAnswer::Spent(_) => Ok("spent"),
    }
}
