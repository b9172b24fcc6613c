//! Small problems, and what an independent reference has of their queries.

pub mod congruences_and_parities;
pub mod known_bits;
pub mod products;
pub mod signed_and_wrapped_intervals;
pub mod unsigned_intervals;

/// A problem with examples, and what is then said of its queries.
///
/// A positive example is `+`, the fields of all inputs, `/` and a word for each input; a negative one is `-`, the
/// fields, `/` and a word. Each digit is a word.
#[derive(Clone, Copy)]
pub struct Case<'a> {
    /// The problem's lines between `width` and `end`.
    pub problem: &'a str,
    /// Examples that one transformer alone satisfies.
    pub alone: &'a str,
    /// Further examples.
    pub given: &'a str,
    /// A line for a fit of the further examples, for the soundness of the transformer, and for its precision beside
    /// the further examples: the number of variables and the sum of the folded formula and of the plain one, and the
    /// answer.
    pub said: &'a str,
}

/// The case of some lines.
pub fn read_case(lines: &str) -> Option<Case<'_>> {
    let (problem, lines) = lines.split_once("\nalone")?;
    let (alone, lines) = lines.split_once("\ngiven")?;
    let (given, said) = lines.split_once('\n')?;
    Some(Case {
        problem,
        alone,
        given,
        said,
    })
}
