//! Problems: which transformer of which operation is sought, in which domain and which language of terms.
//!
//! A [`Problem`] has an operation over one to three words, perhaps an assumption under which it is used, an
//! abstract domain ([`Kind`]), a grammar of terms with a start for each field of the result, and budgets.
//! What it asks is one definition, `question_of` in `specs/Problem.antt`. [`read_problem`] reads the text of
//! one, and [`problem_at`] one that stands in a longer text: a [`Draft`] has what the lines say, and
//! [`Draft::settle`] looks up the names and tests the limits. [`print_problem`] writes the canonical text,
//! and [`make_problem`] makes the problem of a number, for trials of many problems.
//!
//! A [`Transformer`] has a term for each field of the result. A [`Positive`] example says what a
//! transformer's result has to have at some inputs, a [`Negative`] one what it may not have, and a
//! problem tells which examples are true and which a transformer satisfies.
//!
//! # What is proved
//!
//! [`Kind`] keeps all laws of a domain, by those of the domain that it names. Each problem is within all
//! limits of `specs/Limits.antt`. [`read_problem`] answers exactly the problem whose canonical words the
//! text has, within the limits, or the first refusal: of a byte; then from the left of a token, by the
//! grammar in `specs/Grammar.antt`; then of a name without a rule; then of the slots; then of the load. For
//! each text exactly one of the two exists ([`texts_are_settled`]), and a text is one problem's at most
//! ([`texts_have_one_problem`]). No problem's text begins with the words of a refused one up to and
//! including the refused token ([`refusals_are_for_good`]). [`refusals_come_in_order`] tells the order by
//! what stands in the text: a rule's name is counted before it is compared with earlier ones, and names
//! without rules, the slots and the load are refused only in a text whose tokens are all right.
//! [`Problem::load`] is the bound on the gates of the problem's formulas in `specs/Loads.antt`.
//! [`print_problem`] appends exactly the lines of `specs/Printing.antt`, or where memory runs out a part of
//! them from the beginning, and what was printed reads back as the problem ([`canonical_texts_are_read`]).
//! [`make_problem`] answers exactly the problem that `specs/Generator.antt` has for the number; it is within
//! all limits, and has a sound transformer.
//!
//! [`Problem::result`] is what a transformer answers, [`Problem::is_valid`], [`Problem::assumed`] and
//! [`Problem::is_true`] are true exactly where inputs are abstract values, words meet the assumption and
//! a positive example is true, and [`Problem::satisfies_positive`] and [`Problem::satisfies_negative`]
//! exactly where a transformer covers and excludes, as am_domain defines these words over the
//! problem's question. Rows of examples stand for inputs by `specs/Examples.antt`; the laws of rows
//! stand in `specs/ExampleLaws.antt`. These calls take no memory.
#![tactic(auto)]

mod draft;
mod examples;
mod generator;
mod header;
mod kind;
mod limits;
mod numbering;
mod parts;
mod printing;
mod problem;
mod productions;
mod rows;
mod rules;
mod settling;
mod text;

pub use draft::Draft;
pub use examples::{Negative, Negatives, Positive, Positives, Transformer};
pub use generator::{LAST_PROBLEM, make_problem};
pub use header::{take_domain, take_keyed_domain};
pub use kind::Kind;
pub use limits::{MOST_CONFLICTS, MOST_INPUTS, MOST_LOAD, MOST_NODES, MOST_SLOTS, MOST_TURNS};
pub use parts::{Name, Names};
pub use printing::{canonical_texts_are_read, print_problem};
pub use problem::Problem;
pub use rows::{Inputs, ShortRow, WordRow};
pub use text::{
    problem_at, read_problem, refusals_are_for_good, refusals_come_in_order, take_problem,
    texts_are_settled, texts_have_one_problem,
};
