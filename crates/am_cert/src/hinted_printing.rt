//! Printing of answers with hints.

ghost use Rattle.std.specs.Prelude.{IsTrue, map};
ghost use Rattle.am_syntax.specs.Canonical.{Appends, line, lines};
ghost use Rattle.am_syntax.specs.Lines.{is_apart};
ghost use Rattle.am_cert.specs.Printing.{hint_row, hinted_rows, hints_rows};
ghost use Rattle.am_cert.specs.inside.Printable.{IsPrintable};

use crate::printing::{print_answer, print_terms, print_turns};
use am_hint::{Hint, Hints};
use am_query::Outcome;
use am_syntax::{Entry, print_line};
use am_text::Writer;
use std::alloc::AllocError;

/// Appends the lines of a best transformer, or that none is sound, with hints; nothing of another outcome.
#[tactic(auto, using(crate::proofs::PrintedTexts::hinted_texts, am_syntax::proofs::Laws::appending))]
pub(crate) fn print_hinted(
    out: &mut Writer,
    outcome: &Outcome,
    first: &Hints,
    second: &Hints,
) -> Result<(), AllocError>
    requires { IsPrintable outcome.now }
    ensures { Appends result out.old out.new (lines (hinted_rows outcome.now first.now second.now)) }
{
    match outcome {
        Outcome::Best { term, trace, .. } => {
            print_answer(out, b"best")?;
            print_terms(out, term.as_slice())?;
            print_turns(out, trace.as_slice())?;
            print_hints(out, b"sound", first)?;
            print_hints(out, b"best", second)
        }
        Outcome::Absent { trace, .. } => {
            print_answer(out, b"none")?;
            print_turns(out, trace.as_slice())?;
            print_hints(out, b"fit", first)
        }
        Outcome::Turns { .. } | Outcome::Conflicts { .. } => Ok(()),
    }
}

/// Appends the line of a log, and one for each hint in the place of its chains.
#[tactic(auto, using(am_syntax::proofs::Laws::appending))]
fn print_hints(out: &mut Writer, name: &[u8], hints: &Hints) -> Result<(), AllocError>
    requires { IsTrue (is_apart name.now) }
    ensures { Appends result out.old out.new (lines (hints_rows name.now hints.now)) }
{
    print_line(out, b"log", &[Entry::Word(name)])?;
    print_list(out, hints)
}

/// Appends a line for each hint.
fn print_list(out: &mut Writer, hints: &Hints) -> Result<(), AllocError>
    ensures { Appends result out.old out.new (lines (map hint_row hints.now)) }
{
    'hints: for i in 0..hints.len() {
        print_hint(out, hints.get(i))?;
    }
    Ok(())
}

/// Appends the line of a hint.
fn print_hint(out: &mut Writer, hint: &Hint) -> Result<(), AllocError>
    ensures { Appends result out.old out.new (line (hint_row hint.now)) }
{
    print_line(
        out,
        b"clause",
        &[
            Entry::Numbers(hint.clause.as_slice()),
            Entry::Word(b"by"),
            Entry::Numbers(hint.by.as_slice()),
        ],
    )
}
