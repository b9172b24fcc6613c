//! Printing of certificates.

ghost use Rattle.std.specs.Prelude.{◌∷◌, [], All, IsTrue, codes, decimal, flat_map, map};
ghost use Rattle.am_syntax.specs.Canonical.{Appends, line, lines, spaced};
ghost use Rattle.am_syntax.specs.Lines.{is_apart};
ghost use Rattle.am_syntax.specs.Spelling.{FitsSomewhere};
ghost use Rattle.am_cert.specs.Grammar.{version_word};
ghost use Rattle.am_cert.specs.Printing.{CanonicalCertificatesAreRead, OutcomesCanBeWritten, answer_row, answer_rows};
ghost use Rattle.am_cert.specs.Printing.{asked_words, certificate_text, chain_row, log_rows, outcome_rows, step_words};
ghost use Rattle.am_cert.specs.Printing.{term_row, turn_row};
ghost use Rattle.am_cert.specs.inside.Printable.{IsPrintable, IsPrintableAsked, IsPrintableTurn};

use crate::answer::Proofs;
use crate::certificate::Certificate;
use crate::hinted_printing::print_hinted;
use crate::version::Version;
use am_bv::Term;
use am_chain::{Chain, Log, Step};
use am_problem::print_problem;
use am_query::{Asked, Outcome, Turn};
use am_syntax::{Entry, Letter, print_line};
use am_text::Writer;
use std::alloc::AllocError;

/// Appends a certificate's canonical text.
///
/// # Errors
///
/// There was no memory. The writer holds its old text and a part of the certificate's from its beginning.
#[tactic(auto, using(crate::proofs::PrintedTexts::certificate_parts, am_syntax::proofs::Laws::appending))]
pub fn print_certificate(out: &mut Writer, c: &Certificate) -> Result<(), AllocError>
    ensures { Appends result out.old out.new (certificate_text c.now) }
{
    c.keeps_limits();
    print_version(out, c.version())?;
    print_problem(out, c.problem())?;
    print_proved(out, c.outcome(), c.proofs())?;
    print_line(out, b"end", &[])
}

/// Appends the line of the version.
fn print_version(out: &mut Writer, version: Version) -> Result<(), AllocError>
    ensures { Appends result out.old out.new (line (codes "certificate" ∷ version_word version ∷ [])) }
{
    match version {
        Version::One => print_line(out, b"certificate", &[Entry::Word(b"1")]),
        Version::Two => print_line(out, b"certificate", &[Entry::Word(b"2")]),
        Version::Three => print_line(out, b"certificate", &[Entry::Word(b"3")]),
        Version::Four => print_line(out, b"certificate", &[Entry::Word(b"4")]),
    }
}

/// Appends the lines of an answer, with chains or with hints.
fn print_proved(out: &mut Writer, outcome: &Outcome, proofs: &Proofs) -> Result<(), AllocError>
    requires { IsPrintable outcome.now }
    ensures { Appends result out.old out.new (lines (answer_rows outcome.now proofs.now)) }
{
    match proofs {
        Proofs::Chains => print_outcome(out, outcome),
        Proofs::Hinted { first, second } => print_hinted(out, outcome, first, second),
    }
}

/// Appends the lines of an answer with chains.
#[tactic(auto, using(crate::proofs::PrintedTexts::outcome_texts, am_syntax::proofs::Laws::appending))]
fn print_outcome(out: &mut Writer, outcome: &Outcome) -> Result<(), AllocError>
    requires { IsPrintable outcome.now }
    ensures { Appends result out.old out.new (lines (outcome_rows outcome.now)) }
{
    match outcome {
        Outcome::Best {
            term,
            trace,
            sound_log,
            best_log,
        } => {
            print_answer(out, b"best")?;
            print_terms(out, term.as_slice())?;
            print_turns(out, trace.as_slice())?;
            print_log(out, b"sound", sound_log)?;
            print_log(out, b"best", best_log)
        }
        Outcome::Absent { trace, log } => {
            print_answer(out, b"none")?;
            print_turns(out, trace.as_slice())?;
            print_log(out, b"fit", log)
        }
        Outcome::Turns { trace } => {
            print_answer(out, b"turns")?;
            print_turns(out, trace.as_slice())
        }
        Outcome::Conflicts { trace, asked, log } => {
            print_answer(out, b"conflicts")?;
            print_turns(out, trace.as_slice())?;
            print_asked(out, asked)?;
            print_log(out, b"spent", log)
        }
    }
}

/// Appends the line that names an answer.
pub(crate) fn print_answer(out: &mut Writer, name: &[u8]) -> Result<(), AllocError>
    requires { IsTrue (is_apart name.now) }
    ensures { Appends result out.old out.new (line (answer_row name.now)) }
{
    print_line(out, b"answer", &[Entry::Word(name)])
}

/// Appends a line for each term.
pub(crate) fn print_terms(out: &mut Writer, terms: &[Term]) -> Result<(), AllocError>
    requires { All FitsSomewhere terms.now }
    ensures { Appends result out.old out.new (lines (map term_row terms.now)) }
{
    'terms: for term in terms {
        print_term_line(out, term)?;
    }
    Ok(())
}

/// Appends the line of a term.
fn print_term_line(out: &mut Writer, term: &Term) -> Result<(), AllocError>
    requires { FitsSomewhere term.now }
    ensures { Appends result out.old out.new (line (term_row term.now)) }
{
    print_line(out, b"term", &[Entry::Term(Letter::F, term)])
}

/// Appends a line for each turn.
pub(crate) fn print_turns(out: &mut Writer, turns: &[Turn]) -> Result<(), AllocError>
    requires { All IsPrintableTurn turns.now }
    ensures { Appends result out.old out.new (lines (map turn_row turns.now)) }
{
    'turns: for turn in turns {
        print_turn(out, turn)?;
    }
    Ok(())
}

/// Appends the line of a turn.
fn print_turn(out: &mut Writer, turn: &Turn) -> Result<(), AllocError>
    requires { IsPrintableTurn turn.now }
    ensures { Appends result out.old out.new (line (turn_row turn.now)) }
{
    match turn {
        Turn::Positive {
            term,
            example,
            kept,
        } => print_line(
            out,
            b"positive",
            &[
                Entry::Terms(Letter::F, term.as_slice()),
                Entry::Word(b"in"),
                Entry::Bytes(example.inputs.as_slice()),
                Entry::Word(b"word"),
                Entry::Bytes(example.words.as_slice()),
                Entry::Word(b"kept"),
                Entry::Numbers(kept.as_slice()),
            ],
        ),
        Turn::Negative { term, example } => print_line(
            out,
            b"negative",
            &[
                Entry::Terms(Letter::F, term.as_slice()),
                Entry::Word(b"in"),
                Entry::Bytes(example.inputs.as_slice()),
                Entry::Word(b"out"),
                Entry::Number(u64::from(example.word)),
            ],
        ),
    }
}

/// Appends the line of the query that was asked.
fn print_asked(out: &mut Writer, asked: &Asked) -> Result<(), AllocError>
    requires { IsPrintableAsked asked.now }
    ensures { Appends result out.old out.new (line (codes "query" ∷ asked_words asked.now)) }
{
    match asked {
        Asked::Start => print_line(out, b"query", &[Entry::Word(b"start")]),
        Asked::Keep {
            term,
            example,
            places,
        } => print_line(
            out,
            b"query",
            &[
                Entry::Word(b"keep"),
                Entry::Terms(Letter::F, term.as_slice()),
                Entry::Word(b"in"),
                Entry::Bytes(example.inputs.as_slice()),
                Entry::Word(b"word"),
                Entry::Bytes(example.words.as_slice()),
                Entry::Word(b"kept"),
                Entry::Numbers(places.as_slice()),
            ],
        ),
        Asked::Sound { term } => print_line(
            out,
            b"query",
            &[
                Entry::Word(b"sound"),
                Entry::Terms(Letter::F, term.as_slice()),
            ],
        ),
        Asked::Precise { term } => print_line(
            out,
            b"query",
            &[
                Entry::Word(b"precise"),
                Entry::Terms(Letter::F, term.as_slice()),
            ],
        ),
    }
}

/// Appends the line of a log, and one for each of its chains.
#[tactic(auto, using(am_syntax::proofs::Laws::appending))]
fn print_log(out: &mut Writer, name: &[u8], log: &Log) -> Result<(), AllocError>
    requires { IsTrue (is_apart name.now) }
    ensures { Appends result out.old out.new (lines (log_rows name.now log.now)) }
{
    print_line(out, b"log", &[Entry::Word(name)])?;
    print_chains(out, log)
}

/// Appends a line for each chain.
fn print_chains(out: &mut Writer, log: &Log) -> Result<(), AllocError>
    ensures { Appends result out.old out.new (lines (map chain_row log.now)) }
{
    'chains: for i in 0..log.len() {
        print_chain(out, log.get(i))?;
    }
    Ok(())
}

/// Appends the line of a chain.
#[tactic(auto, using(crate::proofs::PrintedTexts::chain_text, am_syntax::proofs::Laws::appending))]
fn print_chain(out: &mut Writer, chain: &Chain) -> Result<(), AllocError>
    ensures { Appends result out.old out.new (line (chain_row chain.now)) }
{
    out.word(b"chain")?;
    print_number(out, chain.first)?;
    print_steps(out, chain.steps.as_slice())?;
    out.newline()
}

/// Appends each step after a space.
fn print_steps(out: &mut Writer, steps: &[Step]) -> Result<(), AllocError>
    ensures { Appends result out.old out.new (flat_map (λ step. 32 ∷ spaced (step_words step)) steps.now) }
{
    'steps: for step in steps {
        print_step(out, step)?;
    }
    Ok(())
}

/// Appends a step after a space.
#[tactic(auto, using(crate::proofs::PrintedTexts::step_text, am_syntax::proofs::Laws::appending))]
fn print_step(out: &mut Writer, step: &Step) -> Result<(), AllocError>
    ensures { Appends result out.old out.new (32 ∷ spaced (step_words step.now)) }
{
    print_number(out, step.variable)?;
    print_number(out, step.clause)
}

/// Appends a number after a space.
fn print_number(out: &mut Writer, n: u32) -> Result<(), AllocError>
    ensures { Appends result out.old out.new (32 ∷ decimal n) }
{
    out.space()?;
    out.number(u128::from(n))
}

/// What was printed reads back.
pub fn canonical_certificates_are_read()
    ensures { CanonicalCertificatesAreRead }
{}

/// What a synthesis may answer can be written.
pub fn outcomes_can_be_written()
    ensures { OutcomesCanBeWritten }
{}
