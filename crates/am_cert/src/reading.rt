//! The whole text of a certificate.

ghost use Rattle.std.specs.Prelude.{◌≡◌, ◌<◌, ◌^◌, ℕ, List, Err, IfErr, IfOk, Ok, length};
ghost use Rattle.am_problem.specs.StoredDraft.{seen_draft as seen_problem};
ghost use Rattle.am_problem.specs.Texts.{IfRefused};
ghost use Rattle.am_syntax.specs.Readers.{Makes};
ghost use Rattle.am_syntax.specs.declared.refusal.Failure.TheVariants.{NoMemory};
ghost use Rattle.am_syntax.specs.Texts.{Answers, MakesAt};
ghost use Rattle.am_cert.specs.Certificate.{Certificate as Data};
ghost use Rattle.am_cert.specs.Grammar.{shape_of};
ghost use Rattle.am_cert.specs.StoredDraft.{seen_draft};
ghost use Rattle.am_cert.specs.inside.Shapes.{IsProblemShape};
ghost use Rattle.am_cert.specs.Texts.{CertificatesAreRefusedForGood, IsOneCertificate, IsSettledCertificate};
ghost use Rattle.am_cert.specs.Texts.{IsShort, ReadsAsCertificate, answered, certificate_of, draft, draft_of};

use crate::answer::Answer;
use crate::certificate::Certificate;
use crate::draft::CertificateDraft;
use crate::heading::read_version;
use crate::hinted_answers::read_by;
use crate::shape::Shape;
use crate::version::Version;
use am_domain::Domain;
use am_problem::{Draft, take_problem};
use am_syntax::{Failure, ReadError, close, follow, open, placed, take_key};
use am_text::Cursor;
use std::alloc::Global;

/// `answer`, how the synthesis of the problem ended, as the version has it, and `end`.
fn read_answer(
    alloc: Global,
    text: &mut Cursor<'_>,
    version: Version,
    problem: &Draft<'_>,
) -> Result<Answer, Failure>
    requires { IsProblemShape (shape_of (seen_problem problem.now).lines) }
    ensures { Makes (λ a. a) result text.old text.new (answered version (seen_problem problem.now)) }
{
    let shape = Shape {
        width: problem.width(),
        inputs: problem.inputs(),
        fields: problem.kind().fields(),
        turns: problem.turns(),
    };
    take_key(text, b"answer")?;
    let answer = read_by(alloc, text, &shape, version.has_hints())?;
    take_key(text, b"end")?;
    Ok(answer)
}

/// A certificate up to its `end`.
#[tactic(auto, unfolding(crate::specs::Texts::draft))]
fn read_draft<'a>(alloc: Global, text: &mut Cursor<'a>) -> Result<CertificateDraft<'a>, Failure>
    requires { IsShort text.old }
    ensures { Makes seen_draft result text.old text.new draft }
{
    let version = read_version(text)?;
    let problem = take_problem(alloc, text)?;
    let answer = read_answer(alloc, text, version, &problem)?;
    Ok(CertificateDraft {
        version,
        problem,
        answer,
    })
}

/// A certificate up to its `end`, where the cursor stays if memory is wanting.
fn take_certificate<'a>(
    alloc: Global,
    text: &mut Cursor<'a>,
) -> Result<CertificateDraft<'a>, Failure>
    requires { IsShort text.old }
    ensures read { Makes seen_draft result text.old text.new draft }
    ensures stays { result ≡ Err NoMemory → text.new ≡ text.old }
{
    let mut ahead = text.fork();
    let read = read_draft(alloc, &mut ahead);
    follow(text, ahead, read)
}

/// Reads a certificate up to its `end`, in the middle of a text of fewer than 2^32 bytes.
///
/// # Errors
///
/// `Refused`: the first token that no certificate has here. The cursor stands at it. `NoMemory`: the cursor stays.
pub fn certificate_at<'a>(
    alloc: Global,
    c: &mut Cursor<'a>,
) -> Result<CertificateDraft<'a>, ReadError>
    requires { IsShort c.old }
    ensures { MakesAt seen_draft result c.old c.new draft }
{
    let read = take_certificate(alloc, c);
    placed(read, &*c)
}

/// Reads all of a text, before the names of its problem are numbered.
#[tactic(auto, unfolding(am_syntax::specs::Texts::read_whole))]
fn read_text<'a>(alloc: Global, text: &'a [u8]) -> Result<CertificateDraft<'a>, ReadError>
    requires { length text.now < 2 ^ 32 }
    ensures { Answers seen_draft result (draft_of text.now) }
{
    let mut cursor = open(text)?;
    let read = take_certificate(alloc, &mut cursor);
    close(read, &cursor)
}

/// Reads all of a text.
fn read_all(alloc: Global, text: &[u8]) -> Result<Certificate, ReadError>
    requires { length text.now < 2 ^ 32 }
    ensures { Answers (λ c. c) result (certificate_of text.now) }
{
    read_text(alloc, text)?.settle(alloc)
}

/// Reads the certificate of a text.
///
/// # Errors
///
/// `Refused`: the text is no certificate's, with the first refusal; `NoMemory`.
pub fn read_certificate(alloc: Global, text: &[u8]) -> Result<Certificate, ReadError>
    requires { length text.now < 2 ^ 32 }
    // What is read is the text's certificate.
    ensures found { IfOk result (λ c. ReadsAsCertificate text.now c) }
    // What is some certificate's text is read, unless memory runs out.
    ensures only { (c : Data) → ReadsAsCertificate text.now c → Answers (λ k. k) result (Ok c) }
    // Where nothing is read, the refusal is the first.
    ensures first { IfErr result (λ e. IfRefused e (λ r. certificate_of text.now ≡ Err r)) }
{
    read_all(alloc, text)
}

/// Each text of fewer than 2^32 bytes is a certificate's or has a first refusal, and not both.
pub fn certificate_texts_are_settled()
    ensures { (text : List ℕ) → length text < 2 ^ 32 → IsSettledCertificate text }
{}

/// No certificate's text begins with the words of a refused one up to and including the refused token.
pub fn certificate_refusals_are_for_good()
    ensures { CertificatesAreRefusedForGood }
{}

/// A text is one certificate's at most.
pub fn texts_have_one_certificate()
    ensures { (text : List ℕ) → IsOneCertificate text }
{}
