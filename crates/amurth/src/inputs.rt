//! Certificates and a flow over their operations, as a text has them.

ghost use Rattle.std.specs.Prelude.{◌≡◌, ◌<◌, ◌≤◌, ◌^◌, ◌++◌, [], ◌∷◌, IfOk, OnOk, codes, length, map};
ghost use Rattle.am_cert.specs.StoredDraft.{seen_draft};
ghost use Rattle.am_cert.specs.Texts.{IsShort};
ghost use Rattle.am_cert.specs.declared.limits.TheConstants.{MOST_BYTES};
ghost use Rattle.am_flow.specs.Flows.{IsFlow};
ghost use Rattle.am_syntax.specs.Pieces.{next_is, repeat_from};
ghost use Rattle.am_syntax.specs.Texts.{Answers};
ghost use Rattle.amurth.specs.Analysed.{all_settled, analysis_of, certificate_after, drafts, drafts_of};
ghost use Rattle.amurth.specs.inside.Analyses.{ReadsAt, seen_analysis, seen_drafts};

use crate::limits::MOST_CERTIFICATES;
use am_cert::{Certificate, CertificateDraft, certificate_at};
use am_flow::{Flow, flow_at};
use am_syntax::{Cause, ReadError, close, is_next, open, refuse_next};
use am_text::Cursor;
use std::alloc::{AllocError, Global};

/// Certificates before the names of their problems are looked up, and a flow.
#[derive(Drop)]
pub struct Drafts<'a> {
    pub certificates: Vec<CertificateDraft<'a>>,
    pub flow: Flow,
}

/// Certificates, and a flow over their operations.
#[derive(Drop)]
pub struct Analysis {
    pub certificates: Vec<Certificate>,
    pub flow: Flow,
}

/// Reads the certificates and the flow of a text.
///
/// # Errors
///
/// `Refused`: the text has none, with the first refusal; `NoMemory`.
pub fn read_analysis(alloc: Global, text: &[u8]) -> Result<Analysis, ReadError>
    requires { length text.now ≤ MOST_BYTES }
    ensures value { Answers seen_analysis result (analysis_of text.now) }
    ensures flow { IfOk result (λ a. IsFlow (length a.certificates.items) a.flow) }
    ensures few { IfOk result (λ a. length a.certificates.items ≤ MOST_CERTIFICATES) }
{
    let Drafts { certificates, flow } = read_text(alloc, text)?;
    let certificates = settle_all(alloc, certificates)?;
    Ok(Analysis { certificates, flow })
}

/// Reads all of a text, before names are looked up.
#[tactic(auto, unfolding(am_syntax::specs::Texts::read_whole))]
fn read_text<'a>(alloc: Global, text: &'a [u8]) -> Result<Drafts<'a>, ReadError>
    requires { length text.now ≤ MOST_BYTES }
    ensures value { Answers seen_drafts result (drafts_of text.now) }
    ensures flow { IfOk result (λ d. IsFlow (length d.certificates.items) d.flow) }
    ensures few { IfOk result (λ d. length d.certificates.items ≤ MOST_CERTIFICATES) }
{
    let mut cursor = open(text)?;
    let drafts = read_drafts(alloc, &mut cursor)?;
    close(Ok(drafts), &cursor)
}

/// Certificates, and a flow after them.
fn read_drafts<'a>(alloc: Global, text: &mut Cursor<'a>) -> Result<Drafts<'a>, ReadError>
    requires { IsShort text.old }
    ensures value { ReadsAt seen_drafts result text.new (drafts text.old) }
    ensures flow { IfOk result (λ d. IsFlow (length d.certificates.items) d.flow) }
    ensures few { IfOk result (λ d. length d.certificates.items ≤ MOST_CERTIFICATES) }
{
    let certificates = read_certificates(alloc, text)?;
    let flow = flow_at(alloc, text, certificates.len() as u32)?;
    Ok(Drafts { certificates, flow })
}

/// Certificates as long as one comes.
fn read_certificates<'a>(
    alloc: Global,
    text: &mut Cursor<'a>,
) -> Result<Vec<CertificateDraft<'a>>, ReadError>
    requires { IsShort text.old }
    ensures value { ReadsAt (λ ds. map seen_draft ds.items) result text.new
        (repeat_from (next_is (codes "certificate")) certificate_after [] text.old) }
    ensures few { IfOk result (λ ds. length ds.items ≤ MOST_CERTIFICATES) }
{
    let mut drafts = Vec::new(alloc);
    'drafts: while is_next(text, b"certificate") {
        let draft = certificate_after(alloc, text, drafts.as_slice())?;
        put(&mut drafts, draft)?;
    }
    Ok(drafts)
}

/// A certificate after others, of which there may be one more.
fn certificate_after<'a>(
    alloc: Global,
    text: &mut Cursor<'a>,
    seen: &[CertificateDraft<'a>],
) -> Result<CertificateDraft<'a>, ReadError>
    requires { IsShort text.old }
    ensures value { ReadsAt seen_draft result text.new (certificate_after (map seen_draft seen.now) text.old) }
    ensures room { OnOk result (length seen.now < MOST_CERTIFICATES) }
{
    if seen.len() < MOST_CERTIFICATES {
        certificate_at(alloc, text)
    } else {
        match refuse_next(text, Cause::Count) {
            Ok(()) => unreachable!(),
            Err(cause) => Err(ReadError::Refused(cause.at(text.place()))),
        }
    }
}

/// The certificates of drafts.
fn settle_all(
    alloc: Global,
    drafts: Vec<CertificateDraft<'_>>,
) -> Result<Vec<Certificate>, ReadError>
    ensures { Answers (λ cs. cs.items) result (all_settled (map seen_draft drafts.entry.items)) }
{
    let mut certificates = Vec::new(alloc);
    'drafts: for draft in drafts {
        let certificate = draft.settle(alloc)?;
        put(&mut certificates, certificate)?;
    }
    Ok(certificates)
}

/// Puts an item at the end.
fn put<T: Drop>(items: &mut Vec<T>, item: T) -> Result<(), AllocError>
    ensures { OnOk result (items.new.items ≡ items.old.items ++ item ∷ []) }
{
    items.push(item)?;
    Ok(())
}
