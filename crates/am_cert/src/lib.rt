//! Certificates: what a synthesis found, with what shows it, as a text that anyone can check.
//!
//! A [`Certificate`] has a problem and an [`am_query::Outcome`] of its synthesis: a transformer with two logs
//! that refute that it isn't sound and that there is a closer one; or that there is none, with one log; or the
//! turns and the derived clauses where a budget was spent. In versions 3 and 4 its [`Proofs`] are hints, in place of
//! the logs of a best transformer or of none, and [`Certificate::translated`] makes such a one.
//!
//! [`read_certificate`] reads a certificate from a text, [`print_certificate`] writes it, and [`check`] accepts it by
//! its contents alone. [`certificate_at`] reads one that stands in a longer text: a [`CertificateDraft`] settles to it
//! when the whole text was read. A [`Feed`] takes the text in pieces.
//!
//! ```text
//! let c = read_certificate(alloc, text)?; // or the first refusal, with its place
//! check(alloc, &c)?; // or the first fault, with its numbers
//! ```
//!
//! # What is proved
//!
//! Each call may say that there is no memory. Else [`read_certificate`] answers the certificate whose words the text
//! has, by `specs/Grammar.antt` and `specs/Texts.antt`, or the text's first refusal; each text of fewer than 2^32
//! bytes has exactly one of the two. [`print_certificate`] appends exactly the canonical text, `specs/Printing.antt`,
//! and what was printed reads back. [`check`] is Ok exactly where the outcome is accepted, by the conditions of
//! `am_query/specs/Acceptance.antt` over the formulas of the certificate's version, and then **the term is best, or no
//! transformer of the problem is sound**; else it answers the first fault. [`Certificate::translated`] of an accepted
//! certificate is accepted, and has the same problem, terms and turns. [`Feed::end`] answers for every cutting of
//! a text into pieces what reading and checking the whole answers. A text of an accepted certificate gets no verdict
//! but that it is accepted.
#![tactic(auto)]

mod answer;
mod answers;
mod asking;
mod certificate;
mod chains;
mod checking;
mod conditions;
mod draft;
mod feed;
mod heading;
mod hinted_answers;
mod hinted_printing;
mod hints;
mod limits;
mod printing;
mod reading;
mod refutation;
mod rows;
mod settling;
mod shape;
mod translating;
mod turns;
mod version;

pub use answer::Proofs;
pub use certificate::Certificate;
pub use checking::{CheckFail, check};
pub use draft::CertificateDraft;
pub use feed::{Feed, FeedEnd, accepted_texts_pass};
pub use limits::{MOST_BYTES, MOST_NESTING, MOST_TERM_NODES};
pub use printing::{canonical_certificates_are_read, outcomes_can_be_written, print_certificate};
pub use reading::{
    certificate_at, certificate_refusals_are_for_good, certificate_texts_are_settled,
    read_certificate, texts_have_one_certificate,
};
pub use version::Version;
