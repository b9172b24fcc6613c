//! The first line of a certificate.

ghost use Rattle.std.specs.Prelude.{codes};
ghost use Rattle.am_syntax.specs.Pieces.{keyed};
ghost use Rattle.am_syntax.specs.Readers.{GivesRead};
ghost use Rattle.am_cert.specs.Grammar.{version};

use crate::version::Version;
use am_syntax::{Cause, Judge, is_digits, take, take_key};
use am_text::Cursor;

/// The number of a version.
#[derive(Clone, Copy)]
struct VersionWord;

impl<'a> Judge<'a> for VersionWord {
    ghost use Rattle.am_cert.specs.declared.version.Version.{Version as Data};
    ghost use Rattle.am_cert.specs.Grammar.{version_judge};

    type Value = Version;

    ghost Shown = { Data };

    ghost view = { λ v. v };

    ghost verdict = { λ _ word. version_judge word };

    ghost known = { λ _ _. Unit {0} };

    fn judge(&self, word: &'a [u8]) -> Result<Version, Cause> {
        if word == b"1".as_slice() {
            Ok(Version::One)
        } else if word == b"2".as_slice() {
            Ok(Version::Two)
        } else if word == b"3".as_slice() {
            Ok(Version::Three)
        } else if word == b"4".as_slice() {
            Ok(Version::Four)
        } else if is_digits(word) {
            Err(Cause::Number)
        } else {
            Err(Cause::Syntax)
        }
    }
}

/// Takes the number of a version.
#[tactic(auto, unfolding(crate::specs::Grammar::version))]
fn take_version(text: &mut Cursor<'_>) -> Result<Version, Cause>
    ensures { GivesRead (λ v. v) result text.old text.new version.read }
{
    take(text, &VersionWord)
}

/// `certificate` and its version.
pub(crate) fn read_version(text: &mut Cursor<'_>) -> Result<Version, Cause>
    ensures { GivesRead (λ v. v) result text.old text.new (keyed (codes "certificate") version).read }
{
    take_key(text, b"certificate")?;
    take_version(text)
}
