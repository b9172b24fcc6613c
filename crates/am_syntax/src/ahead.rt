//! Reading ahead of a cursor.

ghost use Rattle.std.specs.Prelude.{◌≡◌};
ghost use Rattle.am_syntax.specs.Readers.{follows};

use crate::refusal::Failure;
use am_text::Cursor;

/// Moves a cursor to where reading ahead of it stopped. Where memory was wanting the cursor stays.
pub fn follow<'a, T>(
    text: &mut Cursor<'a>,
    ahead: Cursor<'a>,
    read: Result<T, Failure>,
) -> Result<T, Failure>
    ensures same { result ≡ read }
    ensures place { text.new ≡ follows text.old ahead.entry read }
{
    match read {
        Ok(value) => {
            *text = ahead;
            Ok(value)
        }
        Err(Failure::Refused(cause)) => {
            *text = ahead;
            Err(Failure::Refused(cause))
        }
        Err(Failure::NoMemory) => Err(Failure::NoMemory),
    }
}
