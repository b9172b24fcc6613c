//! The test of a hint's clause.

ghost use Rattle.std.specs.Prelude.{◌≡◌};
ghost use Rattle.am_hint.specs.Hints.{is_normal};

/// Whether the variables of a clause strictly increase and are below `vars`. So it is exactly with a
/// normal clause.
pub fn is_normal(codes: &[u32], vars: u32) -> bool
    ensures { result ≡ is_normal vars codes.now }
{
    let mut least = 0;
    for code in codes {
        let variable = *code / 2;
        if variable < least || vars <= variable {
            return false;
        }
        least = variable + 1;
    }
    true
}
