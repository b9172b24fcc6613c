//! Faults of hints.

ghost use Rattle.std.specs.Prelude.{◌≡◌};

use std::alloc::AllocError;

/// Why a hint doesn't pass.
#[derive(Clone, Copy, Debug, PartialEq, Eq)]
pub enum HintWhy {
    /// The codes of the hint's clause don't strictly increase, a variable stands in it twice, or a
    /// variable isn't below the formula's.
    NotNormal,
    /// No clause has the number.
    NoClause,
    /// The clause has literals that aren't false, but not exactly one, without a value.
    NotUnit,
    /// All numbers were taken, and no clause was false.
    NoConflict,
}

/// Where the test of a hint fails: the place among its numbers, from 0. `NotNormal` stands at 0, and
/// `NoConflict` after the last number.
#[derive(Clone, Copy, Debug, PartialEq, Eq)]
pub struct HintFault {
    pub place: u32,
    pub why: HintWhy,
}

/// Why a hint wasn't added.
#[derive(Clone, Copy, Debug, PartialEq, Eq)]
pub enum HintError {
    Fault(HintFault),
    NoMemory,
}

impl From<AllocError> for HintError {
    ghost use Rattle.am_hint.specs.declared.fault.HintError.TheVariants.{NoMemory};

    ghost from_gives = { λ _ e. e ≡ NoMemory };

    fn from(_e: AllocError) -> HintError {
        HintError::NoMemory
    }
}
