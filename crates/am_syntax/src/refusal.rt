//! Why a text is refused.

ghost use Rattle.std.specs.Prelude.{◌≡◌};
ghost use Rattle.am_syntax.specs.Texts.{refusal_at};

use std::alloc::AllocError;
use thiserror::Error;

/// Why a token is refused.
#[derive(Clone, Copy, PartialEq, Eq, Debug)]
pub enum Cause {
    /// The grammar allows no such token here.
    Syntax,
    /// A row of digits has a leading zero, or isn't one of the numbers allowed.
    Number,
    /// Nothing that may stand here has this name.
    Name,
    /// Something is missing before this token, or is one too many.
    Count,
    /// The nonterminal of this name has a rule already.
    Twice,
}

/// Why nothing was read. After a refusal the cursor stands at the refused token.
#[derive(Clone, Copy, PartialEq, Eq, Debug)]
pub enum Failure {
    /// The next token is refused.
    Refused(Cause),
    /// There was no memory.
    NoMemory,
}

impl From<Cause> for Failure {
    ghost use Rattle.am_syntax.specs.declared.refusal.Failure.TheVariants.{Refused};

    ghost from_gives = { λ cause e. e ≡ Refused cause };

    fn from(cause: Cause) -> Failure {
        Failure::Refused(cause)
    }
}

impl From<AllocError> for Failure {
    ghost use Rattle.am_syntax.specs.declared.refusal.Failure.TheVariants.{NoMemory};

    ghost from_gives = { λ _ e. e ≡ NoMemory };

    fn from(_e: AllocError) -> Failure {
        Failure::NoMemory
    }
}

/// Why a text is refused. A place is that of a byte, counted from 0; the place of a text's end is
/// its length.
#[derive(Clone, Copy, PartialEq, Eq, Debug)]
pub enum Refusal {
    /// This byte is neither printable ASCII, a space nor a newline.
    BadByte(usize),
    /// The grammar allows no such token here, or not the end of the text.
    Syntax(usize),
    /// A row of digits has a leading zero, or isn't one of the numbers allowed.
    Number(usize),
    /// Nothing that may stand here has this name.
    Name(usize),
    /// Something is missing before this token, or is one too many.
    Count(usize),
    /// The nonterminal of this name has a rule already.
    Twice(usize),
    /// The nonterminal of this name has no rule.
    Undefined(usize),
    /// So many slots are too many.
    Slots(u64),
    /// So great a load is too great.
    Load(u64),
    /// This operation has no transformer that fits.
    Mismatch(u32),
    /// The text is too long.
    Long,
    /// So many bits of inputs are too many to go through them all.
    Wide(u64),
    /// So many choices of terms are too many to go through them all.
    Many(u64),
}

/// Why nothing was read from a text.
#[derive(Clone, Copy, PartialEq, Eq, Debug, Error)]
pub enum ReadError {
    /// The text is refused.
    #[error("refused")]
    Refused(Refusal),
    /// There was no memory.
    #[error("no memory")]
    NoMemory,
}

impl From<Refusal> for ReadError {
    ghost use Rattle.am_syntax.specs.declared.refusal.ReadError.TheVariants.{Refused};

    ghost from_gives = { λ refusal e. e ≡ Refused refusal };

    fn from(refusal: Refusal) -> ReadError {
        ReadError::Refused(refusal)
    }
}

impl From<AllocError> for ReadError {
    ghost use Rattle.am_syntax.specs.declared.refusal.ReadError.TheVariants.{NoMemory};

    ghost from_gives = { λ _ e. e ≡ NoMemory };

    fn from(_e: AllocError) -> ReadError {
        ReadError::NoMemory
    }
}

impl Cause {
    /// The refusal of the token at this place.
    pub fn at(self, place: usize) -> Refusal
        ensures { result ≡ refusal_at self place }
    {
        match self {
            Cause::Syntax => Refusal::Syntax(place),
            Cause::Number => Refusal::Number(place),
            Cause::Name => Refusal::Name(place),
            Cause::Count => Refusal::Count(place),
            Cause::Twice => Refusal::Twice(place),
        }
    }
}
