//! Which terms may stand somewhere.

ghost use Rattle.std.specs.Prelude.{◌≡◌};
ghost use Rattle.am_syntax.specs.Spelling.{letter_code};

/// The letter of variables.
#[derive(Clone, Copy, PartialEq, Eq, Debug)]
pub enum Letter {
    /// `x`, of the words of an operation's inputs.
    X,
    /// `f`, of the fields of abstract values.
    F,
}

impl Letter {
    /// The letter as a byte.
    pub fn code(self) -> u8
        ensures { result ≡ letter_code self }
    {
        match self {
            Letter::X => b'x',
            Letter::F => b'f',
        }
    }
}

/// Which terms may stand somewhere.
#[derive(Clone, Copy, PartialEq, Eq, Debug)]
pub struct TermLimits {
    /// The letter of the variables.
    pub letter: Letter,
    /// The variables are numbered from 0 and there are so many of them.
    pub variables: u32,
    /// How many operators, variables and constants a term has at most.
    pub nodes: u64,
    /// How many parentheses are open at once at most. A call reads a term by as many nested calls.
    pub nesting: u32,
}
