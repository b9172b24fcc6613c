//! How a run ends.

ghost use Rattle.std.specs.Prelude.{◌≡◌};
ghost use Rattle.amurth.specs.Status.{exit_code};

/// How a run ended.
#[derive(Clone, Copy, PartialEq, Eq, Debug)]
pub enum Status {
    /// The work is done, and its text was written.
    Done,
    /// The words are no command. Nothing was read or written.
    Usage,
    /// The source failed. Nothing was written.
    ReadFault,
    /// The sink failed. A prefix of the text was written.
    WriteFault,
    /// There was no memory. Nothing was written.
    NoMemory,
    /// The input was refused, and a line that says why was written.
    Refused,
    /// A synthesis made one turn more than may be spent, and the certificate that says so was written.
    SpentTurns,
    /// A synthesis derived as many clauses for a query as may be spent, and the certificate that says so was written.
    SpentConflicts,
    /// A certificate wasn't accepted, and a line that says why was written.
    Rejected,
}

impl Status {
    /// The program's exit code.
    pub fn code(self) -> u8
        ensures { result ≡ exit_code self }
    {
        match self {
            Status::Done => 0,
            Status::Usage => 2,
            Status::ReadFault => 3,
            Status::WriteFault => 4,
            Status::NoMemory => 5,
            Status::Refused => 6,
            Status::SpentTurns => 7,
            Status::SpentConflicts => 8,
            Status::Rejected => 9,
        }
    }
}
