//! What a draft tells, and the problem that it settles to.

ghost use Rattle.std.specs.Prelude.{◌≡◌, ◌≤◌, IfOk, length, map};
ghost use Rattle.am_syntax.specs.Texts.{Answers};
ghost use Rattle.am_problem.specs.Limits.{IsFormed};
ghost use Rattle.am_problem.specs.Stored.{seen_parts};
ghost use Rattle.am_problem.specs.StoredLines.{seen_lines};
ghost use Rattle.am_problem.specs.Texts.{numbered, settled, sized};

use crate::draft::Draft;
use crate::kind::Kind;
use crate::limits::{MOST_LOAD, MOST_SLOTS};
use crate::numbering::number_lines;
use crate::parts::Parts;
use crate::problem::Problem;
use am_bv::Width;
use am_syntax::{ReadError, Refusal};
use std::alloc::Global;

impl<'a> Draft<'a> {
    /// The number of bits of a word.
    pub fn width(&self) -> Width
        ensures { result ≡ self.now.lines.header.width }
    {
        self.lines.header.width
    }

    /// How many inputs the operation has, from 1 to 3.
    pub fn inputs(&self) -> u32
        ensures { result ≡ self.now.lines.header.inputs }
    {
        self.lines.header.inputs
    }

    /// The abstract domain.
    pub fn kind(&self) -> Kind
        ensures { result ≡ self.now.lines.kind }
    {
        self.lines.kind
    }

    /// How many turns may be taken.
    pub fn turns(&self) -> u32
        ensures { result ≡ self.now.lines.budgets.turns }
    {
        self.lines.budgets.turns
    }

    /// The problem of the draft.
    ///
    /// # Errors
    ///
    /// `Refused` with `Undefined`, where a name has no rule; else with `Slots`, where the grammar has
    /// more slots than allowed; else with `Load`, where the load is greater than allowed.
    pub fn settle(self, alloc: Global) -> Result<Problem, ReadError>
        ensures { Answers (λ p. p) result (settled self.entry) }
    {
        let Draft { lines, undefined } = self;
        if let Some(place) = undefined {
            return Err(ReadError::Refused(Refusal::Undefined(place)));
        }
        sized(alloc, number_lines(alloc, lines)?)
    }
}

/// The problem of these parts, where it has no more slots and no greater load than allowed.
fn sized(alloc: Global, parts: Parts) -> Result<Problem, ReadError>
    requires { IsFormed (seen_parts parts) }
    ensures { Answers (λ p. p) result (sized (seen_parts parts)) }
{
    let slots = parts.grammar.slots();
    if slots > MOST_SLOTS {
        return Err(ReadError::Refused(Refusal::Slots(slots)));
    }
    let load = parts.load(alloc)?;
    if load > MOST_LOAD {
        return Err(ReadError::Refused(Refusal::Load(load)));
    }
    Ok(Problem { parts, load })
}
