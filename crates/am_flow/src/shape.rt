//! What the lines before the edges say of them, and how a number is read that they limit.

ghost use Rattle.am_syntax.specs.Pieces.{below};
ghost use Rattle.am_syntax.specs.Readers.{GivesRead};

use am_bv::Width;
use am_syntax::{Cause, take_below};
use am_text::Cursor;

/// The width, and how many operations, variables and nodes there are.
#[derive(Clone, Copy)]
pub struct Shape {
    pub width: Width,
    pub operations: u32,
    pub variables: u32,
    pub nodes: u32,
}

/// Takes the number of one of so many operations, variables or nodes, which count from 0.
pub fn take_index(text: &mut Cursor<'_>, count: u32) -> Result<u32, Cause>
    ensures { GivesRead (λ i. i) result text.old text.new (below 0 count).read }
{
    let index = take_below(text, 0, u64::from(count))?;
    Ok(index as u32)
}
