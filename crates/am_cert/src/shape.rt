//! What a problem says of the rows after it.

use am_bv::Width;

/// What a problem says of the rows after it.
#[derive(Clone, Copy)]
pub(crate) struct Shape {
    pub(crate) width: Width,
    /// How many inputs the operation has, from 1 to 3.
    pub(crate) inputs: u32,
    /// How many fields an abstract value has, at most 4.
    pub(crate) fields: u32,
    /// How many turns may be taken.
    pub(crate) turns: u32,
}
