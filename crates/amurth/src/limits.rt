//! How much is read.

/// How many certificates may stand before a flow.
pub const MOST_CERTIFICATES: usize = 16;
