//! The limits of flows.

/// The most variables of a flow.
pub const MOST_VARIABLES: u32 = 8;

/// The most nodes of a flow.
pub const MOST_NODES: u32 = 64;

/// The most edges of a flow.
pub const MOST_EDGES: usize = 256;
