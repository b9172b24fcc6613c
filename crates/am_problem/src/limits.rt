//! The limits of problems.

/// The most inputs of an operation.
pub const MOST_INPUTS: u32 = 3;

/// The most nodes of an operation, of an assumption and of a leaf.
pub const MOST_NODES: u64 = 64;

/// The most turns that a problem may allow.
pub const MOST_TURNS: u32 = 4096;

/// The most derived clauses that a problem may allow for one query.
pub const MOST_CONFLICTS: u32 = 1_000_000;

/// The most slots of a grammar.
pub const MOST_SLOTS: u64 = 256;

/// The greatest load: a bound on the gates of each formula of a problem.
pub const MOST_LOAD: u64 = 1 << 24;
