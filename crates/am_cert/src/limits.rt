//! The limits of certificates.

/// The most nodes of a term in a certificate.
pub const MOST_TERM_NODES: u64 = 16_384;

/// How many parentheses may be open in a term of a certificate.
pub const MOST_NESTING: u32 = 128;

/// The most bytes of an input.
pub const MOST_BYTES: usize = 1 << 26;
