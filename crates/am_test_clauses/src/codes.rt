//! Codes of literals as a text, and as a checksum.

use am_lit::Lit;
use std::alloc::{AllocError, Global};

/// The codes of some literals.
pub fn codes(alloc: Global, literals: &[Lit]) -> Result<String, AllocError> {
    let mut codes = String::new(alloc);
    for l in literals {
        let space = if codes.is_empty() { "" } else { " " };
        let code = l.code();
        codes.push_str(format!(in alloc; "{space}{code}")?.as_str())?;
    }
    Ok(codes)
}

/// A checksum, and then the codes of some literals.
pub fn and_then(checksum: u32, literals: &[Lit]) -> u32 {
    let mut sum = checksum;
    for l in literals {
        sum = sum.wrapping_mul(33).wrapping_add(l.code()).wrapping_add(1);
    }
    sum.wrapping_mul(33)
}
