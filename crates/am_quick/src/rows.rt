//! Rows that are read and written at any place: what is past the end reads as a fixed word, and takes no write.

/// No clause, no variable, no place.
pub const NONE: u32 = u32::MAX;

/// The word at a place, or `NONE` past the end.
#[inline(always)]
pub fn at(row: &[u32], i: usize) -> u32 {
    if i < row.len() { row[i] } else { NONE }
}

/// Writes a word, but not past the end.
#[inline(always)]
pub fn put(row: &mut [u32], i: usize, x: u32) {
    if i < row.len() {
        row[i] = x;
    }
}

/// The mark at a place, or 0 past the end.
#[inline(always)]
pub fn mark_at(row: &[u8], i: usize) -> u8 {
    if i < row.len() { row[i] } else { 0 }
}

/// Writes a mark, but not past the end.
#[inline(always)]
pub fn put_mark(row: &mut [u8], i: usize, x: u8) {
    if i < row.len() {
        row[i] = x;
    }
}

/// The number at a place, or 0 past the end.
#[inline(always)]
pub fn long_at(row: &[u64], i: usize) -> u64 {
    if i < row.len() { row[i] } else { 0 }
}

/// Writes a number, but not past the end.
#[inline(always)]
pub fn put_long(row: &mut [u64], i: usize, x: u64) {
    if i < row.len() {
        row[i] = x;
    }
}

/// A length in four bytes, or `NONE` where it needs more.
#[inline(always)]
pub fn short(n: usize) -> u32 {
    if n < 0xffff_ffff { n as u32 } else { NONE }
}
