//! Reads and writes of lists of numbers at any place.
//!
//! What this search finds is not trusted, so nothing is proved of its places: a read after the end gives 0, and a write there does nothing.

/// The number at a place, or 0 after the end.
#[inline(always)]
pub fn at(cells: &[u32], place: usize) -> u32 {
    if place < cells.len() { cells[place] } else { 0 }
}

/// Writes the number at a place, unless it is after the end.
#[inline(always)]
pub fn put(cells: &mut [u32], place: usize, number: u32) {
    if place < cells.len() {
        cells[place] = number;
    }
}

/// A count in 32 bits; one that is too great is the greatest number of 32 bits.
#[inline(always)]
pub fn count_of(count: usize) -> u32 {
    if count <= u32::MAX as usize {
        count as u32
    } else {
        u32::MAX
    }
}

/// The literal that is true where this one is false. A literal is twice its variable, plus 1 for the negation; variables count from 0.
#[inline(always)]
pub fn negation(lit: u32) -> u32 {
    lit ^ 1
}

/// The variable of a literal.
#[inline(always)]
pub fn variable_of(lit: u32) -> usize {
    (lit / 2) as usize
}
