//! Numbers without a plain order, and those of terms.
use term_dag::Term;

/// The next number, and the one that follows from it; half of them are at the edges or small.
pub fn next(seed: &mut u32) -> u32 {
    let mut x = *seed;
    x ^= x << 13;
    x ^= x >> 17;
    x ^= x << 5;
    *seed = x;
    match x >> 29 {
        0 => 0,
        1 => 0x8000_0000,
        2 => 0xffff_ffff,
        3 => x & 31,
        _ => x,
    }
}

/// The word of a term among those of all terms.
pub fn word(words: &[u64], term: Term) -> u64 {
    match words.get(term.0 as usize) {
        None => u64::MAX,
        Some(word) => *word,
    }
}
