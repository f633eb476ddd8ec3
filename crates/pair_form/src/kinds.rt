//! The questions about two functions.

/// Which question about two functions is asked: whether there is a linked pair of entry states, or whether the exits of one differ.
#[derive(Clone, Copy, PartialEq, Eq)]
pub enum PairKind {
    Pair,
    Difference,
}
