//! Tests of the lists of instructions as terms against their runs, of terms that are folded, and of the runs of kept bytes of a file.
//!
//! They stand apart so that each part is proved once, and not again with its tests.
#![tactic(auto)]

#[cfg(test)]
mod known;
#[cfg(test)]
mod lists;
#[cfg(test)]
mod numbers;
#[cfg(test)]
mod terms;
