//! Tests of lists of BIL, memories, circuits and texts of errors: of calls that no command makes, and of what no clause says.
//!
//! They stand apart so that each part is proved once, and not again with its tests.
#![tactic(auto)]

#[cfg(test)]
mod circuits;
#[cfg(test)]
mod error_texts;
#[cfg(test)]
mod lists;
#[cfg(test)]
mod memory;
#[cfg(test)]
mod refusals;
