//! Tests of instructions of RV32IM and RV32C that are words again, which no command makes of them, of the texts of errors of files, notes, states, points and
//! entries, and of texts of reports over frames, with contract steps and without.
//!
//! They stand apart so that each part is proved once, and not again with its tests.
#![tactic(auto)]

#[cfg(test)]
mod called_texts;
#[cfg(test)]
mod encoding;
#[cfg(test)]
mod error_texts;
#[cfg(test)]
mod framed_texts;
