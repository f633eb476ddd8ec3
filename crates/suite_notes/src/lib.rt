//! The notes of a template over an ELF file.
#![tactic(auto)]

mod expanding;
mod telling;

pub use expanding::{Expansion, notes_of};
