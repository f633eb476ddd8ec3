//! What graphs, runs and verdicts are about: a function of an ELF file with its notes, on a machine, and its frames where notes have contracts.
#![tactic(auto)]

mod frame;
mod program;

pub use frame::RankedFrame;
pub use program::Program;
