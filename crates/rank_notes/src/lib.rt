//! The notes of the frame of a contract: those of the file, but for what is required where the contract's function begins, in memory of their own.
#![tactic(auto)]

mod copies;
mod notes;

pub use notes::contract_notes;
