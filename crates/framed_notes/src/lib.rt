//! The text of notes that may have invariants or contracts: lines of either are known where a text has one of either. And words that are numbers as notes have
//! them.
#![tactic(auto)]

mod dialects;
mod lines;
mod numbers;
mod reading;

pub use numbers::number_word;
pub use reading::parse_headed;
