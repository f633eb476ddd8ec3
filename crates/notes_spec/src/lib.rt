//! The text of notes: the definitions of its lines, of their faults and of the program that two texts are, in `specs/`, and their laws.
//!
//! A law about definitions alone is a public function without a body to speak of: its contract is the law.
#![tactic(auto)]

pub mod frames;
pub mod notes;
pub mod programs;
