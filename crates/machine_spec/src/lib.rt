//! What is claimed of machines: their instruction tables, BIL, and the texts of states, in `specs/`, and their laws.
//!
//! A law about definitions alone is a public function without a body to speak of: its contract is the law.
#![tactic(auto)]

pub mod bil;
pub mod machines;
pub mod tables;
