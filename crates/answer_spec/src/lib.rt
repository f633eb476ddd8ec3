//! What the program answers to a command: the definitions, in `specs/`, and their laws.
//!
//! A law about definitions alone is a public function without a body to speak of: its contract is the law.
#![tactic(auto)]

pub mod answers;
pub mod frames;
