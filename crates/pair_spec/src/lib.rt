//! What it means that two functions are equal: links between them, the runs of linked pairs of entry states, the two questions about both with their clauses
//! and prices, and the answers of the commands that compare two functions and replay a difference, in `specs/`.
//!
//! A law about definitions alone is a public function without a body to speak of: its contract is the law.
#![tactic(auto)]

pub mod pairs;
