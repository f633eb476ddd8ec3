//! What is claimed of programs with notes: the definitions of files, notes, runs, verdicts, questions and reports, in `specs/`, and their laws.
//!
//! A law about definitions alone is a public function without a body to speak of: its contract is the law.
#![tactic(auto)]

pub mod certificates;
pub mod files;
pub mod points;
pub mod programs;
pub mod questions;
pub mod runs;
pub mod states;
