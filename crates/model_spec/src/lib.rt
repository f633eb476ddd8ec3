//! The answers of outside solvers to scripts: their text, the reading that they give, the bytes that a run reads, the start that is printed, and the answer of
//! the command that judges such an answer, in `specs/`.
//!
//! A law about definitions alone is a public function without a body to speak of: its contract is the law.
#![tactic(auto)]

pub mod answers;
