//! Terms over a reading of an unrolled program, and what each layer between them and the clauses has to say, in `specs/`.
//!
//! A law about definitions alone is a public function without a body to speak of: its contract is the law.
#![tactic(auto)]

pub mod terms;
