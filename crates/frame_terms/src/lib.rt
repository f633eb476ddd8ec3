//! Terms of unrolled frames, and what each layer between them and the clauses has to say, in `specs/`; with the laws that join them to frames.
//!
//! A law about definitions alone is a public function without a body to speak of: its contract is the law.
#![tactic(auto)]

pub mod agreement;
pub mod clauses;
pub mod starts;
pub mod terms;
