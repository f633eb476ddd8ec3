//! What joins the layers of the middle to what is claimed of a program: laws with long proofs, which only the verdict needs.
//!
//! A law about definitions alone is a public function without a body to speak of: its contract is the law.
#![tactic(auto)]

pub mod runs;
pub mod walks;
