//! What is claimed of clauses: values that satisfy them, refutations, and the texts of certificates, in `specs/`, and their laws.
//!
//! A law about definitions alone is a public function without a body to speak of: its contract is the law.
#![tactic(auto)]

pub mod certificates;
