//! The texts that reports over frames print: a start, its ending, the head state of a segment from a head, and blocks of what contract steps are given, in
//! `specs/`, and their laws.
//!
//! A law about definitions alone is a public function without a body to speak of: its contract is the law.
#![tactic(auto)]

pub mod laws;
