//! Frames: runs that are cut at heads and step over contracts, their points, questions, walks and reports, and what their verdicts say of runs of the tables.
//!
//! The numbers of the lines that are invariants stand beside the notes, which have no kinds of assert lines, and events of frames are a type of their own.
//!
//! A law about definitions alone is a public function without a body to speak of: its contract is the law.
#![tactic(auto)]

pub mod laws;
