//! What joins unrolled frames to the runs of frames: laws with long proofs, which only the verdict needs.
//!
//! A law about definitions alone is a public function without a body to speak of: its contract is the law.
#![tactic(auto)]

pub mod headless;
pub mod prices;
pub mod segments;
pub mod walks;
