//! Laws of the bound on backward transfers in frames: what holds of the segments within one bound, where none makes one transfer more, holds within every greater
//! one.
//!
//! A law about definitions alone is a public function without a body to speak of: its contract is the law.
#![tactic(auto)]

pub mod anchors;
pub mod evidence;
pub mod runs;
