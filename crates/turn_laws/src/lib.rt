//! Laws of the bound on backward transfers: what holds for one bound, where no run makes one transfer more, holds for every greater one.
//!
//! A law about definitions alone is a public function without a body to speak of: its contract is the law.
#![tactic(auto)]

pub mod evidence;
pub mod runs;
