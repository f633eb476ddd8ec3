//! Laws of two functions under two bounds on backward transfers: within a bound that no run of either exceeds, the questions about both come to what they come to
//! within every greater one.
//!
//! A law about definitions alone is a public function without a body to speak of: its contract is the law.
#![tactic(auto)]

pub mod evidence;
pub mod runs;
