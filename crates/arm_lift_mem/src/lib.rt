//! Lists of statements for ARM's single loads and stores (ARM Architecture Reference Manual, ARM DDI 0100I, sections A3.11, A3.13 and A5.2 to A5.3).
//!
//! Each list does what the instruction's row does in the byte order that it is made for, and keeps every law of lifted lists.
#![tactic(auto)]

mod accesses;
mod halfwords;
mod swaps;
mod transfers;

pub use halfwords::lift_halfword;
pub use swaps::lift_swap;
pub use transfers::lift_transfer;
