//! Lists of statements for LDM and STM (ARM Architecture Reference Manual, ARM DDI 0100I, sections A3.12 and A5.4).
//!
//! A list does what the instruction's row does, in the byte order that is given, and keeps every law of lifted lists.
#![tactic(auto)]

mod base;
mod lifting;
mod transfers;
mod words;

pub use lifting::lift_block;
