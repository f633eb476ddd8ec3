//! Lists of statements for ARM's instructions that compute and branch (ARM Architecture Reference Manual, ARM DDI 0100I, chapters A3 to A5).
//!
//! Each class has a file of its own. Its list does what the instruction's row does in the byte order that it is made for, and keeps every law of lifted lists.
#![tactic(auto)]

mod branching;
pub mod conditional;
mod counting;
mod data;
mod exchanging;
pub mod expressions;
mod interrupting;
mod multiplying;
mod multiplying_long;
pub mod shifter;

pub use branching::lift_branch;
pub use counting::lift_count;
pub use data::lift_computing;
pub use exchanging::lift_exchange;
pub use interrupting::lift_software_interrupt;
pub use multiplying::lift_multiply;
pub use multiplying_long::lift_multiply_long;
