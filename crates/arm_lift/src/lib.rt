//! The machine of ARM, versions 4, 4T and 5, in both byte orders (ARM Architecture Reference Manual, ARM DDI 0100I, chapters A2 to A5): its rows, and for each
//! a list of statements that does the same.
#![tactic(auto)]

mod byte_order;
mod lifting;
mod machine;

pub use machine::Arm;
