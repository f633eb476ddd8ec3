//! What each row of ARM state does in a state, in both byte orders (ARM Architecture Reference Manual, ARM DDI 0100I, chapters A2 to A5).
//!
//! Each class has a file of its own, where `impl Step` says what its row says, field by field.
#![tactic(auto)]

mod access;
mod blocks;
mod branches;
mod class;
mod counts;
mod data;
mod exchanges;
mod facts;
mod flags;
mod halfwords;
mod interrupts;
mod long_multiplies;
mod multiplies;
mod registers;
mod shifter;
mod state;
mod steps;
mod sums;
mod swaps;
mod transfers;
mod used_flags;
mod words;

pub use access::{address, halfword_offset_of, load_by, offset_of, operand};
pub use flags::Flags;
pub use shifter::{Shifted, by_number};
pub use state::State;
pub use steps::{cost, draws, flag_use, holds, links, literal, loaded, step, stored, successors};
pub use sums::{Computed, result_of, sum};
