//! Terms for what a state has: its registers, its flags and its memory.
#![tactic(auto)]

mod gifts;
mod names;
mod rows;

pub use gifts::gift_names;
pub use names::{Names, copied, entry_names, part_names, selected};
pub use rows::selected_word;
