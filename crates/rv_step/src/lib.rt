//! What each row of RV32IM and RV32IMC does in a state (RISC-V Unprivileged ISA 20191213, chapters 2, 7 and 16).
#![tactic(auto)]

mod registers;
mod state;
mod steps;
mod values;

pub use state::State;
pub use steps::{is_link, loaded, step, stored};
pub use values::{loaded_bytes, stored_bytes};
