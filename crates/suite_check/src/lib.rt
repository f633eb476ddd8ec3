//! The warnings about notes over an ELF file, on the machine of the file.
#![tactic(auto)]

mod checking;

pub use checking::{Checked, check};
