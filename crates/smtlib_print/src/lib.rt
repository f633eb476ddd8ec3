//! The script of a question in SMT-LIB 2.6 (logic QF_ABV), for another solver.
#![tactic(auto)]

mod declarations;
mod definitions;
mod file_bytes;
mod gifts;
mod laws;
mod numbering;
mod ordering;
mod scripts;
mod terms;
mod words;

pub use laws::{scripts_are_of_frames, scripts_are_of_programs, scripts_tell};
pub use numbering::{frame_numbers, numbers};
pub use ordering::frame;
pub use scripts::{frame_script, script};
