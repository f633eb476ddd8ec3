//! What values of the inputs of a question of a frame mean: the bytes of the file that they go against, or the entry, a head state and what contract steps are
//! given as they are written, with the choices and the contract steps of the segment of each root by its steps.
#![tactic(auto)]

mod broken;
mod calls;
mod changed;
mod choices;
mod evaluated;
mod file_bytes;
mod gifts;
mod inputs;
mod meaning;
mod memory;
mod met;
mod parts;
mod reads;

pub use meaning::{Meaning, Segments, broken_bytes, meaning_of};
pub use parts::Parts;
