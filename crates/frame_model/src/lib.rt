//! What an outside solver says of the entry states of a frame: by which symbols its answer is read.
#![tactic(auto)]

mod laws;

pub use laws::declared_are_read;
