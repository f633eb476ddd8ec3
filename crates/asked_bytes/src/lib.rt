//! Which bytes of the file are asked of a question next, where values were found that have not the bytes at some addresses.
#![tactic(auto)]

mod asking;
mod blocks;
mod joining;

pub use asking::asked_next;
