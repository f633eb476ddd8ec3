//! Passive programs (passive form): for each point of an unrolled program or frame a term that says whether the walk of a reading meets it, and terms that say
//! how walks end.
#![tactic(auto)]

mod bits;
mod calls;
mod edges;
mod exits;
mod leaving;
mod own;
mod point;
mod roots;
mod spans;
mod sweep;
mod sweeping;
mod writing;

pub use point::edges_at;
pub use sweeping::{ToLast, passive, passive_of_frame, passive_to_last};
