//! The flow graph of a program: from the function's address along static successors to every address of it.
#![tactic(auto)]

mod descent;
mod flags;
mod listing;
mod node;
mod rows;
mod successors;
mod targets;

pub use descent::{descend, descend_from};
pub use flags::named_flags;
