//! The flow graph of notes with contracts: it has the address of each contract beside that of the function, and keeps the assignments of flags that a contract step
//! reads, or the exit of a contract's frame.
#![tactic(auto)]

mod whole;

pub use whole::{print_whole_graph, whole_graph};
