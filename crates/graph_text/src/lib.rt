//! The text of a flow graph: a line for each address, with its successors, its return and the flags whose assignment stays.
#![tactic(auto)]

mod lines;
mod words;

pub use lines::print_graph;
