//! The flow graph of a program as a value: its addresses, the successors of each, and the flags that are read and assigned there.
//!
//! It names no machine: what reads it needs no table of instructions.
#![tactic(auto)]

mod flags;
mod nodes;
mod search;
mod units;

pub use flags::has_flag;
pub use nodes::{Graph, Letter, Node, Successor};
pub use search::{node_at, place};
pub use units::is_place;
