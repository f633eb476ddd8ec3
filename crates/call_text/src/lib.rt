//! The text of what a report over frames shows where its run makes contract steps: a start with the ending that the report names, a head state where the
//! segment begins in one, and a block for each contract step.
#![tactic(auto)]

mod blocks;
mod calls;
mod changes;
mod ending;
mod fault;
mod lines;
mod printer;
mod reader;
mod text;

pub use fault::{CallFault, CalledFault};
pub use printer::{print_called, push_called_ending};
pub use reader::parse_called;
pub use text::{CalledEnding, CalledText, ContractChanges, FrameName};
