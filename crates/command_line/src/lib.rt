//! Reads the words of a command line into a command of `bilv`.
#![tactic(auto)]

mod command;
pub mod found;
mod program;
mod reader;
mod table;
mod values;

pub use call_form::{Asked, Budget, Kind};
pub use command::{Command, Options, PairNames};
pub use reader::{LineError, read_command};
