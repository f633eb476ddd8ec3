//! The command line of `bilv_suite`, read through `clap`.
#![tactic(auto)]

mod program;
mod reader;
mod request;

pub use reader::read_request;
pub use request::{Files, Request};
