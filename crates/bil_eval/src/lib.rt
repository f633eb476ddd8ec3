//! Runs lists of statements (A Formal Specification for BIL, in this project's profile).
#![tactic(auto)]

mod env;
mod expressions;
mod faults;
mod lists;
mod statements;

pub use env::{Env, LocalWord, Machine};
pub use faults::EvalFault;
pub use lists::{End, eval};
