//! Operators on words, and formulas: how a word of 32 bits is made of two others, as a value and as an expression of BIL.
#![tactic(auto)]

mod formula;
pub mod operators;

pub use formula::{Extension, Formula};
