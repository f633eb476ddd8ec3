//! Terms over words and memory: nodes over earlier nodes, each kept once and folded as it comes.
#![tactic(auto)]

mod conditions;
mod dag;
mod folds;
mod memories;
mod nodes;
mod operators;
mod selections;
mod slices;
mod typed;
mod values;

pub use dag::Dag;
pub use nodes::{Node, Term};
pub use values::{Parts, Reading};
