//! Notes, the values of their expressions, and the addresses that they read.
#![tactic(auto)]

mod expressions;
mod notes;
mod places;
mod values;

pub use expressions::{Expr, Operator, Size};
pub use notes::{
    Assert, Contract, FixedRange, FrameNotes, Function, NoteLine, Notes, Targets, Writes,
};
pub use places::{add_reads, add_span};
pub use values::{order, value};
