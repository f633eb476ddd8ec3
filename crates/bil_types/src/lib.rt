//! Types of expressions and of lists of statements (A Formal Specification for BIL, typing rules, in this project's profile).
//!
//! One pass from the leaves numbers the nodes in preorder and takes no memory. A node's own rule comes after the rules of its operands, so the first rule
//! that is broken is the first in post order.
#![tactic(auto)]

mod expressions;
mod faults;
mod rules;
mod statements;

pub use expressions::type_of;
pub use faults::{Need, TypeFault};
pub use statements::check;
