//! Trees of BIL: types, variables, expressions and statements (A Formal Specification for BIL, in this project's profile).
//!
//! Widths are 1 to 64 by their type, so that only what typing rules refuse is left to refuse.
#![tactic(auto)]

mod expressions;
mod names;
mod statements;
mod width;

pub use expressions::Exp;
pub use names::{Bank, BilType, BinaryOp, CastKind, Local, UnaryOp, Var};
pub use statements::Stmt;
pub use width::Width;
