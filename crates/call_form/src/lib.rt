//! What a call is asked with: which question, and the budgets that it may spend. They name no file and no machine.
#![tactic(auto)]

mod budget;
mod kind;

pub use budget::{Budget, CONFLICTS, POINTS, Range, SIZE, UNROLL};
pub use kind::{Asked, Kind};
