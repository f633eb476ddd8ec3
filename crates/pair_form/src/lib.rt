//! The values that the layers between two functions and the clauses of their questions hand on.
#![tactic(auto)]

mod kinds;
mod sides;

pub use kinds::PairKind;
pub use sides::{SideCells, SideQuestion};
