//! The verdict on two functions with links between them: whether their linked runs exit alike, with what shows it.
#![tactic(auto)]

mod deciding;
mod equality;
mod exits;
mod machines;
mod pairs;
mod rounds;
mod settling;
mod sides;
mod smaller;
mod verdicts;

pub use equality::equal;
pub use verdicts::{Holding, PairVerdict};
