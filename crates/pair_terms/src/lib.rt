//! A side of a question about two functions: as terms, in which the exit of the function is a place, and as cells.
#![tactic(auto)]

mod cells;
mod exits;
mod places;
mod sides;
mod words;

pub use cells::side_cells;
pub use exits::{ExitTerms, exit_terms};
pub use places::{unrolling_leaves_by_link, with_exit_place};
pub use sides::side;
