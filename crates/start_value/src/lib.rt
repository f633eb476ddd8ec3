//! The form of a machine's state, and the starts of its runs.
#![tactic(auto)]

mod layout;
mod start;

pub use layout::{Layout, Profile};
pub use start::Start;
