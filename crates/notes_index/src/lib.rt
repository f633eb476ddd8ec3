//! Lines of notes by the addresses that they name.
#![tactic(auto)]

mod index;

pub use index::{Index, group, index_of};
