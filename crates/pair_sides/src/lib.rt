//! A function that is compared with another.
#![tactic(auto)]

mod sides;

pub use sides::Sided;
