//! Work that is made from a number: a function of computing rows of RV32IM in an executable, with notes of what it computes.
#![tactic(auto)]

mod items;
mod made;
mod row_file;

pub use made::{MadeWork, front, work};
