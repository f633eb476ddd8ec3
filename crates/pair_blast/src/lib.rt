//! The clauses of a question about two functions: one circuit for the terms of both sides, in which linked inputs have the same bits, and ties for what is
//! linked and for what is said of base reads.
#![tactic(auto)]

mod clauses;
mod ends;
mod linked;
mod sides;
mod ties;

pub use clauses::blast_two;
