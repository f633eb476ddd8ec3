//! The program `bilv_suite`: the checks of a suite, each answered by `bilv verify` over files in memory; the notes of a template, and the warnings about one.
#![tactic(auto)]

mod asked;
mod files;
mod program;
mod refusing;
mod single;
mod verify;

pub use program::answer_words;
pub use single::{Checker, Expander};
pub use verify::Bilv;
