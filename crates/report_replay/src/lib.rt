//! What the judgements of reports have in common: a text is read, where the file gives some bytes; and the texts of answers.
#![tactic(auto)]

mod reading;
mod texts;

pub use reading::{Reading, known_line, read_text};
pub use texts::{REPORT_LIMIT, Replay, false_require, push_found, refused, too_large, unaligned};
