//! What is said of the checks of a suite: the words that each is asked by, its line, the summary and the status.
#![tactic(auto)]

mod json;
mod judging;
mod printing;
mod run_texts;
mod told;
mod words;

pub use judging::{asked_status, begins_with, has_part, is_expected, worse};
pub use run_texts::{line_by, summary_by};
pub use told::Told;
pub use words::verify_words;
