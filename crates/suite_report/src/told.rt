//! What is told of a check.
use note_check::Warning;

/// A check by its name and the words that are expected of it, and the status, the report and the warnings that it came to.
#[derive(Clone, Copy)]
pub struct Told<'a> {
    pub name: &'a str,
    pub expect: &'a str,
    pub status: u8,
    pub report: &'a [u8],
    pub warnings: &'a [Warning],
}
