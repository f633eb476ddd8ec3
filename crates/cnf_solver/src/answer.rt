//! Answers.

/// A text that is written, and the exit status.
#[derive(Drop)]
pub struct Answer {
    pub status: u8,
    pub text: Vec<u8>,
}
