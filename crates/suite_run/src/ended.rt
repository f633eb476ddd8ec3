//! How the program ends.

/// The status of `exit_status` with which the program ends, and what it says of that to standard error, if anything.
#[derive(Drop)]
pub struct Ended {
    pub status: u8,
    pub message: Option<String>,
}
