//! Starts of runs.

/// The state from which a run begins, and its choices.
#[derive(Drop)]
pub struct Start {
    /// The registers in order: x1 to x31, or r0 to r14.
    pub regs: Vec<u32>,
    /// The flags, as N 8, Z 4, C 2 and V 1.
    pub flags: u8,
    /// Bytes by their addresses.
    pub bytes: Vec<(u32, u8)>,
    /// Choices by the numbers of their steps.
    pub choices: Vec<(u64, u8)>,
}
