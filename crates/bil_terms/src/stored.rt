//! What is stored.

use term_dag::Term;

/// The bytes that a list stores from an address on, under a guard of 1 bit.
#[derive(Clone, Copy)]
pub struct Stored {
    pub guard: Term,
    pub address: Term,
    pub bytes: u8,
}
