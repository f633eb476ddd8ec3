//! The values that an answer gives.

/// The values that an answer gives to the symbols of a script; those that it does not give are 0, but for the memory.
#[derive(Drop)]
pub struct Model {
    /// The registers in the order of the state texts.
    pub registers: Vec<u32>,
    /// Bit f is flag f as state texts number flags: the last of a layout is flag 0.
    pub flags: u8,
    /// The choices of all points by their numbers, each from 0 to 3; 0 where the row does not read the choice.
    pub choices: Vec<u8>,
    /// The memory, if it is given.
    pub memory: Option<ModelMemory>,
}

/// A memory: one byte everywhere but at the listed addresses, which rise.
#[derive(Drop)]
pub struct ModelMemory {
    /// The byte at each address that is not listed.
    pub fill: u8,
    /// Addresses with their bytes, in strictly rising order.
    pub bytes: Vec<(u32, u8)>,
}
