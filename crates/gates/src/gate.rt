//! Gates.
use crate::bit::Bit;

/// What a variable that is no input stands for.
#[derive(Clone, Copy, PartialEq, Eq)]
pub enum Gate {
    /// Both.
    And(Bit, Bit),
    /// One of the two.
    Xor(Bit, Bit),
    /// The second where the first is true, else the third.
    Ite(Bit, Bit, Bit),
    /// One or all of the three.
    Parity(Bit, Bit, Bit),
    /// Two or all of the three.
    Majority(Bit, Bit, Bit),
    /// The first, where the others are equal.
    Same(Bit, Bit, Bit),
}
