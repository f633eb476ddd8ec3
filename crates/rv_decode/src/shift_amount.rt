//! Amounts of shifts by a number.
ghost use Rattle.std.specs.Prelude.{◌≡◌, ◌<◌};

/// By how many bits SLLI, SRLI and SRAI shift, 0 to 31.
#[derive(Clone, Copy, PartialEq, Eq, Debug)]
pub struct ShiftAmount {
    bits: u8,
    ghost in_range: { bits < 32 },
}

impl ShiftAmount {
    /// The amount of a number of bits.
    pub fn new(bits: u8) -> Self
        requires { bits < 32 }
        ensures { result.bits ≡ bits }
    {
        ShiftAmount { bits }
    }

    /// The number of bits, below 32.
    pub fn bits(self) -> u8
        ensures same { result ≡ self.bits }
        ensures in_range { result < 32 }
    {
        self.bits
    }
}
