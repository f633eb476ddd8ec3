//! Numbers of registers.
ghost use Rattle.std.specs.Prelude.{◌≡◌, ◌<◌};

/// The number of a register, x0 to x31 (section 2.1).
#[derive(Clone, Copy, PartialEq, Eq)]
pub struct Register {
    number: u8,
    ghost in_range: { number < 32 },
}

impl Register {
    /// The register of a number.
    pub fn new(number: u8) -> Self
        requires { number < 32 }
        ensures { result.number ≡ number }
    {
        Register { number }
    }

    /// Its number, below 32.
    pub fn number(self) -> u8
        ensures same { result ≡ self.number }
        ensures in_range { result < 32 }
    {
        self.number
    }
}
