//! Numbers of registers, lists of them, and amounts of shifts.
ghost use Rattle.std.specs.Prelude.{◌≡◌, ◌≢◌, ◌<◌, MatchOption};
ghost use Rattle.machine_spec.specs.Arm.{has_bit};

/// The number of a register that is not the program counter, r0 to r14 (section A2.3).
#[derive(Clone, Copy, PartialEq, Eq)]
pub struct Register {
    number: u8,
    ghost in_range: { number < 15 },
}

impl Register {
    /// The register of a number.
    pub fn new(number: u8) -> Register
        requires { number < 15 }
        ensures { result.number ≡ number }
    {
        Register { number }
    }

    /// Its number, below 15.
    pub fn number(self) -> u8
        ensures same { result ≡ self.number }
        ensures in_range { result < 15 }
    {
        self.number
    }
}

/// The number of a register, r0 to r15, of which r15 is the program counter (section A2.3).
#[derive(Clone, Copy)]
pub struct AnyRegister {
    number: u8,
    ghost in_range: { number < 16 },
}

impl AnyRegister {
    /// The register of a number.
    pub fn new(number: u8) -> AnyRegister
        requires { number < 16 }
        ensures { result.number ≡ number }
    {
        AnyRegister { number }
    }

    /// Its number, below 16.
    pub fn number(self) -> u8
        ensures same { result ≡ self.number }
        ensures in_range { result < 16 }
    {
        self.number
    }

    /// The register, unless it is r15.
    pub fn but_pc(self) -> Option<Register>
        ensures { MatchOption result (self.number ≡ 15) (λ r. r.number ≡ self.number) }
    {
        if self.number == 15 {
            None
        } else {
            Some(Register {
                number: self.number,
            })
        }
    }
}

/// The registers that LDM and STM load and store, at least one (section A5.4).
#[derive(Clone, Copy)]
pub struct RegisterList {
    bits: u16,
    ghost some: { bits ≢ 0 },
}

impl RegisterList {
    /// The list that has a register where the bit of its number is set.
    pub fn new(bits: u16) -> RegisterList
        requires { bits ≢ 0 }
        ensures { result.bits ≡ bits }
    {
        RegisterList { bits }
    }

    /// The bits of its registers.
    pub fn bits(self) -> u16
        ensures same { result ≡ self.bits }
        ensures some { result ≢ 0 }
    {
        self.bits
    }

    /// Whether it has a register.
    pub fn has(self, register: u8) -> bool
        requires { register < 16 }
        ensures { result ≡ has_bit register self.bits }
    {
        (self.bits >> register) % 2 == 1
    }
}

/// By how many bits a shift by a number shifts, 0 to 31; 0 has a meaning of its own in each kind of shift (section A5.1).
#[derive(Clone, Copy, PartialEq)]
pub struct ShiftAmount {
    bits: u8,
    ghost in_range: { bits < 32 },
}

impl ShiftAmount {
    /// The amount of a number of bits.
    pub fn new(bits: u8) -> ShiftAmount
        requires { bits < 32 }
        ensures { result.bits ≡ bits }
    {
        ShiftAmount { bits }
    }

    /// The number of bits, below 32.
    pub fn bits(self) -> u8
        ensures same { result ≡ self.bits }
        ensures in_range { result < 32 }
    {
        self.bits
    }
}
