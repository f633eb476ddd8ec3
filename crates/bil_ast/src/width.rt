//! Widths of words.

ghost use Rattle.std.specs.Prelude.{◌≡◌, ◌≤◌};

/// How many bits a word has: 1 to 64.
#[derive(Clone, Copy, PartialEq, Eq, Debug)]
pub struct Width {
    /// The number of bits.
    pub bits: u8,
    pub ghost some: { 1 ≤ bits },
    pub ghost few: { bits ≤ 64 },
}

impl Width {
    /// The width of this many bits.
    pub fn new(bits: u8) -> Width
        requires some { 1 ≤ bits }
        requires few { bits ≤ 64 }
        ensures { result.bits ≡ bits }
    {
        Width { bits }
    }
}
