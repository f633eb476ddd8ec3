//! Links as values.

/// A register or a flag of one of two machines.
#[derive(Clone, Copy)]
pub enum Named {
    /// The register that is always 0.
    Zero,
    /// A register by its number, below 32.
    Register(u8),
    /// A flag by its number: 3 to 0 are N, Z, C and V.
    Flag(u8),
}

/// What two functions are to agree on, with the number of its line, from 1 on.
#[derive(Clone, Copy)]
pub enum Link {
    /// A register or a flag of the first function's entry state has the value of one of the second's.
    Entry {
        line: u32,
        first: Named,
        second: Named,
    },
    /// A register or a flag of the first function's exit state has the value of one of the second's.
    Exit {
        line: u32,
        first: Named,
        second: Named,
    },
    /// Both entry states have the same bytes from one address up to another, which is in it: 1 to 256 bytes.
    Share {
        line: u32,
        low: u32,
        high: u32,
    },
    /// Both exit states have the same bytes from one address up to another, which is in it: 1 to 256 bytes.
    Same {
        line: u32,
        low: u32,
        high: u32,
    },
}
