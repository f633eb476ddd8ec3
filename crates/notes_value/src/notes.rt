//! Notes.
use crate::expressions::Expr;

/// Where the function begins: an address, or the name of a symbol.
#[derive(Drop)]
pub enum Function {
    /// An address, a multiple of 4.
    At(u32),
    /// The bytes of a symbol's name.
    Named(Vec<u8>),
}

/// An expression with the number of its line, from 1 on.
#[derive(Drop)]
pub struct NoteLine {
    pub line: u32,
    pub says: Expr,
}

/// An expression that is to be true at an address, a multiple of 4, with the number of its line, from 1 on.
#[derive(Drop)]
pub struct Assert {
    pub line: u32,
    pub at: u32,
    pub says: Expr,
}

/// The targets that an indirect jump at an address may have, one at least; all are multiples of 4.
#[derive(Drop)]
pub struct Targets {
    pub at: u32,
    pub to: Vec<u32>,
}

/// A range of addresses whose bytes stay; both ends belong to it, and `low` is not above `high`.
#[derive(Clone, Copy)]
pub struct FixedRange {
    pub low: u32,
    pub high: u32,
}

/// Notes, each list in the order of the lines; no two of the targets are of one address.
#[derive(Drop)]
pub struct Notes {
    pub entry: Function,
    pub required: Vec<NoteLine>,
    pub ensured: Vec<NoteLine>,
    pub asserts: Vec<Assert>,
    pub targets: Vec<Targets>,
    pub fixed: Vec<FixedRange>,
}

/// Bytes that a function may write: so many, 1 to 256, from the value of an expression on, with the number of the line, from 1 on.
#[derive(Drop)]
pub struct Writes {
    pub line: u32,
    pub says: Expr,
    pub count: u32,
}

/// A contract of the function at an address: what it needs where it is called, what it gives where it comes back, the bytes that it may write, and the
/// registers and flags that it may change. Lines are in their order. A register or a flag is in its set where the bit of its number is 1.
#[derive(Drop)]
pub struct Contract {
    pub at: u32,
    pub needs: Vec<NoteLine>,
    pub gives: Vec<NoteLine>,
    pub writes: Vec<Writes>,
    pub registers: u32,
    pub flags: u8,
}

/// Notes whose `assert` lines have the invariants among them, the numbers of the lines that are invariants, which rise, and the contracts in the order of their
/// first lines, of which no two are of one address.
#[derive(Drop)]
pub struct FrameNotes {
    pub notes: Notes,
    pub invariants: Vec<u32>,
    pub contracts: Vec<Contract>,
}
