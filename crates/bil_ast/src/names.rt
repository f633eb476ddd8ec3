//! Types, variables and operators.

use crate::Width;

/// The type of an expression: a word of a width, or the memory.
#[derive(Clone, Copy, PartialEq, Eq, Debug)]
pub enum BilType {
    Bits(Width),
    Memory,
}

/// The registers of RISC-V, `x0` and on, or those of ARM, `r0` and on.
#[derive(Clone, Copy)]
pub enum Bank {
    XRegisters,
    RRegisters,
}

/// A local word, which a `let` binds: a number and a width tell it.
#[derive(Clone, Copy)]
pub struct Local {
    /// The number, which has no meaning beyond telling locals of one width apart.
    pub number: u32,
    /// The width.
    pub width: Width,
}

/// A variable.
#[derive(Clone, Copy)]
pub enum Var {
    /// A register of 32 bits, by its number.
    Register(Bank, u8),
    /// A flag of 1 bit, by its number: N 3, Z 2, C 1, V 0.
    Flag(u8),
    /// The memory.
    Memory,
    /// A local word.
    Local(Local),
}

/// An operator between two words of one width. The comparisons give 1 bit, the others a word of that width.
#[derive(Clone, Copy, PartialEq, Eq, Hash)]
pub enum BinaryOp {
    /// The sum, which wraps.
    Plus,
    /// The difference, which wraps.
    Minus,
    /// The product, which wraps.
    Times,
    /// The unsigned quotient; all ones where the divisor is 0.
    Divide,
    /// The signed quotient, cut toward 0; all ones where the divisor is 0.
    SignedDivide,
    /// The unsigned remainder; the dividend where the divisor is 0.
    Modulo,
    /// The signed remainder, with the dividend's sign; the dividend where the divisor is 0.
    SignedModulo,
    /// The bits that both words have.
    And,
    /// The bits that one of the words has.
    Or,
    /// The bits that exactly one of the words has.
    Xor,
    /// A shift to the left.
    ShiftLeft,
    /// A shift to the right, with zeros.
    ShiftRight,
    /// A shift to the right, with the sign.
    ShiftSigned,
    /// Whether the words are equal.
    Equal,
    /// Whether the words differ.
    NotEqual,
    /// Whether the first is below the second, unsigned.
    Less,
    /// Whether the first is at most the second, unsigned.
    LessEqual,
    /// Whether the first is below the second, signed.
    SignedLess,
    /// Whether the first is at most the second, signed.
    SignedLessEqual,
}

/// An operator on one word.
#[derive(Clone, Copy)]
pub enum UnaryOp {
    /// The negative, which wraps.
    Negate,
    /// Each bit turned.
    Not,
}

/// A change of width.
#[derive(Clone, Copy)]
pub enum CastKind {
    /// The lowest bits.
    Low,
    /// The highest bits.
    High,
    /// The word, with its sign above.
    Signed,
    /// The word, with zeros above.
    Unsigned,
}
