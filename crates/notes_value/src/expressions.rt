//! Expressions of notes.

/// The binary operators on words of 32 bits. Sums, differences and products wrap; shifts by 32 and above give all fill; comparisons, `Or` and `And` give 1 or
/// 0. Comparisons are of unsigned numbers but for those that say `Signed`.
#[derive(Clone, Copy)]
pub enum Operator {
    Or,
    And,
    Equal,
    NotEqual,
    Below,
    AtMost,
    Above,
    AtLeast,
    SignedBelow,
    SignedAtMost,
    SignedAbove,
    SignedAtLeast,
    BitOr,
    BitXor,
    BitAnd,
    ShiftLeft,
    ShiftRight,
    ShiftSigned,
    Plus,
    Minus,
    Times,
}

/// How many bytes a load has: 1, 2 or 4.
#[derive(Clone, Copy)]
pub enum Size {
    Byte,
    Half,
    Word,
}

/// An expression over a state and the state at entry; its value is a word of 32 bits.
#[derive(Drop)]
pub enum Expr {
    /// A number.
    Number(u32),
    /// A register, by its number.
    Register(u8),
    /// A flag, by its number: N 3, Z 2, C 1 and V 0.
    Flag(u8),
    /// The address of the step at hand.
    Pc,
    /// The name that an `all` binds; 0 outside of one.
    Bound,
    /// The number of so many bytes at an address, which wraps.
    Memory(Size, Box<Expr>),
    /// The value in the state at entry.
    Old(Box<Expr>),
    /// 1 where the value is 0, else 0.
    Not(Box<Expr>),
    /// A binary operator on two values.
    Binary(Operator, Box<Expr>, Box<Expr>),
    /// 1 where the expression is true for each number from the first to the second, put for the bound name, else 0. The first is tried also where the second
    /// is below it.
    All(u32, u32, Box<Expr>),
}
