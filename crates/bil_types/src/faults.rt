//! What breaks a rule of typing.

use bil_ast::{BilType, Width};
use thiserror::Error;

/// What a rule asks of an operand.
#[derive(Clone, Copy, PartialEq, Eq, Debug)]
pub enum Need {
    /// A word of this width.
    Bits(Width),
    /// A word of any width.
    AnyBits,
    /// A memory.
    Memory,
    /// That operands and the numbers of the node fit together.
    Fits,
}

/// The first thing in a tree that breaks a rule of typing.
#[derive(Clone, Copy, PartialEq, Eq, Debug, Error)]
#[error("a rule of typing is broken")]
pub struct TypeFault {
    /// The number of the node whose rule is broken, counted in preorder from 0; 2^64 - 1 where it is greater.
    pub place: u64,
    /// What its rule asks of the first operand that breaks it.
    pub need: Need,
    /// The type of that operand. Where `need` is `Fits`: the type of the first operand, or that which a node without operands names.
    pub found: BilType,
}
