//! Expressions.

ghost use Rattle.std.specs.Prelude.{◌≡◌, ◌-◌, ◌^◌, ◌+◌, min, IfOk};
ghost use Rattle.machine_spec.specs.Bil as bil;
ghost use Rattle.byte_mem.specs.Views.{endian_of};
ghost use Rattle.bil_ast.specs.Views.{binary_of, cast_of, expression, unary_of};

use crate::{BilType, BinaryOp, CastKind, Local, UnaryOp, Var, Width};
use bv_word::Word;
use byte_mem::Endian;
use std::alloc::{AllocError, Global};

/// An expression.
#[derive(Drop)]
pub enum Exp {
    /// The value of a variable.
    Var(Var),
    /// A constant word.
    Constant(Word),
    /// The word of a width at an address of a memory.
    Load {
        memory: Box<Exp>,
        address: Box<Exp>,
        order: Endian,
        width: Width,
    },
    /// A memory with the word of a width written at an address.
    Store {
        memory: Box<Exp>,
        address: Box<Exp>,
        order: Endian,
        width: Width,
        value: Box<Exp>,
    },
    /// An operator between two words.
    Binary(BinaryOp, Box<Exp>, Box<Exp>),
    /// An operator on one word.
    Unary(UnaryOp, Box<Exp>),
    /// A word in another width.
    Cast(CastKind, Width, Box<Exp>),
    /// The second expression, with the first's value for the local.
    Let(Local, Box<Exp>, Box<Exp>),
    /// Bits that are known to nobody. Of a memory it has no type.
    Unknown(BilType),
    /// One of two values, by a condition of 1 bit.
    Choose {
        condition: Box<Exp>,
        when_true: Box<Exp>,
        when_false: Box<Exp>,
    },
    /// The bits of a word from `hi` down to `lo`.
    Extract {
        hi: u8,
        lo: u8,
        word: Box<Exp>,
    },
    /// Two words, the first above the second.
    Concat(Box<Exp>, Box<Exp>),
}

impl Exp {
    /// A load of the word of a width at an address.
    pub fn load(
        alloc: Global,
        memory: Exp,
        address: Exp,
        order: Endian,
        width: Width,
    ) -> Result<Exp, AllocError>
        ensures { IfOk result (λ e. expression e ≡ bil.Load (expression memory) (expression address) (endian_of order) width.bits) }
    {
        Ok(Exp::Load {
            memory: Box::new(alloc, memory)?,
            address: Box::new(alloc, address)?,
            order,
            width,
        })
    }

    /// A memory with the word of a width written at an address.
    pub fn store(
        alloc: Global,
        memory: Exp,
        address: Exp,
        order: Endian,
        width: Width,
        value: Exp,
    ) -> Result<Exp, AllocError>
        ensures { IfOk result (λ e. expression e ≡ bil.Store (expression memory) (expression address) (endian_of order) width.bits (expression value)) }
    {
        Ok(Exp::Store {
            memory: Box::new(alloc, memory)?,
            address: Box::new(alloc, address)?,
            order,
            width,
            value: Box::new(alloc, value)?,
        })
    }

    /// An operator between two words.
    pub fn binary(alloc: Global, op: BinaryOp, left: Exp, right: Exp) -> Result<Exp, AllocError>
        ensures { IfOk result (λ e. expression e ≡ bil.Binary (binary_of op) (expression left) (expression right)) }
    {
        Ok(Exp::Binary(op, Box::new(alloc, left)?, Box::new(alloc, right)?))
    }

    /// An operator on one word.
    pub fn unary(alloc: Global, op: UnaryOp, word: Exp) -> Result<Exp, AllocError>
        ensures { IfOk result (λ e. expression e ≡ bil.Unary (unary_of op) (expression word)) }
    {
        Ok(Exp::Unary(op, Box::new(alloc, word)?))
    }

    /// A word in another width.
    pub fn cast(alloc: Global, kind: CastKind, width: Width, word: Exp) -> Result<Exp, AllocError>
        ensures { IfOk result (λ e. expression e ≡ bil.Cast (cast_of kind) width.bits (expression word)) }
    {
        Ok(Exp::Cast(kind, width, Box::new(alloc, word)?))
    }

    /// The body, with the value for the local.
    pub fn bind(alloc: Global, local: Local, value: Exp, body: Exp) -> Result<Exp, AllocError>
        ensures { IfOk result (λ e. expression e ≡ bil.Let local.number local.width.bits (expression value) (expression body)) }
    {
        Ok(Exp::Let(local, Box::new(alloc, value)?, Box::new(alloc, body)?))
    }

    /// One of two values, by a condition of 1 bit.
    pub fn choose(
        alloc: Global,
        condition: Exp,
        when_true: Exp,
        when_false: Exp,
    ) -> Result<Exp, AllocError>
        ensures { IfOk result (λ e. expression e ≡ bil.Choose (expression condition) (expression when_true) (expression when_false)) }
    {
        Ok(Exp::Choose {
            condition: Box::new(alloc, condition)?,
            when_true: Box::new(alloc, when_true)?,
            when_false: Box::new(alloc, when_false)?,
        })
    }

    /// The bits of a word from `hi` down to `lo`, both counted from 0 at the lowest.
    pub fn extract(alloc: Global, hi: u8, lo: u8, word: Exp) -> Result<Exp, AllocError>
        ensures { IfOk result (λ e. expression e ≡ bil.Extract hi lo (expression word)) }
    {
        Ok(Exp::Extract {
            hi,
            lo,
            word: Box::new(alloc, word)?,
        })
    }

    /// Two words, the first above the second.
    pub fn concat(alloc: Global, high: Exp, low: Exp) -> Result<Exp, AllocError>
        ensures { IfOk result (λ e. expression e ≡ bil.Concat (expression high) (expression low)) }
    {
        Ok(Exp::Concat(Box::new(alloc, high)?, Box::new(alloc, low)?))
    }

    /// How many nodes the expression has; 2^64 - 1 where it has more. It takes no memory.
    pub fn size(&self) -> u64
        ensures { result ≡ min (bil.size (expression self.now)) (2 ^ 64 - 1) }
    {
        match self {
            Exp::Var(_) | Exp::Constant(_) | Exp::Unknown(_) => 1,
            Exp::Load {
                memory,
                address,
                ..
            } => sum(memory.size(), address.size()),
            Exp::Store {
                memory,
                address,
                value,
                ..
            } => sum(memory.size(), address.size()).saturating_add(value.size()),
            Exp::Binary(_, left, right) | Exp::Let(_, left, right) | Exp::Concat(left, right) =>
                sum(left.size(), right.size()),
            Exp::Unary(_, word) | Exp::Cast(_, _, word) | Exp::Extract { word, .. } => word
                .size()
                .saturating_add(1),
            Exp::Choose {
                condition,
                when_true,
                when_false,
            } => sum(condition.size(), when_true.size()).saturating_add(when_false.size()),
        }
    }

    /// An equal expression, in memory of its own.
    pub fn copy(&self, alloc: Global) -> Result<Exp, AllocError>
        ensures { IfOk result (λ e. expression e ≡ expression self.now) }
    {
        match self {
            Exp::Var(x) => Ok(Exp::Var(*x)),
            Exp::Constant(word) => Ok(Exp::Constant(*word)),
            Exp::Load {
                memory,
                address,
                order,
                width,
            } => {
                let (memory, address) = both(memory.copy(alloc), address.copy(alloc))?;
                Exp::load(alloc, memory, address, *order, *width)
            }
            Exp::Store {
                memory,
                address,
                order,
                width,
                value,
            } => {
                let (memory, address) = both(memory.copy(alloc), address.copy(alloc))?;
                Exp::store(alloc, memory, address, *order, *width, value.copy(alloc)?)
            }
            Exp::Binary(op, left, right) => {
                let (left, right) = both(left.copy(alloc), right.copy(alloc))?;
                Exp::binary(alloc, *op, left, right)
            }
            Exp::Unary(op, word) => Exp::unary(alloc, *op, word.copy(alloc)?),
            Exp::Cast(kind, width, word) => Exp::cast(alloc, *kind, *width, word.copy(alloc)?),
            Exp::Let(local, value, body) => {
                let (value, body) = both(value.copy(alloc), body.copy(alloc))?;
                Exp::bind(alloc, *local, value, body)
            }
            Exp::Unknown(found) => Ok(Exp::Unknown(*found)),
            Exp::Choose {
                condition,
                when_true,
                when_false,
            } => {
                let (when_true, when_false) = both(when_true.copy(alloc), when_false.copy(alloc))?;
                Exp::choose(alloc, condition.copy(alloc)?, when_true, when_false)
            }
            Exp::Extract { hi, lo, word } => Exp::extract(alloc, *hi, *lo, word.copy(alloc)?),
            Exp::Concat(high, low) => {
                let (high, low) = both(high.copy(alloc), low.copy(alloc))?;
                Exp::concat(alloc, high, low)
            }
        }
    }
}

/// Two expressions, if both were made.
fn both(
    left: Result<Exp, AllocError>,
    right: Result<Exp, AllocError>,
) -> Result<(Exp, Exp), AllocError>
    ensures left { IfOk result (λ two. left ≡ Ok two.0) }
    ensures right { IfOk result (λ two. right ≡ Ok two.1) }
{
    let left = left?;
    let right = right?;
    Ok((left, right))
}

/// The size of a node over two operands of these sizes; 2^64 - 1 where it is more.
fn sum(left: u64, right: u64) -> u64
    ensures { result ≡ min (1 + left + right) (2 ^ 64 - 1) }
{
    left.saturating_add(right).saturating_add(1)
}
