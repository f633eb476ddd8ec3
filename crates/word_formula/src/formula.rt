//! Formulas over two words of 32 bits.
ghost use Rattle.std.specs.Prelude.{◌≡◌, ◌*◌, IfOk};
ghost use Rattle.machine_spec.specs.Bil as bil;
ghost use Rattle.machine_spec.specs.Rv as rows;
ghost use Rattle.bil_ast.specs.Views.{binary_of, expression};
ghost use Rattle.word_formula.specs.Formulas as formulas;

use crate::operators;
use bil_ast::{BinaryOp, CastKind, Exp, Width};
use bv_word::Word;
use std::alloc::{AllocError, Global};

/// How a word is brought to 64 bits.
#[derive(Clone, Copy)]
pub enum Extension {
    /// With its sign.
    Signed,
    /// With zeros.
    Unsigned,
}

/// How a word is made of two others.
#[derive(Clone, Copy)]
pub enum Formula {
    /// An operator. A comparison makes a word of one bit.
    Operator(BinaryOp),
    /// An operator whose result, as the bit of a comparison, is brought to 32 bits.
    Truth(BinaryOp),
    /// An operator on the first word and the low five bits of the second.
    Shift(BinaryOp),
    /// The upper half of a product of 64 bits.
    Upper(Extension, Extension),
}

impl Extension {
    /// A word in 64 bits.
    fn value(self, a: u32) -> Word
        ensures width { result.width ≡ 64 }
        ensures bits { result.bits ≡ formulas.extended self a }
    {
        let word = Word::new(32, a as u64);
        match self {
            Extension::Signed => word.signed(64),
            Extension::Unsigned => word.unsigned(64),
        }
    }

    /// The expression of a word in 64 bits.
    fn expression(self, alloc: Global, a: Exp) -> Result<Exp, AllocError>
        ensures { IfOk result (λ e. expression e ≡ bil.Cast (formulas.cast_by self) 64 (expression a)) }
    {
        match self {
            Extension::Signed => Exp::cast(alloc, CastKind::Signed, Width::new(64), a),
            Extension::Unsigned => Exp::cast(alloc, CastKind::Unsigned, Width::new(64), a),
        }
    }
}

/// What an operator makes of two words.
#[tactic(auto, using(crate::proofs::Values::small, crate::proofs::Values::operated))]
fn operated(op: BinaryOp, a: u32, b: u32) -> u32
    ensures { result ≡ formulas.operate (binary_of op) a b }
{
    operators::binary(op, Word::new(32, a as u64), Word::new(32, b as u64)).bits as u32
}

/// The upper half of a product of two words of 64 bits.
#[tactic(auto, using(crate::proofs::Values::upper_of))]
fn upper(a: Word, b: Word) -> u32
    requires one { a.width ≡ 64 }
    requires other { b.width ≡ 64 }
    ensures { result ≡ rows.upper (a.bits * b.bits) }
{
    a.mul(b).high(32).bits as u32
}

/// An operator's result in 32 bits.
#[inline(always)]
fn truth(alloc: Global, op: BinaryOp, a: Exp, b: Exp) -> Result<Exp, AllocError>
    ensures { IfOk result (λ e. expression e ≡ bil.Cast bil.Unsigned 32 (bil.Binary (binary_of op) (expression a) (expression b))) }
{
    let bit = Exp::binary(alloc, op, a, b)?;
    Exp::cast(alloc, CastKind::Unsigned, Width::new(32), bit)
}

/// An operator on a word and the low five bits of another.
#[inline(always)]
fn shift(alloc: Global, op: BinaryOp, a: Exp, b: Exp) -> Result<Exp, AllocError>
    ensures { IfOk result (λ e. expression e ≡ bil.Binary (binary_of op) (expression a) (formulas.amount (expression b))) }
{
    let mask = Exp::Constant(Word::new(32, 31));
    let amount = Exp::binary(alloc, BinaryOp::And, b, mask)?;
    Exp::binary(alloc, op, a, amount)
}

/// The upper half of the product of two words, each in 64 bits by an extension of its own.
fn product(
    alloc: Global,
    one: Extension,
    a: Exp,
    other: Extension,
    b: Exp,
) -> Result<Exp, AllocError>
    ensures { IfOk result (λ e. expression e ≡ formulas.product one (expression a) other (expression b)) }
{
    let a = one.expression(alloc, a)?;
    let b = other.expression(alloc, b)?;
    let product = Exp::binary(alloc, BinaryOp::Times, a, b)?;
    Exp::extract(alloc, 63, 32, product)
}

impl Formula {
    /// What it makes of two words.
    pub fn value(self, a: u32, b: u32) -> u32
        ensures { result ≡ formulas.value self a b }
    {
        match self {
            Formula::Operator(op) | Formula::Truth(op) => operated(op, a, b),
            Formula::Shift(op) => operated(op, a, b % 32),
            Formula::Upper(one, other) => upper(one.value(a), other.value(b)),
        }
    }

    /// The expression of what it makes of the words of two expressions. The error is want of memory.
    #[inline(always)]
    pub fn expression(self, alloc: Global, a: Exp, b: Exp) -> Result<Exp, AllocError>
        ensures { IfOk result (λ e. expression e ≡ formulas.expression_of self (expression a) (expression b)) }
    {
        match self {
            Formula::Operator(op) => Exp::binary(alloc, op, a, b),
            Formula::Truth(op) => truth(alloc, op, a, b),
            Formula::Shift(op) => shift(alloc, op, a, b),
            Formula::Upper(one, other) => product(alloc, one, a, other, b),
        }
    }
}
