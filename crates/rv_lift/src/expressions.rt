//! The expressions of lifted instructions.
ghost use Rattle.std.specs.Prelude.{◌≡◌, ◌≤◌, IfOk};
ghost use Rattle.word_spec.specs.Memory.{Little};
ghost use Rattle.machine_spec.specs.Bil as bil;
ghost use Rattle.bil_ast.specs.Views.{binary_of, cast_of, expression};
ghost use Rattle.rv_lift.specs.Lifted as lifts;

use bil_ast::{Bank, BinaryOp, CastKind, Exp, UnaryOp, Var, Width};
use bv_word::Word;
use byte_mem::Endian;
use rv_decode::{BranchOp, LoadOp, Register, StoreOp};
use std::alloc::{AllocError, Global};

/// A constant word.
pub(crate) fn number(value: u32) -> Exp
    ensures { expression result ≡ lifts.number value }
{
    Exp::Constant(Word::new(32, value as u64))
}

/// What a register reads: x0 the constant 0 (section 2.1).
#[tactic(auto, using(crate::proofs::Registers::register_is))]
pub(crate) fn register(r: Register) -> Exp
    ensures { expression result ≡ lifts.register r.number }
{
    if r.number() == 0 {
        number(0)
    } else {
        Exp::Var(Var::Register(Bank::XRegisters, r.number()))
    }
}

/// A register's word and an offset.
pub(crate) fn address(alloc: Global, base: Register, offset: u32) -> Result<Exp, AllocError>
    ensures { IfOk result (λ e. expression e ≡ lifts.address base.number offset) }
{
    Exp::binary(alloc, BinaryOp::Plus, register(base), number(offset))
}

fn cast(alloc: Global, kind: CastKind, bits: u8, word: Exp) -> Result<Exp, AllocError>
    requires some { 1 ≤ bits }
    requires few { bits ≤ 64 }
    ensures { IfOk result (λ e. expression e ≡ bil.Cast (cast_of kind) bits (expression word)) }
{
    Exp::cast(alloc, kind, Width::new(bits), word)
}

/// A comparison that does not hold.
fn fails(alloc: Global, op: BinaryOp, a: Exp, b: Exp) -> Result<Exp, AllocError>
    ensures { IfOk result (λ e. expression e ≡ bil.Unary bil.Not (bil.Binary (binary_of op) (expression a) (expression b))) }
{
    let holds = Exp::binary(alloc, op, a, b)?;
    Exp::unary(alloc, UnaryOp::Not, holds)
}

/// What a branch tests, as one bit.
pub(crate) fn test(alloc: Global, op: BranchOp, a: Exp, b: Exp) -> Result<Exp, AllocError>
    ensures { IfOk result (λ e. expression e ≡ lifts.test op (expression a) (expression b)) }
{
    match op {
        BranchOp::Beq => Exp::binary(alloc, BinaryOp::Equal, a, b),
        BranchOp::Bne => Exp::binary(alloc, BinaryOp::NotEqual, a, b),
        BranchOp::Blt => Exp::binary(alloc, BinaryOp::SignedLess, a, b),
        BranchOp::Bge => fails(alloc, BinaryOp::SignedLess, a, b),
        BranchOp::Bltu => Exp::binary(alloc, BinaryOp::Less, a, b),
        BranchOp::Bgeu => fails(alloc, BinaryOp::Less, a, b),
    }
}

fn load(alloc: Global, at: Exp, bits: u8) -> Result<Exp, AllocError>
    requires some { 1 ≤ bits }
    requires few { bits ≤ 64 }
    ensures { IfOk result (λ e. expression e ≡ bil.Load (bil.Var bil.Mem) (expression at) Little bits) }
{
    Exp::load(
        alloc,
        Exp::Var(Var::Memory),
        at,
        Endian::Little,
        Width::new(bits),
    )
}

/// A load of fewer bytes than a word has, and its cast to a word.
fn load_part(alloc: Global, kind: CastKind, at: Exp, bits: u8) -> Result<Exp, AllocError>
    requires some { 1 ≤ bits }
    requires few { bits ≤ 64 }
    ensures { IfOk result (λ e. expression e ≡ bil.Cast (cast_of kind) 32 (bil.Load (bil.Var bil.Mem) (expression at) Little bits)) }
{
    let part = load(alloc, at, bits)?;
    cast(alloc, kind, 32, part)
}

/// What a load makes of the bytes at an address (section 2.6).
pub(crate) fn loaded(alloc: Global, op: LoadOp, at: Exp) -> Result<Exp, AllocError>
    ensures { IfOk result (λ e. expression e ≡ lifts.loaded op (expression at)) }
{
    match op {
        LoadOp::Lb => load_part(alloc, CastKind::Signed, at, 8),
        LoadOp::Lh => load_part(alloc, CastKind::Signed, at, 16),
        LoadOp::Lw => load(alloc, at, 32),
        LoadOp::Lbu => load_part(alloc, CastKind::Unsigned, at, 8),
        LoadOp::Lhu => load_part(alloc, CastKind::Unsigned, at, 16),
    }
}

fn store(alloc: Global, at: Exp, bits: u8, value: Exp) -> Result<Exp, AllocError>
    requires some { 1 ≤ bits }
    requires few { bits ≤ 64 }
    ensures { IfOk result (λ e. expression e ≡ bil.Store (bil.Var bil.Mem) (expression at) Little bits (expression value)) }
{
    Exp::store(
        alloc,
        Exp::Var(Var::Memory),
        at,
        Endian::Little,
        Width::new(bits),
        value,
    )
}

/// The memory with the low bytes of a word at an address (section 2.6).
pub(crate) fn stored(alloc: Global, op: StoreOp, at: Exp, value: Exp) -> Result<Exp, AllocError>
    ensures { IfOk result (λ e. expression e ≡ lifts.stored op (expression at) (expression value)) }
{
    match op {
        StoreOp::Sb => {
            let low = cast(alloc, CastKind::Low, 8, value)?;
            store(alloc, at, 8, low)
        }
        StoreOp::Sh => {
            let low = cast(alloc, CastKind::Low, 16, value)?;
            store(alloc, at, 16, low)
        }
        StoreOp::Sw => store(alloc, at, 32, value),
    }
}
