//! UMULL, UMLAL, SMULL and SMLAL (section A3.5).
ghost use Rattle.machine_spec.specs.Arm as rows;
ghost use Rattle.machine_spec.specs.Arm.{arm};
ghost use Rattle.machine_spec.specs.MachineLaws.{IsLifting};
ghost use Rattle.byte_mem.specs.Views.{endian_of};
ghost use Rattle.std.specs.Prelude.{◌≡◌, ◌==◌, IfOk, OnOk};
ghost use Rattle.machine_spec.specs.Bil as bil;
ghost use Rattle.machine_spec.specs.Bil.{RRegisters};
ghost use Rattle.bil_ast.specs.Views.{expression, statements};
ghost use Rattle.arm_lift_alu.specs.Before.{before};
ghost use Rattle.arm_lift_alu.specs.MultipliedLong as lifts;

use crate::conditional::{add, conditional};
use crate::shifter::{bit_of, cast, own};
use arm_decode::{Class, MultiplyLong, MultiplyLongFields};
use bil_ast::{Bank, BilType, BinaryOp, CastKind, Exp, Stmt, Var, Width};
use bv_word::Word;
use byte_mem::Endian;
use std::alloc::{AllocError, Global};

/// A register's word in 64 bits, with its sign or without.
fn wide(alloc: Global, is_signed: bool, r: u8) -> Result<Exp, AllocError>
    ensures { IfOk result (λ e. expression e ≡ lifts.wide is_signed r) }
{
    if is_signed {
        cast(alloc, CastKind::Signed, 64, own(r))
    } else {
        cast(alloc, CastKind::Unsigned, 64, own(r))
    }
}

/// The product of the two registers.
fn long_product(alloc: Global, insn: MultiplyLongFields) -> Result<Exp, AllocError>
    ensures { IfOk result (λ e. expression e ≡ lifts.long_product insn.is_signed insn.rm.number insn.rs.number) }
{
    let x = wide(alloc, insn.is_signed, insn.rm.number())?;
    let y = wide(alloc, insn.is_signed, insn.rs.number())?;
    Exp::binary(alloc, BinaryOp::Times, x, y)
}

/// The lower half of the product.
fn lower_product(alloc: Global, insn: MultiplyLongFields) -> Result<Exp, AllocError>
    ensures { IfOk result (λ e. expression e ≡ lifts.lower_product insn.rm.number insn.rs.number) }
{
    Exp::binary(
        alloc,
        BinaryOp::Times,
        own(insn.rm.number()),
        own(insn.rs.number()),
    )
}

/// The lower half of the result.
fn lower(alloc: Global, insn: MultiplyLongFields) -> Result<Exp, AllocError>
    ensures { IfOk result (λ e. expression e ≡ lifts.lower insn.accumulates insn.lower.number insn.rm.number insn.rs.number) }
{
    let product = lower_product(alloc, insn)?;
    if !insn.accumulates {
        return Ok(product);
    }
    Exp::binary(alloc, BinaryOp::Plus, product, own(insn.lower.number()))
}

/// The upper half of the result, from what the lower register was.
fn upper(alloc: Global, insn: MultiplyLongFields, was: Exp) -> Result<Exp, AllocError>
    ensures { IfOk result (λ e. expression e
        ≡ lifts.upper insn.accumulates insn.is_signed insn.upper.number insn.rm.number insn.rs.number (expression was)) }
{
    let product = long_product(alloc, insn)?;
    if !insn.accumulates {
        return Exp::extract(alloc, 63, 32, product);
    }
    let more = Exp::concat(alloc, own(insn.upper.number()), was)?;
    let sum = Exp::binary(alloc, BinaryOp::Plus, product, more)?;
    Exp::extract(alloc, 63, 32, sum)
}

/// What the lower register was, found again from the lower half of the result.
fn was_lower(alloc: Global, insn: MultiplyLongFields) -> Result<Exp, AllocError>
    ensures { IfOk result (λ e. expression e ≡ lifts.was_lower insn.lower.number insn.rm.number insn.rs.number) }
{
    let product = lower_product(alloc, insn)?;
    Exp::binary(alloc, BinaryOp::Minus, own(insn.lower.number()), product)
}

/// The two registers. The one that is written first is not read again: the lower one, where the upper one is a factor.
fn both(alloc: Global, insn: MultiplyLongFields) -> Result<Vec<Stmt>, AllocError>
    ensures { IfOk result (λ list. (z : bil.Statements) → before list.items z
        ≡ lifts.both (insn.rs.number == insn.upper.number) insn.accumulates insn.is_signed insn.upper.number insn.lower.number insn.rm.number
        insn.rs.number z) }
{
    let high = Var::Register(Bank::RRegisters, insn.upper.number());
    let low = Var::Register(Bank::RRegisters, insn.lower.number());
    let lower = lower(alloc, insn)?;
    let mut list = Vec::new(alloc);
    if insn.rs.number() == insn.upper.number() {
        let was = was_lower(alloc, insn)?;
        let upper = upper(alloc, insn, was)?;
        add(&mut list, Stmt::Assign(low, lower))?;
        add(&mut list, Stmt::Assign(high, upper))?;
        return Ok(list);
    }
    let upper = upper(alloc, insn, own(insn.lower.number()))?;
    add(&mut list, Stmt::Assign(high, upper))?;
    add(&mut list, Stmt::Assign(low, lower))?;
    Ok(list)
}

/// N and Z of both registers.
fn push_signs(
    alloc: Global,
    list: &mut Vec<Stmt>,
    insn: MultiplyLongFields,
) -> Result<(), AllocError>
    ensures { OnOk result ((z : bil.Statements) → before list.new.items z
        ≡ before list.old.items (lifts.long_signs insn.upper.number insn.lower.number z)) }
{
    let negative = bit_of(alloc, 31, own(insn.upper.number()))?;
    let word = Exp::concat(alloc, own(insn.upper.number()), own(insn.lower.number()))?;
    let zero = Exp::binary(
        alloc,
        BinaryOp::Equal,
        word,
        Exp::Constant(Word::new(64, 0)),
    )?;
    add(list, Stmt::Assign(Var::Flag(3), negative))?;
    add(list, Stmt::Assign(Var::Flag(2), zero))
}

/// C and V become what nobody knows.
fn push_unknown(alloc: Global, list: &mut Vec<Stmt>) -> Result<(), AllocError>
    ensures { OnOk result ((z : bil.Statements) → before list.new.items z ≡ before list.old.items (lifts.long_unknown z)) }
{
    let overflow = bit_of(alloc, 1, Exp::Unknown(BilType::Bits(Width::new(2))))?;
    add(
        list,
        Stmt::Assign(Var::Flag(1), Exp::Unknown(BilType::Bits(Width::new(1)))),
    )?;
    add(list, Stmt::Assign(Var::Flag(0), overflow))
}

/// The list of a long multiply where its condition holds.
fn multiplied_long(
    alloc: Global,
    insn: MultiplyLongFields,
    keeps: bool,
) -> Result<Vec<Stmt>, AllocError>
    ensures { IfOk result (λ list. statements list.items ≡ lifts.multiplied_long keeps insn) }
{
    let mut list = both(alloc, insn)?;
    if !insn.sets_flags {
        return Ok(list);
    }
    push_signs(alloc, &mut list, insn)?;
    if keeps {
        return Ok(list);
    }
    push_unknown(alloc, &mut list)?;
    Ok(list)
}

/// The list of UMULL, UMLAL, SMULL or SMLAL that stands at an address, in a byte order and every profile; it is the same in both orders. The error is want of memory.
pub fn lift_multiply_long(
    alloc: Global,
    insn: &MultiplyLong,
    at: u32,
    order: Endian,
) -> Result<Vec<Stmt>, AllocError>
    ensures { IfOk result (λ list. (profile : rows.Profile) →
        IsLifting (arm (endian_of order) profile) RRegisters (rows.multiply_long insn.now.keeps insn.now.word) at (statements list.items)) }
{
    let condition = insn.condition();
    let list = multiplied_long(alloc, insn.fields(), insn.keeps())?;
    conditional(alloc, condition, list)
}
