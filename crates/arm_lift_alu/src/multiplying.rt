//! MUL and MLA (section A3.5).
ghost use Rattle.machine_spec.specs.Arm as rows;
ghost use Rattle.machine_spec.specs.Arm.{arm};
ghost use Rattle.machine_spec.specs.MachineLaws.{IsLifting};
ghost use Rattle.byte_mem.specs.Views.{endian_of};
ghost use Rattle.std.specs.Prelude.{◌≡◌, IfOk};
ghost use Rattle.machine_spec.specs.Bil.{RRegisters};
ghost use Rattle.bil_ast.specs.Views.{expression, statements};
ghost use Rattle.arm_lift_alu.specs.Multiplied as lifts;

use crate::conditional::conditional;
use crate::expressions::number;
use crate::shifter::{bit_of, own};
use arm_decode::{Class, Multiply, MultiplyFields};
use bil_ast::{Bank, BilType, BinaryOp, Exp, Stmt, Var, Width};
use byte_mem::Endian;
use std::alloc::{AllocError, Global};

/// The product, and what is added to it.
fn product(alloc: Global, insn: MultiplyFields) -> Result<Exp, AllocError>
    ensures { IfOk result (λ e. expression e ≡ lifts.product insn.rm.number insn.rs.number insn.addend) }
{
    let product = Exp::binary(
        alloc,
        BinaryOp::Times,
        own(insn.rm.number()),
        own(insn.rs.number()),
    )?;
    match insn.addend {
        Some(r) => Exp::binary(alloc, BinaryOp::Plus, product, own(r.number())),
        None => Ok(product),
    }
}

/// The list of MUL and MLA where its condition holds.
fn multiplied(alloc: Global, insn: MultiplyFields, keeps: bool) -> Result<Vec<Stmt>, AllocError>
    ensures { IfOk result (λ list. statements list.items ≡ lifts.multiplied keeps insn) }
{
    let rd = insn.rd.number();
    let value = product(alloc, insn)?;
    let mut list = Vec::new(alloc);
    list.push(Stmt::Assign(Var::Register(Bank::RRegisters, rd), value))?;
    if !insn.sets_flags {
        return Ok(list);
    }
    let negative = bit_of(alloc, 31, own(rd))?;
    let zero = Exp::binary(alloc, BinaryOp::Equal, own(rd), number(0))?;
    list.push(Stmt::Assign(Var::Flag(3), negative))?;
    list.push(Stmt::Assign(Var::Flag(2), zero))?;
    if keeps {
        return Ok(list);
    }
    let unknown = Exp::Unknown(BilType::Bits(Width::new(1)));
    list.push(Stmt::Assign(Var::Flag(1), unknown))?;
    Ok(list)
}

/// The list of MUL or MLA that stands at an address, in a byte order and every profile; it is the same in both orders. The error is want of memory.
pub fn lift_multiply(
    alloc: Global,
    insn: &Multiply,
    at: u32,
    order: Endian,
) -> Result<Vec<Stmt>, AllocError>
    ensures { IfOk result (λ list. (profile : rows.Profile) →
        IsLifting (arm (endian_of order) profile) RRegisters (rows.multiply insn.now.keeps insn.now.word) at (statements list.items)) }
{
    let condition = insn.condition();
    let list = multiplied(alloc, insn.fields(), insn.keeps())?;
    conditional(alloc, condition, list)
}
