//! SWP and SWPB (section A3.13).
ghost use Rattle.std.specs.Prelude.{◌≡◌, IfOk, ◌≢◌, ◌==◌, true, false};
ghost use Rattle.machine_spec.specs.Arm as rows;
ghost use Rattle.machine_spec.specs.Arm.{arm};
ghost use Rattle.machine_spec.specs.Bil as bil;
ghost use Rattle.machine_spec.specs.Bil.{RRegisters};
ghost use Rattle.machine_spec.specs.MachineLaws.{IsLifting};
ghost use Rattle.bil_ast.specs.Views.{binary_of, expression, statements};
ghost use Rattle.byte_mem.specs.Views.{endian_of};
ghost use Rattle.arm_lift_alu.specs.Operands as operands;
ghost use Rattle.arm_lift_mem.specs.Accesses as parts;
ghost use Rattle.arm_lift_mem.specs.Swaps as lifts;

use crate::accesses::{aligned, assign, load, loaded, stored, two};
use arm_decode::{Insn, Register, Swap, SwapFields};
use arm_lift_alu::conditional::conditional;
use arm_lift_alu::shifter::{cast, own};
use bil_ast::{BinaryOp, CastKind, Exp, Stmt};
use byte_mem::Endian;
use std::alloc::{AllocError, Global};

/// What is left of the sum in a register, once the register itself stands in memory.
fn left_over(
    alloc: Global,
    is_byte: bool,
    order: Endian,
    sum: Register,
    address: Register,
) -> Result<Exp, AllocError>
    ensures { IfOk result (λ e. expression e ≡ lifts.left_over is_byte (endian_of order) (operands.own sum.number) (operands.own address.number)) }
{
    let place = own(address.number());
    if is_byte {
        let low = cast(alloc, CastKind::Low, 8, own(sum.number()))?;
        let stored = load(alloc, place, order, 8)?;
        let byte = Exp::binary(alloc, BinaryOp::Minus, low, stored)?;
        return cast(alloc, CastKind::Unsigned, 32, byte);
    }
    let place = aligned(alloc, place)?;
    let stored = load(alloc, place, order, 32)?;
    Exp::binary(alloc, BinaryOp::Minus, own(sum.number()), stored)
}

/// Two registers: one takes what was in memory, and memory takes the other.
fn swap_two(alloc: Global, insn: SwapFields, order: Endian) -> Result<Vec<Stmt>, AllocError>
    ensures { IfOk result (λ list. statements list.items
        ≡ lifts.swap_by false insn.is_byte (endian_of order) insn.rn.number insn.rd.number insn.rm.number) }
{
    let value = loaded(alloc, insn.is_byte, order, own(insn.rn.number()))?;
    let store = stored(
        alloc,
        insn.is_byte,
        order,
        own(insn.rn.number()),
        own(insn.rm.number()),
    )?;
    two(alloc, assign(insn.rd.number(), value), store)
}

/// A register with what is loaded added to it or taken off it.
fn with_loaded(
    alloc: Global,
    op: BinaryOp,
    insn: SwapFields,
    order: Endian,
) -> Result<Exp, AllocError>
    ensures { IfOk result (λ e. expression e
        ≡ bil.Binary (binary_of op) (operands.own insn.rd.number) (parts.loaded insn.is_byte (endian_of order) (operands.own insn.rn.number))) }
{
    let value = loaded(alloc, insn.is_byte, order, own(insn.rn.number()))?;
    Exp::binary(alloc, op, own(insn.rd.number()), value)
}

/// One register: what is loaded is added to it, taken off it where it is stored, and then it is taken off itself.
#[tactic(auto, using(crate::proofs::Choices::inserted))]
fn swap_one(alloc: Global, insn: SwapFields, order: Endian) -> Result<Vec<Stmt>, AllocError>
    ensures { IfOk result (λ list. statements list.items
        ≡ lifts.swap_by true insn.is_byte (endian_of order) insn.rn.number insn.rd.number insn.rm.number) }
{
    let sum = with_loaded(alloc, BinaryOp::Plus, insn, order)?;
    let old = with_loaded(alloc, BinaryOp::Minus, insn, order)?;
    let store = stored(alloc, insn.is_byte, order, own(insn.rn.number()), old)?;
    let rest = left_over(alloc, insn.is_byte, order, insn.rd, insn.rn)?;
    let mut list = two(alloc, store, assign(insn.rd.number(), rest))?;
    list.insert(0, assign(insn.rd.number(), sum))?;
    Ok(list)
}

/// The list of SWP and SWPB where its condition holds.
#[tactic(auto, using(crate::proofs::Choices::as_one, crate::proofs::Choices::as_two))]
fn swap(alloc: Global, insn: SwapFields, order: Endian) -> Result<Vec<Stmt>, AllocError>
    ensures { IfOk result (λ list. statements list.items ≡ lifts.swap insn (endian_of order)) }
{
    if insn.rd.number() == insn.rm.number() {
        swap_one(alloc, insn, order)
    } else {
        swap_two(alloc, insn, order)
    }
}

/// The list of SWP or SWPB that stands at an address, in a byte order. The error is want of memory.
///
/// Where Rd is Rm, the list loads the old word again in place of keeping it.
pub fn lift_swap(
    alloc: Global,
    insn: &Swap,
    at: u32,
    order: Endian,
) -> Result<Vec<Stmt>, AllocError>
    ensures { IfOk result (λ list. (profile : rows.Profile) →
        IsLifting (arm (endian_of order) profile) RRegisters (rows.swap (endian_of order) insn.now.word) at (statements list.items)) }
{
    let condition = Insn::Swap(*insn).condition();
    let list = swap(alloc, insn.fields(), order)?;
    conditional(alloc, condition, list)
}
