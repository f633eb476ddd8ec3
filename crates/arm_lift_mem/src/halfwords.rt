//! LDRH, STRH, LDRSB and LDRSH (section A3.11).
ghost use Rattle.std.specs.Prelude.{◌≡◌, ◌≤◌, IfOk};
ghost use Rattle.machine_spec.specs.Arm as rows;
ghost use Rattle.machine_spec.specs.Arm.{arm};
ghost use Rattle.machine_spec.specs.Bil as bil;
ghost use Rattle.machine_spec.specs.Bil.{RRegisters};
ghost use Rattle.machine_spec.specs.MachineLaws.{IsLifting};
ghost use Rattle.bil_ast.specs.Views.{cast_of, expression, statements};
ghost use Rattle.byte_mem.specs.Views.{endian_of};
ghost use Rattle.arm_lift_alu.specs.Operands as operands;
ghost use Rattle.arm_lift_mem.specs.Accesses as parts;
ghost use Rattle.arm_lift_mem.specs.Halfwords as lifts;

use crate::accesses::{
    address, address_again, assign, before_write_back, behind_write_back, load, store, unless,
};
use arm_decode::{AnyRegister, Halfword, HalfwordFields, HalfwordOffset, HalfwordOp, Insn};
use arm_lift_alu::conditional::conditional;
use arm_lift_alu::expressions::number;
use arm_lift_alu::shifter::{cast, own, register};
use bil_ast::{CastKind, Exp, Stmt};
use byte_mem::Endian;
use std::alloc::{AllocError, Global};

/// The offset, in a row that stands at an address.
fn offset_of(offset: HalfwordOffset, at: u32) -> Exp
    ensures { expression result ≡ lifts.offset_of offset at }
{
    match offset {
        HalfwordOffset::Number(value) => number(value as u32),
        HalfwordOffset::Register(r) => register(AnyRegister::new(r.number()), at),
    }
}

/// A load of fewer bytes than a word has, behind the write-back; its cast to a word goes to a register.
fn load_list(
    alloc: Global,
    insn: HalfwordFields,
    order: Endian,
    at: u32,
    kind: CastKind,
    bits: u8,
) -> Result<Vec<Stmt>, AllocError>
    requires some { 1 ≤ bits }
    requires few { bits ≤ 64 }
    ensures { IfOk result (λ list. statements list.items ≡ lifts.load_list insn
        (bil.Cast (cast_of kind) 32 (bil.Load (bil.Var bil.Mem)
        (lifts.place_again insn (operands.register insn.rn.number at) (lifts.offset_of insn.offset at)) (endian_of order) bits))
        (lifts.offset_of insn.offset at)) }
{
    let offset = offset_of(insn.offset, at);
    let place = address_again(alloc, insn.addressing, register(insn.rn, at), &offset)?;
    let part = load(alloc, place, order, bits)?;
    let value = cast(alloc, kind, 32, part)?;
    let load = assign(insn.rd.number(), value);
    behind_write_back(alloc, insn.addressing, insn.rn, offset, load)
}

/// STRH at an even address, before the write-back.
fn store_list(
    alloc: Global,
    insn: HalfwordFields,
    order: Endian,
    at: u32,
) -> Result<Vec<Stmt>, AllocError>
    ensures { IfOk result (λ list. statements list.items ≡ lifts.store_list insn (endian_of order) (operands.register insn.rn.number at)
        (lifts.offset_of insn.offset at)) }
{
    let offset = offset_of(insn.offset, at);
    let place = address(alloc, insn.addressing, register(insn.rn, at), &offset)?;
    let low = cast(alloc, CastKind::Low, 16, own(insn.rd.number()))?;
    let store = store(alloc, place, order, 16, low)?;
    before_write_back(alloc, insn.addressing, insn.rn, offset, store)
}

/// A list behind the test of the address: an odd one is an exception.
fn unless_odd(
    alloc: Global,
    insn: HalfwordFields,
    at: u32,
    list: Vec<Stmt>,
) -> Result<Vec<Stmt>, AllocError>
    ensures { IfOk result (λ all. statements all.items
        ≡ parts.unless (lifts.is_odd (lifts.place insn (operands.register insn.rn.number at) (lifts.offset_of insn.offset at))) 4 (statements list.items)) }
{
    let offset = offset_of(insn.offset, at);
    let place = address(alloc, insn.addressing, register(insn.rn, at), &offset)?;
    let is_odd = cast(alloc, CastKind::Low, 1, place)?;
    unless(alloc, is_odd, 4, list)
}

/// The list of LDRH, STRH, LDRSB and LDRSH where its condition holds.
fn halfword(
    alloc: Global,
    insn: HalfwordFields,
    order: Endian,
    at: u32,
) -> Result<Vec<Stmt>, AllocError>
    ensures { IfOk result (λ list. statements list.items ≡ lifts.halfword insn (endian_of order) at) }
{
    match insn.op {
        HalfwordOp::Ldrh => {
            let list = load_list(alloc, insn, order, at, CastKind::Unsigned, 16)?;
            unless_odd(alloc, insn, at, list)
        }
        HalfwordOp::Ldrsb => load_list(alloc, insn, order, at, CastKind::Signed, 8),
        HalfwordOp::Ldrsh => {
            let list = load_list(alloc, insn, order, at, CastKind::Signed, 16)?;
            unless_odd(alloc, insn, at, list)
        }
        HalfwordOp::Strh => {
            let list = store_list(alloc, insn, order, at)?;
            unless_odd(alloc, insn, at, list)
        }
    }
}

/// The list of LDRH, STRH, LDRSB or LDRSH that stands at an address, in a byte order. The error is want of memory.
///
/// A halfword at an odd address is the exception of number 4. Where the base is written back, a load comes behind that, and finds its address again.
pub fn lift_halfword(
    alloc: Global,
    insn: &Halfword,
    at: u32,
    order: Endian,
) -> Result<Vec<Stmt>, AllocError>
    ensures { IfOk result (λ list. (profile : rows.Profile) →
        IsLifting (arm (endian_of order) profile) RRegisters (rows.halfword (endian_of order) insn.now.word) at (statements list.items)) }
{
    let condition = Insn::Halfword(*insn).condition();
    let list = halfword(alloc, insn.fields(), order, at)?;
    conditional(alloc, condition, list)
}
