//! LDR, LDRB, STR and STRB (section A3.11).
ghost use Rattle.std.specs.Prelude.{◌≡◌, ◌≢◌, ◌<◌, ◌%◌, ◌==◌, ◌&&◌, not, IfOk, true, false};
ghost use Rattle.machine_spec.specs.Arm as rows;
ghost use Rattle.machine_spec.specs.Arm.{arm};
ghost use Rattle.machine_spec.specs.Bil.{RRegisters};
ghost use Rattle.machine_spec.specs.MachineLaws.{IsLifting};
ghost use Rattle.bil_ast.specs.Views.{expression, statements};
ghost use Rattle.byte_mem.specs.Views.{endian_of};
ghost use Rattle.arm_lift_mem.specs.Accesses as parts;
ghost use Rattle.arm_lift_mem.specs.Transfers as lifts;

use crate::accesses::{
    address, address_again, assign, before_write_back, behind_write_back, load, loaded, offset_of,
    one, stored, unless, word,
};
use arm_decode::{AnyRegister, Indexing, Insn, Offset, Transfer, TransferFields};
use arm_lift_alu::conditional::conditional;
use arm_lift_alu::expressions::number;
use arm_lift_alu::shifter::{cast, own, register};
use bil_ast::{BilType, BinaryOp, CastKind, Exp, Stmt, Width};
use bv_word::Word;
use byte_mem::Endian;
use std::alloc::{AllocError, Global};

/// Whether the base is written back.
fn writes_back(indexing: Indexing) -> bool
    ensures { result ≡ lifts.writes_back indexing }
{
    match indexing {
        Indexing::Offset => false,
        Indexing::Pre | Indexing::Post => true,
    }
}

/// The base with the offset added or subtracted.
fn moved_number(is_up: bool, base: u32, offset: u32) -> u32
    ensures { result ≡ parts.moved_number is_up base offset }
{
    if is_up {
        base.wrapping_add(offset)
    } else {
        base.wrapping_sub(offset)
    }
}

/// Whether the word is a literal, or would be one with a number.
fn may_be_literal(insn: TransferFields) -> bool
    ensures { result ≡ (insn.is_load && not insn.is_byte && (insn.rn.number == 15) && not (lifts.writes_back insn.addressing.indexing)) }
{
    insn.is_load
        && !insn.is_byte
        && insn.rn.number() == 15
        && !writes_back(insn.addressing.indexing)
}

/// The address of a literal, before it is aligned.
fn literal_by(is_literal: bool, is_up: bool, offset: Offset, at: u32) -> Option<u32>
    ensures { result ≡ lifts.literal_by is_literal is_up offset at }
{
    if !is_literal {
        return None;
    }
    match offset {
        Offset::Number(value) => Some(moved_number(is_up, at.wrapping_add(8), value as u32)),
        Offset::Shifted { .. } => None,
    }
}

/// The address of the literal that is loaded, before it is aligned.
fn literal(insn: TransferFields, at: u32) -> Option<u32>
    ensures { result ≡ lifts.literal insn at }
{
    literal_by(may_be_literal(insn), insn.addressing.is_up, insn.offset, at)
}

/// The word of a literal goes to a register, or to r15 by a jump.
#[tactic(auto, using(crate::proofs::Choices::jumps, crate::proofs::Choices::raises, crate::proofs::Choices::loads, crate::proofs::Choices::turns,))]
fn literal_list(
    alloc: Global,
    rd: AnyRegister,
    order: Endian,
    address: u32,
) -> Result<Vec<Stmt>, AllocError>
    ensures { IfOk result (λ list. statements list.items
        ≡ lifts.literal_list (rd.number == 15) (address % 4 == 0) (endian_of order) rd.number address) }
{
    let turn = address % 4;
    let place = number(address - turn);
    if rd.number() == 15 {
        if turn == 0 {
            let target = load(alloc, place, order, 32)?;
            one(alloc, Stmt::Jump(target))
        } else {
            one(alloc, Stmt::Raise(5))
        }
    } else if turn == 0 {
        let value = load(alloc, place, order, 32)?;
        one(alloc, assign(rd.number(), value))
    } else {
        let amount = Exp::Constant(Word::new(64, (8 * turn) as u64));
        let value = word(alloc, order, place, amount)?;
        one(alloc, assign(rd.number(), value))
    }
}

/// What STR stores: of r15 the address and 8, or, by the choice, 12.
#[tactic(auto, using(crate::proofs::Choices::stored_pc, crate::proofs::Choices::stored_own))]
fn source(alloc: Global, rd: AnyRegister, at: u32) -> Result<Exp, AllocError>
    ensures { IfOk result (λ e. expression e ≡ lifts.source rd.number at) }
{
    if rd.number() != 15 {
        return Ok(own(rd.number()));
    }
    let unknown = Exp::Unknown(BilType::Bits(Width::new(1)));
    let far = number(at.wrapping_add(12));
    let near = number(at.wrapping_add(8));
    Exp::choose(alloc, unknown, far, near)
}

/// Whether an address is no multiple of 4.
fn is_unaligned(alloc: Global, address: Exp) -> Result<Exp, AllocError>
    ensures { IfOk result (λ e. expression e ≡ lifts.is_unaligned (expression address)) }
{
    let low = cast(alloc, CastKind::Low, 2, address)?;
    Exp::binary(
        alloc,
        BinaryOp::NotEqual,
        low,
        Exp::Constant(Word::new(2, 0)),
    )
}

/// A load to a register, behind the write-back.
fn load_list(
    alloc: Global,
    insn: TransferFields,
    order: Endian,
    at: u32,
) -> Result<Vec<Stmt>, AllocError>
    ensures { IfOk result (λ list. statements list.items ≡ lifts.accessed true false insn (endian_of order) at) }
{
    let offset = offset_of(alloc, insn.offset, at)?;
    let place = address_again(alloc, insn.addressing, register(insn.rn, at), &offset)?;
    let value = loaded(alloc, insn.is_byte, order, place)?;
    let load = assign(insn.rd.number(), value);
    behind_write_back(alloc, insn.addressing, insn.rn, offset, load)
}

/// A load to r15, by a jump before the write-back; from an address that is no multiple of 4 it is an exception.
fn jump_list(
    alloc: Global,
    insn: TransferFields,
    order: Endian,
    at: u32,
) -> Result<Vec<Stmt>, AllocError>
    ensures { IfOk result (λ list. statements list.items ≡ lifts.accessed true true insn (endian_of order) at) }
{
    let offset = offset_of(alloc, insn.offset, at)?;
    let place = address(alloc, insn.addressing, register(insn.rn, at), &offset)?;
    let again = place.copy(alloc)?;
    let target = load(alloc, place, order, 32)?;
    let list = before_write_back(alloc, insn.addressing, insn.rn, offset, Stmt::Jump(target))?;
    let test = is_unaligned(alloc, again)?;
    unless(alloc, test, 5, list)
}

/// A store, before the write-back.
fn store_list(
    alloc: Global,
    insn: TransferFields,
    order: Endian,
    at: u32,
) -> Result<Vec<Stmt>, AllocError>
    ensures { IfOk result (λ list. statements list.items ≡ lifts.accessed false (insn.rd.number == 15) insn (endian_of order) at) }
{
    let offset = offset_of(alloc, insn.offset, at)?;
    let place = address(alloc, insn.addressing, register(insn.rn, at), &offset)?;
    let value = source(alloc, insn.rd, at)?;
    let store = stored(alloc, insn.is_byte, order, place, value)?;
    before_write_back(alloc, insn.addressing, insn.rn, offset, store)
}

/// An access that is no literal's load.
#[tactic(auto, using(crate::proofs::Choices::as_store, crate::proofs::Choices::as_jump, crate::proofs::Choices::as_load,))]
fn access(
    alloc: Global,
    insn: TransferFields,
    order: Endian,
    at: u32,
) -> Result<Vec<Stmt>, AllocError>
    ensures { IfOk result (λ list. statements list.items ≡ lifts.accessed insn.is_load (insn.rd.number == 15) insn (endian_of order) at) }
{
    if !insn.is_load {
        store_list(alloc, insn, order, at)
    } else if insn.rd.number() == 15 {
        jump_list(alloc, insn, order, at)
    } else {
        load_list(alloc, insn, order, at)
    }
}

/// The list of LDR, LDRB, STR and STRB where its condition holds.
fn transfer(
    alloc: Global,
    insn: TransferFields,
    order: Endian,
    at: u32,
) -> Result<Vec<Stmt>, AllocError>
    ensures { IfOk result (λ list. statements list.items ≡ lifts.transfer insn (endian_of order) at) }
{
    match literal(insn, at) {
        Some(address) => literal_list(alloc, insn.rd, order, address),
        None => access(alloc, insn, order, at),
    }
}

/// The list of LDR, LDRB, STR or STRB that stands at an address, in a byte order. The error is want of memory.
///
/// A load by r15 with a number and no write-back stands as a load at its constant address. Where the base is written back, a load comes behind that, and finds
/// its address again.
pub fn lift_transfer(
    alloc: Global,
    insn: &Transfer,
    at: u32,
    order: Endian,
) -> Result<Vec<Stmt>, AllocError>
    ensures { IfOk result (λ list. (profile : rows.Profile) →
        IsLifting (arm (endian_of order) profile) RRegisters (rows.single_transfer (endian_of order) insn.now.word) at (statements list.items)) }
{
    let condition = Insn::Transfer(*insn).condition();
    let list = transfer(alloc, insn.fields(), order, at)?;
    conditional(alloc, condition, list)
}
