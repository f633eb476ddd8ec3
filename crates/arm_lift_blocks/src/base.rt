//! The base of a block.
ghost use Rattle.std.specs.Prelude.{◌≡◌, ◌≤◌, IfOk, OnOk};
ghost use Rattle.machine_spec.specs.Bil as bil;
ghost use Rattle.bil_ast.specs.Views.{expression};
ghost use Rattle.byte_mem.specs.Views.{endian_of};
ghost use Rattle.arm_lift_alu.specs.Before.{before};
ghost use Rattle.arm_lift_blocks.specs.Lifted as lifts;

use crate::words::{loaded, variable};
use arm_decode::{BlockFields, Register};
use arm_lift_alu::conditional::add;
use arm_lift_alu::expressions::number;
use bil_ast::{BinaryOp, Exp, Stmt};
use byte_mem::Endian;
use std::alloc::{AllocError, Global};

/// How far the first of a block's bytes is from the base, modulo 2^32.
pub(crate) fn first_distance(is_up: bool, is_before: bool, bytes: u32) -> u32
    ensures { result ≡ lifts.first is_up is_before bytes }
{
    match (is_up, is_before) {
        (true, true) => 4,
        (true, false) => 0,
        (false, true) => 0u32.wrapping_sub(bytes),
        (false, false) => 0u32.wrapping_sub(bytes.saturating_sub(4)),
    }
}

/// The base with a number of bytes added or subtracted.
fn moved(alloc: Global, is_up: bool, base: Register, bytes: u32) -> Result<Exp, AllocError>
    ensures { IfOk result (λ e. expression e ≡ lifts.moved is_up base.number bytes) }
{
    let old = Exp::Var(variable(base.number()));
    if is_up {
        return Exp::binary(alloc, BinaryOp::Plus, old, number(bytes));
    }
    Exp::binary(alloc, BinaryOp::Minus, old, number(bytes))
}

/// The base is written back, where the instruction does so.
pub(crate) fn write_back(
    alloc: Global,
    list: &mut Vec<Stmt>,
    fields: BlockFields,
    bytes: u32,
) -> Result<(), AllocError>
    ensures { OnOk result (before list.new.items bil.Empty
        ≡ before list.old.items (lifts.written_back fields.writes_back fields.is_up fields.rn.number bytes)) }
{
    if !fields.writes_back {
        return Ok(());
    }
    let value = moved(alloc, fields.is_up, fields.rn, bytes)?;
    add(list, Stmt::Assign(variable(fields.rn.number()), value))
}

/// The base is loaded, where the list has it, and else written back, where the instruction does so.
pub(crate) fn base_last(
    alloc: Global,
    list: &mut Vec<Stmt>,
    place: Option<u32>,
    fields: BlockFields,
    bytes: u32,
    order: Endian,
) -> Result<(), AllocError>
    ensures { OnOk result (before list.new.items bil.Empty
        ≡ before list.old.items (lifts.base_last place (endian_of order) fields.writes_back fields.is_up fields.rn.number bytes)) }
{
    match place {
        Some(distance) => {
            let value = loaded(alloc, fields.rn, distance, order)?;
            add(list, Stmt::Assign(variable(fields.rn.number()), value))
        }
        None => write_back(alloc, list, fields, bytes),
    }
}
