//! The lists of LDM and STM (section A3.12).
ghost use Rattle.std.specs.Prelude.{ℕ, ◌≡◌, ◌≤◌, true, false, IfOk};
ghost use Rattle.machine_spec.specs.Arm as rows;
ghost use Rattle.machine_spec.specs.Arm.{arm, listed_from};
ghost use Rattle.machine_spec.specs.Bil.{RRegisters};
ghost use Rattle.machine_spec.specs.MachineLaws.{IsLifting};
ghost use Rattle.bil_ast.specs.Views.{statements};
ghost use Rattle.byte_mem.specs.Views.{endian_of};
ghost use Rattle.arm_lift_blocks.specs.Lifted as lifts;

use crate::base::{base_last, first_distance, write_back};
use crate::transfers::{count, loads, place_of, stores};
use arm_decode::{Block, BlockFields, Insn};
use arm_lift_alu::conditional::conditional;
use bil_ast::Stmt;
use byte_mem::Endian;
use std::alloc::{AllocError, Global};

/// The list of LDM, of its registers below a number, where its condition holds: the base comes last, since the addresses are found from it.
fn loading(
    alloc: Global,
    fields: BlockFields,
    end: u8,
    order: Endian,
) -> Result<Vec<Stmt>, AllocError>
    requires { end ≤ 16 }
    ensures { IfOk result (λ list. (at : ℕ) → statements list.items
        ≡ lifts.block true (endian_of order) fields.writes_back fields.is_up fields.is_before fields.rn.number at (listed_from fields.list.bits 0 end)) }
{
    let bytes = 4 * count(fields.list, end);
    let first = first_distance(fields.is_up, fields.is_before, bytes);
    let place = place_of(fields.rn, fields.list, end, first);
    let mut list = loads(alloc, fields.list, end, fields.rn, first, order)?;
    base_last(alloc, &mut list, place, fields, bytes, order)?;
    Ok(list)
}

/// The list of STM, of its registers below a number, where its condition holds: the base is written back behind the stores, which take the old one.
fn storing(
    alloc: Global,
    fields: BlockFields,
    end: u8,
    order: Endian,
    at: u32,
) -> Result<Vec<Stmt>, AllocError>
    requires { end ≤ 16 }
    ensures { IfOk result (λ list. statements list.items
        ≡ lifts.block false (endian_of order) fields.writes_back fields.is_up fields.is_before fields.rn.number at (listed_from fields.list.bits 0 end)) }
{
    let bytes = 4 * count(fields.list, end);
    let first = first_distance(fields.is_up, fields.is_before, bytes);
    let mut list = stores(alloc, fields.list, end, fields.rn, first, order, at)?;
    write_back(alloc, &mut list, fields, bytes)?;
    Ok(list)
}

/// The list of LDM or STM, of its registers below a number, where its condition holds.
fn transferring(
    alloc: Global,
    fields: BlockFields,
    end: u8,
    order: Endian,
    at: u32,
) -> Result<Vec<Stmt>, AllocError>
    requires { end ≤ 16 }
    ensures { IfOk result (λ list. statements list.items
        ≡ lifts.block fields.is_load (endian_of order) fields.writes_back fields.is_up fields.is_before fields.rn.number at
        (listed_from fields.list.bits 0 end)) }
{
    if fields.is_load {
        return loading(alloc, fields, end, order);
    }
    storing(alloc, fields, end, order, at)
}

/// The list of LDM or STM that stands at an address, in a byte order. The error is want of memory.
pub fn lift_block(
    alloc: Global,
    insn: &Block,
    at: u32,
    order: Endian,
) -> Result<Vec<Stmt>, AllocError>
    ensures { IfOk result (λ list. (profile : rows.Profile) →
        IsLifting (arm (endian_of order) profile) RRegisters (rows.block (endian_of order) insn.now.word) at (statements list.items)) }
{
    let condition = Insn::Block(*insn).condition();
    let list = transferring(alloc, insn.fields(), 16, order, at)?;
    conditional(alloc, condition, list)
}
