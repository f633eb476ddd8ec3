//! B and BL (section A3.3).
ghost use Rattle.machine_spec.specs.Arm as rows;
ghost use Rattle.machine_spec.specs.Arm.{arm};
ghost use Rattle.machine_spec.specs.MachineLaws.{IsLifting};
ghost use Rattle.byte_mem.specs.Views.{endian_of};
ghost use Rattle.std.specs.Prelude.{◌≡◌, IfOk};
ghost use Rattle.machine_spec.specs.Bil.{RRegisters};
ghost use Rattle.bil_ast.specs.Views.{statements};
ghost use Rattle.arm_lift_alu.specs.Lifted as lifts;

use crate::conditional::conditional;
use crate::expressions::number;
use arm_decode::{Branch, Class};
use bil_ast::{Bank, Stmt, Var};
use byte_mem::Endian;
use std::alloc::{AllocError, Global};

/// A jump to a target; of a call also the address behind it, in r14.
fn branch(alloc: Global, linked: bool, target: u32, behind: u32) -> Result<Vec<Stmt>, AllocError>
    ensures { IfOk result (λ list. statements list.items ≡ lifts.branch linked target behind) }
{
    let mut list = Vec::new(alloc);
    list.push(Stmt::Jump(number(target)))?;
    if !linked {
        return Ok(list);
    }
    list.push(Stmt::Assign(Var::Register(Bank::RRegisters, 14), number(behind)))?;
    Ok(list)
}

/// The list of B or BL that stands at an address, in a byte order and every profile; it is the same in both orders. The error is want of memory.
pub fn lift_branch(
    alloc: Global,
    insn: &Branch,
    at: u32,
    order: Endian,
) -> Result<Vec<Stmt>, AllocError>
    ensures { IfOk result (λ list. (profile : rows.Profile) →
        IsLifting (arm (endian_of order) profile) RRegisters (rows.branch insn.now.word) at (statements list.items)) }
{
    let condition = insn.condition();
    let linked = insn.fields().is_linked;
    let list = branch(alloc, linked, insn.target(at), at.wrapping_add(4))?;
    conditional(alloc, condition, list)
}
