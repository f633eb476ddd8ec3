//! SWI (section A3.14).
ghost use Rattle.machine_spec.specs.Arm as rows;
ghost use Rattle.machine_spec.specs.Arm.{arm};
ghost use Rattle.machine_spec.specs.Bil.{RRegisters};
ghost use Rattle.machine_spec.specs.MachineLaws.{IsLifting};
ghost use Rattle.byte_mem.specs.Views.{endian_of};
ghost use Rattle.bil_ast.specs.Views.{statements};
ghost use Rattle.std.specs.Prelude.{IfOk};

use crate::conditional::{conditional, one};
use arm_decode::{Class, SoftwareInterrupt};
use bil_ast::Stmt;
use byte_mem::Endian;
use std::alloc::{AllocError, Global};

/// The list of SWI that stands at an address, in a byte order and every profile; it is the same in both orders. The error is want of memory.
pub fn lift_software_interrupt(
    alloc: Global,
    insn: &SoftwareInterrupt,
    at: u32,
    order: Endian,
) -> Result<Vec<Stmt>, AllocError>
    ensures { IfOk result (λ list. (profile : rows.Profile) →
        IsLifting (arm (endian_of order) profile) RRegisters (rows.software_interrupt insn.now.word) at (statements list.items)) }
{
    let condition = insn.condition();
    let list = one(alloc, Stmt::Raise(3))?;
    conditional(alloc, condition, list)
}
