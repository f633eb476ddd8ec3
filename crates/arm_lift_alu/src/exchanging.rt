//! BX (section A4.1.10): a jump to the register's word as it is.
ghost use Rattle.machine_spec.specs.Arm as rows;
ghost use Rattle.machine_spec.specs.Arm.{arm};
ghost use Rattle.machine_spec.specs.Bil.{RRegisters};
ghost use Rattle.machine_spec.specs.MachineLaws.{IsLifting};
ghost use Rattle.byte_mem.specs.Views.{endian_of};
ghost use Rattle.bil_ast.specs.Views.{statements};
ghost use Rattle.std.specs.Prelude.{IfOk};

use crate::conditional::{conditional, one};
use crate::shifter::own;
use arm_decode::{Class, Exchange};
use bil_ast::Stmt;
use byte_mem::Endian;
use std::alloc::{AllocError, Global};

/// The list of BX that stands at an address, in a byte order and every profile; it is the same in both orders. The error is want of memory.
pub fn lift_exchange(
    alloc: Global,
    insn: &Exchange,
    at: u32,
    order: Endian,
) -> Result<Vec<Stmt>, AllocError>
    ensures { IfOk result (λ list. (profile : rows.Profile) →
        IsLifting (arm (endian_of order) profile) RRegisters (rows.exchange insn.now.word) at (statements list.items)) }
{
    let condition = insn.condition();
    let list = one(alloc, Stmt::Jump(own(insn.rm().number())))?;
    conditional(alloc, condition, list)
}
