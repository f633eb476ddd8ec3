//! The list of each instruction.
ghost use Rattle.std.specs.Prelude.{◌≡◌, ℕ, IfOk};
ghost use Rattle.word_spec.specs.Words.{add};
ghost use Rattle.bil_ast.specs.Views.{statements};
ghost use Rattle.rv_decode.specs.Insns.{length_by};
ghost use Rattle.rv_lift.specs.Lifted.{lifted};
ghost use Rattle.rv_lift.specs.Fits.{HasWords};

use crate::expressions::{address, loaded, number, register, stored, test};
use crate::statements::{assigned, jump_and_link, jump_if, one};
use bil_ast::{BinaryOp, Exp, Stmt, Var};
use rv_decode::{Insn, Plain};
use std::alloc::{AllocError, Global};

/// The list of an instruction that stands at an address. The error is want of memory.
///
/// The numbers of an instruction are words of 32 bits, as the typing of its constants needs.
pub(crate) fn list_of(alloc: Global, insn: &Insn, at: u32) -> Result<Vec<Stmt>, AllocError>
    ensures list { IfOk result (λ list. statements list.items ≡ lifted insn.now.plain (length_by insn.now.half 4) at) }
    ensures words { HasWords insn.now.plain }
{
    let behind = at.wrapping_add(u32::from(insn.length()));
    let list = list_of_plain(alloc, insn.plain, at, behind)?;
    Ok(list)
}

/// The list of an instruction, by the address behind it.
fn list_of_plain(alloc: Global, plain: Plain, at: u32, behind: u32) -> Result<Vec<Stmt>, AllocError>
    ensures list { (n : ℕ) → behind ≡ add 32 at n → IfOk result (λ list. statements list.items ≡ lifted plain n at) }
    ensures words { HasWords plain }
{
    match plain {
        Plain::Lui { rd, imm } => assigned(alloc, rd, number(imm)),
        Plain::Auipc { rd, imm } => assigned(alloc, rd, number(at.wrapping_add(imm))),
        Plain::Jal { rd, offset } => {
            let target = number(at.wrapping_add(offset));
            jump_and_link(alloc, target, rd, behind)
        }
        Plain::Jalr { rd, rs1, offset } => {
            let sum = address(alloc, rs1, offset)?;
            let target = Exp::binary(alloc, BinaryOp::And, sum, number(0xFFFF_FFFE))?;
            jump_and_link(alloc, target, rd, behind)
        }
        Plain::Branch {
            op,
            rs1,
            rs2,
            offset,
        } => {
            let condition = test(alloc, op, register(rs1), register(rs2))?;
            jump_if(alloc, condition, number(at.wrapping_add(offset)))
        }
        Plain::Load {
            op,
            rd,
            rs1,
            offset,
        } => {
            let from = address(alloc, rs1, offset)?;
            let value = loaded(alloc, op, from)?;
            assigned(alloc, rd, value)
        }
        Plain::Store {
            op,
            rs1,
            rs2,
            offset,
        } => {
            let to = address(alloc, rs1, offset)?;
            let memory = stored(alloc, op, to, register(rs2))?;
            one(alloc, Stmt::Assign(Var::Memory, memory))
        }
        Plain::Immediate { op, rd, rs1, imm } => {
            let formula = op.line().formula;
            let value = formula.expression(alloc, register(rs1), number(imm))?;
            assigned(alloc, rd, value)
        }
        Plain::Shift {
            op,
            rd,
            rs1,
            amount,
        } => {
            let by = number(amount.bits() as u32);
            let formula = op.line().formula;
            let value = formula.expression(alloc, register(rs1), by)?;
            assigned(alloc, rd, value)
        }
        Plain::Computation { op, rd, rs1, rs2 } => {
            let formula = op.line().formula;
            let value = formula.expression(alloc, register(rs1), register(rs2))?;
            assigned(alloc, rd, value)
        }
        Plain::Fence { .. } => Ok(Vec::new(alloc)),
        Plain::Ecall => one(alloc, Stmt::Raise(1)),
        Plain::Ebreak => one(alloc, Stmt::Raise(2)),
    }
}
