//! The list of each instruction.
ghost use Rattle.std.specs.Prelude.{◌≡◌, IfOk};
ghost use Rattle.arm_decode.specs.Insns.{row_of};
ghost use Rattle.bil_ast.specs.Views.{statements};
ghost use Rattle.word_spec.specs.Profiles.{Profile};
ghost use Rattle.machine_spec.specs.Arm.{arm};
ghost use Rattle.machine_spec.specs.Bil.{RRegisters};
ghost use Rattle.machine_spec.specs.MachineLaws.{IsLifting};
ghost use Rattle.byte_mem.specs.Views.{endian_of};

use arm_decode::{
    Block, Branch, Class, Computing, Count, Exchange, Halfword, Insn, Multiply, MultiplyLong,
    SoftwareInterrupt, Swap, Transfer, classes,
};
use arm_lift_alu::{
    lift_branch, lift_computing, lift_count, lift_exchange, lift_multiply, lift_multiply_long,
    lift_software_interrupt,
};
use arm_lift_blocks::lift_block;
use arm_lift_mem::{lift_halfword, lift_swap, lift_transfer};
use bil_ast::Stmt;
use byte_mem::Endian;
use std::alloc::{AllocError, Global};

/// A class of instructions that are lifted.
trait Lift: Class {
    /// The list of statements that does in a byte order, and in every profile, what the instruction's row does where it stands at an address. The error is want
    /// of memory.
    fn lift(self, alloc: Global, at: u32, order: Endian) -> Result<Vec<Stmt>, AllocError>
        ensures { IfOk result (λ list. (profile : Profile) →
            IsLifting (arm (endian_of order) profile) RRegisters (row_of (endian_of order) (Self.insn self)) at (statements list.items)) };
}

impl Lift for Computing {
    fn lift(self, alloc: Global, at: u32, order: Endian) -> Result<Vec<Stmt>, AllocError> {
        lift_computing(alloc, &self, at, order)
    }
}

impl Lift for Multiply {
    fn lift(self, alloc: Global, at: u32, order: Endian) -> Result<Vec<Stmt>, AllocError> {
        lift_multiply(alloc, &self, at, order)
    }
}

impl Lift for MultiplyLong {
    fn lift(self, alloc: Global, at: u32, order: Endian) -> Result<Vec<Stmt>, AllocError> {
        lift_multiply_long(alloc, &self, at, order)
    }
}

impl Lift for Swap {
    fn lift(self, alloc: Global, at: u32, order: Endian) -> Result<Vec<Stmt>, AllocError> {
        lift_swap(alloc, &self, at, order)
    }
}

impl Lift for Transfer {
    fn lift(self, alloc: Global, at: u32, order: Endian) -> Result<Vec<Stmt>, AllocError> {
        lift_transfer(alloc, &self, at, order)
    }
}

impl Lift for Halfword {
    fn lift(self, alloc: Global, at: u32, order: Endian) -> Result<Vec<Stmt>, AllocError> {
        lift_halfword(alloc, &self, at, order)
    }
}

impl Lift for Block {
    fn lift(self, alloc: Global, at: u32, order: Endian) -> Result<Vec<Stmt>, AllocError> {
        lift_block(alloc, &self, at, order)
    }
}

impl Lift for Branch {
    fn lift(self, alloc: Global, at: u32, order: Endian) -> Result<Vec<Stmt>, AllocError> {
        lift_branch(alloc, &self, at, order)
    }
}

impl Lift for SoftwareInterrupt {
    fn lift(self, alloc: Global, at: u32, order: Endian) -> Result<Vec<Stmt>, AllocError> {
        lift_software_interrupt(alloc, &self, at, order)
    }
}

impl Lift for Exchange {
    fn lift(self, alloc: Global, at: u32, order: Endian) -> Result<Vec<Stmt>, AllocError> {
        lift_exchange(alloc, &self, at, order)
    }
}

impl Lift for Count {
    fn lift(self, alloc: Global, at: u32, order: Endian) -> Result<Vec<Stmt>, AllocError> {
        lift_count(alloc, &self, at, order)
    }
}

/// The list of an instruction of a class. The error is want of memory.
fn lift_of<C: Lift>(
    class: C,
    insn: &Insn,
    alloc: Global,
    at: u32,
    order: Endian,
) -> Result<Vec<Stmt>, AllocError>
    requires { insn.now ≡ C.insn class }
    ensures { IfOk result (λ list. (profile : Profile) →
        IsLifting (arm (endian_of order) profile) RRegisters (row_of (endian_of order) insn.now) at (statements list.items)) }
{
    class.lift(alloc, at, order)
}

/// The statements that do in a byte order, and in every profile, what an instruction's row does where it stands at an address. The error is want of memory.
pub(crate) fn list_of(
    alloc: Global,
    insn: &Insn,
    at: u32,
    order: Endian,
) -> Result<Vec<Stmt>, AllocError>
    ensures { IfOk result (λ list. (profile : Profile) →
        IsLifting (arm (endian_of order) profile) RRegisters (row_of (endian_of order) insn.now) at (statements list.items)) }
{
    classes!(match *insn, class => lift_of(class, insn, alloc, at, order))
}
