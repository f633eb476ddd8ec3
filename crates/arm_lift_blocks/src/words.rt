//! The words of a block, as expressions.
ghost use Rattle.std.specs.Prelude.{◌≡◌, ◌==◌, true, IfOk};
ghost use Rattle.bil_ast.specs.Views.{expression, variable_of};
ghost use Rattle.byte_mem.specs.Views.{endian_of};
ghost use Rattle.arm_lift_blocks.specs.Lifted as lifts;

use arm_decode::Register;
use arm_lift_alu::expressions::number;
use bil_ast::{Bank, BilType, BinaryOp, Exp, Var, Width};
use byte_mem::Endian;
use std::alloc::{AllocError, Global};

/// A register, as a variable.
pub(crate) fn variable(register: u8) -> Var
    ensures { variable_of result ≡ lifts.variable register }
{
    Var::Register(Bank::RRegisters, register)
}

/// The address at a distance from the multiple of 4 at or below the base (section A5.4).
fn word_at(alloc: Global, base: Register, distance: u32) -> Result<Exp, AllocError>
    ensures { IfOk result (λ e. expression e ≡ lifts.word_at base.number distance) }
{
    let aligned = Exp::binary(
        alloc,
        BinaryOp::And,
        Exp::Var(variable(base.number())),
        number(0xFFFF_FFFC),
    )?;
    Exp::binary(alloc, BinaryOp::Plus, aligned, number(distance))
}

/// The word there.
pub(crate) fn loaded(
    alloc: Global,
    base: Register,
    distance: u32,
    order: Endian,
) -> Result<Exp, AllocError>
    ensures { IfOk result (λ e. expression e ≡ lifts.loaded (endian_of order) base.number distance) }
{
    let address = word_at(alloc, base, distance)?;
    Exp::load(alloc, Exp::Var(Var::Memory), address, order, Width::new(32))
}

/// The memory with a word there.
fn stored(
    alloc: Global,
    base: Register,
    distance: u32,
    order: Endian,
    value: Exp,
) -> Result<Exp, AllocError>
    ensures { IfOk result (λ e. expression e ≡ lifts.stored (endian_of order) base.number distance (expression value)) }
{
    let address = word_at(alloc, base, distance)?;
    Exp::store(
        alloc,
        Exp::Var(Var::Memory),
        address,
        order,
        Width::new(32),
        value,
    )
}

/// What is stored of r15: the address of the instruction and 12 or 8, as nobody knows (section A2.4).
fn stored_pc(alloc: Global, at: u32) -> Result<Exp, AllocError>
    ensures { IfOk result (λ e. expression e ≡ lifts.stored_by true 15 at) }
{
    Exp::choose(
        alloc,
        Exp::Unknown(BilType::Bits(Width::new(1))),
        number(at.wrapping_add(12)),
        number(at.wrapping_add(8)),
    )
}

/// What is stored of a register.
fn value_of(alloc: Global, register: u8, at: u32) -> Result<Exp, AllocError>
    ensures { IfOk result (λ e. expression e ≡ lifts.stored_by (register == 15) register at) }
{
    if register == 15 {
        return stored_pc(alloc, at);
    }
    Ok(Exp::Var(variable(register)))
}

/// The memory with a register's word there.
pub(crate) fn stored_register(
    alloc: Global,
    base: Register,
    distance: u32,
    order: Endian,
    register: u8,
    at: u32,
) -> Result<Exp, AllocError>
    ensures { IfOk result (λ e. expression e
        ≡ lifts.stored (endian_of order) base.number distance (lifts.stored_by (register == 15) register at)) }
{
    let value = value_of(alloc, register, at)?;
    stored(alloc, base, distance, order, value)
}
