//! Data processing (section A3.4).
ghost use Rattle.machine_spec.specs.Arm as rows;
ghost use Rattle.machine_spec.specs.Arm.{arm};
ghost use Rattle.machine_spec.specs.MachineLaws.{IsLifting};
ghost use Rattle.byte_mem.specs.Views.{endian_of};
ghost use Rattle.std.specs.Prelude.{◌≡◌, not, IfOk, OnOk};
ghost use Rattle.machine_spec.specs.Bil as bil;
ghost use Rattle.machine_spec.specs.Bil.{RRegisters};
ghost use Rattle.bil_ast.specs.Views.{cast_of, expression, statements};
ghost use Rattle.arm_lift_alu.specs.Before.{before};
ghost use Rattle.arm_lift_alu.specs.Operands as parts;
ghost use Rattle.arm_lift_alu.specs.Computing as lifts;
ghost use Rattle.arm_lift_alu.specs.declared.shifter.CarryIn.TheVariants.{Flag};

use crate::conditional::{add, conditional, one};
use crate::expressions::{flag, number, turned};
use crate::shifter::{CarryIn, bit_of, carry_bit, cast, operand, own, register, shifter_carry};
use arm_decode::{Class, Computing, ComputingFields, Opcode};
use bil_ast::{Bank, BinaryOp, CastKind, Exp, Stmt, Var};
use bv_word::Word;
use byte_mem::Endian;
use std::alloc::{AllocError, Global};

/// A sum with the carry that comes in.
fn with_carry(alloc: Global, carry: CarryIn, x: Exp, y: Exp) -> Result<Exp, AllocError>
    ensures { IfOk result (λ e. expression e ≡ lifts.with_carry carry (expression x) (expression y)) }
{
    let sum = Exp::binary(alloc, BinaryOp::Plus, x, y)?;
    let more = cast(alloc, CastKind::Unsigned, 32, carry_bit(carry))?;
    Exp::binary(alloc, BinaryOp::Plus, sum, more)
}

/// The value of an opcode.
fn value(alloc: Global, op: Opcode, carry: CarryIn, x: Exp, y: Exp) -> Result<Exp, AllocError>
    ensures { IfOk result (λ e. expression e ≡ lifts.value op carry (expression x) (expression y)) }
{
    match op {
        Opcode::And | Opcode::Tst => Exp::binary(alloc, BinaryOp::And, x, y),
        Opcode::Eor | Opcode::Teq => Exp::binary(alloc, BinaryOp::Xor, x, y),
        Opcode::Sub | Opcode::Cmp => Exp::binary(alloc, BinaryOp::Minus, x, y),
        Opcode::Rsb => Exp::binary(alloc, BinaryOp::Minus, y, x),
        Opcode::Add | Opcode::Cmn => Exp::binary(alloc, BinaryOp::Plus, x, y),
        Opcode::Adc => with_carry(alloc, carry, x, y),
        Opcode::Sbc => {
            let y = turned(alloc, y)?;
            with_carry(alloc, carry, x, y)
        }
        Opcode::Rsc => {
            let x = turned(alloc, x)?;
            with_carry(alloc, carry, y, x)
        }
        Opcode::Orr => Exp::binary(alloc, BinaryOp::Or, x, y),
        Opcode::Mov => Ok(y),
        Opcode::Bic => {
            let y = turned(alloc, y)?;
            Exp::binary(alloc, BinaryOp::And, x, y)
        }
        Opcode::Mvn => turned(alloc, y),
    }
}

/// The sum of two words in 33 bits, each by the same cast, and the carry that comes in.
fn long_sum(
    alloc: Global,
    kind: CastKind,
    carry: CarryIn,
    x: Exp,
    y: Exp,
) -> Result<Exp, AllocError>
    ensures { IfOk result (λ e. expression e ≡ bil.Binary bil.Plus
        (bil.Binary bil.Plus (bil.Cast (cast_of kind) 33 (expression x)) (bil.Cast (cast_of kind) 33 (expression y))) (lifts.long (parts.carry_bit carry))) }
{
    let x = cast(alloc, kind, 33, x)?;
    let y = cast(alloc, kind, 33, y)?;
    let sum = Exp::binary(alloc, BinaryOp::Plus, x, y)?;
    let more = cast(alloc, CastKind::Unsigned, 33, carry_bit(carry))?;
    Exp::binary(alloc, BinaryOp::Plus, sum, more)
}

/// The carry out of a sum with the carry that comes in.
fn carry_out(alloc: Global, carry: CarryIn, x: Exp, y: Exp) -> Result<Exp, AllocError>
    ensures { IfOk result (λ e. expression e ≡ lifts.carry_out carry (expression x) (expression y)) }
{
    let sum = long_sum(alloc, CastKind::Unsigned, carry, x, y)?;
    bit_of(alloc, 32, sum)
}

/// The overflow of a sum with the carry that comes in.
fn overflow_out(alloc: Global, carry: CarryIn, x: Exp, y: Exp) -> Result<Exp, AllocError>
    ensures { IfOk result (λ e. expression e ≡ lifts.overflow_out carry (expression x) (expression y)) }
{
    let sum = long_sum(alloc, CastKind::Signed, carry, x, y)?;
    let moved = Exp::binary(
        alloc,
        BinaryOp::Plus,
        sum,
        Exp::Constant(Word::new(33, 0x8000_0000)),
    )?;
    bit_of(alloc, 32, moved)
}

/// The carry of a sum without one that comes in: it is below an operand.
fn wraps(alloc: Global, x: Exp, again: Exp, y: Exp) -> Result<Exp, AllocError>
    requires { expression again ≡ expression x }
    ensures { IfOk result (λ e. expression e ≡ bil.Binary bil.Less (bil.Binary bil.Plus (expression x) (expression y)) (expression x)) }
{
    let sum = Exp::binary(alloc, BinaryOp::Plus, x, y)?;
    Exp::binary(alloc, BinaryOp::Less, sum, again)
}

/// The value of data processing.
fn value_of(
    alloc: Global,
    insn: ComputingFields,
    carry: CarryIn,
    at: u32,
) -> Result<Exp, AllocError>
    ensures { IfOk result (λ e. expression e ≡ lifts.value_of insn carry at) }
{
    let y = operand(alloc, insn.operand, carry, at)?;
    value(alloc, insn.opcode, carry, register(insn.rn, at), y)
}

/// The carry of data processing: of a difference it is that there is no borrow; of a logical opcode it is the shifter's.
fn carry_of(
    alloc: Global,
    insn: ComputingFields,
    carry: CarryIn,
    at: u32,
) -> Result<Exp, AllocError>
    ensures { IfOk result (λ e. expression e ≡ lifts.carry_of insn carry at) }
{
    let x = register(insn.rn, at);
    let y = operand(alloc, insn.operand, carry, at)?;
    match insn.opcode {
        Opcode::Sub | Opcode::Cmp => Exp::binary(alloc, BinaryOp::LessEqual, y, x),
        Opcode::Rsb => Exp::binary(alloc, BinaryOp::LessEqual, x, y),
        Opcode::Add | Opcode::Cmn => wraps(alloc, x, register(insn.rn, at), y),
        Opcode::Adc => carry_out(alloc, carry, x, y),
        Opcode::Sbc => {
            let y = turned(alloc, y)?;
            carry_out(alloc, carry, x, y)
        }
        Opcode::Rsc => {
            let x = turned(alloc, x)?;
            carry_out(alloc, carry, y, x)
        }
        Opcode::And
        | Opcode::Eor
        | Opcode::Tst
        | Opcode::Teq
        | Opcode::Orr
        | Opcode::Mov
        | Opcode::Bic
        | Opcode::Mvn => shifter_carry(alloc, insn.operand, at),
    }
}

/// The overflow of data processing; a logical opcode has none.
fn overflow_of(alloc: Global, insn: ComputingFields, at: u32) -> Result<Exp, AllocError>
    ensures { IfOk result (λ e. expression e ≡ lifts.overflow_of insn at) }
{
    let x = register(insn.rn, at);
    let y = operand(alloc, insn.operand, CarryIn::Flag, at)?;
    match insn.opcode {
        Opcode::Sub | Opcode::Cmp => {
            let y = turned(alloc, y)?;
            overflow_out(alloc, CarryIn::Set, x, y)
        }
        Opcode::Rsb => {
            let x = turned(alloc, x)?;
            overflow_out(alloc, CarryIn::Set, y, x)
        }
        Opcode::Add | Opcode::Cmn => overflow_out(alloc, CarryIn::Clear, x, y),
        Opcode::Adc => overflow_out(alloc, CarryIn::Flag, x, y),
        Opcode::Sbc => {
            let y = turned(alloc, y)?;
            overflow_out(alloc, CarryIn::Flag, x, y)
        }
        Opcode::Rsc => {
            let x = turned(alloc, x)?;
            overflow_out(alloc, CarryIn::Flag, y, x)
        }
        _ => Ok(flag(0)),
    }
}

/// The value of data processing goes to a register; a written r15 is a jump.
fn written(alloc: Global, insn: ComputingFields, at: u32) -> Result<Vec<Stmt>, AllocError>
    ensures { IfOk result (λ list. statements list.items ≡ lifts.written insn.rd.number (lifts.value_of insn Flag at)) }
{
    let value = value_of(alloc, insn, CarryIn::Flag, at)?;
    if insn.rd.number() == 15 {
        return one(alloc, Stmt::Jump(value));
    }
    one(
        alloc,
        Stmt::Assign(Var::Register(Bank::RRegisters, insn.rd.number()), value),
    )
}

/// The overflow, to V; a logical opcode keeps it.
fn push_overflow(
    alloc: Global,
    list: &mut Vec<Stmt>,
    insn: ComputingFields,
    at: u32,
) -> Result<(), AllocError>
    ensures { OnOk result ((z : bil.Statements) → before list.new.items z
        ≡ before list.old.items (lifts.flag_if (not (lifts.is_logical insn.opcode)) 0 (lifts.overflow_of insn at) z)) }
{
    if insn.opcode.is_logical() {
        return Ok(());
    }
    let overflow = overflow_of(alloc, insn, at)?;
    add(list, Stmt::Assign(Var::Flag(0), overflow))
}

/// The carry, to C, unless a logical opcode keeps it.
fn push_carry(
    alloc: Global,
    list: &mut Vec<Stmt>,
    insn: ComputingFields,
    carry: CarryIn,
    at: u32,
) -> Result<(), AllocError>
    ensures { OnOk result ((z : bil.Statements) → before list.new.items z
        ≡ before list.old.items (lifts.flag_if (lifts.assigns_carry insn) 1 (lifts.carry_of insn carry at) z)) }
{
    if insn.opcode.is_logical() && insn.operand.keeps_carry() {
        return Ok(());
    }
    let out = carry_of(alloc, insn, carry, at)?;
    add(list, Stmt::Assign(Var::Flag(1), out))
}

/// The carry and then the register.
fn push_carried(
    alloc: Global,
    list: &mut Vec<Stmt>,
    insn: ComputingFields,
    carry: CarryIn,
    at: u32,
) -> Result<(), AllocError>
    ensures { OnOk result ((z : bil.Statements) → before list.new.items z ≡ before list.old.items (lifts.carried insn carry at z)) }
{
    push_carry(alloc, list, insn, carry, at)?;
    let value = value_of(alloc, insn, carry, at)?;
    let set = Stmt::Assign(Var::Register(Bank::RRegisters, insn.rd.number()), value);
    add(list, set)
}

/// The carry and then the register, in a list of their own.
fn carried(
    alloc: Global,
    insn: ComputingFields,
    carry: CarryIn,
    at: u32,
) -> Result<Vec<Stmt>, AllocError>
    ensures { IfOk result (λ list. statements list.items ≡ lifts.carried insn carry at bil.Empty) }
{
    let mut list = Vec::new(alloc);
    push_carried(alloc, &mut list, insn, carry, at)?;
    Ok(list)
}

/// The same, on both sides of an `if` on C where the carry that comes in is needed.
fn push_carried_by(
    alloc: Global,
    list: &mut Vec<Stmt>,
    insn: ComputingFields,
    at: u32,
) -> Result<(), AllocError>
    ensures { OnOk result ((z : bil.Statements) → before list.new.items z ≡ before list.old.items (lifts.carried_by (lifts.needs_carry insn) insn at z)) }
{
    if insn.opcode.adds_carry() || insn.operand.is_rrx() {
        let set = carried(alloc, insn, CarryIn::Set, at)?;
        let clear = carried(alloc, insn, CarryIn::Clear, at)?;
        add(list, Stmt::choose(flag(1), set, clear))
    } else {
        push_carried(alloc, list, insn, CarryIn::Clear, at)
    }
}

/// N and Z of a value, which is given twice.
fn push_signs(alloc: Global, list: &mut Vec<Stmt>, value: Exp, again: Exp) -> Result<(), AllocError>
    requires { expression again ≡ expression value }
    ensures { OnOk result ((z : bil.Statements) → before list.new.items z ≡ before list.old.items (lifts.signs (expression value) z)) }
{
    let negative = bit_of(alloc, 31, value)?;
    let zero = Exp::binary(alloc, BinaryOp::Equal, again, number(0))?;
    add(list, Stmt::Assign(Var::Flag(3), negative))?;
    add(list, Stmt::Assign(Var::Flag(2), zero))
}

/// Data processing with S: V first, then C and the register, then N and Z from the register.
fn with_flags(alloc: Global, insn: ComputingFields, at: u32) -> Result<Vec<Stmt>, AllocError>
    ensures { IfOk result (λ list. statements list.items ≡ lifts.with_flags insn at) }
{
    let mut list = Vec::new(alloc);
    push_overflow(alloc, &mut list, insn, at)?;
    push_carried_by(alloc, &mut list, insn, at)?;
    let rd = insn.rd.number();
    push_signs(alloc, &mut list, own(rd), own(rd))?;
    Ok(list)
}

/// A test: N and Z, then V, and C last.
fn tested(alloc: Global, insn: ComputingFields, at: u32) -> Result<Vec<Stmt>, AllocError>
    ensures { IfOk result (λ list. statements list.items ≡ lifts.tested insn at) }
{
    let mut list = Vec::new(alloc);
    let value = value_of(alloc, insn, CarryIn::Flag, at)?;
    let again = value_of(alloc, insn, CarryIn::Flag, at)?;
    push_signs(alloc, &mut list, value, again)?;
    push_overflow(alloc, &mut list, insn, at)?;
    push_carry(alloc, &mut list, insn, CarryIn::Flag, at)?;
    Ok(list)
}

/// The list of data processing where its condition holds.
fn computed(alloc: Global, insn: ComputingFields, at: u32) -> Result<Vec<Stmt>, AllocError>
    ensures { IfOk result (λ list. statements list.items ≡ lifts.computed insn at) }
{
    if insn.opcode.is_test() {
        tested(alloc, insn, at)
    } else if insn.sets_flags {
        with_flags(alloc, insn, at)
    } else {
        written(alloc, insn, at)
    }
}

/// The list of data processing that stands at an address, in a byte order and every profile; it is the same in both orders. The error is want of memory.
pub fn lift_computing(
    alloc: Global,
    insn: &Computing,
    at: u32,
    order: Endian,
) -> Result<Vec<Stmt>, AllocError>
    ensures { IfOk result (λ list. (profile : rows.Profile) →
        IsLifting (arm (endian_of order) profile) RRegisters (rows.computing insn.now.word) at (statements list.items)) }
{
    let condition = insn.condition();
    let list = computed(alloc, insn.fields(), at)?;
    conditional(alloc, condition, list)
}
