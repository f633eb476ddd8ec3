//! The operands of data processing, and the carry out of their shifts (section A5.1).
ghost use Rattle.std.specs.Prelude.{◌≡◌, ◌≢◌, ◌<◌, ◌≤◌, ◌*◌, ◌==◌, IfOk};
ghost use Rattle.machine_spec.specs.Bil as bil;
ghost use Rattle.word_spec.specs.Words as words;
ghost use Rattle.bil_ast.specs.Views.{binary_of, cast_of, expression};
ghost use Rattle.arm_lift_alu.specs.Operands as lifts;
ghost use Rattle.arm_lift_alu.specs.Lifted as lists;

use crate::expressions::{flag, number};
use arm_decode::{AnyRegister, Operand, Register, ShiftKind};
use bil_ast::{Bank, BinaryOp, CastKind, Exp, Var, Width};
use bv_word::Word;
use std::alloc::{AllocError, Global};

/// What is known of the carry that comes in.
#[derive(Clone, Copy)]
pub enum CarryIn {
    /// It is 0.
    Clear,
    /// It is 1.
    Set,
    /// It is the flag C.
    Flag,
}

/// The carry that comes in, as one bit.
pub fn carry_bit(carry: CarryIn) -> Exp
    ensures { expression result ≡ lifts.carry_bit carry }
{
    match carry {
        CarryIn::Clear => Exp::Constant(Word::new(1, 0)),
        CarryIn::Set => Exp::Constant(Word::new(1, 1)),
        CarryIn::Flag => flag(1),
    }
}

/// What a register holds that is not r15, by its number.
pub fn own(number: u8) -> Exp
    ensures { expression result ≡ lifts.own number }
{
    Exp::Var(Var::Register(Bank::RRegisters, number))
}

/// What a register reads in a row that stands at an address: r15 the address and 8 (section A2.4).
#[tactic(auto, using(crate::proofs::Registers::is_pc, crate::proofs::Registers::is_own))]
pub fn register(r: AnyRegister, at: u32) -> Exp
    ensures { expression result ≡ lifts.register r.number at }
{
    if r.number() == 15 {
        number(at.wrapping_add(8))
    } else {
        own(r.number())
    }
}

/// A cast of a word to a width in bits, from 1 to 64. The error is want of memory.
pub fn cast(alloc: Global, kind: CastKind, bits: u8, word: Exp) -> Result<Exp, AllocError>
    requires some { 1 ≤ bits }
    requires few { bits ≤ 64 }
    ensures { IfOk result (λ e. expression e ≡ bil.Cast (cast_of kind) bits (expression word)) }
{
    Exp::cast(alloc, kind, Width::new(bits), word)
}

/// A word of 32 bits, which is given twice, rotated to the right by an amount below 32 that has 64 bits. The error is want of memory.
pub fn rotated(alloc: Global, word: Exp, again: Exp, amount: Exp) -> Result<Exp, AllocError>
    requires { expression again ≡ expression word }
    ensures { IfOk result (λ e. expression e ≡ lifts.rotated (expression word) (expression amount)) }
{
    let twice = Exp::concat(alloc, word, again)?;
    let moved = Exp::binary(alloc, BinaryOp::ShiftRight, twice, amount)?;
    cast(alloc, CastKind::Low, 32, moved)
}

/// A register's word, shifted by a number that is not 0.
fn shifted(
    alloc: Global,
    kind: ShiftKind,
    r: AnyRegister,
    at: u32,
    amount: u8,
) -> Result<Exp, AllocError>
    requires { amount < 32 }
    ensures { IfOk result (λ e. expression e ≡ lifts.shifted kind (lifts.register r.number at) amount) }
{
    let word = register(r, at);
    let by = number(amount as u32);
    match kind {
        ShiftKind::Lsl => Exp::binary(alloc, BinaryOp::ShiftLeft, word, by),
        ShiftKind::Lsr => Exp::binary(alloc, BinaryOp::ShiftRight, word, by),
        ShiftKind::Asr => Exp::binary(alloc, BinaryOp::ShiftSigned, word, by),
        ShiftKind::Ror => rotated(
            alloc,
            word,
            register(r, at),
            Exp::Constant(Word::new(64, amount as u64)),
        ),
    }
}

/// A register's word, shifted by the number 0: nothing, as 32, as 32, and a rotation through the carry.
fn by_0(alloc: Global, kind: ShiftKind, carry: CarryIn, word: Exp) -> Result<Exp, AllocError>
    ensures { IfOk result (λ e. expression e ≡ lifts.by_0 kind carry (expression word)) }
{
    match kind {
        ShiftKind::Lsl => Ok(word),
        ShiftKind::Lsr => Ok(number(0)),
        ShiftKind::Asr => Exp::binary(alloc, BinaryOp::ShiftSigned, word, number(32)),
        ShiftKind::Ror => {
            let rest = Exp::extract(alloc, 31, 1, word)?;
            Exp::concat(alloc, carry_bit(carry), rest)
        }
    }
}

/// The low byte of a register, in a width.
fn low_byte(alloc: Global, width: u8, r: Register) -> Result<Exp, AllocError>
    requires some { 1 ≤ width }
    requires few { width ≤ 64 }
    ensures { IfOk result (λ e. expression e ≡ lifts.low_byte width (lifts.own r.number)) }
{
    let byte = cast(alloc, CastKind::Low, 8, own(r.number()))?;
    cast(alloc, CastKind::Unsigned, width, byte)
}

/// A shift by the low byte of a register.
fn by_low_byte(
    alloc: Global,
    op: BinaryOp,
    r: Register,
    amount: Register,
) -> Result<Exp, AllocError>
    ensures { IfOk result (λ e. expression e ≡ bil.Binary (binary_of op) (lifts.own r.number) (lifts.low_byte 32 (lifts.own amount.number))) }
{
    let by = low_byte(alloc, 32, amount)?;
    Exp::binary(alloc, op, own(r.number()), by)
}

/// A register's word, shifted by the low byte of another.
fn by_register(
    alloc: Global,
    kind: ShiftKind,
    r: Register,
    amount: Register,
) -> Result<Exp, AllocError>
    ensures { IfOk result (λ e. expression e ≡ lifts.by_register kind (lifts.own r.number) (lifts.own amount.number)) }
{
    match kind {
        ShiftKind::Lsl => by_low_byte(alloc, BinaryOp::ShiftLeft, r, amount),
        ShiftKind::Lsr => by_low_byte(alloc, BinaryOp::ShiftRight, r, amount),
        ShiftKind::Asr => by_low_byte(alloc, BinaryOp::ShiftSigned, r, amount),
        ShiftKind::Ror => {
            let low = cast(alloc, CastKind::Low, 5, own(amount.number()))?;
            let by = cast(alloc, CastKind::Unsigned, 64, low)?;
            rotated(alloc, own(r.number()), own(r.number()), by)
        }
    }
}

/// The number of an operand that is one: 8 bits, rotated to the right by twice the rotation.
#[tactic(auto, using(crate::proofs::Shifts::turned_small))]
pub(crate) fn immediate(byte: u8, rotation: u8) -> u32
    ensures { result ≡ lifts.immediate byte rotation }
{
    let amount = 2 * rotation as u32 % 32;
    let wide = byte as u64;
    ((wide >> amount) + wide % (1 << amount) * (1 << (32 - amount))) as u32
}

/// The operand of a row that stands at an address (section A5.1). The error is want of memory.
#[tactic(auto, using(crate::proofs::Registers::some_amount, crate::proofs::Registers::no_amount))]
pub fn operand(alloc: Global, operand: Operand, carry: CarryIn, at: u32) -> Result<Exp, AllocError>
    ensures { IfOk result (λ e. expression e ≡ lifts.operand operand carry at) }
{
    match operand {
        Operand::Number { byte, rotation } => Ok(number(immediate(byte, rotation))),
        Operand::ByNumber {
            register: r,
            kind,
            amount,
        } => {
            if amount.bits() == 0 {
                by_0(alloc, kind, carry, register(r, at))
            } else {
                shifted(alloc, kind, r, at, amount.bits())
            }
        }
        Operand::ByRegister {
            register: r,
            kind,
            amount,
        } => by_register(alloc, kind, r, amount),
    }
}

/// One bit of a word, by its place. The error is want of memory.
pub fn bit_of(alloc: Global, place: u8, word: Exp) -> Result<Exp, AllocError>
    ensures { IfOk result (λ e. expression e ≡ lifts.bit_of place (expression word)) }
{
    Exp::extract(alloc, place, place, word)
}

/// The carry out of a shift by a number; of LSL by 0 it is the flag.
#[tactic(auto, using(crate::proofs::Registers::carry_by_left, crate::proofs::Registers::carry_by_right))]
fn number_carry(alloc: Global, kind: ShiftKind, amount: u8, word: Exp) -> Result<Exp, AllocError>
    requires { amount < 32 }
    ensures { IfOk result (λ e. expression e ≡ lifts.number_carry kind (expression word) amount) }
{
    if amount == 0 {
        return match kind {
            ShiftKind::Lsl => Ok(flag(1)),
            ShiftKind::Lsr | ShiftKind::Asr => bit_of(alloc, 31, word),
            ShiftKind::Ror => bit_of(alloc, 0, word),
        };
    }
    match kind {
        ShiftKind::Lsl => bit_of(alloc, 32 - amount, word),
        ShiftKind::Lsr | ShiftKind::Asr | ShiftKind::Ror => bit_of(alloc, amount - 1, word),
    }
}

/// A shift to the right of a register and the flag C under it, by the low byte of a register: its lowest bit.
fn right_carry(
    alloc: Global,
    op: BinaryOp,
    r: Register,
    amount: Register,
) -> Result<Exp, AllocError>
    ensures { IfOk result (λ e. expression e ≡ bil.Cast bil.Low 1
        (bil.Binary (binary_of op) (bil.Concat (lifts.own r.number) (lists.flag 1)) (lifts.low_byte 33 (lifts.own amount.number)))) }
{
    let both = Exp::concat(alloc, own(r.number()), flag(1))?;
    let by = low_byte(alloc, 33, amount)?;
    let moved = Exp::binary(alloc, op, both, by)?;
    cast(alloc, CastKind::Low, 1, moved)
}

/// The carry out of a shift by the low byte of a register.
fn register_carry(
    alloc: Global,
    kind: ShiftKind,
    r: Register,
    amount: Register,
) -> Result<Exp, AllocError>
    ensures { IfOk result (λ e. expression e ≡ lifts.register_carry kind (lifts.own r.number) (lifts.own amount.number)) }
{
    match kind {
        ShiftKind::Lsl => {
            let both = Exp::concat(alloc, flag(1), own(r.number()))?;
            let by = low_byte(alloc, 33, amount)?;
            let moved = Exp::binary(alloc, BinaryOp::ShiftLeft, both, by)?;
            bit_of(alloc, 32, moved)
        }
        ShiftKind::Lsr => right_carry(alloc, BinaryOp::ShiftRight, r, amount),
        ShiftKind::Asr => right_carry(alloc, BinaryOp::ShiftSigned, r, amount),
        ShiftKind::Ror => {
            let low = cast(alloc, CastKind::Low, 8, own(amount.number()))?;
            let none = Exp::binary(alloc, BinaryOp::Equal, low, Exp::Constant(Word::new(8, 0)))?;
            let around = by_register(alloc, ShiftKind::Ror, r, amount)?;
            let highest = bit_of(alloc, 31, around)?;
            Exp::choose(alloc, none, flag(1), highest)
        }
    }
}

/// The carry of an operand that is a number: the flag where it is not rotated.
#[tactic(auto, using(crate::proofs::Registers::rotated_carry, crate::proofs::Registers::unrotated_carry))]
fn immediate_carry(byte: u8, rotation: u8) -> Exp
    ensures { expression result ≡ lifts.immediate_carry byte rotation }
{
    if rotation == 0 {
        flag(1)
    } else {
        Exp::Constant(Word::new(1, ((immediate(byte, rotation) >> 31) % 2) as u64))
    }
}

/// The carry out of the operand's shift, as one bit (section A5.1). The error is want of memory.
pub(crate) fn shifter_carry(alloc: Global, operand: Operand, at: u32) -> Result<Exp, AllocError>
    ensures { IfOk result (λ e. expression e ≡ lifts.shifter_carry operand at) }
{
    match operand {
        Operand::Number { byte, rotation } => Ok(immediate_carry(byte, rotation)),
        Operand::ByNumber {
            register: r,
            kind,
            amount,
        } => number_carry(alloc, kind, amount.bits(), register(r, at)),
        Operand::ByRegister {
            register: r,
            kind,
            amount,
        } => register_carry(alloc, kind, r, amount),
    }
}
