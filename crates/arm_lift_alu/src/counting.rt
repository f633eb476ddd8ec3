//! CLZ (section A4.1.13).
ghost use Rattle.machine_spec.specs.Arm as rows;
ghost use Rattle.machine_spec.specs.Arm.{arm};
ghost use Rattle.machine_spec.specs.MachineLaws.{IsLifting};
ghost use Rattle.byte_mem.specs.Views.{endian_of};
ghost use Rattle.std.specs.Prelude.{◌≡◌, ◌≤◌, ◌<◌, IfOk};
ghost use Rattle.machine_spec.specs.Bil.{RRegisters};
ghost use Rattle.bil_ast.specs.Views.{expression, statements};
ghost use Rattle.arm_lift_alu.specs.Counted as lifts;

use crate::conditional::conditional;
use crate::shifter::{cast, own};
use arm_decode::{Class, Count};
use bil_ast::{Bank, BinaryOp, CastKind, Exp, Local, Stmt, UnaryOp, Var, Width};
use bv_word::Word;
use byte_mem::Endian;
use std::alloc::{AllocError, Global};

/// The local of a stage that has its word.
fn word_local(stage: u32) -> Local
    ensures number { result.number ≡ stage }
    ensures width { result.width.bits ≡ 32 }
{
    Local {
        number: stage,
        width: Width::new(32),
    }
}

/// The local of a stage that tells whether the highest bits of its word are all 0.
fn test_local(stage: u32) -> Local
    ensures number { result.number ≡ stage }
    ensures width { result.width.bits ≡ 1 }
{
    Local {
        number: stage,
        width: Width::new(1),
    }
}

/// The word that a stage begins with.
fn word(stage: u32) -> Exp
    ensures { expression result ≡ lifts.word stage }
{
    Exp::Var(Var::Local(word_local(stage)))
}

/// Whether the highest bits of a stage's word are all 0.
fn is_clear(stage: u32) -> Exp
    ensures { expression result ≡ lifts.is_clear stage }
{
    Exp::Var(Var::Local(test_local(stage)))
}

/// What tests the highest bits of a stage's word.
fn test(alloc: Global, stage: u32, size: u8) -> Result<Exp, AllocError>
    requires some { 1 ≤ size }
    requires few { size < 32 }
    ensures { IfOk result (λ e. expression e ≡ lifts.test stage size) }
{
    let highest = Exp::extract(alloc, 31, 32 - size, word(stage))?;
    let none = Exp::Constant(Word::new(size, 0));
    Exp::binary(alloc, BinaryOp::Equal, highest, none)
}

/// The word that a stage leaves: without its highest bits, where they are all 0.
fn left(alloc: Global, stage: u32, size: u8) -> Result<Exp, AllocError>
    requires some { 1 ≤ size }
    requires few { size < 32 }
    ensures { IfOk result (λ e. expression e ≡ lifts.left stage size) }
{
    let lowest = cast(alloc, CastKind::Low, 32 - size, word(stage))?;
    let moved = Exp::concat(alloc, lowest, Exp::Constant(Word::new(size, 0)))?;
    Exp::choose(alloc, is_clear(stage), moved, word(stage))
}

/// A stage, and what follows it.
fn stage(alloc: Global, stage: u32, size: u8, rest: Exp) -> Result<Exp, AllocError>
    requires numbered { stage < 5 }
    requires some { 1 ≤ size }
    requires few { size < 32 }
    ensures { IfOk result (λ e. expression e ≡ lifts.stage stage size (expression rest)) }
{
    let tested = test(alloc, stage, size)?;
    let word = left(alloc, stage, size)?;
    let body = Exp::bind(alloc, word_local(stage + 1), word, rest)?;
    Exp::bind(alloc, test_local(stage), tested, body)
}

/// The tests of the stages as a number.
fn tests(alloc: Global) -> Result<Exp, AllocError>
    ensures { IfOk result (λ e. expression e ≡ lifts.tests) }
{
    let by_1 = Exp::concat(alloc, is_clear(3), is_clear(4))?;
    let by_2 = Exp::concat(alloc, is_clear(2), by_1)?;
    let by_4 = Exp::concat(alloc, is_clear(1), by_2)?;
    Exp::concat(alloc, is_clear(0), by_4)
}

/// The number of zeros: where the word was 0, one more than the tests tell.
fn zeros(alloc: Global) -> Result<Exp, AllocError>
    ensures { IfOk result (λ e. expression e ≡ lifts.zeros) }
{
    let told = tests(alloc)?;
    let count = cast(alloc, CastKind::Unsigned, 32, told)?;
    let highest = Exp::extract(alloc, 31, 31, word(5))?;
    let none = Exp::unary(alloc, UnaryOp::Not, highest)?;
    let more = cast(alloc, CastKind::Unsigned, 32, none)?;
    Exp::binary(alloc, BinaryOp::Plus, count, more)
}

/// The zeros of a register, by five stages.
fn zeros_of(alloc: Global, register: u8) -> Result<Exp, AllocError>
    ensures { IfOk result (λ e. expression e ≡ lifts.zeros_of register) }
{
    let mut count = zeros(alloc)?;
    count = stage(alloc, 4, 1, count)?;
    count = stage(alloc, 3, 2, count)?;
    count = stage(alloc, 2, 4, count)?;
    count = stage(alloc, 1, 8, count)?;
    count = stage(alloc, 0, 16, count)?;
    Exp::bind(alloc, word_local(0), own(register), count)
}

/// The list of CLZ where its condition holds.
fn counted(alloc: Global, written: u8, register: u8) -> Result<Vec<Stmt>, AllocError>
    ensures { IfOk result (λ list. statements list.items ≡ lifts.counted written register) }
{
    let count = zeros_of(alloc, register)?;
    let mut list = Vec::new(alloc);
    list.push(Stmt::Assign(Var::Register(Bank::RRegisters, written), count))?;
    Ok(list)
}

/// The list of CLZ that stands at an address, in a byte order and every profile; it is the same in both orders. The error is want of memory.
pub fn lift_count(
    alloc: Global,
    insn: &Count,
    at: u32,
    order: Endian,
) -> Result<Vec<Stmt>, AllocError>
    ensures { IfOk result (λ list. (profile : rows.Profile) →
        IsLifting (arm (endian_of order) profile) RRegisters (rows.count insn.now.word) at (statements list.items)) }
{
    let condition = insn.condition();
    let fields = insn.fields();
    let list = counted(alloc, fields.rd.number(), fields.rm.number())?;
    conditional(alloc, condition, list)
}
