//! Addresses, bases that are written back, words and bytes.
ghost use Rattle.std.specs.Prelude.{◌≡◌, ◌≤◌, ◌<◌, ℕ, IfOk};
ghost use Rattle.machine_spec.specs.Bil as bil;
ghost use Rattle.bil_ast.specs.Views.{cast_of, expression, statement, statements};
ghost use Rattle.byte_mem.specs.Views.{endian_of};
ghost use Rattle.arm_lift_alu.specs.Operands as operands;
ghost use Rattle.arm_lift_mem.specs.Accesses as lifts;

use arm_decode::{Addressing, AnyRegister, Indexing, Offset, Operand};
use arm_lift_alu::expressions::number;
use arm_lift_alu::shifter::{CarryIn, cast, operand, own, rotated};
use bil_ast::{Bank, BinaryOp, CastKind, Exp, Local, Stmt, Var, Width};
use bv_word::Word;
use byte_mem::Endian;
use std::alloc::{AllocError, Global};

/// The offset of LDR and STR, in a row that stands at an address.
pub(crate) fn offset_of(alloc: Global, offset: Offset, at: u32) -> Result<Exp, AllocError>
    ensures { IfOk result (λ e. expression e ≡ lifts.offset_of offset at) }
{
    match offset {
        Offset::Number(value) => Ok(number(value as u32)),
        Offset::Shifted {
            register,
            kind,
            amount,
        } => {
            let shifted = Operand::ByNumber {
                register: AnyRegister::new(register.number()),
                kind,
                amount,
            };
            operand(alloc, shifted, CarryIn::Flag, at)
        }
    }
}

/// The base with the offset added or subtracted.
fn moved(alloc: Global, is_up: bool, base: Exp, offset: Exp) -> Result<Exp, AllocError>
    ensures { IfOk result (λ e. expression e ≡ lifts.moved is_up (expression base) (expression offset)) }
{
    if is_up {
        Exp::binary(alloc, BinaryOp::Plus, base, offset)
    } else {
        Exp::binary(alloc, BinaryOp::Minus, base, offset)
    }
}

/// The address of an access, before the base is written.
pub(crate) fn address(
    alloc: Global,
    addressing: Addressing,
    base: Exp,
    offset: &Exp,
) -> Result<Exp, AllocError>
    ensures { IfOk result (λ e. expression e ≡ lifts.address addressing.indexing addressing.is_up (expression base) (expression offset.now)) }
{
    match addressing.indexing {
        Indexing::Offset | Indexing::Pre => {
            let offset = offset.copy(alloc)?;
            moved(alloc, addressing.is_up, base, offset)
        }
        Indexing::Post => Ok(base),
    }
}

/// The same address, found again where the base is written.
pub(crate) fn address_again(
    alloc: Global,
    addressing: Addressing,
    base: Exp,
    offset: &Exp,
) -> Result<Exp, AllocError>
    ensures { IfOk result (λ e. expression e ≡ lifts.address_again addressing.indexing addressing.is_up (expression base) (expression offset.now)) }
{
    match addressing.indexing {
        Indexing::Offset => {
            let offset = offset.copy(alloc)?;
            moved(alloc, addressing.is_up, base, offset)
        }
        Indexing::Pre => Ok(base),
        Indexing::Post => {
            let offset = offset.copy(alloc)?;
            moved(alloc, !addressing.is_up, base, offset)
        }
    }
}

/// A register takes a value.
pub(crate) fn assign(number: u8, value: Exp) -> Stmt
    ensures { (rest : bil.Statements) → statement result rest ≡ bil.Assign (bil.Register bil.RRegisters number) (expression value) rest }
{
    Stmt::Assign(Var::Register(Bank::RRegisters, number), value)
}

/// A list of one statement.
pub(crate) fn one(alloc: Global, stmt: Stmt) -> Result<Vec<Stmt>, AllocError>
    ensures { IfOk result (λ list. statements list.items ≡ statement stmt bil.Empty) }
{
    let mut list = Vec::new(alloc);
    list.push(stmt)?;
    Ok(list)
}

/// A list of two statements.
pub(crate) fn two(alloc: Global, first: Stmt, second: Stmt) -> Result<Vec<Stmt>, AllocError>
    ensures { IfOk result (λ list. statements list.items ≡ statement first (statement second bil.Empty)) }
{
    let mut list = Vec::new(alloc);
    list.push(first)?;
    list.push(second)?;
    Ok(list)
}

/// The base is written.
fn write_back(alloc: Global, is_up: bool, rn: AnyRegister, offset: Exp) -> Result<Stmt, AllocError>
    ensures { IfOk result (λ s. (rest : bil.Statements) → statement s rest
        ≡ bil.Assign (bil.Register bil.RRegisters rn.number) (lifts.moved is_up (operands.own rn.number) (expression offset)) rest) }
{
    let value = moved(alloc, is_up, own(rn.number()), offset)?;
    Ok(assign(rn.number(), value))
}

/// A statement behind the write-back, where the addressing says so.
pub(crate) fn behind_write_back(
    alloc: Global,
    addressing: Addressing,
    rn: AnyRegister,
    offset: Exp,
    stmt: Stmt,
) -> Result<Vec<Stmt>, AllocError>
    ensures { IfOk result (λ list. statements list.items
        ≡ lifts.written_back addressing.indexing addressing.is_up rn.number (expression offset) (statement stmt bil.Empty)) }
{
    match addressing.indexing {
        Indexing::Offset => one(alloc, stmt),
        Indexing::Pre | Indexing::Post => {
            let base = write_back(alloc, addressing.is_up, rn, offset)?;
            two(alloc, base, stmt)
        }
    }
}

/// A statement, and then the write-back, where the addressing says so.
pub(crate) fn before_write_back(
    alloc: Global,
    addressing: Addressing,
    rn: AnyRegister,
    offset: Exp,
    stmt: Stmt,
) -> Result<Vec<Stmt>, AllocError>
    ensures { IfOk result (λ list. statements list.items
        ≡ statement stmt (lifts.written_back addressing.indexing addressing.is_up rn.number (expression offset) bil.Empty)) }
{
    match addressing.indexing {
        Indexing::Offset => one(alloc, stmt),
        Indexing::Pre | Indexing::Post => {
            let base = write_back(alloc, addressing.is_up, rn, offset)?;
            two(alloc, stmt, base)
        }
    }
}

/// A list behind a test: where the bit is set, it is an exception.
#[tactic(auto, using(crate::proofs::Choices::inserted))]
pub(crate) fn unless(
    alloc: Global,
    test: Exp,
    exception: u32,
    mut list: Vec<Stmt>,
) -> Result<Vec<Stmt>, AllocError>
    ensures { IfOk result (λ all. statements all.items ≡ lifts.unless (expression test) exception (statements list.items)) }
{
    let raised = one(alloc, Stmt::Raise(exception))?;
    list.insert(0, Stmt::choose(test, raised, Vec::new(alloc)))?;
    Ok(list)
}

/// The multiple of 4 at or below an address.
pub(crate) fn aligned(alloc: Global, address: Exp) -> Result<Exp, AllocError>
    ensures { IfOk result (λ e. expression e ≡ lifts.aligned (expression address)) }
{
    Exp::binary(alloc, BinaryOp::And, address, number(0xFFFF_FFFC))
}

/// By how much the word at an address that is no multiple of 4 is rotated: 8 for each byte.
fn turn(alloc: Global, address: Exp) -> Result<Exp, AllocError>
    ensures { IfOk result (λ e. expression e ≡ lifts.turn (expression address)) }
{
    let low = cast(alloc, CastKind::Low, 2, address)?;
    let bits = Exp::concat(alloc, low, Exp::Constant(Word::new(3, 0)))?;
    cast(alloc, CastKind::Unsigned, 64, bits)
}

/// A load of 1 to 64 bits.
pub(crate) fn load(alloc: Global, address: Exp, order: Endian, bits: u8) -> Result<Exp, AllocError>
    requires some { 1 ≤ bits }
    requires few { bits ≤ 64 }
    ensures { IfOk result (λ e. expression e ≡ bil.Load (bil.Var bil.Mem) (expression address) (endian_of order) bits) }
{
    Exp::load(
        alloc,
        Exp::Var(Var::Memory),
        address,
        order,
        Width::new(bits),
    )
}

/// A store of 1 to 64 bits.
pub(crate) fn store(
    alloc: Global,
    address: Exp,
    order: Endian,
    bits: u8,
    value: Exp,
) -> Result<Stmt, AllocError>
    requires some { 1 ≤ bits }
    requires few { bits ≤ 64 }
    ensures { IfOk result (λ s. (rest : bil.Statements) → statement s rest
        ≡ bil.Assign bil.Mem (bil.Store (bil.Var bil.Mem) (expression address) (endian_of order) bits (expression value)) rest) }
{
    let memory = Exp::store(
        alloc,
        Exp::Var(Var::Memory),
        address,
        order,
        Width::new(bits),
        value,
    )?;
    Ok(Stmt::Assign(Var::Memory, memory))
}

/// The loaded word, where it is rotated.
fn twice() -> Exp
    ensures { expression result ≡ lifts.twice }
{
    Exp::Var(Var::Local(Local {
        number: 0,
        width: Width::new(32),
    }))
}

/// The word at a place, rotated to the right by an amount below 32.
pub(crate) fn word(alloc: Global, order: Endian, place: Exp, amount: Exp) -> Result<Exp, AllocError>
    ensures { IfOk result (λ e. expression e ≡ lifts.word (endian_of order) (expression place) (expression amount)) }
{
    let loaded = load(alloc, place, order, 32)?;
    let turned = rotated(alloc, twice(), twice(), amount)?;
    let local = Local {
        number: 0,
        width: Width::new(32),
    };
    Exp::bind(alloc, local, loaded, turned)
}

/// A byte, or a word rotated so that the addressed byte is the lowest.
pub(crate) fn loaded(
    alloc: Global,
    is_byte: bool,
    order: Endian,
    address: Exp,
) -> Result<Exp, AllocError>
    ensures { IfOk result (λ e. expression e ≡ lifts.loaded is_byte (endian_of order) (expression address)) }
{
    if is_byte {
        let byte = load(alloc, address, order, 8)?;
        return cast(alloc, CastKind::Unsigned, 32, byte);
    }
    let again = address.copy(alloc)?;
    let place = aligned(alloc, address)?;
    let amount = turn(alloc, again)?;
    word(alloc, order, place, amount)
}

/// A byte, or the aligned word, takes a value.
pub(crate) fn stored(
    alloc: Global,
    is_byte: bool,
    order: Endian,
    address: Exp,
    value: Exp,
) -> Result<Stmt, AllocError>
    ensures { IfOk result (λ s. (rest : bil.Statements) → statement s rest
        ≡ bil.Assign bil.Mem (lifts.stored is_byte (endian_of order) (expression address) (expression value)) rest) }
{
    if is_byte {
        let low = cast(alloc, CastKind::Low, 8, value)?;
        return store(alloc, address, order, 8, low);
    }
    let place = aligned(alloc, address)?;
    store(alloc, place, order, 32, value)
}
