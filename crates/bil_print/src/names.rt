//! Names of variables, types and operators, and constants.

ghost use Rattle.std.specs.Prelude.{◌≡◌, ◌++◌, string_bytes, OnOk};
ghost use Rattle.machine_spec.specs.Bil as bil;
ghost use Rattle.machine_spec.specs.BilText as text;
ghost use Rattle.machine_spec.specs.BilTyping as typing;
ghost use Rattle.byte_mem.specs.Views.{endian_of};
ghost use Rattle.bil_ast.specs.Views.{bank_of, bil_type_of, binary_of, cast_of, unary_of, variable_of};

use bil_ast::{Bank, BilType, BinaryOp, CastKind, Local, UnaryOp, Var};
use bv_word::Word;
use byte_mem::Endian;
use std::alloc::AllocError;

/// The letter that a machine's registers begin with.
fn bank_name(bank: Bank) -> &'static str
    ensures { result.now ≡ text.bank_text (bank_of bank) }
{
    match bank {
        Bank::XRegisters => "x",
        Bank::RRegisters => "r",
    }
}

/// The letter of a flag.
fn flag_name(number: u8) -> &'static str
    ensures { result.now ≡ text.flag_text number }
{
    match number {
        0 => "V",
        1 => "C",
        2 => "Z",
        _ => "N",
    }
}

/// An operator between its operands.
pub fn binary_name(op: BinaryOp) -> &'static str
    ensures { result.now ≡ text.binary_text (binary_of op) }
{
    match op {
        BinaryOp::Plus => "+",
        BinaryOp::Minus => "-",
        BinaryOp::Times => "*",
        BinaryOp::Divide => "/",
        BinaryOp::SignedDivide => "sdiv",
        BinaryOp::Modulo => "%",
        BinaryOp::SignedModulo => "smod",
        BinaryOp::And => "&",
        BinaryOp::Or => "|",
        BinaryOp::Xor => "^",
        BinaryOp::ShiftLeft => "<<",
        BinaryOp::ShiftRight => ">>",
        BinaryOp::ShiftSigned => "~>>",
        BinaryOp::Equal => "=",
        BinaryOp::NotEqual => "<>",
        BinaryOp::Less => "<",
        BinaryOp::LessEqual => "<=",
        BinaryOp::SignedLess => "s<",
        BinaryOp::SignedLessEqual => "s<=",
    }
}

/// An operator before its operand.
pub fn unary_name(op: UnaryOp) -> &'static str
    ensures { result.now ≡ text.unary_text (unary_of op) }
{
    match op {
        UnaryOp::Negate => "-",
        UnaryOp::Not => "~",
    }
}

/// A change of width.
pub fn cast_name(kind: CastKind) -> &'static str
    ensures { result.now ≡ text.cast_text (cast_of kind) }
{
    match kind {
        CastKind::Low => "low",
        CastKind::High => "high",
        CastKind::Signed => "signed",
        CastKind::Unsigned => "unsigned",
    }
}

/// A byte order.
pub fn order_name(order: Endian) -> &'static str
    ensures { result.now ≡ text.endian_text (endian_of order) }
{
    match order {
        Endian::Little => "el",
        Endian::Big => "be",
    }
}

/// Appends a variable's name.
pub fn append_variable(out: &mut String, variable: Var) -> Result<(), AllocError>
    ensures { OnOk result (string_bytes out.new ≡ string_bytes out.old ++ text.variable_text (variable_of variable)) }
{
    match variable {
        Var::Register(bank, number) => {
            let letter = bank_name(bank);
            write!(out, "{letter}{number}")
        }
        Var::Flag(number) => out.push_str(flag_name(number)),
        Var::Memory => out.push_str("mem"),
        Var::Local(local) => append_local(out, local),
    }
}

/// Appends a local's name.
pub fn append_local(out: &mut String, local: Local) -> Result<(), AllocError>
    ensures { OnOk result (string_bytes out.new ≡ string_bytes out.old ++ text.local_text local.number local.width.bits) }
{
    let number = local.number;
    let width = local.width.bits;
    write!(out, "v{number}_{width}")
}

/// Appends a constant.
pub fn append_constant(out: &mut String, word: Word) -> Result<(), AllocError>
    ensures { OnOk result (string_bytes out.new ≡ string_bytes out.old ++ text.text_of (bil.Constant word.width word.bits)) }
{
    let bits = word.bits;
    let width = word.width;
    write!(out, "0x{bits:x}:{width}")
}

/// How many bits a type has, none of a memory.
fn type_width(kind: BilType) -> u8
    ensures { result ≡ typing.type_width (bil_type_of kind) }
{
    match kind {
        BilType::Bits(width) => width.bits,
        BilType::Memory => 0,
    }
}

/// Appends a type's name.
fn append_type(out: &mut String, kind: BilType) -> Result<(), AllocError>
    ensures { OnOk result (string_bytes out.new ≡ string_bytes out.old ++ text.type_text (bil_type_of kind)) }
{
    match kind {
        BilType::Bits(width) => {
            let bits = width.bits;
            write!(out, "imm<{bits}>")
        }
        BilType::Memory => out.push_str("mem<32,8>"),
    }
}

/// Appends the unknown bits of a type.
pub fn append_unknown(out: &mut String, kind: BilType) -> Result<(), AllocError>
    ensures { OnOk result (string_bytes out.new ≡ string_bytes out.old ++ text.unknown_text (bil_type_of kind)) }
{
    out.push_str("unknown[")?;
    append_type(out, kind)?;
    let bits = type_width(kind);
    write!(out, "]:{bits}")
}
