//! From an instruction to its word, by its format (section 2.2).
ghost use Rattle.std.specs.Prelude.{◌≡◌, ◌<◌, ◌^◌, ℕ, Bool, true};
ghost use Rattle.rv_decode.specs.Insns.{Decodes, IsDecodable};
ghost use Rattle.rv_decode.specs.Plains.{branch_code, load_code, store_code};
ghost use Rattle.rv_decode.specs.Encodings.{encoded, encoded_by};

use crate::fields::field;
use crate::insn::Insn;
use crate::plain::{BranchOp, ImmediateOp, LoadOp, Plain, RegisterOp, ShiftOp, StoreOp};
use crate::register::Register;
use crate::shift_amount::ShiftAmount;
use crate::word_formats::{word_b, word_i, word_j, word_r, word_s, word_u};

/// The word of an instruction that some word decodes to; its lower half is the halfword of an instruction of 2 bytes, and its upper half is then 0.
///
/// It is the only such word, so `encode` gives back the word that `decode` took, and `decode` gives back the instruction that `encode` took.
/// An instruction whose immediate is one of its format always has a word: `fitting_is_decodable` says so.
#[tactic(auto, using(crate::proofs::Words::word_is, crate::proofs::Words::word_decodes))]
pub fn encode(insn: &Insn) -> u32
    requires { IsDecodable insn.now }
    ensures decodes { Decodes true result insn.now }
    ensures only { (rvc : Bool) (w : ℕ) → w < 2 ^ 32 → Decodes rvc w insn.now → result ≡ w }
{
    word_by(insn.plain, insn.half)
}

fn word_by(plain: Plain, half: Option<u16>) -> u32
    ensures { result ≡ encoded_by plain half }
{
    match half {
        Some(half) => u32::from(half),
        None => word_of(plain),
    }
}

fn word_of(plain: Plain) -> u32
    ensures { result ≡ encoded plain }
{
    match plain {
        Plain::Lui { rd, imm } => word_u(0b0110111, number(rd), imm),
        Plain::Auipc { rd, imm } => word_u(0b0010111, number(rd), imm),
        Plain::Jal { rd, offset } => word_j(0b1101111, number(rd), offset),
        Plain::Jalr { rd, rs1, offset } => word_i(0b1100111, 0, number(rd), number(rs1), offset),
        Plain::Branch {
            op,
            rs1,
            rs2,
            offset,
        } => word_b(
            0b1100011,
            branch_funct3(op),
            number(rs1),
            number(rs2),
            offset,
        ),
        Plain::Load {
            op,
            rd,
            rs1,
            offset,
        } => word_i(0b0000011, load_funct3(op), number(rd), number(rs1), offset),
        Plain::Store {
            op,
            rs1,
            rs2,
            offset,
        } => word_s(
            0b0100011,
            store_funct3(op),
            number(rs1),
            number(rs2),
            offset,
        ),
        Plain::Immediate { op, rd, rs1, imm } => immediate_word(op, rd, rs1, imm),
        Plain::Shift {
            op,
            rd,
            rs1,
            amount,
        } => shift_word(op, rd, rs1, amount),
        Plain::Computation { op, rd, rs1, rs2 } => computation_word(op, rd, rs1, rs2),
        Plain::Fence { fields } => fence_word(fields),
        Plain::Ecall => 0x73,
        Plain::Ebreak => 0x100073,
    }
}

/// The number of a register, as a word's field.
fn number(register: Register) -> u32
    ensures is { result ≡ register.number }
    ensures small { result < 32 }
{
    u32::from(register.number())
}

fn immediate_word(op: ImmediateOp, rd: Register, rs1: Register, imm: u32) -> u32
    ensures { result ≡ encoded (Plain.Immediate op rd rs1 imm) }
{
    word_i(0b0010011, op.line().funct3, number(rd), number(rs1), imm)
}

fn shift_word(op: ShiftOp, rd: Register, rs1: Register, amount: ShiftAmount) -> u32
    ensures { result ≡ encoded (Plain.Shift op rd rs1 amount) }
{
    let line = op.line();
    word_r(
        0b0010011,
        line.funct3,
        line.funct7,
        number(rd),
        number(rs1),
        u32::from(amount.bits()),
    )
}

fn computation_word(op: RegisterOp, rd: Register, rs1: Register, rs2: Register) -> u32
    ensures { result ≡ encoded (Plain.Computation op rd rs1 rs2) }
{
    let line = op.line();
    word_r(
        0b0110011,
        line.funct3,
        line.funct7,
        number(rd),
        number(rs1),
        number(rs2),
    )
}

fn fence_word(fields: u32) -> u32
    ensures { result ≡ encoded (Plain.Fence fields) }
{
    0b0001111 + field(fields, 4, 0) * 0x80 + field(fields, 21, 5) * 0x8000
}

fn branch_funct3(op: BranchOp) -> u32
    ensures { result ≡ branch_code op }
{
    match op {
        BranchOp::Beq => 0,
        BranchOp::Bne => 1,
        BranchOp::Blt => 4,
        BranchOp::Bge => 5,
        BranchOp::Bltu => 6,
        BranchOp::Bgeu => 7,
    }
}

fn load_funct3(op: LoadOp) -> u32
    ensures { result ≡ load_code op }
{
    match op {
        LoadOp::Lb => 0,
        LoadOp::Lh => 1,
        LoadOp::Lw => 2,
        LoadOp::Lbu => 4,
        LoadOp::Lhu => 5,
    }
}

fn store_funct3(op: StoreOp) -> u32
    ensures { result ≡ store_code op }
{
    match op {
        StoreOp::Sb => 0,
        StoreOp::Sh => 1,
        StoreOp::Sw => 2,
    }
}
