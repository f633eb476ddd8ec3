//! From a word to its instruction: by its opcode, then by funct3 and funct7; from a halfword by its expansion.
ghost use Rattle.std.specs.Prelude.{◌≡◌, ◌≢◌, ◌⊎◌, ◌<◌, ◌^◌, true, false, Some, None, MatchOption, IfSome, IfNone};
ghost use Rattle.std.specs.Option.{option_map};
ghost use Rattle.word_spec.specs.Words.{bits};
ghost use Rattle.machine_spec.specs.Rv.{rv_row};
ghost use Rattle.machine_spec.specs.RvShort.{row_of_expansion, rvc_row};
ghost use Rattle.machine_spec.specs.RvShort as shorts;
ghost use Rattle.rv_decode.specs.declared.insn.Insn.{Insn};
ghost use Rattle.rv_decode.specs.Insns.{row_of, Decodes};
ghost use Rattle.rv_decode.specs.Operations.{immediate_line, shift_line, register_line};
ghost use Rattle.rv_decode.specs.Plains.{DecodesPlain, branch_code, load_code, store_code};

use crate::expander::expansion;
use crate::fields::{
    amount, b_immediate, field, i_immediate, j_immediate, rd, rs1, rs2, s_immediate, u_immediate,
};
use crate::insn::Insn;
use crate::plain::{BranchOp, ImmediateOp, LoadOp, Plain, RegisterOp, ShiftOp, StoreOp};

/// The instruction of a word, or of the halfword that is its lower half where the upper half is 0 and the low two bits are not 11. `None` where the table has
/// no row for it; halfwords have rows only with `rvc`, the compressed instructions.
///
/// The row of the instruction is the word's, and its fields are the word's too: no other instruction is of the word.
#[tactic(auto, using(crate::proofs::Choices::row_is, crate::proofs::Choices::only_is))]
pub fn decode(word: u32, rvc: bool) -> Option<Insn>
    ensures row { option_map row_of result ≡ rvc_row rvc word }
    ensures fields { IfSome result (Decodes rvc word) }
    ensures only { (i : Insn) → Decodes rvc word i → result ≡ Some i }
{
    decode_by_width(word, rvc)
}

// As each of its parts, it says no more than whose row the word has: the clauses of `decode` follow.
#[tactic(auto, using(crate::proofs::Choices::of_word, crate::proofs::Choices::of_none, crate::proofs::Choices::of_half))]
fn decode_by_width(word: u32, rvc: bool) -> Option<Insn>
    ensures { MatchOption result (rvc_row rvc word ≡ None) (Decodes rvc word) }
{
    if !rvc || word % 4 == 3 {
        return decode_word(word);
    }
    if word >= 0x1_0000 {
        return None;
    }
    decode_half(word as u16)
}

fn decode_word(word: u32) -> Option<Insn>
    ensures { MatchOption result (rv_row word ≡ None) (Decodes false word) }
{
    let plain = decode_plain(word)?;
    Some(Insn { plain, half: None })
}

fn decode_half(half: u16) -> Option<Insn>
    ensures { MatchOption result (row_of_expansion (shorts.expansion half) ≡ None) (Decodes true half) }
{
    let plain = decode_plain(expansion(half)?)?;
    Some(Insn {
        plain,
        half: Some(half),
    })
}

#[tactic(auto, using(crate::proofs::NoRows::no_opcode))]
fn decode_plain(word: u32) -> Option<Plain>
    ensures { MatchOption result (rv_row word ≡ None) (DecodesPlain word) }
{
    match field(word, 6, 0) {
        0b0110111 => Some(Plain::Lui {
            rd: rd(word),
            imm: u_immediate(word),
        }),
        0b0010111 => Some(Plain::Auipc {
            rd: rd(word),
            imm: u_immediate(word),
        }),
        0b1101111 => Some(Plain::Jal {
            rd: rd(word),
            offset: j_immediate(word),
        }),
        0b1100111 => decode_jalr(word),
        0b1100011 => decode_branch(word),
        0b0000011 => decode_load(word),
        0b0100011 => decode_store(word),
        0b0010011 => decode_immediate(word),
        0b0110011 => decode_computation(word),
        0b0001111 => decode_fence(word),
        0b1110011 => decode_system(word),
        _ => None,
    }
}

#[tactic(auto, using(crate::proofs::NoRows::no_jalr))]
fn decode_jalr(word: u32) -> Option<Plain>
    requires { bits 6 0 word ≡ 0b1100111 }
    ensures { MatchOption result (rv_row word ≡ None) (DecodesPlain word) }
{
    if field(word, 14, 12) != 0 {
        return None;
    }
    Some(Plain::Jalr {
        rd: rd(word),
        rs1: rs1(word),
        offset: i_immediate(word),
    })
}

fn branch_op(funct3: u32) -> Option<BranchOp>
    requires { funct3 < 8 }
    ensures { MatchOption result ((funct3 ≡ 2) ⊎ (funct3 ≡ 3)) (λ op. funct3 ≡ branch_code op) }
{
    match funct3 {
        0 => Some(BranchOp::Beq),
        1 => Some(BranchOp::Bne),
        4 => Some(BranchOp::Blt),
        5 => Some(BranchOp::Bge),
        6 => Some(BranchOp::Bltu),
        7 => Some(BranchOp::Bgeu),
        _ => None,
    }
}

#[tactic(auto, using(crate::proofs::NoRows::no_branch))]
fn decode_branch(word: u32) -> Option<Plain>
    requires { bits 6 0 word ≡ 0b1100011 }
    ensures { MatchOption result (rv_row word ≡ None) (DecodesPlain word) }
{
    let op = branch_op(field(word, 14, 12))?;
    Some(Plain::Branch {
        op,
        rs1: rs1(word),
        rs2: rs2(word),
        offset: b_immediate(word),
    })
}

fn load_op(funct3: u32) -> Option<LoadOp>
    requires { funct3 < 8 }
    ensures { MatchOption result ((funct3 ≡ 3) ⊎ (5 < funct3)) (λ op. funct3 ≡ load_code op) }
{
    match funct3 {
        0 => Some(LoadOp::Lb),
        1 => Some(LoadOp::Lh),
        2 => Some(LoadOp::Lw),
        4 => Some(LoadOp::Lbu),
        5 => Some(LoadOp::Lhu),
        _ => None,
    }
}

#[tactic(auto, using(crate::proofs::NoRows::no_load))]
fn decode_load(word: u32) -> Option<Plain>
    requires { bits 6 0 word ≡ 0b0000011 }
    ensures { MatchOption result (rv_row word ≡ None) (DecodesPlain word) }
{
    let op = load_op(field(word, 14, 12))?;
    Some(Plain::Load {
        op,
        rd: rd(word),
        rs1: rs1(word),
        offset: i_immediate(word),
    })
}

fn store_op(funct3: u32) -> Option<StoreOp>
    ensures { MatchOption result (2 < funct3) (λ op. funct3 ≡ store_code op) }
{
    match funct3 {
        0 => Some(StoreOp::Sb),
        1 => Some(StoreOp::Sh),
        2 => Some(StoreOp::Sw),
        _ => None,
    }
}

#[tactic(auto, using(crate::proofs::NoRows::no_store))]
fn decode_store(word: u32) -> Option<Plain>
    requires { bits 6 0 word ≡ 0b0100011 }
    ensures { MatchOption result (rv_row word ≡ None) (DecodesPlain word) }
{
    let op = store_op(field(word, 14, 12))?;
    Some(Plain::Store {
        op,
        rs1: rs1(word),
        rs2: rs2(word),
        offset: s_immediate(word),
    })
}

fn immediate_op(funct3: u32) -> Option<ImmediateOp>
    requires { funct3 < 8 }
    ensures { MatchOption result ((funct3 ≡ 1) ⊎ (funct3 ≡ 5)) (λ op. funct3 ≡ (immediate_line op).funct3) }
{
    match funct3 {
        0 => Some(ImmediateOp::Addi),
        2 => Some(ImmediateOp::Slti),
        3 => Some(ImmediateOp::Sltiu),
        4 => Some(ImmediateOp::Xori),
        6 => Some(ImmediateOp::Ori),
        7 => Some(ImmediateOp::Andi),
        _ => None,
    }
}

fn decode_immediate(word: u32) -> Option<Plain>
    requires { bits 6 0 word ≡ 0b0010011 }
    ensures { MatchOption result (rv_row word ≡ None) (DecodesPlain word) }
{
    match immediate_op(field(word, 14, 12)) {
        Some(op) => Some(Plain::Immediate {
            op,
            rd: rd(word),
            rs1: rs1(word),
            imm: i_immediate(word),
        }),
        None => decode_shift(word),
    }
}

fn shift_op(funct3: u32, funct7: u32) -> Option<ShiftOp>
    requires { (funct3 ≡ 1) ⊎ (funct3 ≡ 5) }
    ensures some { IfSome result (λ op. (funct3 ≡ (shift_line op).funct3) × (funct7 ≡ (shift_line op).funct7)) }
    ensures none { IfNone result ((funct7 ≢ 0) × ((funct3 ≡ 1) ⊎ (funct7 ≢ 32))) }
{
    match (funct3, funct7) {
        (1, 0) => Some(ShiftOp::Slli),
        (5, 0) => Some(ShiftOp::Srli),
        (5, 32) => Some(ShiftOp::Srai),
        _ => None,
    }
}

#[tactic(auto, using(crate::proofs::NoRows::no_shift))]
fn decode_shift(word: u32) -> Option<Plain>
    requires opcode { bits 6 0 word ≡ 0b0010011 }
    requires funct3 { (bits 14 12 word ≡ 1) ⊎ (bits 14 12 word ≡ 5) }
    ensures { MatchOption result (rv_row word ≡ None) (DecodesPlain word) }
{
    let op = shift_op(field(word, 14, 12), field(word, 31, 25))?;
    Some(Plain::Shift {
        op,
        rd: rd(word),
        rs1: rs1(word),
        amount: amount(word),
    })
}

fn base_op(funct3: u32) -> RegisterOp
    requires { funct3 < 8 }
    ensures { (funct3 ≡ (register_line result).funct3) × (0 ≡ (register_line result).funct7) }
{
    match funct3 {
        0 => RegisterOp::Add,
        1 => RegisterOp::Sll,
        2 => RegisterOp::Slt,
        3 => RegisterOp::Sltu,
        4 => RegisterOp::Xor,
        5 => RegisterOp::Srl,
        6 => RegisterOp::Or,
        _ => RegisterOp::And,
    }
}

fn multiply_op(funct3: u32) -> RegisterOp
    requires { funct3 < 8 }
    ensures { (funct3 ≡ (register_line result).funct3) × (1 ≡ (register_line result).funct7) }
{
    match funct3 {
        0 => RegisterOp::Mul,
        1 => RegisterOp::Mulh,
        2 => RegisterOp::Mulhsu,
        3 => RegisterOp::Mulhu,
        4 => RegisterOp::Div,
        5 => RegisterOp::Divu,
        6 => RegisterOp::Rem,
        _ => RegisterOp::Remu,
    }
}

fn register_op(funct3: u32, funct7: u32) -> Option<RegisterOp>
    requires { funct3 < 8 }
    ensures some { IfSome result (λ op. (funct3 ≡ (register_line op).funct3) × (funct7 ≡ (register_line op).funct7)) }
    ensures none { IfNone result
        ((funct7 ≢ 0) × (funct7 ≢ 1) × ((funct7 ≢ 32) ⊎ ((funct3 ≢ 0) × (funct3 ≢ 5)))) }
{
    match (funct7, funct3) {
        (0, _) => Some(base_op(funct3)),
        (1, _) => Some(multiply_op(funct3)),
        (32, 0) => Some(RegisterOp::Sub),
        (32, 5) => Some(RegisterOp::Sra),
        _ => None,
    }
}

#[tactic(auto, using(crate::proofs::NoRows::no_computation))]
fn decode_computation(word: u32) -> Option<Plain>
    requires { bits 6 0 word ≡ 0b0110011 }
    ensures { MatchOption result (rv_row word ≡ None) (DecodesPlain word) }
{
    let op = register_op(field(word, 14, 12), field(word, 31, 25))?;
    Some(Plain::Computation {
        op,
        rd: rd(word),
        rs1: rs1(word),
        rs2: rs2(word),
    })
}

#[tactic(auto, using(crate::proofs::NoRows::no_fence))]
fn decode_fence(word: u32) -> Option<Plain>
    requires { bits 6 0 word ≡ 0b0001111 }
    ensures { MatchOption result (rv_row word ≡ None) (DecodesPlain word) }
{
    if field(word, 14, 12) == 0 {
        Some(Plain::Fence {
            fields: field(word, 31, 15) * 32 + field(word, 11, 7),
        })
    } else {
        None
    }
}

#[tactic(auto, using(crate::proofs::NoRows::no_system))]
fn decode_system(word: u32) -> Option<Plain>
    requires { bits 6 0 word ≡ 0b1110011 }
    ensures { MatchOption result (rv_row word ≡ None) (DecodesPlain word) }
{
    match word {
        0x73 => Some(Plain::Ecall),
        0x100073 => Some(Plain::Ebreak),
        _ => None,
    }
}
