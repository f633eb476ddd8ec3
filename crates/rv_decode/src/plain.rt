//! The instructions of RV32IM.
use crate::register::Register;
use crate::shift_amount::ShiftAmount;

/// What a conditional branch tests of rs1 and rs2 (section 2.5).
#[derive(Clone, Copy, PartialEq, Eq)]
pub enum BranchOp {
    Beq,
    Bne,
    Blt,
    Bge,
    Bltu,
    Bgeu,
}

/// How many bytes a load reads, and whether with their sign (section 2.6).
#[derive(Clone, Copy, PartialEq, Eq)]
pub enum LoadOp {
    Lb,
    Lh,
    Lw,
    Lbu,
    Lhu,
}

/// How many bytes a store writes (section 2.6).
#[derive(Clone, Copy, PartialEq, Eq)]
pub enum StoreOp {
    Sb,
    Sh,
    Sw,
}

/// A computation with a register and an immediate (section 2.4).
#[derive(Clone, Copy, PartialEq, Eq)]
pub enum ImmediateOp {
    Addi,
    Slti,
    Sltiu,
    Xori,
    Ori,
    Andi,
}

/// A shift by a number (section 2.4).
#[derive(Clone, Copy, PartialEq, Eq, Debug)]
pub enum ShiftOp {
    Slli,
    Srli,
    Srai,
}

/// A computation with two registers (sections 2.4, 7.1 and 7.2).
#[derive(Clone, Copy, PartialEq, Eq, Debug)]
pub enum RegisterOp {
    Add,
    Sub,
    Sll,
    Slt,
    Sltu,
    Xor,
    Srl,
    Sra,
    Or,
    And,
    Mul,
    Mulh,
    Mulhsu,
    Mulhu,
    Div,
    Divu,
    Rem,
    Remu,
}

/// An instruction with its fields.
///
/// Immediates and offsets are words of 32 bits, with their sign extended; those of LUI and AUIPC have their 20 bits in place.
#[derive(Clone, Copy, PartialEq, Eq)]
pub enum Plain {
    Lui {
        rd: Register,
        imm: u32,
    },
    Auipc {
        rd: Register,
        imm: u32,
    },
    Jal {
        rd: Register,
        offset: u32,
    },
    Jalr {
        rd: Register,
        rs1: Register,
        offset: u32,
    },
    Branch {
        op: BranchOp,
        rs1: Register,
        rs2: Register,
        offset: u32,
    },
    Load {
        op: LoadOp,
        rd: Register,
        rs1: Register,
        offset: u32,
    },
    Store {
        op: StoreOp,
        rs1: Register,
        rs2: Register,
        offset: u32,
    },
    Immediate {
        op: ImmediateOp,
        rd: Register,
        rs1: Register,
        imm: u32,
    },
    Shift {
        op: ShiftOp,
        rd: Register,
        rs1: Register,
        amount: ShiftAmount,
    },
    Computation {
        op: RegisterOp,
        rd: Register,
        rs1: Register,
        rs2: Register,
    },
    /// `fields` has the bits that the standard leaves free, so that `encode` gives the word back: bits 31 to 15 of the word above its bits 11 to 7.
    Fence {
        fields: u32,
    },
    Ecall,
    Ebreak,
}
