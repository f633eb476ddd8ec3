//! Words by their formats (section 2.2), from the numbers of registers.
ghost use Rattle.std.specs.Prelude.{◌≡◌, ◌<◌};
ghost use Rattle.machine_spec.specs.RvWords as formats;

use crate::fields::field;

/// A word of format R.
pub fn word_r(opcode: u32, funct3: u32, funct7: u32, rd: u32, rs1: u32, rs2: u32) -> u32
    requires opcode { opcode < 128 }
    requires funct3 { funct3 < 8 }
    requires funct7 { funct7 < 128 }
    requires rd { rd < 32 }
    requires rs1 { rs1 < 32 }
    requires rs2 { rs2 < 32 }
    ensures { result ≡ formats.word_r opcode funct3 funct7 rd rs1 rs2 }
{
    opcode + rd * 128 + funct3 * 4096 + rs1 * 32_768 + rs2 * 1_048_576 + funct7 * 33_554_432
}

/// A word of format I.
pub fn word_i(opcode: u32, funct3: u32, rd: u32, rs1: u32, imm: u32) -> u32
    requires opcode { opcode < 128 }
    requires funct3 { funct3 < 8 }
    requires rd { rd < 32 }
    requires rs1 { rs1 < 32 }
    ensures { result ≡ formats.word_i opcode funct3 rd rs1 imm }
{
    opcode + rd * 128 + funct3 * 4096 + rs1 * 32_768 + field(imm, 11, 0) * 1_048_576
}

/// A word of format S.
pub fn word_s(opcode: u32, funct3: u32, rs1: u32, rs2: u32, offset: u32) -> u32
    requires opcode { opcode < 128 }
    requires funct3 { funct3 < 8 }
    requires rs1 { rs1 < 32 }
    requires rs2 { rs2 < 32 }
    ensures { result ≡ formats.word_s opcode funct3 rs1 rs2 offset }
{
    let lower = opcode + field(offset, 4, 0) * 128 + funct3 * 4096 + rs1 * 32_768;
    lower + rs2 * 1_048_576 + field(offset, 11, 5) * 33_554_432
}

/// A word of format B.
pub fn word_b(opcode: u32, funct3: u32, rs1: u32, rs2: u32, offset: u32) -> u32
    requires opcode { opcode < 128 }
    requires funct3 { funct3 < 8 }
    requires rs1 { rs1 < 32 }
    requires rs2 { rs2 < 32 }
    ensures { result ≡ formats.word_b opcode funct3 rs1 rs2 offset }
{
    let lower = opcode + field(offset, 11, 11) * 128 + field(offset, 4, 1) * 256 + funct3 * 4096;
    let middle = lower + rs1 * 32_768 + rs2 * 1_048_576;
    middle + field(offset, 10, 5) * 33_554_432 + field(offset, 12, 12) * 2_147_483_648
}

/// A word of format U.
pub fn word_u(opcode: u32, rd: u32, imm: u32) -> u32
    requires opcode { opcode < 128 }
    requires rd { rd < 32 }
    ensures { result ≡ formats.word_u opcode rd imm }
{
    opcode + rd * 128 + field(imm, 31, 12) * 4096
}

/// A word of format J.
pub fn word_j(opcode: u32, rd: u32, offset: u32) -> u32
    requires opcode { opcode < 128 }
    requires rd { rd < 32 }
    ensures { result ≡ formats.word_j opcode rd offset }
{
    let lower = opcode
        + rd * 128
        + field(offset, 19, 12) * 4096
        + field(offset, 11, 11) * 1_048_576;
    lower + field(offset, 10, 1) * 2_097_152 + field(offset, 20, 20) * 2_147_483_648
}
