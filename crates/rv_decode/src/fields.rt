//! The fields of a word (section 2.2) and its immediates (section 2.3).
ghost use Rattle.std.specs.Prelude.{◌≡◌, ◌<◌, ◌≤◌, ◌+◌, ◌*◌, ◌^◌};
ghost use Rattle.word_spec.specs.Words as words;
ghost use Rattle.machine_spec.specs.Rv.{imm_i, imm_s, imm_b, imm_u, imm_j};

use crate::register::Register;
use crate::shift_amount::ShiftAmount;

/// Bits `high` to `low` of a word.
pub fn field(word: u32, high: u32, low: u32) -> u32
    requires ordered { low ≤ high }
    requires within { high < low + 31 }
    requires in_word { high < 32 }
    ensures { result ≡ words.bits high low word }
{
    (word >> low) & ((1 << (high + 1 - low)) - 1)
}

/// A number of `width` bits, with its sign, in 32 bits.
pub fn sign_extended(value: u32, width: u32) -> u32
    requires some { 0 < width }
    requires within { width < 32 }
    requires fits { value < 2 ^ width }
    ensures { result ≡ words.sign_extend width 32 value }
{
    if value >= 1 << (width - 1) {
        value + (u32::MAX - ((1 << width) - 1))
    } else {
        value
    }
}

/// The register that is written.
pub fn rd(word: u32) -> Register
    ensures { result.number ≡ words.bits 11 7 word }
{
    Register::new(field(word, 11, 7) as u8)
}

/// The first register that is read.
pub fn rs1(word: u32) -> Register
    ensures { result.number ≡ words.bits 19 15 word }
{
    Register::new(field(word, 19, 15) as u8)
}

/// The second register that is read.
pub fn rs2(word: u32) -> Register
    ensures { result.number ≡ words.bits 24 20 word }
{
    Register::new(field(word, 24, 20) as u8)
}

/// The amount of a shift by a number, which stands at the place of rs2.
pub fn amount(word: u32) -> ShiftAmount
    ensures { result.bits ≡ words.bits 24 20 word }
{
    ShiftAmount::new(field(word, 24, 20) as u8)
}

/// The immediate of format I.
pub fn i_immediate(word: u32) -> u32
    ensures { result ≡ imm_i word }
{
    sign_extended(field(word, 31, 20), 12)
}

/// The immediate of format S.
pub fn s_immediate(word: u32) -> u32
    ensures { result ≡ imm_s word }
{
    sign_extended(field(word, 31, 25) * 32 + field(word, 11, 7), 12)
}

/// The immediate of format B.
pub fn b_immediate(word: u32) -> u32
    ensures { result ≡ imm_b word }
{
    let upper = field(word, 31, 31) * 4096 + field(word, 7, 7) * 2048;
    sign_extended(
        upper + field(word, 30, 25) * 32 + field(word, 11, 8) * 2,
        13,
    )
}

/// The immediate of format U.
pub fn u_immediate(word: u32) -> u32
    ensures { result ≡ imm_u word }
{
    field(word, 31, 12) * 4096
}

/// The immediate of format J.
pub fn j_immediate(word: u32) -> u32
    ensures { result ≡ imm_j word }
{
    let upper = field(word, 31, 31) * 0x10_0000 + field(word, 19, 12) * 4096;
    sign_extended(
        upper + field(word, 20, 20) * 2048 + field(word, 30, 21) * 2,
        21,
    )
}
