//! The fields of halfwords (chapter 16): registers, and numbers whose bits are scattered.
ghost use Rattle.std.specs.Prelude.{◌≡◌, ◌<◌};
ghost use Rattle.machine_spec.specs.RvShort as shorts;

use crate::fields::{field, sign_extended};

/// The register in bits 11 to 7.
pub fn full(h: u32) -> u32
    ensures is { result ≡ shorts.full h }
    ensures small { result < 32 }
{
    field(h, 11, 7)
}

/// The register, or the amount of a shift, in bits 6 to 2.
pub fn back(h: u32) -> u32
    ensures is { result ≡ shorts.back h }
    ensures small { result < 32 }
{
    field(h, 6, 2)
}

/// The register of three bits in bits 9 to 7.
pub fn middle(h: u32) -> u32
    ensures is { result ≡ shorts.middle h }
    ensures small { result < 32 }
{
    8 + field(h, 9, 7)
}

/// The register of three bits in bits 4 to 2.
pub fn low(h: u32) -> u32
    ensures is { result ≡ shorts.low h }
    ensures small { result < 32 }
{
    8 + field(h, 4, 2)
}

/// The number of C.ADDI4SPN.
pub fn imm_4spn(h: u32) -> u32
    ensures { result ≡ shorts.imm_4spn h }
{
    field(h, 12, 11) * 16 + field(h, 10, 7) * 64 + field(h, 6, 6) * 4 + field(h, 5, 5) * 8
}

/// The offset of C.LW and C.SW.
pub fn imm_w(h: u32) -> u32
    ensures { result ≡ shorts.imm_w h }
{
    field(h, 12, 10) * 8 + field(h, 6, 6) * 4 + field(h, 5, 5) * 64
}

/// A number of six bits with its sign.
pub fn imm_6(h: u32) -> u32
    ensures { result ≡ shorts.imm_6 h }
{
    sign_extended(field(h, 12, 12) * 32 + field(h, 6, 2), 6)
}

/// The offset of C.JAL and C.J.
pub fn imm_j(h: u32) -> u32
    ensures { result ≡ shorts.imm_j h }
{
    let upper = field(h, 12, 12) * 2048 + field(h, 11, 11) * 16 + field(h, 10, 9) * 256;
    let upper = upper + field(h, 8, 8) * 1024 + field(h, 7, 7) * 64 + field(h, 6, 6) * 128;
    sign_extended(upper + field(h, 5, 3) * 2 + field(h, 2, 2) * 32, 12)
}

/// The number of C.ADDI16SP.
pub fn imm_16sp(h: u32) -> u32
    ensures { result ≡ shorts.imm_16sp h }
{
    let upper = field(h, 12, 12) * 512 + field(h, 6, 6) * 16 + field(h, 5, 5) * 64;
    sign_extended(upper + field(h, 4, 3) * 128 + field(h, 2, 2) * 32, 10)
}

/// The number of C.LUI.
pub fn imm_lui(h: u32) -> u32
    ensures { result ≡ shorts.imm_lui h }
{
    sign_extended(field(h, 12, 12) * 131_072 + field(h, 6, 2) * 4096, 18)
}

/// The offset of C.BEQZ and C.BNEZ.
pub fn imm_b(h: u32) -> u32
    ensures { result ≡ shorts.imm_b h }
{
    let upper = field(h, 12, 12) * 256 + field(h, 11, 10) * 8 + field(h, 6, 5) * 64;
    sign_extended(upper + field(h, 4, 3) * 2 + field(h, 2, 2) * 32, 9)
}

/// The offset of C.LWSP.
pub fn imm_lwsp(h: u32) -> u32
    ensures { result ≡ shorts.imm_lwsp h }
{
    field(h, 12, 12) * 32 + field(h, 6, 4) * 4 + field(h, 3, 2) * 64
}

/// The offset of C.SWSP.
pub fn imm_swsp(h: u32) -> u32
    ensures { result ≡ shorts.imm_swsp h }
{
    field(h, 12, 9) * 4 + field(h, 8, 7) * 64
}
