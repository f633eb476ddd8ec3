//! The fields of a word.
ghost use Rattle.std.specs.Prelude.{◌≡◌, ◌≤◌, ◌<◌, ◌+◌, ◌-◌, ◌^◌, ◌∷◌, []};
ghost use Rattle.machine_spec.specs.Arm as rows;
ghost use Rattle.machine_spec.specs.Arm.{has_bit};
ghost use Rattle.word_spec.specs.Words.{bits};
ghost use Rattle.arm_decode.specs.Parts.{kind_number};

use crate::parts::ShiftKind;
use crate::register::{AnyRegister, Register, ShiftAmount};

/// Bits `high` to `low` of a word.
pub(crate) fn field(word: u32, high: u32, low: u32) -> u32
    requires ordered { low ≤ high }
    requires within { high < low + 31 }
    requires in_word { high < 32 }
    ensures field { result ≡ bits high low word }
    ensures fits { result < 2 ^ (high + 1 - low) }
{
    (word >> low) % (1 << (high + 1 - low))
}

/// Whether a bit is set.
pub(crate) fn is_set(word: u32, bit: u32) -> bool
    requires { bit < 32 }
    ensures { result ≡ has_bit bit word }
{
    (word >> bit) % 2 == 1
}

/// The register whose number stands from a bit on.
pub(crate) fn any_register(word: u32, low: u32) -> AnyRegister
    requires { low ≤ 28 }
    ensures { result.number ≡ bits (low + 3) low word }
{
    AnyRegister::new(field(word, low + 3, low) as u8)
}

/// The register whose number, which is not 15, stands from a bit on.
pub(crate) fn register(word: u32, low: u32) -> Register
    requires low { low ≤ 28 }
    requires not_pc { bits (low + 3) low word < 15 }
    ensures { result.number ≡ bits (low + 3) low word }
{
    Register::new(field(word, low + 3, low) as u8)
}

/// How a register is shifted.
pub(crate) fn kind(word: u32) -> ShiftKind
    ensures { kind_number result ≡ rows.kind_of word }
{
    ShiftKind::of(field(word, 6, 5))
}

/// By how many bits.
pub(crate) fn amount(word: u32) -> ShiftAmount
    ensures { result.bits ≡ rows.amount_of word }
{
    ShiftAmount::new(field(word, 11, 7) as u8)
}

/// Whether one of these registers is 15.
pub(crate) fn has_pc(n: u32, d: u32, s: u32, m: u32) -> bool
    ensures { result ≡ rows.is_pc_among (n ∷ d ∷ s ∷ m ∷ []) }
{
    n == 15 || d == 15 || s == 15 || m == 15
}
