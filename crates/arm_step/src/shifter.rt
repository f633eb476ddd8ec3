//! The shifter operand (section A5.1).
ghost use Rattle.std.specs.Prelude.{◌≡◌, ℕ, ◌<◌, ◌-◌, ◌%◌, ◌==◌, nat_le, if◌then◌else◌};
ghost use Rattle.machine_spec.specs.Arm as rows;
ghost use Rattle.word_spec.specs.Words as words;
ghost use Rattle.word_spec.specs.Words.{bit};
ghost use Rattle.arm_decode.specs.Parts.{kind_number};
ghost use Rattle.arm_step.specs.Parts.{shifted_of};

use crate::words::{bits, is_set, rotated_right, word};
use arm_decode::{ShiftAmount, ShiftKind};

/// An operand, and the carry out of the shifter.
#[derive(Clone, Copy)]
pub struct Shifted {
    pub value: u32,
    pub carry: bool,
}

/// The carry of a shift to the left by some bits.
fn carry_left(value: u32, amount: u32) -> bool
    requires { 0 < amount }
    ensures { bit result ≡ (if nat_le amount 32 then words.bit_at (32 - amount) value else 0) }
{
    amount <= 32 && is_set(32 - amount, value)
}

/// The carry of a shift to the right by some bits, of which all above the word are the same.
fn carry_right(value: u32, amount: u32, above: bool) -> bool
    requires { 0 < amount }
    ensures { bit result ≡ (if nat_le amount 32 then words.bit_at (amount - 1) value else bit above) }
{
    if amount <= 32 {
        is_set(amount - 1, value)
    } else {
        above
    }
}

/// The carry of a rotation by some bits.
fn carry_around(value: u32, amount: u32) -> bool
    requires { 0 < amount }
    ensures { bit result ≡ (if amount % 32 == 0 then words.bit_at 31 value else words.bit_at (amount % 32 - 1) value) }
{
    let amount = amount % 32;
    if amount == 0 {
        is_set(31, value)
    } else {
        is_set(amount - 1, value)
    }
}

/// A shift by some bits.
fn shift(kind: ShiftKind, value: u32, amount: u32) -> Shifted
    requires { 0 < amount }
    ensures { shifted_of result ≡ rows.shift_of (rows.shifts value amount) (kind_number kind) }
{
    let (from, by) = (word(value), word(amount));
    match kind {
        ShiftKind::Lsl => Shifted {
            value: bits(from.shl(by)),
            carry: carry_left(value, amount),
        },
        ShiftKind::Lsr => Shifted {
            value: bits(from.shr(by)),
            carry: carry_right(value, amount, false),
        },
        ShiftKind::Asr => Shifted {
            value: bits(from.sar(by)),
            carry: carry_right(value, amount, is_set(31, value)),
        },
        ShiftKind::Ror => Shifted {
            value: rotated_right(value, amount),
            carry: carry_around(value, amount),
        },
    }
}

/// A shift by the number 0: nothing, as 32, as 32, and a rotation through the carry.
fn shift_by_0(kind: ShiftKind, value: u32, carry: bool) -> Shifted
    ensures { shifted_of result ≡ rows.shift_of (rows.shifts_by_0 value (bit carry)) (kind_number kind) }
{
    match kind {
        ShiftKind::Lsl => Shifted { value, carry },
        ShiftKind::Lsr => Shifted {
            value: 0,
            carry: is_set(31, value),
        },
        ShiftKind::Asr => Shifted {
            value: bits(word(value).sar(word(32))),
            carry: is_set(31, value),
        },
        ShiftKind::Ror => Shifted {
            value: if carry { 0x8000_0000 } else { 0 } + value / 2,
            carry: is_set(0, value),
        },
    }
}

/// A shift by a number, from the flag C.
pub fn by_number(kind: ShiftKind, amount: ShiftAmount, value: u32, carry: bool) -> Shifted
    ensures { shifted_of result ≡ rows.by_number (kind_number kind) amount.bits value (bit carry) }
{
    let amount = amount.bits();
    if amount == 0 {
        shift_by_0(kind, value, carry)
    } else {
        shift(kind, value, amount as u32)
    }
}

/// A shift by a register's low byte, from the flag C.
pub(crate) fn by_register(kind: ShiftKind, amount: u8, value: u32, carry: bool) -> Shifted
    ensures { shifted_of result ≡ rows.by_register (kind_number kind) amount value (bit carry) }
{
    match amount {
        0 => Shifted { value, carry },
        _ => shift(kind, value, amount as u32),
    }
}

/// A number of 8 bits, rotated by twice a number of 4.
pub(crate) fn rotated(byte: u8, rotation: u8, carry: bool) -> Shifted
    ensures { (w : ℕ) → byte ≡ words.bits 7 0 w → rotation ≡ words.bits 11 8 w → shifted_of result ≡ rows.rotated w (bit carry) }
{
    let value = rotated_right(byte as u32, 2 * rotation as u32);
    Shifted {
        value,
        carry: if rotation == 0 {
            carry
        } else {
            is_set(31, value)
        },
    }
}
