//! What data processing makes (section A3.4).
ghost use Rattle.std.specs.Prelude.{◌≡◌, ℕ};
ghost use Rattle.machine_spec.specs.Arm as rows;
ghost use Rattle.word_spec.specs.State.{State};
ghost use Rattle.word_spec.specs.Words.{bit};
ghost use Rattle.arm_decode.specs.Parts.{opcode_number};
ghost use Rattle.arm_step.specs.Parts.{shifted_of, computed_of, flags_of};

use crate::flags::Flags;
use crate::shifter::Shifted;
use crate::words::{bit_at, complement};
use arm_decode::Opcode;

/// A result, with the flags C and V.
#[derive(Clone, Copy)]
pub struct Computed {
    pub value: u32,
    pub carry: bool,
    pub overflow: bool,
}

/// The sum of two words and a carry, with the carry out and the signed overflow.
pub fn sum(x: u32, y: u32, carry: bool) -> Computed
    ensures { computed_of result ≡ rows.sum x y (bit carry) }
{
    let wide = x as u64 + y as u64 + carry as u64;
    let value = (wide % 0x1_0000_0000) as u32;
    let sign = bit_at(31, x);
    Computed {
        value,
        carry: wide >= 0x1_0000_0000,
        overflow: sign == bit_at(31, y) && sign != bit_at(31, value),
    }
}

/// The difference of two words, less one where the carry is clear; its carry is that there is no borrow.
fn difference(x: u32, y: u32, carry: bool) -> Computed
    ensures { computed_of result ≡ rows.difference x y (bit carry) }
{
    sum(x, complement(y), carry)
}

/// A logical result: the shifter's carry, and V as it was.
fn logical(value: u32, operand: Shifted, flags: Flags) -> Computed
    ensures { (s : State) → s.flags ≡ flags_of flags → computed_of result ≡ rows.logical s (shifted_of operand) value }
{
    Computed {
        value,
        carry: operand.carry,
        overflow: flags.v,
    }
}

/// The result of an opcode for the first operand and the shifter's.
pub fn result_of(opcode: Opcode, x: u32, operand: Shifted, flags: Flags) -> Computed
    ensures { (s : State) → s.flags ≡ flags_of flags → computed_of result ≡ rows.result_at (rows.results s x (shifted_of operand)) (opcode_number opcode) }
{
    let y = operand.value;
    match opcode {
        Opcode::And => logical(x & y, operand, flags),
        Opcode::Tst => logical(x & y, operand, flags),
        Opcode::Eor | Opcode::Teq => logical(x ^ y, operand, flags),
        Opcode::Sub | Opcode::Cmp => difference(x, y, true),
        Opcode::Rsb => difference(y, x, true),
        Opcode::Add | Opcode::Cmn => sum(x, y, false),
        Opcode::Adc => sum(x, y, flags.c),
        Opcode::Sbc => difference(x, y, flags.c),
        Opcode::Rsc => difference(y, x, flags.c),
        Opcode::Orr => logical(x | y, operand, flags),
        Opcode::Mov => logical(y, operand, flags),
        Opcode::Bic => logical(x & complement(y), operand, flags),
        Opcode::Mvn => logical(complement(y), operand, flags),
    }
}
