//! The operand, and the addresses and values of accesses (sections A5.1 to A5.4).
ghost use Rattle.std.specs.Prelude.{◌≡◌, ℕ, ◌≤◌, ◌<◌, ◌+◌, true};
ghost use Rattle.machine_spec.specs.Arm as rows;
ghost use Rattle.word_spec.specs.State as machine;
ghost use Rattle.word_spec.specs.Words as words;
ghost use Rattle.byte_mem.specs.Views.{endian_of, IsStep};
ghost use Rattle.arm_decode.specs.Parts.{HasOperand, HasAddressing, HasOffset, HasHalfwordOffset};
ghost use Rattle.arm_step.specs.Parts.{shifted_of};
ghost use Rattle.arm_step.specs.States.{state_of, spare_of};

use crate::shifter::{Shifted, by_number, by_register, rotated};
use crate::state::State;
use crate::words::{bits, rotated_right, word};
use arm_decode::{Addressing, AnyRegister, HalfwordOffset, Offset, Operand};
use byte_mem::{Endian, How, StepOut, View};

/// The operand of data processing, with the carry out of the shifter.
pub fn operand(operand: Operand, state: &State) -> Shifted
    ensures { (w : ℕ) → HasOperand w operand → shifted_of result ≡ rows.operand w (state_of state.now) }
{
    let carry = state.flags().c;
    match operand {
        Operand::Number { byte, rotation } => rotated(byte, rotation, carry),
        Operand::ByNumber {
            register,
            kind,
            amount,
        } => by_number(kind, amount, state.read_any(register), carry),
        Operand::ByRegister {
            register,
            kind,
            amount,
        } => {
            let low_byte = (state.read(amount) % 256) as u8;
            by_register(kind, low_byte, state.read(register), carry)
        }
    }
}

/// The base with the offset added or subtracted.
pub(crate) fn moved(is_up: bool, base: u32, offset: u32) -> u32
    ensures { (w : ℕ) → is_up ≡ rows.is_up w → result ≡ rows.moved w base offset }
{
    if is_up {
        base.wrapping_add(offset)
    } else {
        bits(word(base).sub(word(offset)))
    }
}

/// The address of an access.
pub fn address(addressing: Addressing, base: u32, offset: u32) -> u32
    ensures { (w : ℕ) → HasAddressing w addressing → result ≡ rows.address w base offset }
{
    if addressing.indexing.is_before() {
        moved(addressing.is_up, base, offset)
    } else {
        base
    }
}

/// Writes the base back, where the addressing says so.
pub(crate) fn write_back(state: &mut State, addressing: Addressing, rn: AnyRegister, offset: u32)
    ensures state { (w : ℕ) → HasAddressing w addressing → rn.number ≡ rows.field_n w → (rows.writes_back w ≡ true → rows.field_n w < 15)
        → state_of state.new ≡ record (state_of state.old) { regs = rows.base_written w (state_of state.old) offset } }
    ensures spare { spare_of state.new ≡ spare_of state.old }
{
    if !addressing.indexing.writes_back() {
        return;
    }
    if let Some(rn) = rn.but_pc() {
        let base = state.read(rn);
        state.set(rn, moved(addressing.is_up, base, offset));
    }
}

/// The offset of LDR, LDRB, STR and STRB.
pub fn offset_of(offset: Offset, state: &State) -> u32
    ensures { (w : ℕ) → HasOffset w offset → result ≡ rows.transfer_offset w (state_of state.now) }
{
    match offset {
        Offset::Number(number) => number as u32,
        Offset::Shifted {
            register,
            kind,
            amount,
        } => by_number(kind, amount, state.read(register), state.flags().c).value,
    }
}

/// The offset of LDRH, STRH, LDRSB and LDRSH.
pub fn halfword_offset_of(offset: HalfwordOffset, state: &State) -> u32
    ensures { (w : ℕ) → HasHalfwordOffset w offset → result ≡ rows.halfword_offset w (state_of state.now) }
{
    match offset {
        HalfwordOffset::Number(number) => number as u32,
        HalfwordOffset::Register(register) => state.read(register),
    }
}

/// The multiple of 4 at or below an address.
pub(crate) fn aligned(a: u32) -> u32
    ensures { result ≡ words.aligned a }
{
    a - a % 4
}

/// A byte, or the aligned word, rotated so that the addressed byte is the lowest.
pub fn load_by(is_byte: bool, endian: Endian, state: &State, a: u32) -> u32
    ensures { result ≡ rows.load_by is_byte (endian_of endian) (state_of state.now).mem a }
{
    if is_byte {
        state.loaded(a, 1, endian)
    } else {
        rotated_right(state.loaded(aligned(a), 4, endian), 8 * (a % 4))
    }
}

/// Stores a byte, or a word at its aligned address.
pub(crate) fn store_by(is_byte: bool, endian: Endian, state: &mut State, a: u32, value: u32)
    requires { 4 ≤ spare_of state.old }
    ensures state { state_of state.new ≡ record (state_of state.old) { mem = rows.store_by is_byte (endian_of endian) (state_of state.old).mem a value } }
    ensures spare { spare_of state.old ≤ spare_of state.new + 4 }
{
    if is_byte {
        state.store(a, 1, endian, value);
    } else {
        state.store(aligned(a), 4, endian, value);
    }
}

/// Writes a register and goes on to the next address; a written r15 is a jump.
pub(crate) fn write(state: &mut State, rd: AnyRegister, value: u32) -> StepOut
    ensures step { (old : machine.State) → old.pc ≡ (state_of state.old).pc →
        IsStep old (state_of state.new) result (rows.write old (state_of state.old) rd.number value) }
    ensures spare { spare_of state.new ≡ spare_of state.old }
{
    match rd.but_pc() {
        Some(rd) => {
            state.set(rd, value);
            state.go_on()
        }
        None => state.jump(value, How::Indirect),
    }
}

/// The first address and the number of the bytes of an access to a byte or a word.
pub(crate) fn access_of(is_byte: bool, a: u32) -> (u32, u8)
    ensures { result ≡ rows.access_of is_byte a }
{
    if is_byte { (a, 1) } else { (aligned(a), 4) }
}
