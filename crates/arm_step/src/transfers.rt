//! LDR, LDRB, STR and STRB (section A3.11).
ghost use Rattle.std.specs.Prelude.{◌≡◌, ◌≤◌, ◌<◌, ◌+◌, ◌%◌, ◌==◌, ◌&&◌, not, true, ℕ};
ghost use Rattle.machine_spec.specs.Arm as rows;
ghost use Rattle.byte_mem.specs.Views.{endian_of, IsStep};
ghost use Rattle.arm_decode.specs.Forms.{IsTransfer};
ghost use Rattle.arm_step.specs.States.{state_of, spare_of};

use crate::access::{
    access_of, address, aligned, load_by, moved, offset_of, store_by, write, write_back,
};
use crate::class::Step;
use crate::facts::{Facts, access_cost, bytes_of, may_jump};
use crate::state::State;
use crate::used_flags::{FlagSet, flags_by};
use arm_decode::{AnyRegister, Class, Offset, Transfer, TransferFields};
use byte_mem::{Endian, StepOut};

/// The address of LDR and STR.
fn transfer_address(fields: TransferFields, state: &State) -> u32
    ensures { (w : ℕ) → IsTransfer w fields → result ≡ rows.transfer_address w (state_of state.now) }
{
    let offset = offset_of(fields.offset, state);
    address(fields.addressing, state.read_any(fields.rn), offset)
}

/// Whether a load of the program counter has an address that is no multiple of 4.
fn is_unaligned(rd: AnyRegister, a: u32) -> bool
    ensures { result ≡ ((rd.number == 15) && not (a % 4 == 0)) }
{
    rd.number() == 15 && a % 4 != 0
}

/// LDR and LDRB.
fn load(fields: TransferFields, state: &mut State, endian: Endian) -> StepOut
    ensures step { (w : ℕ) → IsTransfer w fields → (rows.writes_back w ≡ true → rows.field_n w < 15)
        → IsStep (state_of state.old) (state_of state.new) result (rows.word_loaded (endian_of endian) w (state_of state.old)) }
    ensures spare { spare_of state.new ≡ spare_of state.old }
{
    let offset = offset_of(fields.offset, state);
    let a = transfer_address(fields, state);
    if is_unaligned(fields.rd, a) {
        return StepOut::Align;
    }
    let value = load_by(fields.is_byte, endian, state, a);
    write_back(state, fields.addressing, fields.rn, offset);
    write(state, fields.rd, value)
}

/// STR and STRB.
fn store(fields: TransferFields, state: &mut State, endian: Endian, choice: u8) -> StepOut
    requires { 4 ≤ spare_of state.old }
    ensures step { (w : ℕ) → IsTransfer w fields → (rows.writes_back w ≡ true → rows.field_n w < 15)
        → IsStep (state_of state.old) (state_of state.new) result (rows.stored (endian_of endian) w (state_of state.old) choice) }
    ensures spare { spare_of state.old ≤ spare_of state.new + 4 }
{
    let offset = offset_of(fields.offset, state);
    let a = transfer_address(fields, state);
    let value = state.read_stored(fields.rd, choice);
    store_by(fields.is_byte, endian, state, a, value);
    write_back(state, fields.addressing, fields.rn, offset);
    state.go_on()
}

/// The address of the literal that a load by r15 without write-back has.
fn literal_of(fields: TransferFields, at: u32) -> Option<u32>
    ensures { (w : ℕ) → IsTransfer w fields → result ≡ rows.literal_address w at }
{
    let Offset::Number(number) = fields.offset else {
        return None;
    };
    let by_pc = fields.rn.number() == 15 && !fields.addressing.indexing.writes_back();
    if fields.is_load && !fields.is_byte && by_pc {
        let base = at.wrapping_add(8);
        Some(aligned(moved(fields.addressing.is_up, base, number as u32)))
    } else {
        None
    }
}

/// Whether it loads r15.
fn loads_pc(insn: Transfer) -> bool
    ensures { result ≡ (rows.is_load insn.word && (rows.field_d insn.word == 15)) }
{
    let fields = insn.fields();
    fields.is_load && fields.rd.number() == 15
}

/// Whether it stores r15.
fn stores_pc(insn: Transfer) -> bool
    ensures { result ≡ (not (rows.is_load insn.word) && (rows.field_d insn.word == 15)) }
{
    let fields = insn.fields();
    !fields.is_load && fields.rd.number() == 15
}

/// What LDR and LDRB load where their condition holds.
fn loaded_bytes(fields: TransferFields, state: &State) -> Option<(u32, u8)>
    ensures { (w : ℕ) → IsTransfer w fields → result ≡ rows.when_stored (rows.is_load w && not (rows.is_unaligned w (state_of state.now)))
        (rows.access_of (rows.is_byte w) (rows.transfer_address w (state_of state.now))) }
{
    if !fields.is_load {
        return None;
    }
    let a = transfer_address(fields, state);
    if is_unaligned(fields.rd, a) {
        return None;
    }
    Some(access_of(fields.is_byte, a))
}

impl Step for Transfer {
    fn act(self, state: &mut State, endian: Endian, choice: u8) -> StepOut {
        let fields = self.fields();
        if fields.is_load {
            load(fields, state, endian)
        } else {
            store(fields, state, endian, choice)
        }
    }

    fn stored(self, state: &State) -> Option<(u32, u8)> {
        let fields = self.fields();
        if fields.is_load {
            return None;
        }
        Some(access_of(fields.is_byte, transfer_address(fields, state)))
    }

    fn loaded(self, state: &State) -> Option<(u32, u8)> {
        loaded_bytes(self.fields(), state)
    }

    fn facts(self, at: u32) -> Facts {
        let fields = self.fields();
        let condition = self.condition();
        let bytes = bytes_of(fields.is_byte);
        Facts {
            successors: may_jump(loads_pc(self), condition.is_always()),
            literal: literal_of(fields, at),
            cost: access_cost(4096, fields.is_load, bytes, bytes),
            flags: flags_by(condition, self.is_rrx(), FlagSet::NONE, FlagSet::NONE),
            draws: stores_pc(self),
            links: false,
        }
    }
}
