//! LDRH, STRH, LDRSB and LDRSH (section A3.11).
ghost use Rattle.std.specs.Prelude.{◌≡◌, ◌≤◌, ◌<◌, ◌+◌, true, false, ℕ, ◌&&◌, not};
ghost use Rattle.machine_spec.specs.Arm as rows;
ghost use Rattle.byte_mem.specs.Views.{endian_of, IsStep};
ghost use Rattle.arm_decode.specs.Forms.{IsHalfword};
ghost use Rattle.arm_decode.specs.Parts.{HasHalfwordOp};
ghost use Rattle.arm_step.specs.States.{state_of, spare_of};

use crate::access::{address, halfword_offset_of, write_back};
use crate::class::Step;
use crate::facts::{Facts, access_cost};
use crate::state::State;
use crate::words::extended;
use arm_decode::{Class, Halfword, HalfwordFields, HalfwordOp};
use byte_mem::{Endian, StepOut};

/// The address of LDRH, STRH, LDRSB and LDRSH.
fn halfword_address(fields: HalfwordFields, state: &State) -> u32
    ensures { (w : ℕ) → IsHalfword w fields → result ≡ rows.halfword_address w (state_of state.now) }
{
    let offset = halfword_offset_of(fields.offset, state);
    address(fields.addressing, state.read_any(fields.rn), offset)
}

/// How many bytes LDRH, STRH, LDRSB and LDRSH access.
fn halfword_size(op: HalfwordOp) -> u32
    ensures size { (w : ℕ) → HasHalfwordOp w op → result ≡ rows.halfword_size w }
    ensures some { 1 ≤ result }
    ensures few { result ≤ 2 }
{
    match op {
        HalfwordOp::Ldrsb => 1,
        HalfwordOp::Ldrh | HalfwordOp::Ldrsh | HalfwordOp::Strh => 2,
    }
}

/// What LDRH, LDRSB and LDRSH load.
fn halfword_value(op: HalfwordOp, state: &State, endian: Endian, a: u32) -> u32
    ensures { (w : ℕ) → HasHalfwordOp w op → result ≡ rows.halfword_value (endian_of endian) w (state_of state.now).mem a }
{
    match op {
        HalfwordOp::Ldrsb => extended(8, state.loaded(a, 1, endian)),
        HalfwordOp::Ldrsh => extended(16, state.loaded(a, 2, endian)),
        HalfwordOp::Ldrh | HalfwordOp::Strh => state.loaded(a, 2, endian),
    }
}

/// LDRH, LDRSB and LDRSH.
fn load_halfword(fields: HalfwordFields, state: &mut State, endian: Endian) -> StepOut
    ensures step { (w : ℕ) → IsHalfword w fields → (rows.writes_back w ≡ true → rows.field_n w < 15)
        → IsStep (state_of state.old) (state_of state.new) result (rows.halfword_by true true (endian_of endian) w (state_of state.old)) }
    ensures spare { spare_of state.new ≡ spare_of state.old }
{
    let offset = halfword_offset_of(fields.offset, state);
    let a = halfword_address(fields, state);
    let value = halfword_value(fields.op, state, endian, a);
    write_back(state, fields.addressing, fields.rn, offset);
    state.set(fields.rd, value);
    state.go_on()
}

/// STRH.
fn store_halfword(fields: HalfwordFields, state: &mut State, endian: Endian) -> StepOut
    requires { 4 ≤ spare_of state.old }
    ensures step { (w : ℕ) → IsHalfword w fields → (rows.writes_back w ≡ true → rows.field_n w < 15)
        → IsStep (state_of state.old) (state_of state.new) result (rows.halfword_by true false (endian_of endian) w (state_of state.old)) }
    ensures spare { spare_of state.old ≤ spare_of state.new + 4 }
{
    let offset = halfword_offset_of(fields.offset, state);
    let a = halfword_address(fields, state);
    let value = state.read(fields.rd);
    state.store(a, 2, endian, value);
    write_back(state, fields.addressing, fields.rn, offset);
    state.go_on()
}

/// What LDRH, LDRSB and LDRSH load where their condition holds.
fn loaded_bytes(fields: HalfwordFields, state: &State) -> Option<(u32, u8)>
    ensures { (w : ℕ) → IsHalfword w fields → result ≡ rows.when_stored (rows.is_load w && rows.is_even w (state_of state.now))
        (rows.halfword_address w (state_of state.now), rows.halfword_size w) }
{
    if !fields.op.is_load() {
        return None;
    }
    let a = halfword_address(fields, state);
    let size = halfword_size(fields.op);
    if a % size != 0 {
        return None;
    }
    Some((a, size as u8))
}

impl Step for Halfword {
    fn act(self, state: &mut State, endian: Endian, choice: u8) -> StepOut {
        let fields = self.fields();
        if halfword_address(fields, state) % halfword_size(fields.op) != 0 {
            return StepOut::Halfword;
        }
        if fields.op.is_load() {
            load_halfword(fields, state, endian)
        } else {
            store_halfword(fields, state, endian)
        }
    }

    fn stored(self, state: &State) -> Option<(u32, u8)> {
        let fields = self.fields();
        if fields.op.is_load() {
            return None;
        }
        let a = halfword_address(fields, state);
        if a % 2 != 0 {
            return None;
        }
        Some((a, 2))
    }

    fn loaded(self, state: &State) -> Option<(u32, u8)> {
        loaded_bytes(self.fields(), state)
    }

    fn facts(self, at: u32) -> Facts {
        let op = self.fields().op;
        Facts {
            cost: access_cost(4096, op.is_load(), halfword_size(op) as u64, 2),
            ..Facts::plain(self.condition())
        }
    }
}
