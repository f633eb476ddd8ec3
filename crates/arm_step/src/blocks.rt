//! LDM and STM (section A3.12).
ghost use Rattle.std.specs.Prelude.{◌≡◌, ◌≤◌, ◌<◌, ◌+◌, ◌-◌, ◌*◌, ◌==◌, false, ℕ, length, if◌then◌else◌, ◌&&◌, not};
ghost use Rattle.machine_spec.specs.Arm as rows;
ghost use Rattle.word_spec.specs.Memory.{load};
ghost use Rattle.word_spec.specs.State.{put};
ghost use Rattle.byte_mem.specs.Views.{endian_of, IsStep};
ghost use Rattle.arm_decode.specs.Forms.{IsBlock};
ghost use Rattle.arm_step.specs.States.{state_of, spare_of};

use crate::access::{aligned, moved};
use crate::class::Step;
use crate::facts::{Facts, access_cost, may_jump};
use crate::state::State;
use arm_decode::{AnyRegister, Block, BlockFields, Class, Register, RegisterList};
use byte_mem::{Endian, How, StepOut};

/// The number of the registers of a list that are below a number.
fn count(list: RegisterList, end: u8) -> u32
    requires { end ≤ 16 }
    ensures count { result ≡ length (rows.listed_from list.bits 0 end) }
    ensures few { result ≤ end }
{
    let mut count = 0;
    for register in 0..end {
        if list.has(register) {
            count += 1;
        }
    }
    count
}

/// The number of the registers that LDM and STM load and store.
fn listed(fields: BlockFields) -> u32
    ensures listed { (w : ℕ) → IsBlock w fields → result ≡ length (rows.listed w) }
    ensures few { result ≤ 16 }
{
    count(fields.list, 16)
}

/// How far the first word is from the base, upwards or downwards.
fn first_offset(is_up: bool, is_before: bool, bytes: u32) -> u32
    ensures { result ≡ (if is_up then (if is_before then 4 else 0) else bytes - (if is_before then 0 else 4)) }
{
    match (is_up, is_before) {
        (true, true) => 4,
        (true, false) => 0,
        (false, true) => bytes,
        (false, false) => bytes.saturating_sub(4),
    }
}

/// The address of the first word that LDM and STM load and store.
fn block_start(fields: BlockFields, state: &State) -> u32
    ensures { (w : ℕ) → IsBlock w fields → result ≡ rows.block_start w (state_of state.now) }
{
    let base = state.read(fields.rn);
    let offset = first_offset(fields.is_up, fields.is_before, 4 * listed(fields));
    aligned(moved(fields.is_up, base, offset))
}

/// Writes the base back, where LDM and STM do so.
fn write_block_base(fields: BlockFields, state: &mut State)
    ensures state { (w : ℕ) → IsBlock w fields → state_of state.new ≡ record (state_of state.old) { regs = rows.block_base w (state_of state.old) } }
    ensures spare { spare_of state.new ≡ spare_of state.old }
{
    if fields.writes_back {
        let base = state.read(fields.rn);
        state.set(fields.rn, moved(fields.is_up, base, 4 * listed(fields)));
    }
}

/// Loads the registers of a list below a number from the words at an address on, r15 being left out.
fn load_all(list: RegisterList, end: u8, first: u32, state: &mut State, endian: Endian)
    requires { end ≤ 16 }
    ensures state { state_of state.new ≡ record (state_of state.old) {
      regs = rows.load_all (endian_of endian) (state_of state.old).mem first (rows.listed_from list.bits 0 end) (state_of state.old).regs;
    } }
    ensures spare { spare_of state.new ≡ spare_of state.old }
{
    let mut a = first;
    for number in 0..end {
        if list.has(number) {
            load_one(number, a, state, endian);
            a = a.wrapping_add(4);
        }
    }
}

/// Loads a register from the word at an address, but r15.
fn load_one(number: u8, a: u32, state: &mut State, endian: Endian)
    requires { number < 16 }
    ensures state { state_of state.new ≡ record (state_of state.old) {
      regs = (if number == 15 then (state_of state.old).regs else put (state_of state.old).regs number (load (endian_of endian) 4 (state_of state.old).mem a));
    } }
    ensures spare { spare_of state.new ≡ spare_of state.old }
{
    if number < 15 {
        let value = state.loaded(a, 4, endian);
        state.set(Register::new(number), value);
    }
}

/// Stores the registers of a list below a number in the words at an address on.
fn store_all(list: RegisterList, end: u8, first: u32, state: &mut State, endian: Endian, choice: u8)
    requires few { end ≤ 16 }
    requires room { 4 * end ≤ spare_of state.old }
    ensures state { state_of state.new ≡ record (state_of state.old) {
      mem = rows.store_all (endian_of endian) (state_of state.old) choice first (rows.listed_from list.bits 0 end) (state_of state.old).mem;
    } }
    ensures spare { spare_of state.old ≤ spare_of state.new + 4 * end }
{
    let mut a = first;
    for number in 0..end {
        if list.has(number) {
            let value = state.read_stored(AnyRegister::new(number), choice);
            state.store(a, 4, endian, value);
            a = a.wrapping_add(4);
        }
    }
}

/// LDM: where r15 is listed, it jumps to the last word.
fn load_block(fields: BlockFields, state: &mut State, endian: Endian) -> StepOut
    ensures step { (w : ℕ) → IsBlock w fields
        → IsStep (state_of state.old) (state_of state.new) result (rows.block_loaded (rows.has_bit 15 w) (endian_of endian) w (state_of state.old)) }
    ensures spare { spare_of state.new ≡ spare_of state.old }
{
    let first = block_start(fields, state);
    let last = first.wrapping_add((4 * listed(fields)).saturating_sub(4));
    let to = state.loaded(last, 4, endian);
    write_block_base(fields, state);
    load_all(fields.list, 16, first, state, endian);
    if fields.list.has(15) {
        return state.jump(to, How::Indirect);
    }
    state.go_on()
}

/// STM: the base that it stores is the one from before.
fn store_block(fields: BlockFields, state: &mut State, endian: Endian, choice: u8) -> StepOut
    requires { 64 ≤ spare_of state.old }
    ensures step { (w : ℕ) → IsBlock w fields
        → IsStep (state_of state.old) (state_of state.new) result (rows.block_done false (endian_of endian) w (state_of state.old) choice) }
    ensures spare { spare_of state.old ≤ spare_of state.new + 64 }
{
    let first = block_start(fields, state);
    store_all(fields.list, 16, first, state, endian, choice);
    write_block_base(fields, state);
    state.go_on()
}

/// Whether it loads r15.
fn loads_pc(insn: Block) -> bool
    ensures { result ≡ (rows.is_load insn.word && rows.has_bit 15 insn.word) }
{
    let fields = insn.fields();
    fields.is_load && insn.has_pc()
}

/// Whether it stores r15.
fn stores_pc(insn: Block) -> bool
    ensures { result ≡ (not (rows.is_load insn.word) && rows.has_bit 15 insn.word) }
{
    let fields = insn.fields();
    !fields.is_load && insn.has_pc()
}

/// What LDM loads where its condition holds.
fn loaded_bytes(fields: BlockFields, state: &State) -> Option<(u32, u8)>
    ensures { (w : ℕ) → IsBlock w fields → result ≡ rows.when_stored (rows.is_load w) (rows.block_start w (state_of state.now), 4 * length (rows.listed w)) }
{
    if !fields.is_load {
        return None;
    }
    Some((block_start(fields, state), (4 * listed(fields)) as u8))
}

impl Step for Block {
    fn act(self, state: &mut State, endian: Endian, choice: u8) -> StepOut {
        let fields = self.fields();
        if fields.is_load {
            load_block(fields, state, endian)
        } else {
            store_block(fields, state, endian, choice)
        }
    }

    fn stored(self, state: &State) -> Option<(u32, u8)> {
        let fields = self.fields();
        if fields.is_load {
            return None;
        }
        Some((block_start(fields, state), (4 * listed(fields)) as u8))
    }

    fn loaded(self, state: &State) -> Option<(u32, u8)> {
        loaded_bytes(self.fields(), state)
    }

    fn facts(self, at: u32) -> Facts {
        let fields = self.fields();
        let condition = self.condition();
        let count = listed(fields) as u64;
        Facts {
            successors: may_jump(loads_pc(self), condition.is_always()),
            cost: access_cost(4096 + 512 * count, fields.is_load, 4 * count, 4 * count),
            draws: stores_pc(self),
            ..Facts::plain(condition)
        }
    }
}
