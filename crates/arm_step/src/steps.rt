//! Steps, and what is told of instructions.
ghost use Rattle.std.specs.Prelude.{◌≡◌, ◌≤◌, ◌+◌};
ghost use Rattle.machine_spec.specs.Arm as rows;
ghost use Rattle.word_spec.specs.Memory as memory;
ghost use Rattle.byte_mem.specs.Views.{endian_of, IsStep};
ghost use Rattle.machine_law.specs.Facts.{cost_of, successors_of, IsFlagUse};
ghost use Rattle.arm_decode.specs.Insns.{row_of, word_of};
ghost use Rattle.arm_step.specs.States.{state_of, spare_of};

use crate::class::{act_of, facts_of, loaded_of, stored_of};
use crate::facts::Facts;
use crate::state::State;
use arm_decode::{Class, Insn, classes};
use byte_mem::{Endian, StepOut};
use machine_law::{Cost, FlagUse, Succ};

/// Whether the instruction's condition holds.
pub fn holds(insn: &Insn, state: &State) -> bool
    ensures { result ≡ rows.holds (word_of insn.now) (state_of state.now) }
{
    state.flags().hold(insn.condition())
}

/// The instruction's effect on the state, in a byte order and under a choice, 0 to 3. An exception leaves the state as it was. It takes no memory: the state
/// has to have room for 64 bytes.
pub fn step(insn: &Insn, state: &mut State, endian: Endian, choice: u8) -> StepOut
    requires { 64 ≤ spare_of state.old }
    ensures step { IsStep (state_of state.old) (state_of state.new) result ((row_of (endian_of endian) insn.now).effect (state_of state.old) choice) }
    ensures spare { spare_of state.old ≤ spare_of state.new + 64 }
{
    if !holds(insn, state) {
        return state.go_on();
    }
    classes!(match *insn, class => act_of(class, insn, state, endian, choice))
}

/// The first address and the number of the bytes that the instruction stores in the state.
pub fn stored(insn: &Insn, state: &State) -> Option<(u32, u8)>
    ensures { (e : memory.Endian) → result ≡ (row_of e insn.now).stored (state_of state.now) }
{
    if !holds(insn, state) {
        return None;
    }
    classes!(match *insn, class => stored_of(class, insn, state))
}

/// The first address and the number of the bytes that the instruction loads in the state.
pub fn loaded(insn: &Insn, state: &State) -> Option<(u32, u8)>
    ensures { (e : memory.Endian) → result ≡ (row_of e insn.now).loaded (state_of state.now) }
{
    if !holds(insn, state) {
        return None;
    }
    classes!(match *insn, class => loaded_of(class, insn, state))
}

/// What is told of the instruction where it stands at an address.
fn facts(insn: &Insn, at: u32) -> Facts
    ensures successors { (e : memory.Endian) → successors_of result.successors ≡ (row_of e insn.now).successors at }
    ensures literal { (e : memory.Endian) → result.literal ≡ (row_of e insn.now).literal at }
    ensures cost { (e : memory.Endian) → cost_of result.cost ≡ (row_of e insn.now).cost }
    ensures flags { (e : memory.Endian) → IsFlagUse result.flags (row_of e insn.now).flags }
    ensures draws { (e : memory.Endian) → result.draws ≡ (row_of e insn.now).draws }
    ensures links { (e : memory.Endian) → result.links ≡ (row_of e insn.now).links }
{
    classes!(match *insn, class => facts_of(class, insn, at))
}

/// The static successors of an instruction that stands at an address.
pub fn successors(insn: &Insn, at: u32) -> Succ
    ensures { (e : memory.Endian) → successors_of result ≡ (row_of e insn.now).successors at }
{
    facts(insn, at).successors
}

/// The address of the literal that the instruction loads where it stands at an address.
pub fn literal(insn: &Insn, at: u32) -> Option<u32>
    ensures { (e : memory.Endian) → result ≡ (row_of e insn.now).literal at }
{
    facts(insn, at).literal
}

/// The price of an instruction's point, and its byte loads and stores.
pub fn cost(insn: &Insn) -> Cost
    ensures { (e : memory.Endian) → cost_of result ≡ (row_of e insn.now).cost }
{
    facts(insn, 0).cost
}

/// The flags that the instruction reads, may assign, and surely assigns.
pub fn flag_use(insn: &Insn) -> FlagUse
    ensures { (e : memory.Endian) → IsFlagUse result (row_of e insn.now).flags }
{
    facts(insn, 0).flags
}

/// Whether the instruction reads the choice.
pub fn draws(insn: &Insn) -> bool
    ensures { (e : memory.Endian) → result ≡ (row_of e insn.now).draws }
{
    facts(insn, 0).draws
}

/// Whether the instruction keeps the address after it in r14 where it calls: BL alone does.
pub fn links(insn: &Insn) -> bool
    ensures { (e : memory.Endian) → result ≡ (row_of e insn.now).links }
{
    facts(insn, 0).links
}
