//! A class of instructions, by the row that the table has for its words.
ghost use Rattle.std.specs.Prelude.{◌≡◌, ◌≤◌, ◌+◌, true};
ghost use Rattle.machine_spec.specs.Arm as rows;
ghost use Rattle.word_spec.specs.Memory as memory;
ghost use Rattle.byte_mem.specs.Views.{endian_of, IsStep};
ghost use Rattle.machine_law.specs.Facts.{cost_of, successors_of, IsFlagUse};
ghost use Rattle.arm_decode.specs.Insns.{row_of, word_of};
ghost use Rattle.arm_step.specs.States.{state_of, spare_of};

use crate::facts::Facts;
use crate::state::State;
use arm_decode::{Class, Insn};
use byte_mem::{Endian, StepOut};

/// A class of instructions: what its row says, field by field.
pub(crate) trait Step: Class {
    /// Its row's effect where its condition holds. It takes no memory: the state has to have room for 64 bytes.
    fn act(self, state: &mut State, endian: Endian, choice: u8) -> StepOut
        requires room { 64 ≤ spare_of state.old }
        requires holds { rows.holds (word_of (Self.insn self)) (state_of state.old) ≡ true }
        ensures step { IsStep (state_of state.old) (state_of state.new) result ((row_of (endian_of endian) (Self.insn self)).effect (state_of state.old) choice) }
        ensures spare { spare_of state.old ≤ spare_of state.new + 64 };

    /// The first address and the number of the bytes that it stores where its condition holds.
    fn stored(self, state: &State) -> Option<(u32, u8)>
        requires { rows.holds (word_of (Self.insn self)) (state_of state.now) ≡ true }
        ensures { (e : memory.Endian) → result ≡ (row_of e (Self.insn self)).stored (state_of state.now) };

    /// The first address and the number of the bytes that it loads where its condition holds.
    fn loaded(self, state: &State) -> Option<(u32, u8)>
        requires { rows.holds (word_of (Self.insn self)) (state_of state.now) ≡ true }
        ensures { (e : memory.Endian) → result ≡ (row_of e (Self.insn self)).loaded (state_of state.now) };

    /// What is told of it where it stands at an address.
    fn facts(self, at: u32) -> Facts
        ensures successors { (e : memory.Endian) → successors_of result.successors ≡ (row_of e (Self.insn self)).successors at }
        ensures literal { (e : memory.Endian) → result.literal ≡ (row_of e (Self.insn self)).literal at }
        ensures cost { (e : memory.Endian) → cost_of result.cost ≡ (row_of e (Self.insn self)).cost }
        ensures flags { (e : memory.Endian) → IsFlagUse result.flags (row_of e (Self.insn self)).flags }
        ensures draws { (e : memory.Endian) → result.draws ≡ (row_of e (Self.insn self)).draws }
        ensures links { (e : memory.Endian) → result.links ≡ (row_of e (Self.insn self)).links };
}

/// The effect of an instruction of a class.
pub(crate) fn act_of<C: Step>(
    class: C,
    insn: &Insn,
    state: &mut State,
    endian: Endian,
    choice: u8,
) -> StepOut
    requires same { insn.now ≡ C.insn class }
    requires room { 64 ≤ spare_of state.old }
    requires holds { rows.holds (word_of insn.now) (state_of state.old) ≡ true }
    ensures step { IsStep (state_of state.old) (state_of state.new) result ((row_of (endian_of endian) insn.now).effect (state_of state.old) choice) }
    ensures spare { spare_of state.old ≤ spare_of state.new + 64 }
{
    class.act(state, endian, choice)
}

/// What an instruction of a class stores.
pub(crate) fn stored_of<C: Step>(class: C, insn: &Insn, state: &State) -> Option<(u32, u8)>
    requires same { insn.now ≡ C.insn class }
    requires holds { rows.holds (word_of insn.now) (state_of state.now) ≡ true }
    ensures { (e : memory.Endian) → result ≡ (row_of e insn.now).stored (state_of state.now) }
{
    class.stored(state)
}

/// What an instruction of a class loads.
pub(crate) fn loaded_of<C: Step>(class: C, insn: &Insn, state: &State) -> Option<(u32, u8)>
    requires same { insn.now ≡ C.insn class }
    requires holds { rows.holds (word_of insn.now) (state_of state.now) ≡ true }
    ensures { (e : memory.Endian) → result ≡ (row_of e insn.now).loaded (state_of state.now) }
{
    class.loaded(state)
}

/// What is told of an instruction of a class.
pub(crate) fn facts_of<C: Step>(class: C, insn: &Insn, at: u32) -> Facts
    requires { insn.now ≡ C.insn class }
    ensures successors { (e : memory.Endian) → successors_of result.successors ≡ (row_of e insn.now).successors at }
    ensures literal { (e : memory.Endian) → result.literal ≡ (row_of e insn.now).literal at }
    ensures cost { (e : memory.Endian) → cost_of result.cost ≡ (row_of e insn.now).cost }
    ensures flags { (e : memory.Endian) → IsFlagUse result.flags (row_of e insn.now).flags }
    ensures draws { (e : memory.Endian) → result.draws ≡ (row_of e insn.now).draws }
    ensures links { (e : memory.Endian) → result.links ≡ (row_of e insn.now).links }
{
    class.facts(at)
}
