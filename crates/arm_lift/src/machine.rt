//! The machine.
use crate::byte_order::{layout, order};
use crate::lifting::list_of;
use arm_decode::Insn;
use arm_step::State;
use bil_ast::Stmt;
use byte_mem::{Bytes32, StepOut};
use machine_law::{Cost, FlagUse, Machine, Succ};
use start_value::{Layout, Start};
use std::alloc::{AllocError, Global};

/// ARM state in a byte order and a profile: little where `BIG` is 0, and else big; version 4 where `PROFILE` is 0, version 4T where it is 1, and else
/// version 5.
pub struct Arm<const BIG: u8, const PROFILE: u8>;

impl<const BIG: u8, const PROFILE: u8> Machine for Arm<BIG, PROFILE> {
    ghost use Rattle.std.specs.Prelude.{refl};
    ghost use Rattle.arm_decode.specs.Insns.{row_of};
    ghost use Rattle.arm_lift.specs.Ranges.{in_range};
    ghost use Rattle.arm_step.specs.States.{spare_of};
    ghost use Rattle.machine_spec.proofs.ArmLawful.{arm_is_lawful};
    ghost use Rattle.machine_spec.proofs.Fitted.{arm_is_fitted};
    ghost use Rattle.machine_spec.specs.Arm.{arm, profile_of};
    ghost use Rattle.machine_spec.specs.Bil.{RRegisters};
    ghost use Rattle.machine_spec.specs.StateText.{arm_layout};
    ghost use Rattle.arm_lift.specs.Orders.{order_of};

    type Insn = Insn;

    type State = State;

    ghost machine = { arm (order_of BIG) (profile_of PROFILE) };

    ghost bank = { RRegisters };

    ghost form = { arm_layout (order_of BIG) (profile_of PROFILE) };

    ghost row = { row_of (order_of BIG) };

    ghost spare = { spare_of };

    fn decode(word: u32) -> Option<Insn> {
        arm_decode::decode(word, PROFILE)
    }

    fn step(insn: &Insn, state: &mut State, choice: u8) -> StepOut {
        arm_step::step(insn, state, order(BIG), choice)
    }

    fn stored(insn: &Insn, state: &State) -> Option<(u32, u8)> {
        arm_step::stored(insn, state)
    }

    fn loaded(insn: &Insn, state: &State) -> Option<(u32, u8)> {
        arm_step::loaded(insn, state)
    }

    fn lift(alloc: Global, insn: &Insn, at: u32) -> Result<Vec<Stmt>, AllocError> {
        list_of(alloc, insn, at, order(BIG))
    }

    fn successors(insn: &Insn, at: u32) -> Succ {
        arm_step::successors(insn, at)
    }

    fn pair(before: &Insn, insn: &Insn, at: u32) -> Option<u32> {
        None
    }

    fn literal(insn: &Insn, at: u32) -> Option<u32> {
        arm_step::literal(insn, at)
    }

    fn cost(insn: &Insn) -> Cost {
        arm_step::cost(insn)
    }

    fn flags(insn: &Insn) -> FlagUse {
        arm_step::flag_use(insn)
    }

    fn draws(insn: &Insn) -> bool {
        arm_step::draws(insn)
    }

    fn links(insn: &Insn) -> bool {
        arm_step::links(insn)
    }

    fn width(first: u16) -> u8 {
        4
    }

    fn link() -> u8 {
        14
    }

    fn layout() -> Layout {
        layout(BIG, PROFILE)
    }

    fn make(start: &Start, pc: u32, memory: Bytes32) -> State {
        State::new(pc, &start.regs, start.flags, memory)
    }

    fn give(state: &mut State, start: &Start, pc: u32) {
        state.give(pc, &start.regs, start.flags)
    }

    fn copy(alloc: Global, state: &State) -> Result<State, AllocError> {
        state.copy(alloc)
    }

    fn reserve(state: &mut State, n: usize) -> Result<(), AllocError> {
        state.reserve(n)
    }

    fn put(state: &mut State, at: u32, byte: u8) {
        state.put(at, byte)
    }

    ghost lawful = { arm_is_lawful (order_of BIG) (profile_of PROFILE) };

    ghost states = { in_range };

    ghost same_link = { refl };

    ghost same_registers = { refl };

    ghost fitted = { arm_is_fitted (order_of BIG) (profile_of PROFILE) };
}
