//! The machine.
ghost use Rattle.std.specs.Prelude.{◌≡◌};
ghost use Rattle.rv_step.specs.States.{state_of, spare_of};

use crate::facts;
use crate::lifting::list_of;
use bil_ast::Stmt;
use byte_mem::{Bytes32, StepOut};
use machine_law::{Cost, FlagUse, Machine, Succ};
use rv_decode::Insn;
use rv_step::State;
use start_value::{Layout, Start};
use std::alloc::{AllocError, Global};

/// RV32IM, with the compressed instructions where `RVC` is not 0 (RV32IMC).
pub struct Rv32<const RVC: u8>;

impl<const RVC: u8> Machine for Rv32<RVC> {
    ghost use Rattle.machine_spec.specs.RvMachine.{rv32};
    ghost use Rattle.machine_spec.specs.Bil.{XRegisters};
    ghost use Rattle.machine_spec.specs.StateText.{rv_layout};
    ghost use Rattle.rv_decode.specs.Insns.{row_of};
    ghost use Rattle.rv_step.proofs.Ranges.{in_range};
    ghost use Rattle.rv_step.specs.States.{spare_of};
    ghost use Rattle.std.specs.Prelude.{refl};
    ghost use Rattle.machine_spec.proofs.Fitted.{rv_is_fitted};
    ghost use Rattle.machine_spec.proofs.RvNarrow.{rv_is_lawful};
    ghost use Rattle.rv_lift.specs.Flags.{is_on};

    type Insn = Insn;

    type State = State;

    ghost machine = { rv32 (is_on RVC) };

    ghost bank = { XRegisters };

    ghost form = { rv_layout (is_on RVC) };

    ghost row = { row_of };

    ghost spare = { spare_of };

    fn decode(word: u32) -> Option<Insn> {
        rv_decode::decode(word, RVC != 0)
    }

    fn step(insn: &Insn, state: &mut State, choice: u8) -> StepOut {
        rv_step::step(insn, state, choice)
    }

    fn stored(insn: &Insn, state: &State) -> Option<(u32, u8)> {
        rv_step::stored(insn, state)
    }

    fn loaded(insn: &Insn, state: &State) -> Option<(u32, u8)> {
        rv_step::loaded(insn, state)
    }

    fn lift(alloc: Global, insn: &Insn, at: u32) -> Result<Vec<Stmt>, AllocError> {
        list_of(alloc, insn, at)
    }

    fn successors(insn: &Insn, at: u32) -> Succ {
        facts::successors(insn, at)
    }

    fn pair(before: &Insn, insn: &Insn, at: u32) -> Option<u32> {
        facts::pair(before, insn, at)
    }

    fn literal(insn: &Insn, at: u32) -> Option<u32> {
        None
    }

    fn cost(insn: &Insn) -> Cost {
        facts::cost(insn)
    }

    fn flags(insn: &Insn) -> FlagUse {
        FlagUse {
            reads: 0,
            assigns: 0,
            surely: 0,
        }
    }

    fn draws(insn: &Insn) -> bool {
        false
    }

    fn links(insn: &Insn) -> bool {
        facts::links(insn)
    }

    fn width(first: u16) -> u8 {
        if RVC != 0 && first % 4 != 3 { 2 } else { 4 }
    }

    fn link() -> u8 {
        1
    }

    fn layout() -> Layout {
        Layout::Rv32 {
            compressed: RVC != 0,
        }
    }

    fn make(start: &Start, pc: u32, memory: Bytes32) -> State {
        State::from_registers(pc, &start.regs, memory)
    }

    fn give(state: &mut State, start: &Start, pc: u32) {
        state.give(pc, &start.regs)
    }

    fn copy(alloc: Global, state: &State) -> Result<State, AllocError> {
        state.copy(alloc)
    }

    fn reserve(state: &mut State, n: usize) -> Result<(), AllocError> {
        state.reserve(n)
    }

    fn put(state: &mut State, at: u32, byte: u8) {
        state.put(at, byte)
    }

    ghost lawful = { rv_is_lawful (is_on RVC) };

    ghost states = { in_range };

    ghost same_link = { refl };

    ghost same_registers = { refl };

    ghost fitted = { rv_is_fitted (is_on RVC) };
}
