//! Steps.
ghost use Rattle.std.specs.Prelude.{◌≡◌, ◌≤◌, ◌+◌, ◌-◌, ◌%◌, ℕ, Option, Some};
ghost use Rattle.machine_spec.specs.Machine as machine;
ghost use Rattle.machine_spec.specs.Rv.{links, direct_by, indirect_by, rv_row};
ghost use Rattle.machine_spec.specs.RvShort.{expansion, shortened};
ghost use Rattle.byte_mem.specs.Views.{how_of, IsStep};
ghost use Rattle.rv_decode.specs.Halves.{IsOfHalf};
ghost use Rattle.rv_decode.specs.Insns.{length_by, row_by, row_of};
ghost use Rattle.rv_step.specs.States.{state_of, spare_of};

use crate::state::State;
use crate::values::{load, loaded_bytes, stored_bytes, test};
use byte_mem::{How, StepOut, View};
use rv_decode::{Insn, Plain, Register};

/// Whether a jump that sets this register is a call (section 2.5).
pub fn is_link(rd: Register) -> bool
    ensures { result ≡ links rd.number }
{
    rd.number() == 1 || rd.number() == 5
}

/// How JAL jumps.
fn direct(rd: Register) -> How
    ensures { how_of result ≡ direct_by (links rd.number) }
{
    if is_link(rd) {
        How::DirectCall
    } else {
        How::Direct
    }
}

/// How JALR jumps.
fn indirect(rd: Register) -> How
    ensures { how_of result ≡ indirect_by (links rd.number) }
{
    if is_link(rd) {
        How::IndirectCall
    } else {
        How::Indirect
    }
}

/// A number with its lowest bit cleared.
fn even(a: u32) -> u32
    ensures { result ≡ machine.even a }
{
    a - a % 2
}

/// The instruction's effect on the state. Of the choice no row of this machine makes use. It takes no memory.
///
/// An instruction of 2 bytes does what the row of its expansion does, but that the address behind it is 2 bytes on.
pub fn step(insn: &Insn, state: &mut State, choice: u8) -> StepOut
    requires { 64 ≤ spare_of state.old }
    ensures step { IsStep (state_of state.old) (state_of state.new) result ((row_of insn.now).effect (state_of state.old) choice) }
    ensures short { (h w : ℕ) (row : machine.Row) → insn.now.half ≡ Some h → expansion h ≡ Some w → rv_row w ≡ Some row →
        IsStep (state_of state.old) (state_of state.new) result (shortened (state_of state.old) (row.effect (state_of state.old) choice)) }
    ensures spare { spare_of state.old ≤ spare_of state.new + 4 }
{
    step_plain(insn.plain, state, insn.length())
}

/// What the instruction does but for its length, which is given in bytes.
fn step_plain(plain: Plain, state: &mut State, length: u8) -> StepOut
    requires { 64 ≤ spare_of state.old }
    ensures step { (half : Option ℕ) (choice : ℕ) → length ≡ length_by half 4 → IsOfHalf plain half →
        IsStep (state_of state.old) (state_of state.new) result ((row_by plain half).effect (state_of state.old) choice) }
    ensures spare { spare_of state.old ≤ spare_of state.new + 4 }
{
    match plain {
        Plain::Lui { rd, imm } => state.set_and_go_on(rd, imm, length),
        Plain::Auipc { rd, imm } => {
            let value = state.pc().wrapping_add(imm);
            state.set_and_go_on(rd, value, length)
        }
        Plain::Jal { rd, offset } => {
            let to = state.pc().wrapping_add(offset);
            state.link_and_jump(rd, to, direct(rd), length)
        }
        Plain::Jalr { rd, rs1, offset } => {
            let to = even(state.read(rs1).wrapping_add(offset));
            state.link_and_jump(rd, to, indirect(rd), length)
        }
        Plain::Branch {
            op,
            rs1,
            rs2,
            offset,
        } => {
            if test(op, state.read(rs1), state.read(rs2)) {
                let to = state.pc().wrapping_add(offset);
                state.jump(to, How::Direct)
            } else {
                state.go_on(length)
            }
        }
        Plain::Load {
            op,
            rd,
            rs1,
            offset,
        } => {
            let address = state.read(rs1).wrapping_add(offset);
            let value = load(op, state.memory(), address);
            state.set_and_go_on(rd, value, length)
        }
        Plain::Store {
            op,
            rs1,
            rs2,
            offset,
        } => {
            let address = state.read(rs1).wrapping_add(offset);
            let value = state.read(rs2);
            state.store_and_go_on(address, stored_bytes(op), value, length)
        }
        Plain::Immediate { op, rd, rs1, imm } => {
            let value = op.line().formula.value(state.read(rs1), imm);
            state.set_and_go_on(rd, value, length)
        }
        Plain::Shift {
            op,
            rd,
            rs1,
            amount,
        } => {
            let amount = u32::from(amount.bits());
            let value = op.line().formula.value(state.read(rs1), amount);
            state.set_and_go_on(rd, value, length)
        }
        Plain::Computation { op, rd, rs1, rs2 } => {
            let value = op.line().formula.value(state.read(rs1), state.read(rs2));
            state.set_and_go_on(rd, value, length)
        }
        Plain::Fence { .. } => state.go_on(length),
        Plain::Ecall => StepOut::Trap,
        Plain::Ebreak => StepOut::Trap,
    }
}

/// The first address and the number of the bytes that the instruction stores in the state.
pub fn stored(insn: &Insn, state: &State) -> Option<(u32, u8)>
    ensures { result ≡ (row_of insn.now).stored (state_of state.now) }
{
    match insn.plain {
        Plain::Store {
            op,
            rs1,
            offset,
            ..
        } => Some((state.read(rs1).wrapping_add(offset), stored_bytes(op))),
        _ => None,
    }
}

/// The first address and the number of the bytes that the instruction loads in the state.
pub fn loaded(insn: &Insn, state: &State) -> Option<(u32, u8)>
    ensures { result ≡ (row_of insn.now).loaded (state_of state.now) }
{
    match insn.plain {
        Plain::Load {
            op,
            rs1,
            offset,
            ..
        } => Some((state.read(rs1).wrapping_add(offset), loaded_bytes(op))),
        _ => None,
    }
}
