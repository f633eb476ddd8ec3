//! The state after a contract step.
ghost use Rattle.std.specs.Prelude.{◌≡◌, ◌<◌, ◌≤◌, ◌^◌, ℕ, IfOk, IsTrue, OnOk, get_or, length, map, if◌then◌else◌};
ghost use Rattle.word_spec.specs.Words.{bit_at};
ghost use Rattle.word_spec.specs.RowFiles.{from_to};
ghost use Rattle.machine_spec.specs.StateText.{AreRising};
ghost use Rattle.frame_spec.specs.Frames as frames;
ghost use Rattle.frame_spec.specs.Frames.{written};
ghost use Rattle.frame_spec.specs.FrameRuns.{state_after};
ghost use Rattle.frame_spec.specs.FrameReports.{given_by};
ghost use Rattle.notes_value.specs.FrameViews.{contract_of};
ghost use Rattle.notes_value.specs.Reads.{IsReadableContract};
ghost use Rattle.state_text.specs.Starts.{written_call_of};
ghost use Rattle.table_run.specs.Spans.{bytes_at, bytes_of};
ghost use Rattle.table_run.specs.CalledFrames.{IsBlock, IsFilledBy, IsSeenAs, changed_by, register_after, value_from};

use crate::changes::{is_in, keeps_flag};
use crate::model_bytes::{ModelBytes, byte_of};
use crate::spans::Span;
use byte_mem::View;
use machine_law::Machine;
use notes_value::Contract;
use start_value::Start;
use state_text::CallState;
use std::alloc::{AllocError, Global};

/// The value of a place, and 0 after the last one.
fn value_at(values: &[u32], place: usize) -> u32
    ensures { result ≡ get_or values.now place 0 }
{
    if place < values.len() {
        return values[place];
    }
    0
}

/// The value of a register, where the registers of a set have values in their order; 0 where it has none.
fn value_in(set: u32, values: &[u32], register: u8) -> u32
    ensures { result ≡ value_from set values.now register 0 32 }
{
    let mut i = 0usize;
    for n in 0..32u8 {
        if !is_in(set, n) {
            continue;
        }
        if n == register {
            return value_at(values, i);
        }
        i += 1;
    }
    0
}

/// A register after a contract step.
fn register_after<M: Machine>(contract: &Contract, values: &[u32], state: &M::State, r: u8) -> u32
    requires small { r < 32 }
    requires readable { IsTrue (M.State.has_register r) }
    ensures { result ≡ register_after contract.now.registers (M.State.view state.now) values.now r }
{
    if is_in(contract.registers, r) {
        return value_in(contract.registers, values, r);
    }
    state.reg(r)
}

/// The registers of the machine's form after a contract step, in their order.
fn registers_after<M: Machine>(
    alloc: Global,
    contract: &Contract,
    values: &[u32],
    state: &M::State,
) -> Result<Vec<u32>, AllocError>
    ensures { IfOk result (λ v. v.items
        ≡ map (register_after contract.now.registers (M.State.view state.now) values.now) (from_to M.form.first (length M.form.registers))) }
{
    let (first, count) = M::layout().registers();
    let mut out = Vec::new(alloc);
    for i in 0..count {
        out.push(register_after::<M>(contract, values, state, first + i))?;
    }
    Ok(out)
}

/// A flag after a contract step, as a number.
fn flag_after<M: Machine>(contract: &Contract, call: &CallState, state: &M::State, n: u8) -> u8
    requires { n < 4 }
    ensures flag { (f : frames.Frame) → f.program.machine ≡ M.machine → result ≡ (if frames.keeps_flag f (contract_of contract.now) n
        then (M.State.view state.now).flags n else bit_at n call.now.flags) }
    ensures given { length M.form.flags ≤ n → result ≡ bit_at n call.now.flags }
    ensures bit { result < 2 }
{
    if keeps_flag::<M>(contract, n) {
        return state.flag(n) as u8;
    }
    (call.flags >> n) % 2
}

/// The flags after a contract step, as N 8, Z 4, C 2 and V 1.
fn flags_after<M: Machine>(contract: &Contract, call: &CallState, state: &M::State) -> u8
    requires { call.now.flags < 2 ^ length M.form.flags }
    ensures few { result < 2 ^ length M.form.flags }
    ensures flags { (f : frames.Frame) → f.program.machine ≡ M.machine → (n : ℕ) → bit_at n result ≡ (if frames.keeps_flag f (contract_of contract.now) n
        then (M.State.view state.now).flags n else bit_at n call.now.flags) }
{
    let v = flag_after::<M>(contract, call, state, 0);
    let c = flag_after::<M>(contract, call, state, 1);
    let z = flag_after::<M>(contract, call, state, 2);
    let n = flag_after::<M>(contract, call, state, 3);
    v + 2 * c + 4 * z + 8 * n
}

/// Puts the bytes of a block at those of a span: 0 where it has none. The error is want of memory.
fn fill_span<M: Machine>(
    state: &mut M::State,
    span: Span,
    bytes: &[(u32, u8)],
) -> Result<(), AllocError>
    requires { AreRising bytes.now }
    ensures { OnOk result (IsFilledBy bytes.now (bytes_at span) (M.State.view state.old) (M.State.view state.new)) }
{
    let given = ModelBytes { fill: 0, bytes };
    let mut at = span.first;
    for _ in 0..span.count {
        M::reserve(state, 1)?;
        M::put(state, at, byte_of(&given, at));
        at = at.wrapping_add(1);
    }
    Ok(())
}

/// Puts the bytes of a block at all that may be written: 0 where it has none. The error is want of memory.
fn fill<M: Machine>(
    state: &mut M::State,
    spans: &[Span],
    bytes: &[(u32, u8)],
) -> Result<(), AllocError>
    requires { AreRising bytes.now }
    ensures { OnOk result (IsFilledBy bytes.now (bytes_of spans.now) (M.State.view state.old) (M.State.view state.new)) }
{
    for span in spans {
        fill_span::<M>(state, *span, bytes)?;
    }
    Ok(())
}

/// Changes a state to that after a contract step, which comes back to an address. The error is want of memory.
pub(crate) fn give<M: Machine>(
    alloc: Global,
    contract: &Contract,
    spans: &[Span],
    call: &CallState,
    to: u32,
    state: &mut M::State,
) -> Result<(), AllocError>
    requires registers { IsReadableContract M.machine.has_register (contract_of contract.now) }
    requires block { IsBlock M.form (written_call_of call.now) }
    ensures { (f : frames.Frame) → f.program.machine ≡ M.machine →
        bytes_of spans.now ≡ written M.machine.endian (contract_of contract.now).writes (M.State.view state.old) →
        OnOk result (IsSeenAs (state_after f (contract_of contract.now) (M.State.view state.old) to
        (given_by (changed_by (contract_of contract.now)) (written_call_of call.now))) (M.State.view state.new)) }
{
    let after = Start {
        regs: registers_after::<M>(alloc, contract, &call.regs, state)?,
        flags: flags_after::<M>(contract, call, state),
        bytes: Vec::new(alloc),
        choices: Vec::new(alloc),
    };
    fill::<M>(state, spans, &call.bytes)?;
    M::give(state, &after, to);
    Ok(())
}
