//! Contract steps: a call of a contract that is stepped over.
ghost use Rattle.std.specs.Prelude.{◌≡◌, ◌≤◌, true, IfOk, IfSome, is_some, length, map, reverse};
ghost use Rattle.std.specs.Option.{option_map};
ghost use Rattle.word_spec.specs.State.{State};
ghost use Rattle.frame_spec.specs.Frames as frames;
ghost use Rattle.frame_spec.specs.Frames.{Content, written};
ghost use Rattle.frame_spec.specs.FrameRuns.{contract_step};
ghost use Rattle.frame_texts_spec.specs.CallReplays.{is_block_of};
ghost use Rattle.notes_value.specs.FrameViews.{contract_of};
ghost use Rattle.state_text.specs.Starts.{written_call_of};
ghost use Rattle.program_value.specs.Programs.{program_of};
ghost use Rattle.table_run.specs.FrameEnds.{HasKept};
ghost use Rattle.table_run.specs.Spans.{bytes_of};
ghost use Rattle.table_run.specs.CalledFrames.{IsBlock, IsContractEnd, IsGift, IsOwnAt, IsReturn, IsRunnable, frame_in, own_of};
ghost use Rattle.table_run.specs.Watching.{IsBack, IsStill};
ghost use Rattle.notes_value.specs.Reads.{IsReadableContract};
ghost use Rattle.word_spec.specs.Memory.{Endian};

use crate::blocks::is_of;
use crate::changes::contract_at;
use crate::ending::{CalledEvent, CalledStepEnd};
use crate::frame::{CallFrame, Own};
use crate::gifts::give;
use crate::lines::false_line;
use crate::spans::{Span, any_kept_of, any_outside, writable};
use byte_mem::View;
use machine_law::Machine;
use notes_value::Contract;
use state_text::{CallState, Event};
use std::alloc::{AllocError, Global};

/// One of some bytes is none that the frame's contract may write, if it has one.
pub(crate) fn leaves_own(own: Option<Own>, spans: &[Span]) -> bool
    ensures { (e : Endian) (entry : State) → IsOwnAt e own.entry entry → result ≡ frames.is_outside (own_of own.entry) e entry (bytes_of spans.now) }
{
    match own {
        None => false,
        Some(own) => any_outside(own.spans, spans),
    }
}

/// The return from a contract step in the state that it is given, which is judged by what the contract gives. The error is want of memory.
fn come_back<M: Machine>(
    alloc: Global,
    frame: &CallFrame<M>,
    contract: &Contract,
    spans: &[Span],
    call: &CallState,
    state: &mut M::State,
    stack: &mut Vec<u32>,
) -> Result<CalledStepEnd, AllocError>
    requires frame { IsRunnable frame.now }
    requires contract { IsReadableContract M.State.has_register (contract_of contract.now) }
    requires block { IsBlock M.form (written_call_of call.now) }
    requires returns { 1 ≤ length stack.old.items }
    requires spans { bytes_of spans.now ≡ written M.machine.endian (contract_of contract.now).writes (M.State.view state.old) }
    ensures back { IfOk result IsBack }
    ensures end { IfOk result (λ end. IsReturn frame.now (contract_of contract.now) (written_call_of call.now) end
        (M.State.view state.old) (reverse stack.old.items) (M.State.view state.new) (reverse stack.new.items)) }
{
    let count = stack.len();
    let to = stack[count - 1];
    let before = M::copy(alloc, state)?;
    give::<M>(alloc, contract, spans, call, to, state)?;
    stack.truncate(count - 1);
    match false_line(&contract.gives, state, &before, frame.program.big) {
        None => Ok(CalledStepEnd::GoesTo),
        Some(line) => Ok(CalledStepEnd::Breaks { line }),
    }
}

/// The contract step at a place whose address has a contract that is stepped over and whose stack is not empty, by the block of its step. The error is want of
/// memory.
pub(crate) fn contract_turn<M: Machine>(
    alloc: Global,
    frame: &CallFrame<M>,
    state: &mut M::State,
    stack: &mut Vec<u32>,
    block: Option<&CallState>,
) -> Result<CalledStepEnd, AllocError>
    requires frame { IsRunnable frame.now }
    requires block { IfSome block (λ c. IsBlock M.form (written_call_of c.now)) }
    requires called { is_some (frames.contract_at (map contract_of frame.now.stepped.now) (M.State.view state.old).pc) ≡ true }
    requires returns { 1 ≤ length stack.old.items }
    ensures still { IfOk result (λ end. IsStill end (M.State.view state.old) (M.State.view state.new)) }
    ensures end { (entry : State) (given : Content) → IsOwnAt M.machine.endian frame.now.own entry →
        IsGift (frame_in frame.now).stepped (option_map (λ c. written_call_of c.now) block.entry) given →
        HasKept (program_of frame.now.program) (M.State.view state.old) →
        IfOk result (λ end. IsContractEnd end (program_of frame.now.program) (M.State.view state.new) (reverse stack.new.items)
        (contract_step (frame_in frame.now) entry (record { state = M.State.view state.old; stack = reverse stack.old.items }) given)
        (is_block_of (frame_in frame.now) (record { state = M.State.view state.old; stack = reverse stack.old.items })
        (option_map (λ c. written_call_of c.now) block.entry))) }
{
    let at = state.pc();
    let contract = match contract_at(frame.stepped, at) {
        None => unreachable!(),
        Some(contract) => contract,
    };
    let big = frame.program.big;
    if let Some(line) = false_line(&contract.needs, state, state, big) {
        return Ok(CalledStepEnd::Halts(CalledEvent::NeedsFails { line }));
    }
    let spans = writable(alloc, &contract.writes, state, big)?;
    if any_kept_of(frame.program.image, &spans) {
        return Ok(CalledStepEnd::Halts(CalledEvent::OfStep(Event::CodeWritten)));
    }
    if leaves_own(frame.own, &spans) {
        return Ok(CalledStepEnd::Halts(CalledEvent::WritesFails));
    }
    let call = match block {
        None => return Ok(CalledStepEnd::NoCall),
        Some(call) => call,
    };
    if !is_of(call, at, &spans) {
        return Ok(CalledStepEnd::NoCall);
    }
    let end = come_back::<M>(alloc, frame, contract, &spans, call, state, stack)?;
    Ok(end)
}
