//! The contract steps that a run makes, as they are shown.
ghost use Rattle.std.specs.Prelude.{[], ◌≡◌, ℕ, ◌≤◌, ◌<◌, ◌++◌, All, AllPairs, IfOk, IfSome, List, OnOk, filter, is_some, map, nat_eq, slice_get, take, true};
ghost use Rattle.std.specs.List.{list_any};
ghost use Rattle.std.specs.Option.{option_map};
ghost use Rattle.bilv_spec.specs.PointLaws.{HasLawfulRows};
ghost use Rattle.bilv_spec.specs.Points.{is_known_at};
ghost use Rattle.machine_spec.specs.StateText.{AreRising, IsWritten};
ghost use Rattle.frame_spec.specs.Frames as frames;
ghost use Rattle.frame_spec.specs.FrameReports.{AreMade, IsMade, IsWrittenCall};
ghost use Rattle.frame_spec.specs.FrameRuns as runs;
ghost use Rattle.frame_spec.specs.FrameRuns.{IsOver};
ghost use Rattle.frame_texts_spec.specs.CallReplays as replays;
ghost use Rattle.notes_value.specs.FrameViews.{contract_of};
ghost use Rattle.start_value.specs.Starts.{written_of};
ghost use Rattle.state_text.specs.Starts.{written_call_of};
ghost use Rattle.program_value.specs.Programs.{program_of};
ghost use Rattle.table_run.specs.FrameEnds.{HasKept};
ghost use Rattle.table_run.specs.Spans.{bytes_of};
ghost use Rattle.table_run.specs.CalledFrames.{IsBlock, IsOwnAt, IsRunnable, IsStanding, called_frame, frame_in};
ghost use Rattle.table_run.specs.CalledRuns.{AreChanged, called_start, frame_of_rank, start_called, whole_in};
ghost use Rattle.table_run.specs.MadeCalls as shown;
ghost use Rattle.table_run.specs.MadeCalls.{AreAlike, AreListed, IsShownOf, handed, kept_of, shown_in};

use crate::blocks::block_at;
use crate::called::{called_state, next_stand, own, own_spans};
use crate::called_turns::{Stand, turn};
use crate::changes::contract_at;
use crate::choices::choice_at;
use crate::ending::CalledStepEnd;
use crate::frame::CallFrame;
use crate::runs::{Limits, next_turns};
use crate::spans::{Span, covers, writable};
use byte_mem::View;
use machine_law::Machine;
use notes_index::index_of;
use program_value::RankedFrame;
use start_value::Start;
use state_text::CallState;
use std::alloc::{AllocError, Global};

/// Those of some bytes with their addresses that are bytes of a list of spans. The error is want of memory.
fn covered_bytes(
    alloc: Global,
    bytes: &[(u32, u8)],
    spans: &[Span],
) -> Result<Vec<(u32, u8)>, AllocError>
    ensures { IfOk result (λ out. out.items ≡ filter (λ b. list_any (nat_eq b.0) (bytes_of spans.now)) bytes.now) }
{
    let mut out = Vec::new(alloc);
    for (at, byte) in bytes {
        if covers(spans, *at) {
            out.push((*at, *byte))?;
        }
    }
    Ok(out)
}

/// A block, with those of its bytes alone that are bytes of a list of spans. The error is want of memory.
fn covered(alloc: Global, call: &CallState, spans: &[Span]) -> Result<CallState, AllocError>
    ensures { IfOk result (λ c. written_call_of c ≡ record (written_call_of call.now) {
      bytes = filter (λ b. list_any (nat_eq b.0) (bytes_of spans.now)) call.now.bytes.items;
    }) }
{
    let mut regs = Vec::new(alloc);
    regs.extend_from_slice(&call.regs)?;
    let bytes = covered_bytes(alloc, &call.bytes, spans)?;
    Ok(CallState {
        step: call.step,
        at: call.at,
        regs,
        flags: call.flags,
        bytes,
    })
}

/// The block of a contract step, with those of its bytes alone that its contract may write in this state. The error is want of memory.
fn covered_at<M: Machine>(
    alloc: Global,
    frame: &CallFrame<M>,
    state: &M::State,
    calls: &[CallState],
    step: u64,
) -> Result<Option<CallState>, AllocError>
    requires frame { IsRunnable frame.now }
    requires blocks { All (λ c. IsBlock M.form (written_call_of c)) calls.now }
    requires calls { AllPairs (λ x y. x.step < y.step) calls.now }
    ensures handed { is_some (frames.contract_at (map contract_of frame.now.stepped.now) (M.State.view state.now).pc) ≡ true →
        IfOk result (λ block. option_map written_call_of block ≡ option_map (shown.covered (frame_in frame.now)
        (record { state = M.State.view state.now; stack = [] })) (replays.block_at (map written_call_of calls.now) step)) }
    ensures block { IfOk result (λ block. IfSome block (λ c. IsBlock M.form (written_call_of c))) }
{
    let call = match block_at(calls, step) {
        None => return Ok(None),
        Some(call) => call,
    };
    let contract = match contract_at(frame.stepped, state.pc()) {
        None => return Ok(None),
        Some(contract) => contract,
    };
    let spans = writable(alloc, &contract.writes, state, frame.program.big)?;
    let block = covered(alloc, call, &spans)?;
    Ok(Some(block))
}

/// The block that is handed to a step: a row is handed none. The error is want of memory.
fn hand<M: Machine>(
    alloc: Global,
    frame: &CallFrame<M>,
    state: &M::State,
    stand: Stand,
    calls: &[CallState],
    step: u64,
) -> Result<Option<CallState>, AllocError>
    requires frame { IsRunnable frame.now }
    requires blocks { All (λ c. IsBlock M.form (written_call_of c)) calls.now }
    requires calls { AllPairs (λ x y. x.step < y.step) calls.now }
    ensures handed { (stack : List ℕ) → IsStanding stand (map contract_of frame.now.stepped.now) (M.State.view state.now) stack →
        IfOk result (λ block. option_map written_call_of block ≡ handed stand (frame_in frame.now)
        (record { state = M.State.view state.now; stack = [] }) (replays.block_at (map written_call_of calls.now) step)) }
    ensures block { IfOk result (λ block. IfSome block (λ c. IsBlock M.form (written_call_of c))) }
{
    match stand {
        Stand::Row => Ok(None),
        Stand::Contract => {
            let block = covered_at::<M>(alloc, frame, state, calls, step)?;
            Ok(block)
        }
    }
}

/// Keeps a block that was handed to a step, unless the step has an event. The error is want of memory.
fn keep(
    made: &mut Vec<CallState>,
    end: CalledStepEnd,
    block: Option<CallState>,
) -> Result<(), AllocError>
    ensures { OnOk result (map written_call_of made.new.items ≡ map written_call_of made.old.items ++ kept_of end (option_map written_call_of block)) }
{
    if let CalledStepEnd::Halts(_) = end {
        return Ok(());
    }
    match block {
        None => {}
        Some(block) => made.push(block)?,
    }
    Ok(())
}

/// What is shown of the contract steps that the run of a frame from an entry state makes within its limits. The error is want of memory.
fn follow<M: Machine>(
    alloc: Global,
    frame: &CallFrame<M>,
    entry: &M::State,
    mut state: M::State,
    choices: &[(u64, u8)],
    calls: &[CallState],
    limits: Limits,
) -> Result<Vec<CallState>, AllocError>
    requires frame { IsRunnable frame.now }
    requires lawful { HasLawfulRows (program_of frame.now.program) }
    requires own { IsOwnAt M.machine.endian frame.now.own (M.State.view entry.now) }
    requires kept { HasKept (program_of frame.now.program) (M.State.view entry.now) }
    requires rising { AreRising choices.now }
    requires blocks { All (λ c. IsBlock M.form (written_call_of c)) calls.now }
    requires calls { AllPairs (λ x y. x.step < y.step) calls.now }
    requires some { 1 ≤ limits.steps }
    requires same { M.State.view state ≡ M.State.view entry.now }
    ensures { (registers : ℕ → List ℕ) → AreChanged registers (frame_in frame.now).stepped →
        AreListed (frame_in frame.now) limits.turns (called_start (M.State.view entry.now) choices.now registers (map written_call_of calls.now))
        (map written_call_of calls.now) limits.steps →
        IfOk result (λ made. map written_call_of made.items ≡ shown_in (frame_in frame.now) limits.turns
        (called_start (M.State.view entry.now) choices.now registers (map written_call_of calls.now)) (map written_call_of calls.now) limits.steps) }
{
    let mut stack = Vec::new(alloc);
    let mut made = Vec::new(alloc);
    let mut stand = Stand::Row;
    let mut turns = 0u64;
    let mut n = 0u64;
    loop {
        let at = state.pc();
        let choice = choice_at(choices, n);
        let block = hand::<M>(alloc, frame, &state, stand, calls, n)?;
        let end = turn::<M>(
            alloc,
            frame,
            entry,
            &mut state,
            &mut stack,
            stand,
            choice,
            block.as_ref(),
        )?;
        keep(&mut made, end, block)?;
        stand = match next_stand(end) {
            None => return Ok(made),
            Some(next) => next,
        };
        turns = match next_turns(at, state.pc(), turns, limits.turns) {
            None => return Ok(made),
            Some(more) => more,
        };
        n += 1;
        if n == limits.steps {
            return Ok(made);
        }
    }
}

/// What is shown of the contract steps that the run of a frame from a state makes within its limits. The error is want of memory.
fn made_ranked<M: Machine>(
    alloc: Global,
    frame: &RankedFrame<M>,
    state: M::State,
    choices: &[(u64, u8)],
    calls: &[CallState],
    limits: Limits,
) -> Result<Vec<CallState>, AllocError>
    requires kept { HasKept (whole_in frame.now).program (M.State.view state) }
    requires rising { AreRising choices.now }
    requires blocks { All (λ c. IsBlock M.form (written_call_of c)) calls.now }
    requires calls { AllPairs (λ x y. x.step < y.step) calls.now }
    requires some { 1 ≤ limits.steps }
    ensures { (registers : ℕ → List ℕ) → AreChanged registers (map contract_of (take frame.now.rank frame.now.contracts.now)) →
        AreListed (called_frame (whole_in frame.now).program (map contract_of (take frame.now.rank frame.now.contracts.now))
        (slice_get (map contract_of frame.now.contracts.now) frame.now.rank)) limits.turns
        (called_start (M.State.view state) choices.now registers (map written_call_of calls.now)) (map written_call_of calls.now) limits.steps →
        IfOk result (λ made. IsShownOf (called_frame (whole_in frame.now).program (map contract_of (take frame.now.rank frame.now.contracts.now))
        (slice_get (map contract_of frame.now.contracts.now) frame.now.rank)) limits.turns (called_start (M.State.view state) choices.now registers)
        (map written_call_of calls.now) limits.steps (map written_call_of made.items)) }
{
    frame.program.image.bytes();
    let index = index_of(alloc, frame.program.notes)?;
    let entry = M::copy(alloc, &state)?;
    let spans = own_spans(
        alloc,
        frame.contracts,
        frame.rank,
        &entry,
        frame.program.big,
    )?;
    let called = CallFrame {
        program: frame.program,
        index: &index,
        stepped: &frame.contracts[..frame.rank],
        own: own(frame.contracts, frame.rank, &spans),
    };
    let made = follow::<M>(alloc, &called, &entry, state, choices, calls, limits)?;
    Ok(made)
}

/// The contract steps that the run of a frame from a start makes without an event, within `limit` steps and `k` backward transfers, as they are shown: their
/// blocks, each with those of its bytes alone that its contract may write there. The run from the start with these blocks is the same, but for bytes that no
/// machine sees. The start has the registers and flags of the machine's form, bytes that are not 0 at rising addresses (in the frame of the function, of those
/// whose byte the file does not give, in that of a contract, of those that are not kept), and choices for rising steps. `calls` are what contract steps are
/// given, for rising steps; each contract step that the run makes without an event is among them. It takes memory for two states and, at a contract step, for
/// one more, for an index of the notes, for the calls that have not returned, and for the blocks; its time beside that is for each step what its row costs, and
/// for each contract step what its bytes and its contract's lines cost.
///
/// # Errors
///
/// Want of memory.
pub fn made_calls<M: Machine>(
    alloc: Global,
    frame: &RankedFrame<M>,
    start: &Start,
    calls: &[CallState],
    k: u64,
    limit: u64,
) -> Result<Vec<CallState>, AllocError>
    requires start { IsWritten M.form (is_known_at (frame_of_rank frame.now).program) (written_of start.now) }
    requires blocks { All (λ c. IsWrittenCall (whole_in frame.now) M.form (written_call_of c)) calls.now }
    requires calls { AllPairs (λ x y. x.step < y.step) calls.now }
    requires some { 1 ≤ limit }
    requires listed { AreListed (frame_of_rank frame.now) k
        (start_called M.form frame.now (written_of start.now) (map written_call_of calls.now)) (map written_call_of calls.now) limit }
    ensures written { IfOk result (λ made. All (λ c. IsWrittenCall (whole_in frame.now) M.form (written_call_of c)) made.items) }
    ensures rising { IfOk result (λ made. AllPairs (λ x y. x.step < y.step) made.items) }
    ensures alike { (n : ℕ) → n ≤ limit → IfOk result (λ made. AreAlike
        (runs.run (frame_of_rank frame.now) k (start_called M.form frame.now (written_of start.now) (map written_call_of calls.now)) n)
        (runs.run (frame_of_rank frame.now) k
        (start_called M.form frame.now (written_of start.now) (map written_call_of made.items)) n)) }
    ensures each { IfOk result (λ made. All (IsMade (frame_of_rank frame.now) k
        (start_called M.form frame.now (written_of start.now) (map written_call_of made.items))) (map written_call_of made.items)) }
    ensures made { (n : ℕ) → n ≤ limit → IsOver
        (runs.run (frame_of_rank frame.now) k (start_called M.form frame.now (written_of start.now) (map written_call_of calls.now)) n) →
        IfOk result (λ made. AreMade (frame_of_rank frame.now) k
        (start_called M.form frame.now (written_of start.now) (map written_call_of made.items)) (map written_call_of made.items)) }
{
    let state = called_state::<M>(alloc, frame, start)?;
    let limits = Limits {
        turns: k,
        steps: limit,
    };
    let made = made_ranked::<M>(alloc, frame, state, &start.choices, calls, limits)?;
    Ok(made)
}
