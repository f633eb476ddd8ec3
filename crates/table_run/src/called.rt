//! A run of a frame that steps over contracts.
ghost use Rattle.std.specs.Prelude.{◌≡◌, ℕ, ◌≤◌, ◌<◌, ◌+◌, ◌-◌, ◌||◌, All, AllPairs, IfOk, IfSome, List, [], Some, None, map, slice_get, take};
ghost use Rattle.bilv_spec.specs.PointLaws.{HasLawfulRows};
ghost use Rattle.bilv_spec.specs.Points.{is_known_at};
ghost use Rattle.bilv_spec.specs.Reports as reports;
ghost use Rattle.machine_spec.specs.StateText.{AreRising, IsWritten};
ghost use Rattle.frame_spec.specs.FrameFound.{found};
ghost use Rattle.frame_spec.specs.FrameReports.{IsWrittenCall, WrittenCall};
ghost use Rattle.frame_texts_spec.specs.CallReplays.{block_after, has_called};
ghost use Rattle.start_value.specs.Starts.{written_of};
ghost use Rattle.notes_value.specs.FrameViews.{contract_of};
ghost use Rattle.notes_value.specs.Reads.{IsReadableContract};
ghost use Rattle.state_text.specs.Starts.{written_call_of};
ghost use Rattle.word_spec.specs.Memory as memory;
ghost use Rattle.frame_spec.specs.Frames.{written};
ghost use Rattle.table_run.specs.Spans.{bytes_of};
ghost use Rattle.program_value.specs.Programs.{program_of};
ghost use Rattle.table_run.specs.FrameEnds.{HasKept};
ghost use Rattle.table_run.specs.CalledFrames.{IsBlock, IsOwnAt, IsRunnable, called_frame, frame_in, own_of, is_contract, next_of};
ghost use Rattle.trace_spec.specs.Seen.{seen_steps};
ghost use Rattle.seen_step.specs.Views.{seen_of};
ghost use Rattle.table_run.specs.WatchedRuns.{IsLeftIn, IsWatched};
ghost use Rattle.table_run.specs.Watching.{HasSeen};
ghost use Rattle.table_run.specs.CalledRuns.{AreChanged, IsEnded, IsFoundAs, IsLast, IsRun, called_start, cause_of, cause_within, frame_of_rank, start_called, whole_in};

use crate::blocks::{block_at, step_after};
use crate::called_turns::{Stand, turn};
use crate::choices::choice_at;
use crate::ending::{CalledEnding, CalledRun, CalledStepEnd};
use crate::frame::{CallFrame, Own};
use crate::memory::memory_given;
use crate::observers::{Observer, Watched, later, look_for, note, steps_of};
use crate::runs::{Limits, next_turns, start_state, turns_within};
use crate::spans::{Span, writable};
use byte_mem::View;
use machine_law::Machine;
use notes_index::index_of;
use notes_value::Contract;
use program_value::RankedFrame;
use start_value::Start;
use state_text::CallState;
use std::alloc::{AllocError, Global};

/// An ending at a step, or that of the first block after it.
fn ended(calls: &[CallState], step: u64, called: bool, ending: CalledEnding) -> CalledRun
    ensures called { result.called ≡ called }
    ensures ending { IsEnded (block_after (map written_call_of calls.now) step) ending result.ending }
{
    match step_after(calls, step) {
        None => CalledRun { called, ending },
        Some(step) => CalledRun {
            called,
            ending: CalledEnding::NoCall { step },
        },
    }
}

/// Where a run stands after a step, if it goes on.
pub(crate) fn next_stand(end: CalledStepEnd) -> Option<Stand>
    ensures { result ≡ next_of end }
{
    match end {
        CalledStepEnd::GoesTo => Some(Stand::Row),
        CalledStepEnd::Calls => Some(Stand::Contract),
        CalledStepEnd::Halts(_) => None,
        CalledStepEnd::Leaves => None,
        CalledStepEnd::Breaks { .. } => None,
        CalledStepEnd::NoCall => None,
    }
}

/// What a run comes to with a step at an address, after which it does not go on.
fn last(calls: &[CallState], at: u32, step: u64, called: bool, end: CalledStepEnd) -> CalledRun
    requires { next_of end ≡ None }
    ensures called { result.called ≡ called }
    ensures ending { IsLast end at step (block_after (map written_call_of calls.now) step) result.ending }
{
    match end {
        CalledStepEnd::Halts(event) => ended(
            calls,
            step,
            called,
            CalledEnding::Failed { event, at, step },
        ),
        CalledStepEnd::Leaves => ended(calls, step, called, CalledEnding::Exit { at, step }),
        CalledStepEnd::Breaks { line } => CalledRun {
            called,
            ending: CalledEnding::NotGiven { line, at, step },
        },
        CalledStepEnd::NoCall => CalledRun {
            called,
            ending: CalledEnding::NoCall { step },
        },
        CalledStepEnd::GoesTo => unreachable!(),
        CalledStepEnd::Calls => unreachable!(),
    }
}

/// A contract step was made before, or is made here.
fn calls_here(called: bool, stand: Stand) -> bool
    ensures { result ≡ (called || is_contract stand) }
{
    if called {
        return true;
    }
    stand == Stand::Contract
}

/// What the run of a frame from an entry state comes to within its limits, with the blocks of contract steps, and the state that its last step leaves; an observer
/// sees the steps. The error is want of memory.
fn follow<M: Machine>(
    alloc: Global,
    frame: &CallFrame<M>,
    entry: &M::State,
    mut state: M::State,
    choices: &[(u64, u8)],
    calls: &[CallState],
    limits: Limits,
    seen: &mut Observer,
) -> Result<(CalledRun, M::State), AllocError>
    requires frame { IsRunnable frame.now }
    requires lawful { HasLawfulRows (program_of frame.now.program) }
    requires own { IsOwnAt M.machine.endian frame.now.own (M.State.view entry.now) }
    requires kept { HasKept (program_of frame.now.program) (M.State.view entry.now) }
    requires rising { AreRising choices.now }
    requires blocks { All (λ c. IsBlock M.form (written_call_of c)) calls.now }
    requires calls { AllPairs (λ x y. x.step < y.step) calls.now }
    requires some { 1 ≤ limits.steps }
    requires same { M.State.view state ≡ M.State.view entry.now }
    ensures run { (registers : ℕ → List ℕ) → AreChanged registers (frame_in frame.now).stepped → IfOk result (λ r.
        IsRun (frame_in frame.now) limits.turns
        (called_start (M.State.view entry.now) choices.now registers (map written_call_of calls.now)) (map written_call_of calls.now) (limits.steps - 1) r.0) }
    ensures seen { (registers : ℕ → List ℕ) → AreChanged registers (frame_in frame.now).stepped → HasSeen seen.old [] → IfOk result (λ r.
        IsWatched (frame_in frame.now) M.form limits.turns
        (called_start (M.State.view entry.now) choices.now registers (map written_call_of calls.now)) limits.steps r.0.ending seen.new
        (M.State.view r.1)) }
{
    let mut stack = Vec::new(alloc);
    let mut stand = Stand::Row;
    let mut called = false;
    let mut turns = 0u64;
    let mut n = 0u64;
    loop {
        let at = state.pc();
        let choice = choice_at(choices, n);
        let block = block_at(calls, n);
        called = calls_here(called, stand);
        let depth = stack.len();
        let look = look_for::<M>(alloc, seen, frame, &state, depth, stand, n)?;
        let end = turn::<M>(
            alloc, frame, entry, &mut state, &mut stack, stand, choice, block,
        )?;
        note::<M>(alloc, seen, &look, &state, later(end, depth, stack.len()))?;
        stand = match next_stand(end) {
            None => return Ok((last(calls, at, n, called, end), state)),
            Some(next) => next,
        };
        turns = match next_turns(at, state.pc(), turns, limits.turns) {
            None => return Ok((
                ended(calls, n, called, CalledEnding::Turned { at, step: n }),
                state,
            )),
            Some(more) => more,
        };
        if n + 1 == limits.steps {
            return Ok((
                ended(calls, n, called, CalledEnding::Left { at, step: n }),
                state,
            ));
        }
        n += 1;
    }
}

/// The state of a start of a frame: its registers and flags, at the address where the frame's function begins, and in memory the file's byte where it is kept
/// or, in the frame of the function, fixed; else the start's, else 0. It takes memory for that state.
///
/// # Errors
///
/// Want of memory.
pub fn called_state<M: Machine>(
    alloc: Global,
    frame: &RankedFrame<M>,
    start: &Start,
) -> Result<M::State, AllocError>
    requires start { IsWritten M.form (is_known_at (frame_of_rank frame.now).program) (written_of start.now) }
    ensures { (calls : List WrittenCall) → IfOk result (λ s. M.State.view s ≡ (start_called M.form frame.now (written_of start.now) calls).state) }
{
    if frame.rank == frame.contracts.len() {
        let state = start_state::<M>(alloc, &frame.program, start)?;
        return Ok(state);
    }
    let memory = memory_given(alloc, frame.program.image, &[], &start.bytes)?;
    Ok(M::make(start, frame.contracts[frame.rank].at, memory))
}

/// The bytes that the contract of a rank may write, if there is one, for a frame that begins in a state. The error is want of memory.
pub(crate) fn own_spans<V: View>(
    alloc: Global,
    contracts: &[Contract],
    rank: usize,
    state: &V,
    big: bool,
) -> Result<Vec<Span>, AllocError>
    requires { All (λ x. IsReadableContract V.has_register (contract_of x)) contracts.now }
    ensures { (x : Contract) → slice_get contracts.now rank ≡ Some x → IfOk result (λ spans.
        bytes_of spans.items ≡ written (memory.endian big) (contract_of x).writes (V.view state.now)) }
{
    if rank >= contracts.len() {
        return Ok(Vec::new(alloc));
    }
    let spans = writable(alloc, &contracts[rank].writes, state, big)?;
    Ok(spans)
}

/// The contract of a rank, if there is one, with the bytes that it may write.
pub(crate) fn own<'a>(contracts: &'a [Contract], rank: usize, spans: &'a [Span]) -> Option<Own<'a>>
    ensures own { own_of result ≡ slice_get (map contract_of contracts.now) rank }
    ensures parts { IfSome result (λ o. (slice_get contracts.now rank ≡ Some o.contract.now) × (o.spans.now ≡ spans.now)) }
{
    if rank >= contracts.len() {
        return None;
    }
    Some(Own {
        contract: &contracts[rank],
        spans,
    })
}

/// What the run of a frame from a state comes to within its limits, and the state that its last step leaves; an observer sees the steps. The error is want
/// of memory.
fn run_ranked<M: Machine>(
    alloc: Global,
    frame: &RankedFrame<M>,
    state: M::State,
    choices: &[(u64, u8)],
    calls: &[CallState],
    limits: Limits,
    seen: &mut Observer,
) -> Result<(CalledRun, M::State), AllocError>
    requires kept { HasKept (whole_in frame.now).program (M.State.view state) }
    requires rising { AreRising choices.now }
    requires blocks { All (λ c. IsBlock M.form (written_call_of c)) calls.now }
    requires calls { AllPairs (λ x y. x.step < y.step) calls.now }
    requires some { 1 ≤ limits.steps }
    ensures run { (registers : ℕ → List ℕ) → AreChanged registers (map contract_of (take frame.now.rank frame.now.contracts.now)) → IfOk result (λ r.
        IsRun (called_frame (whole_in frame.now).program (map contract_of (take frame.now.rank frame.now.contracts.now))
        (slice_get (map contract_of frame.now.contracts.now) frame.now.rank)) limits.turns
        (called_start (M.State.view state) choices.now registers (map written_call_of calls.now)) (map written_call_of calls.now) (limits.steps - 1) r.0) }
    ensures seen { (registers : ℕ → List ℕ) → AreChanged registers (map contract_of (take frame.now.rank frame.now.contracts.now)) →
        HasSeen seen.old [] → IfOk result (λ r. IsWatched (called_frame (whole_in frame.now).program
        (map contract_of (take frame.now.rank frame.now.contracts.now)) (slice_get (map contract_of frame.now.contracts.now) frame.now.rank)) M.form
        limits.turns (called_start (M.State.view state) choices.now registers (map written_call_of calls.now)) limits.steps r.0.ending seen.new
        (M.State.view r.1)) }
{
    frame.program.image.bytes();
    let index = index_of(alloc, frame.program.notes)?;
    let entry = M::copy(alloc, &state)?;
    let spans = own_spans(
        alloc,
        frame.contracts,
        frame.rank,
        &entry,
        frame.program.big,
    )?;
    let called = CallFrame {
        program: frame.program,
        index: &index,
        stepped: &frame.contracts[..frame.rank],
        own: own(frame.contracts, frame.rank, &spans),
    };
    let run = follow::<M>(alloc, &called, &entry, state, choices, calls, limits, seen)?;
    Ok(run)
}

/// What the run of a frame from a start comes to, within `limit` steps, and within `k` backward transfers or, for none, any number of them. The start has the
/// registers and flags of the machine's form, bytes that are not 0 at rising addresses (in the frame of the function, of those whose byte the file does not
/// give, in that of a contract, of those that are not kept), and choices for rising steps. `calls` are what contract steps are given, for rising steps. It
/// takes memory for two states and, at a contract step, for one more, for an index of the notes, and for the calls that have not returned; its time beside that
/// is for each step what its row costs, and for each contract step what its bytes and its contract's lines cost.
///
/// # Errors
///
/// Want of memory.
pub fn run_called<M: Machine>(
    alloc: Global,
    frame: &RankedFrame<M>,
    start: &Start,
    calls: &[CallState],
    k: Option<u64>,
    limit: u64,
) -> Result<CalledRun, AllocError>
    requires start { IsWritten M.form (is_known_at (frame_of_rank frame.now).program) (written_of start.now) }
    requires blocks { All (λ c. IsWrittenCall (whole_in frame.now) M.form (written_call_of c)) calls.now }
    requires calls { AllPairs (λ x y. x.step < y.step) calls.now }
    requires some { 1 ≤ limit }
    ensures cause { IfOk result (λ run. cause_of run.ending ≡ cause_within (frame_of_rank frame.now) (reports.turns_within (limit - 1) k)
        (start_called M.form frame.now (written_of start.now) (map written_call_of calls.now)) (map written_call_of calls.now) (limit - 1)) }
    ensures found { IfOk result (λ run. IsFoundAs run.ending (found (frame_of_rank frame.now) k
        (start_called M.form frame.now (written_of start.now) (map written_call_of calls.now)) (limit - 1))) }
    ensures called { IfOk result (λ run. cause_of run.ending ≡ None → run.called ≡ has_called (frame_of_rank frame.now)
        (reports.turns_within (limit - 1) k) (start_called M.form frame.now (written_of start.now) (map written_call_of calls.now)) limit) }
{
    let state = called_state::<M>(alloc, frame, start)?;
    let limits = Limits {
        turns: turns_within(k, limit),
        steps: limit,
    };
    let found = run_ranked::<M>(
        alloc,
        frame,
        state,
        &start.choices,
        calls,
        limits,
        &mut Observer::Nothing,
    )?;
    Ok(found.0)
}

/// The run of [`run_called`] with each of its steps: in the order of their numbers, with what each changes, where the run has no step whose block is not its own
/// (`NoCall`, `NotGiven`). It takes memory for what the steps change besides, and time for that and for each step's registers.
///
/// # Errors
///
/// Want of memory.
pub fn watch_called<M: Machine>(
    alloc: Global,
    frame: &RankedFrame<M>,
    start: &Start,
    calls: &[CallState],
    k: Option<u64>,
    limit: u64,
) -> Result<Watched<CalledRun, M::State>, AllocError>
    requires start { IsWritten M.form (is_known_at (frame_of_rank frame.now).program) (written_of start.now) }
    requires blocks { All (λ c. IsWrittenCall (whole_in frame.now) M.form (written_call_of c)) calls.now }
    requires calls { AllPairs (λ x y. x.step < y.step) calls.now }
    requires some { 1 ≤ limit }
    ensures cause { IfOk result (λ w. cause_of w.ending.ending ≡ cause_within (frame_of_rank frame.now) (reports.turns_within (limit - 1) k)
        (start_called M.form frame.now (written_of start.now) (map written_call_of calls.now)) (map written_call_of calls.now) (limit - 1)) }
    ensures found { IfOk result (λ w. IsFoundAs w.ending.ending (found (frame_of_rank frame.now) k
        (start_called M.form frame.now (written_of start.now) (map written_call_of calls.now)) (limit - 1))) }
    ensures called { IfOk result (λ w. cause_of w.ending.ending ≡ None → w.ending.called ≡ has_called (frame_of_rank frame.now)
        (reports.turns_within (limit - 1) k) (start_called M.form frame.now (written_of start.now) (map written_call_of calls.now)) limit) }
    ensures steps { IfOk result (λ w. cause_of w.ending.ending ≡ None → map seen_of w.steps.items ≡ seen_steps (frame_of_rank frame.now) M.form
        (reports.turns_within (limit - 1) k) (start_called M.form frame.now (written_of start.now) (map written_call_of calls.now)) limit) }
    ensures state { IfOk result (λ w. cause_of w.ending.ending ≡ None → IsLeftIn (frame_of_rank frame.now) (reports.turns_within (limit - 1) k)
        (start_called M.form frame.now (written_of start.now) (map written_call_of calls.now)) w.ending.ending (M.State.view w.state)) }
{
    let state = called_state::<M>(alloc, frame, start)?;
    let limits = Limits {
        turns: turns_within(k, limit),
        steps: limit,
    };
    let list = Vec::new(alloc);
    let mut seen = Observer::Steps(list);
    let found = run_ranked::<M>(
        alloc,
        frame,
        state,
        &start.choices,
        calls,
        limits,
        &mut seen,
    )?;
    let steps = steps_of(alloc, seen);
    Ok(Watched {
        ending: found.0,
        steps,
        state: found.1,
    })
}
