//! The run of a named ending.
ghost use Rattle.std.specs.Prelude.{◌≡◌, ◌<◌, ◌≤◌, All, AllPairs, IfOk, List, None, Some, map};
ghost use Rattle.bilv_spec.specs.EntryFaults.{IsEntryStateFault};
ghost use Rattle.bilv_spec.specs.Points.{is_known_at};
ghost use Rattle.call_spec.specs.Calls.{plain_answer};
ghost use Rattle.machine_spec.specs.StateText.{IsWritten, last_step};
ghost use Rattle.frame_spec.specs.Frames.{Frame};
ghost use Rattle.frame_spec.specs.FrameReports.{IsWrittenCall, WrittenCall};
ghost use Rattle.frame_spec.specs.FrameRuns as runs;
ghost use Rattle.frame_texts_spec.specs.CallReplays as replays;
ghost use Rattle.frame_texts_spec.specs.CallReplays.{call_run_answer};
ghost use Rattle.frame_texts_spec.specs.CallTexts.{CallEnding, frame_name};
ghost use Rattle.frame_texts_spec.specs.FrameReplays.{step_of};
ghost use Rattle.start_value.specs.Starts.{written_of};
ghost use Rattle.state_text.specs.Starts.{written_call_of};
ghost use Rattle.table_run.specs.CalledRuns.{frame_of_rank, start_called, whole_in};
ghost use Rattle.table_run.specs.Endings.{IsLinesFault, fault_of};
ghost use Rattle.call_text.specs.Texts.{called_ending_of, frame_name_of};

use crate::texts::compared;
use call_text::{CalledText, FrameName};
use frame_replay::{bare, bound, numbered, step_of};
use machine_law::Machine;
use program_value::RankedFrame;
use report_replay::{Replay, false_require, unaligned};
use std::alloc::{AllocError, Global};
use table_run::{EntryFault, called_lines_ok, called_state, run_called};

/// The answer where a line is the first that is false where the run of a frame begins: one that the notes require, or that its contract needs. The error is
/// want of memory.
fn false_line(alloc: Global, frame: FrameName, line: u32) -> Result<Replay, AllocError>
    ensures { (n : CallEnding) (o : replays.Outcome) → frame_name n ≡ frame_name_of frame →
        IfOk result (λ r. plain_answer r.status r.text.items ≡ replays.needs_answer (Some line) None n o) }
{
    match frame {
        FrameName::Entry => false_require(alloc, line),
        FrameName::Contract { .. } => numbered(alloc, b"state: needs ", line as u64, b"\n"),
    }
}

/// The answer to a start of a frame that has a fault. The error is want of memory.
fn faulted(alloc: Global, frame: FrameName, fault: EntryFault) -> Result<Replay, AllocError>
    requires { IsLinesFault fault }
    ensures { (f : Frame) (n : CallEnding) (start : runs.Start) (calls : List WrittenCall) → frame_name n ≡ frame_name_of frame → start.head ≡ None →
        IsEntryStateFault f.program start.state (fault_of fault) →
        IfOk result (λ r. plain_answer r.status r.text.items ≡ call_run_answer f n start calls) }
{
    match fault {
        EntryFault::Link => unaligned(alloc),
        EntryFault::Require { line } => false_line(alloc, frame, line),
        EntryFault::Byte { .. } => unreachable!(),
    }
}

/// The answer to a named ending with its start and what contract steps are given, in the frame of its name; a head state plays no part. The error is want of
/// memory.
pub(crate) fn run_named<M: Machine>(
    alloc: Global,
    frame: &RankedFrame<M>,
    text: &CalledText,
) -> Result<Replay, AllocError>
    requires start { IsWritten M.form (is_known_at (frame_of_rank frame.now).program) (written_of text.now.start) }
    requires blocks { All (λ c. IsWrittenCall (whole_in frame.now) M.form (written_call_of c)) text.now.calls.items }
    requires calls { AllPairs (λ x y. x.step < y.step) text.now.calls.items }
    requires step { step_of (replays.bare (called_ending_of text.now.named)) ≤ last_step }
    ensures { IfOk result (λ r. plain_answer r.status r.text.items
        ≡ call_run_answer (frame_of_rank frame.now) (called_ending_of text.now.named)
        (start_called M.form frame.now (written_of text.now.start) (map written_call_of text.now.calls.items))
        (map written_call_of text.now.calls.items)) }
{
    let state = called_state::<M>(alloc, frame, &text.start)?;
    let named = text.named;
    if let Err(fault) = called_lines_ok::<M>(frame, &state) {
        return faulted(alloc, named.frame(), fault);
    }
    let ending = bare(named);
    let limit = step_of(ending) + 1;
    let calls = text.calls.as_slice();
    let run = run_called::<M>(alloc, frame, &text.start, calls, bound(ending), limit)?;
    compared(alloc, named, run)
}
