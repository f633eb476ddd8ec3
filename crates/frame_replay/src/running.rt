//! The segment of a named ending.
ghost use Rattle.std.specs.Prelude.{◌≡◌, ◌+◌, ◌≤◌, [], IfOk, IfSome, option_map};
ghost use Rattle.std.specs.List.Sorted.{IsStrictlyIncreasing};
ghost use Rattle.bilv_spec.specs.Elf.{loaded, is_kept};
ghost use Rattle.bilv_spec.specs.EntryFaults.{IsEntryStateFault};
ghost use Rattle.program_value.specs.Programs.{program_of};
ghost use Rattle.bilv_spec.specs.Points.{is_known_at};
ghost use Rattle.machine_spec.specs.StateText.{IsWritten, last_step};
ghost use Rattle.call_spec.specs.Calls.{plain_answer};
ghost use Rattle.frame_spec.specs.Frames.{Frame};
ghost use Rattle.frame_spec.specs.FrameRuns as runs;
ghost use Rattle.frame_spec.specs.FrameReports.{head_of};
ghost use Rattle.frame_texts_spec.specs.CallReplays as replays;
ghost use Rattle.frame_texts_spec.specs.CallReplays.{call_run_answer};
ghost use Rattle.frame_texts_spec.specs.CallTexts.{CallEnding, EntryFrame, frame_name};
ghost use Rattle.frame_texts_spec.specs.FrameReplays.{bound_of, step_of, false_at_head};
ghost use Rattle.start_value.specs.Starts.{written_of};
ghost use Rattle.state_text.specs.Starts.{written_head_of};
ghost use Rattle.call_text.specs.Texts.{called_ending_of};
ghost use Rattle.frame_text.specs.Texts.{framed_ending_of};
ghost use Rattle.table_run.specs.Endings.{fault_of, IsLinesFault};
ghost use Rattle.table_run.specs.FrameEnds.{frame_of, start_shown};
ghost use Rattle.frame_replay.specs.Readings.{IsHeadWritten};

use crate::comparing::bare;
use crate::texts::{compared, false_invariant};
use call_text::CalledText;
use frame_text::FramedEnding;
use machine_law::Machine;
use program_value::Program;
use report_replay::{Replay, false_require, unaligned};
use state_text::HeadStart;
use std::alloc::{AllocError, Global};
use table_run::{EntryFault, head_ok, head_state, lines_ok, run_frame, start_state};

/// The bound on backward transfers that an ending names.
pub fn bound(named: FramedEnding) -> Option<u64>
    ensures { result ≡ bound_of (framed_ending_of named) }
{
    match named {
        FramedEnding::Turns { k, .. } => Some(k),
        _ => None,
    }
}

/// The number of the step of an ending.
pub fn step_of(named: FramedEnding) -> u64
    ensures { result ≡ step_of (framed_ending_of named) }
{
    match named {
        FramedEnding::Fails { step, .. } => step,
        FramedEnding::Turns { step, .. } => step,
        FramedEnding::NotInductive { step, .. } => step,
    }
}

/// The answer to a start that has a fault. The error is want of memory.
fn faulted(alloc: Global, fault: EntryFault) -> Result<Replay, AllocError>
    requires { IsLinesFault fault }
    ensures { (f : Frame) (named : CallEnding) (start : runs.Start) → frame_name named ≡ EntryFrame →
        IsEntryStateFault f.program start.state (fault_of fault) →
        IfOk result (λ r. plain_answer r.status r.text.items ≡ call_run_answer f named start []) }
{
    match fault {
        EntryFault::Link => unaligned(alloc),
        EntryFault::Require { line } => false_require(alloc, line),
        EntryFault::Byte { .. } => unreachable!(),
    }
}

/// The number of the first invariant of a head that is false in its state, for an entry state. The error is want of memory.
fn false_at<M: Machine>(
    alloc: Global,
    program: &Program<M>,
    invariants: &[u32],
    entry: &M::State,
    head: Option<&HeadStart>,
) -> Result<Option<u32>, AllocError>
    requires rising { IsStrictlyIncreasing invariants.now }
    requires head { IfSome head (λ h. IsWritten M.form (λ a. is_kept (loaded program.now.image.now a)) (written_of h.now.start)) }
    ensures { IfOk result (λ o.
        let f = frame_of (program_of program.now) invariants.now in
        o ≡ false_at_head f (M.State.view entry.now) (head_of f M.form (option_map (λ h. written_head_of h.now) head.entry))) }
{
    match head {
        None => Ok(None),
        Some(head) => {
            let state = head_state::<M>(alloc, program.image, head)?;
            match head_ok::<M>(program, invariants, entry, &state) {
                Ok(()) => Ok(None),
                Err(line) => Ok(Some(line)),
            }
        }
    }
}

/// The answer to a named ending of the entry's frame with its start and its head state; a block plays no part. The error is want of memory.
pub(crate) fn run_named<M: Machine>(
    alloc: Global,
    program: &Program<M>,
    invariants: &[u32],
    text: &CalledText,
) -> Result<Replay, AllocError>
    requires rising { IsStrictlyIncreasing invariants.now }
    requires start { IsWritten M.form (is_known_at (program_of program.now)) (written_of text.now.start) }
    requires head { IsHeadWritten M.form program.now.image.now text.now.head }
    requires frame { frame_name (called_ending_of text.now.named) ≡ EntryFrame }
    requires step { step_of (replays.bare (called_ending_of text.now.named)) ≤ last_step }
    ensures { IfOk result (λ r. plain_answer r.status r.text.items
        ≡ call_run_answer (frame_of (program_of program.now) invariants.now) (called_ending_of text.now.named)
        (start_shown (program_of program.now) invariants.now M.form (written_of text.now.start)
        (option_map written_head_of text.now.head)) []) }
{
    let state = start_state::<M>(alloc, program, &text.start)?;
    if let Err(fault) = lines_ok::<M>(program, &state) {
        return faulted(alloc, fault);
    }
    let head = text.head.as_ref();
    if let Some(line) = false_at::<M>(alloc, program, invariants, &state, head)? {
        return false_invariant(alloc, line);
    }
    let ending = bare(text.named);
    let limit = step_of(ending) + 1;
    let came = run_frame::<M>(
        alloc,
        program,
        invariants,
        &text.start,
        head,
        bound(ending),
        limit,
    )?;
    compared(alloc, text.named, head.is_some(), came)
}
