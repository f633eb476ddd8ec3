//! The texts of answers.
ghost use Rattle.std.specs.Prelude.{◌≡◌, ◌++◌, ◌≤◌, Some, codes, false, IfOk, OnOk};
ghost use Rattle.machine_spec.specs.Endings.{place_words};
ghost use Rattle.machine_spec.specs.StateText.{Layout, last_step};
ghost use Rattle.bilv_spec.specs.Reports as reports;
ghost use Rattle.word_spec.specs.Texts.{joined, line, number_text};
ghost use Rattle.call_spec.specs.Calls.{plain_answer};
ghost use Rattle.frame_spec.specs.FrameVerdict.{Whole};
ghost use Rattle.frame_texts_spec.specs.CallReplays as replays;
ghost use Rattle.frame_texts_spec.specs.CallReplays.{call_ending_answer, call_head_answer, call_told_answer};
ghost use Rattle.frame_texts_spec.specs.CallTexts.{BlockFault, CallEnding, CallRefused, EntryFrame, OfFramed, call_ending_words, frame_name};
ghost use Rattle.frame_texts_spec.specs.FrameReplays.{event_ending, found_words, bound_of, step_of};
ghost use Rattle.frame_text.specs.Texts.{framed_ending_of};
ghost use Rattle.state_text.specs.Starts.{frame_event_of};
ghost use Rattle.table_run.specs.FrameEnds.{frame_found_of};
ghost use Rattle.call_text.specs.Texts.{called_ending_of};
ghost use Rattle.frame_text.specs.Readings.{frame_fault_of};

use crate::comparing::{bare, is_named};
use crate::reading::Refusal;
use call_text::{CalledEnding, push_called_ending};
use exit_status::{DONE, TEXT_REFUSED};
use frame_text::{FrameFault, FramedEnding, FramedEvent, push_framed_ending};
use report_replay::Replay;
use state_text::{FrameEvent, push_number, push_step};
use std::alloc::{AllocError, Global};
use table_run::FrameEnding;

/// The refusal with a number between two texts.
///
/// # Errors
///
/// Want of memory.
pub fn numbered(alloc: Global, before: &[u8], n: u64, behind: &[u8]) -> Result<Replay, AllocError>
    ensures { IfOk result (λ r. plain_answer r.status r.text.items ≡ plain_answer 9 (before.now ++ (number_text n ++ behind.now))) }
{
    let mut out = Vec::new(alloc);
    out.extend_from_slice(before)?;
    push_number(alloc, &mut out, n)?;
    out.extend_from_slice(behind)?;
    Ok(Replay {
        status: TEXT_REFUSED,
        text: out,
    })
}

/// The answer to a text that is refused at a line.
///
/// # Errors
///
/// Want of memory.
pub fn refused(alloc: Global, refusal: Refusal) -> Result<Replay, AllocError>
    ensures { (w : Whole) (layout : Layout) → IfOk result (λ r. plain_answer r.status r.text.items ≡ call_told_answer w layout
        (CallRefused refusal.line (OfFramed (frame_fault_of refusal.kind)))) }
{
    match refusal.kind {
        FrameFault::OfPart(kind) => report_replay::refused(alloc, refusal.line, kind),
        FrameFault::Head => numbered(alloc, b"state: line ", refusal.line, b" S6 Head\n"),
    }
}

/// The answer to a text that is refused at a line of a block.
///
/// # Errors
///
/// Want of memory.
pub fn bad_block(alloc: Global, line: u64) -> Result<Replay, AllocError>
    ensures { (w : Whole) (layout : Layout) → IfOk result (λ r. plain_answer r.status r.text.items ≡ call_told_answer w layout (CallRefused line BlockFault)) }
{
    numbered(alloc, b"state: line ", line, b" S7 Call\n")
}

/// The answer where an invariant is the first that is false in the head state.
pub(crate) fn false_invariant(alloc: Global, line: u32) -> Result<Replay, AllocError>
    ensures { (named : CallEnding) (o : replays.Outcome) →
        IfOk result (λ r. plain_answer r.status r.text.items ≡ call_head_answer (Some line) named o) }
{
    numbered(alloc, b"state: invariant ", line as u64, b"\n")
}

/// The answer where a run ends as is named.
///
/// # Errors
///
/// Want of memory.
pub fn named_so(alloc: Global, named: CalledEnding) -> Result<Replay, AllocError>
    ensures { IfOk result (λ r. plain_answer r.status r.text.items
        ≡ plain_answer 0 (line (codes "replayed " ++ joined (call_ending_words (called_ending_of named))))) }
{
    let mut out = Vec::new(alloc);
    out.extend_from_slice(b"replayed ")?;
    push_called_ending(alloc, &mut out, named)?;
    out.push(b'\n')?;
    Ok(Replay {
        status: DONE,
        text: out,
    })
}

/// How many backward transfers the segment of a named ending is allowed: those of its bound, and without one more than there are steps.
pub fn turns_within(named: FramedEnding) -> u64
    requires { step_of (framed_ending_of named) ≤ last_step }
    ensures { result ≡ reports.turns_within (step_of (framed_ending_of named)) (bound_of (framed_ending_of named)) }
{
    match named {
        FramedEnding::Fails { step, .. } => step + 1,
        FramedEnding::Turns { k, .. } => k,
        FramedEnding::NotInductive { step, .. } => step + 1,
    }
}

/// How an event of a segment is named.
fn event_ending(from_head: bool, event: FrameEvent, at: u32, step: u64) -> FramedEnding
    ensures { framed_ending_of result ≡ event_ending from_head (frame_event_of event) at step }
{
    let event = FramedEvent::of(event);
    if from_head {
        return FramedEnding::NotInductive { event, at, step };
    }
    FramedEnding::Fails { event, at, step }
}

/// Appends what a segment came to that was allowed `k` backward transfers.
fn push_found(
    alloc: Global,
    out: &mut Vec<u8>,
    from_head: bool,
    k: u64,
    ending: FrameEnding,
) -> Result<(), AllocError>
    ensures { OnOk result (out.new.items ≡ out.old.items ++ joined (found_words from_head k (frame_found_of ending))) }
{
    match ending {
        FrameEnding::Exit { at, step } => push_place(alloc, out, b"exit ", at, step),
        FrameEnding::Failed { event, at, step } => {
            push_framed_ending(alloc, out, event_ending(from_head, event, at, step))
        }
        FrameEnding::Turned { at, step } => {
            push_framed_ending(alloc, out, FramedEnding::Turns { k, at, step })
        }
        FrameEnding::Cut { at, step } => push_place(alloc, out, b"cut ", at, step),
        FrameEnding::Left { at, step } => push_place(alloc, out, b"running ", at, step),
    }
}

/// Appends a text, and an address with the number of a step. What an `Err` leaves is open.
pub fn push_place(
    alloc: Global,
    out: &mut Vec<u8>,
    before: &[u8],
    at: u32,
    step: u64,
) -> Result<(), AllocError>
    ensures { OnOk result (out.new.items ≡ out.old.items ++ (before.now ++ joined (place_words at step))) }
{
    out.extend_from_slice(before)?;
    push_step(alloc, out, at, step)?;
    Ok(())
}

/// The answer where the segment comes to something else than is named.
fn found_other(
    alloc: Global,
    named: CalledEnding,
    from_head: bool,
    ending: FrameEnding,
) -> Result<Replay, AllocError>
    requires step { step_of (replays.bare (called_ending_of named)) ≤ last_step }
    requires entry { frame_name (called_ending_of named) ≡ EntryFrame }
    ensures { IfOk result (λ r. plain_answer r.status r.text.items
        ≡ call_ending_answer false (called_ending_of named) false from_head (frame_found_of ending)) }
{
    let mut out = Vec::new(alloc);
    out.extend_from_slice(b"replay: named ")?;
    push_called_ending(alloc, &mut out, named)?;
    out.extend_from_slice(b", found ")?;
    push_found(
        alloc,
        &mut out,
        from_head,
        turns_within(bare(named)),
        ending,
    )?;
    out.push(b'\n')?;
    Ok(Replay {
        status: TEXT_REFUSED,
        text: out,
    })
}

/// The answer by what the segment of a named ending came to, which has no contract steps.
pub(crate) fn compared(
    alloc: Global,
    named: CalledEnding,
    from_head: bool,
    ending: FrameEnding,
) -> Result<Replay, AllocError>
    requires step { step_of (replays.bare (called_ending_of named)) ≤ last_step }
    requires entry { frame_name (called_ending_of named) ≡ EntryFrame }
    ensures { IfOk result (λ r. plain_answer r.status r.text.items
        ≡ call_ending_answer (replays.is_call_found (called_ending_of named) false from_head (frame_found_of ending)) (called_ending_of named) false from_head
        (frame_found_of ending)) }
{
    if is_named(named, from_head, ending) {
        return named_so(alloc, named);
    }
    found_other(alloc, named, from_head, ending)
}
