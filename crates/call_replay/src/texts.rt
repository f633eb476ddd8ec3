//! The texts of answers.
ghost use Rattle.std.specs.Prelude.{◌≡◌, ◌++◌, ◌≤◌, None, Some, false, IfOk, OnOk};
ghost use Rattle.machine_spec.specs.StateText.{Layout, last_step};
ghost use Rattle.word_spec.specs.Texts.{joined, line};
ghost use Rattle.call_spec.specs.Calls.{plain_answer};
ghost use Rattle.frame_spec.specs.FrameVerdict.{Whole};
ghost use Rattle.frame_texts_spec.specs.CallReplays as replays;
ghost use Rattle.frame_texts_spec.specs.CallReplays.{allowed, block_answer, call_ending_answer, call_found_words, call_told_answer, words_by};
ghost use Rattle.frame_texts_spec.specs.CallTexts.{call_ending_words};
ghost use Rattle.frame_texts_spec.specs.FrameReplays.{step_of};
ghost use Rattle.frame_texts_spec.specs.FrameTexts.{ending_words};
ghost use Rattle.frame_text.specs.Texts.{framed_ending_of};
ghost use Rattle.call_text.specs.Texts.{called_ending_of, frame_name_of};
ghost use Rattle.table_run.specs.CalledRuns.{cause_of};
ghost use Rattle.call_replay.specs.Found.{IsOutcome, called_found};
ghost use Rattle.call_replay.specs.Readings.{refusal_of};

use crate::comparing::{framed, is_named, is_of_frame};
use crate::judging::Refusal;
use call_text::{CallFault, CalledEnding, FrameName, push_called_ending};
use exit_status::TEXT_REFUSED;
use frame_replay::{bad_block, bare, named_so, numbered, push_place, turns_within};
use frame_text::FramedEnding;
use report_replay::Replay;
use std::alloc::{AllocError, Global};
use table_run::{CalledEnding as RunEnding, CalledRun};

/// The answer to a text that is refused at a line. The error is want of memory.
pub(crate) fn refused(alloc: Global, refusal: Refusal) -> Result<Replay, AllocError>
    ensures { (w : Whole) (layout : Layout) → IfOk result (λ r. plain_answer r.status r.text.items ≡ call_told_answer w layout (refusal_of refusal)) }
{
    let line = refusal.line;
    match refusal.kind {
        CallFault::OfFramed(kind) => frame_replay::refused(
            alloc,
            frame_replay::Refusal { line, kind },
        ),
        CallFault::Block => bad_block(alloc, line),
    }
}

/// How an ending of a frame's run is named, which made a contract step or not.
fn ended(frame: FrameName, called: bool, ending: FramedEnding) -> CalledEnding
    ensures { call_ending_words (called_ending_of result)
        ≡ words_by (replays.is_of_frame (frame_name_of frame) called) (frame_name_of frame) (Some (framed_ending_of ending))
        (ending_words (framed_ending_of ending)) }
{
    if is_of_frame(frame, called) {
        return CalledEnding::unproved(frame, ending);
    }
    CalledEnding::Plain(ending)
}

/// Appends what the run of a frame came to that was allowed `k` backward transfers. The error is want of memory.
fn push_found(
    alloc: Global,
    out: &mut Vec<u8>,
    frame: FrameName,
    called: bool,
    k: u64,
    ending: RunEnding,
) -> Result<(), AllocError>
    requires { cause_of ending ≡ None }
    ensures { OnOk result (out.new.items ≡ out.old.items ++ joined (call_found_words (frame_name_of frame) called false k (called_found ending))) }
{
    match ending {
        RunEnding::Exit { at, step } => push_place(alloc, out, b"exit ", at, step),
        RunEnding::Failed { event, at, step } => {
            let event = framed(event);
            let ending = FramedEnding::Fails { event, at, step };
            push_called_ending(alloc, out, ended(frame, called, ending))
        }
        RunEnding::Turned { at, step } => {
            let ending = FramedEnding::Turns { k, at, step };
            push_called_ending(alloc, out, ended(frame, called, ending))
        }
        RunEnding::Left { at, step } => push_place(alloc, out, b"running ", at, step),
        RunEnding::NoCall { .. } => unreachable!(),
        RunEnding::NotGiven { .. } => unreachable!(),
    }
}

/// The answer where the run comes to something else than is named. The error is want of memory.
fn found_other(
    alloc: Global,
    named: CalledEnding,
    called: bool,
    ending: RunEnding,
) -> Result<Replay, AllocError>
    requires step { step_of (replays.bare (called_ending_of named)) ≤ last_step }
    requires ends { cause_of ending ≡ None }
    ensures { IfOk result (λ r. plain_answer r.status r.text.items
        ≡ call_ending_answer false (called_ending_of named) called false (called_found ending)) }
{
    let mut out = Vec::new(alloc);
    out.extend_from_slice(b"replay: named ")?;
    push_called_ending(alloc, &mut out, named)?;
    out.extend_from_slice(b", found ")?;
    let k = turns_within(bare(named));
    push_found(alloc, &mut out, named.frame(), called, k, ending)?;
    out.push(b'\n')?;
    Ok(Replay {
        status: TEXT_REFUSED,
        text: out,
    })
}

/// The answer by what the run of a named ending came to. The error is want of memory.
pub(crate) fn compared(
    alloc: Global,
    named: CalledEnding,
    run: CalledRun,
) -> Result<Replay, AllocError>
    requires { step_of (replays.bare (called_ending_of named)) ≤ last_step }
    ensures { (o : replays.Outcome) → IsOutcome run o → IfOk result (λ r. plain_answer r.status r.text.items
        ≡ block_answer o.wrong (called_ending_of named) o.called o.from_head o.found) }
{
    let ending = run.ending;
    if let RunEnding::NoCall { step } = ending {
        return numbered(alloc, b"state: call ", step, b"\n");
    }
    if let RunEnding::NotGiven { line, .. } = ending {
        return numbered(alloc, b"state: gives ", line as u64, b"\n");
    }
    if is_named(named, run.called, ending) {
        return named_so(alloc, named);
    }
    found_other(alloc, named, run.called, ending)
}
