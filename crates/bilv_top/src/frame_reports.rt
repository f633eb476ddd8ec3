//! The answers of reports over frames.
ghost use Rattle.std.specs.Prelude.{◌≡◌, ℕ, [], None, IfOk, map, option_map};
ghost use Rattle.call_spec.specs.Calls as answers;
ghost use Rattle.call_spec.specs.Calls.{segment_evidence};
ghost use Rattle.answer_spec.specs.FrameAnswers.{frame_report_answer, frame_status, name_of, unproved_ending};
ghost use Rattle.frame_spec.specs.FrameReports.{UnprovedReport};
ghost use Rattle.frame_spec.specs.FrameVerdict.{Whole};
ghost use Rattle.frame_texts_spec.specs.CallReplays.{changes_of};
ghost use Rattle.frame_texts_spec.specs.CallTexts.{call_printed};
ghost use Rattle.frame_texts_spec.specs.FrameTexts.{framed_printed};
ghost use Rattle.call_text.specs.Texts.{called_ending_of, frame_name_of};
ghost use Rattle.command_line.specs.Commands.{budget_of};
ghost use Rattle.notes_value.specs.FrameViews.{contract_of};
ghost use Rattle.start_value.specs.Starts.{layout_of, written_of};
ghost use Rattle.state_text.specs.Starts.{written_call_of, written_head_of};
ghost use Rattle.frame_text.specs.Texts.{framed_ending_of};
ghost use Rattle.frame_verdict.specs.FrameVerdicts as verdicts;
ghost use Rattle.frame_verdict.specs.FrameVerdicts.{named_of, report_of};
ghost use Rattle.bilv_top.specs.Answers.{answer_of, evidence_of};

use crate::answer::{Answer, Evidence};
use crate::reports::{beyond, exceeded, judged};
use call_replay::changes_of;
use call_text::{CalledEnding, CalledText, FrameName, print_called};
use command_line::Budget;
use exit_status::{FAILS, UNKNOWN};
use frame_text::{FramedEnding, FramedText, print_framed};
use frame_verdict::{FrameVerdict, Named};
use notes_value::Contract;
use start_value::{Layout, Start};
use state_text::{CallState, HeadStart};
use std::alloc::{AllocError, Global};

/// What shows the end of a segment: its start and, where it begins at a head, the head state.
fn shown_by(start: Start, head: Option<HeadStart>) -> Evidence
    ensures { (rank : ℕ) → evidence_of result ≡ segment_evidence rank (written_of start) (option_map written_head_of head) [] }
{
    match head {
        None => Evidence::RunOf(start),
        Some(head) => Evidence::FromHead { start, head },
    }
}

/// The report of the end of a segment, which it shows in the form of its machine: the start and, where the segment begins at a head, the head state. The error
/// is want of memory.
fn segment(
    alloc: Global,
    form: Layout,
    status: u8,
    named: FramedEnding,
    start: Start,
    head: Option<HeadStart>,
) -> Result<Answer, AllocError>
    ensures { IfOk result (λ a. (rank : ℕ) → answer_of a ≡ record {
      status = status;
      text = framed_printed (layout_of form) (record { named = framed_ending_of named; start = written_of start; head = option_map written_head_of head });
      evidence = segment_evidence rank (written_of start) (option_map written_head_of head) [];
    }) }
{
    let segment = FramedText { named, start, head };
    let text = print_framed(alloc, &segment, form)?;
    let FramedText { start, head, .. } = segment;
    Ok(Answer {
        status,
        text,
        evidence: shown_by(start, head),
    })
}

/// The name of the frame of a rank: the address of its contract, or that it is the entry's.
fn name_of(contracts: &[Contract], rank: usize) -> FrameName
    ensures { (w : Whole) → w.contracts ≡ map contract_of contracts.now → frame_name_of result ≡ name_of w rank }
{
    if rank < contracts.len() {
        return FrameName::Contract {
            at: contracts[rank].at,
        };
    }
    FrameName::Entry
}

/// The ending for which a frame is not proved, of runs of so many backward transfers.
fn unproved(frame: FrameName, unroll: u64, ending: Named) -> CalledEnding
    ensures { (b : answers.Budget) → b.unroll ≡ unroll → called_ending_of result ≡ unproved_ending (frame_name_of frame) b (named_of ending) }
{
    match ending {
        Named::Failed { event, at, step } => CalledEnding::UnprovedBy {
            frame,
            event,
            at,
            step,
        },
        Named::Turned { at, step } => CalledEnding::UnprovedTurns {
            frame,
            k: unroll,
            at,
            step,
        },
    }
}

/// The status of a report of such an ending.
fn status_of(ending: Named) -> u8
    ensures { (rank : ℕ) → result ≡ frame_status (UnprovedReport rank (named_of ending)) }
{
    match ending {
        Named::Failed { .. } => FAILS,
        Named::Turned { .. } => UNKNOWN,
    }
}

/// The report that a frame is not proved, which shows the run that ends so: its start, and a block for each of its contract steps. The error is want of memory.
fn not_proved(
    alloc: Global,
    form: Layout,
    contracts: &[Contract],
    rank: usize,
    status: u8,
    shown: CalledText,
) -> Result<Answer, AllocError>
    ensures { IfOk result (λ a. (w : Whole) → w.contracts ≡ map contract_of contracts.now → shown.head ≡ None → answer_of a ≡ record {
      status = status;
      text = call_printed (layout_of form) (changes_of w) (record {
        named = called_ending_of shown.named;
        start = written_of shown.start;
        head = None;
        calls = map written_call_of shown.calls.items;
      });
      evidence = answers.WithCalls rank (written_of shown.start) (map written_call_of shown.calls.items);
    }) }
{
    let changes = changes_of(alloc, contracts)?;
    let text = print_called(alloc, &shown, &changes, form)?;
    let CalledText { start, calls, .. } = shown;
    Ok(Answer {
        status,
        text,
        evidence: Evidence::WithCalls { rank, start, calls },
    })
}

/// The report of a verdict over frames within budgets, on a function of a machine of this form with these contracts. The error is want of memory.
pub fn frame_report(
    alloc: Global,
    form: Layout,
    contracts: &[Contract],
    budget: Budget,
    verdict: FrameVerdict,
) -> Result<Answer, AllocError>
    ensures { IfOk result (λ a. (w : Whole) → w.contracts ≡ map contract_of contracts.now → answer_of a
        ≡ frame_report_answer w (layout_of form) (budget_of budget) (report_of verdict) (verdicts.evidence_of verdict)) }
{
    match verdict {
        FrameVerdict::Holds { start, fail, turn } => {
            let evidence = Evidence::Refutations { start, fail, turn };
            judged(alloc, b"holds\n", evidence)
        }
        FrameVerdict::ByFrames(passed) => judged(alloc, b"holds\n", Evidence::Frames(passed)),
        FrameVerdict::Partial {
            start,
            fail,
            step,
            turn,
        } => {
            let evidence = Evidence::Inductive {
                start,
                fail,
                step,
                turn,
            };
            judged(alloc, b"holds partially\n", evidence)
        }
        FrameVerdict::Vacuous(proof) => judged(alloc, b"vacuous\n", Evidence::EntryRefuted(proof)),
        FrameVerdict::Fails {
            event,
            at,
            step,
            start,
        } => {
            let named = FramedEnding::Fails { event, at, step };
            segment(alloc, form, FAILS, named, start, None)
        }
        FrameVerdict::NotInductive {
            event,
            at,
            step,
            start,
            head,
        } => {
            let named = FramedEnding::NotInductive { event, at, step };
            segment(alloc, form, FAILS, named, start, Some(head))
        }
        FrameVerdict::Unroll {
            at,
            step,
            start,
            head,
        } => {
            let k = budget.unroll;
            let named = FramedEnding::Turns { k, at, step };
            segment(alloc, form, UNKNOWN, named, start, head)
        }
        FrameVerdict::Unproved {
            rank,
            ending,
            start,
            calls,
        } => {
            let named = unproved(name_of(contracts, rank), budget.unroll, ending);
            let shown = CalledText {
                named,
                start,
                head: None,
                calls,
            };
            not_proved(alloc, form, contracts, rank, status_of(ending), shown)
        }
        FrameVerdict::Exceeded(past) => beyond(alloc, budget, past),
        FrameVerdict::Conflicts {
            rank,
            question,
            proof,
        } => {
            let spent = Evidence::SpentOnFrame {
                rank,
                question,
                proof,
            };
            exceeded(alloc, b"conflicts", budget.conflicts, spent)
        }
    }
}
