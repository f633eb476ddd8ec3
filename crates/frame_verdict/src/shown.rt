//! The runs that show a verdict.
ghost use Rattle.std.specs.Prelude.{◌≡◌, ◌≢◌, ◌<◌, ◌≤◌, ◌-◌, ℕ, List, [], None, Some, true, false, IfOk, IfSome, MatchOption, length, option_map};
ghost use Rattle.bilv_spec.specs.Points.{is_known_at};
ghost use Rattle.frame_spec.specs.FrameFound.{Found};
ghost use Rattle.frame_spec.specs.FrameReports.{head_of};
ghost use Rattle.frame_texts_spec.specs.CallReplays.{WrongAt};
ghost use Rattle.frame_text.specs.Texts.{framed_event_of};
ghost use Rattle.machine_spec.specs.StateText.{IsWritten};
ghost use Rattle.program_points.specs.Listed.{anchor_of};
ghost use Rattle.question_form.specs.Asked.{frame_question};
ghost use Rattle.start_value.specs.Starts.{written_of};
ghost use Rattle.state_text.specs.Starts.{written_head_of};
ghost use Rattle.table_run.specs.CalledFrames.{called_event_of};
ghost use Rattle.table_run.specs.CalledRuns.{IsFoundAs, cause_of};
ghost use Rattle.table_run.specs.FrameEnds.{frame_found_of, whole_of};
ghost use Rattle.frame_rounds.specs.FrameGrounds.{AreSegments};
ghost use Rattle.frame_verdict.specs.FrameFunctions.{CanRun, CanShow, frame_at, frame_of_framed, program_of_framed, whole_of_framed};
ghost use Rattle.frame_verdict.specs.FrameVerdicts.{named_of};
ghost use Rattle.frame_verdict.specs.ShownEnds as specs;
ghost use Rattle.frame_verdict.specs.ShownEnds.{CanEnd, EndsAsAsked, IsCame, IsEndOf, IsEnded, IsHeadFor, IsHeadWritten, IsShownAt, named_in, shown_of, start_of};

use crate::framed::Framed;
use crate::judged::Ended;
use crate::segments::{Shown, shown_of_root};
use crate::verdicts::Named;
use call_form::Budget;
use frame_start::Segments;
use frame_text::FramedEvent;
use machine_law::Machine;
use program_points::Root;
use program_value::RankedFrame;
use question_form::{Asked, Unrolled};
use state_text::HeadStart;
use std::alloc::{AllocError, Global};
use table_run::{
    CalledEnding, CalledEvent, FrameEnding, head_ok, head_state, made_calls, run_called, run_frame,
    start_state,
};

/// Whether a written head state is one for an entry state: its invariants are true. The error is want of memory.
fn is_head_for<M: Machine>(
    alloc: Global,
    framed: &Framed<M>,
    entry: &M::State,
    head: Option<&HeadStart>,
) -> Result<bool, AllocError>
    requires runs { CanRun framed.now }
    requires head { IsHeadWritten (program_of_framed framed.now) framed.now.invariants.now M.form (option_map (λ h. h.now) head) }
    ensures yes { IfOk result (λ b. b ≡ true → IsHeadFor (frame_of_framed framed.now) (M.State.view entry.now)
        (head_of (frame_of_framed framed.now) M.form (option_map (λ h. written_head_of h.now) head.entry))) }
    ensures no { IfOk result (λ b. b ≡ false → ¬ IsHeadFor (frame_of_framed framed.now) (M.State.view entry.now)
        (head_of (frame_of_framed framed.now) M.form (option_map (λ h. written_head_of h.now) head.entry))) }
{
    match head {
        None => Ok(true),
        Some(head) => {
            let state = head_state::<M>(alloc, framed.program.image, head)?;
            match head_ok::<M>(&framed.program, framed.invariants, entry, &state) {
                Ok(()) => Ok(true),
                Err(_) => Ok(false),
            }
        }
    }
}

/// What the segment that is shown comes to within as many steps as there may be points; none where its head state is none for its entry state. The error is want
/// of memory.
fn ending<M: Machine>(
    alloc: Global,
    framed: &Framed<M>,
    budget: &Budget,
    shown: &Shown,
) -> Result<Option<FrameEnding>, AllocError>
    requires runs { CanRun framed.now }
    requires start { IsWritten M.form (is_known_at (program_of_framed framed.now)) (written_of shown.now.start) }
    requires head { IsHeadWritten (program_of_framed framed.now) framed.now.invariants.now M.form shown.now.head }
    ensures { IfOk result (λ o. IsEndOf (frame_of_framed framed.now) budget.now.unroll (budget.now.points - 1)
        (start_of (program_of_framed framed.now) framed.now.invariants.now M.form shown.now) o) }
{
    let state = start_state::<M>(alloc, &framed.program, &shown.start)?;
    let head = shown.head.as_ref();
    if !is_head_for::<M>(alloc, framed, &state, head)? {
        return Ok(None);
    }
    let ending = run_frame::<M>(
        alloc,
        &framed.program,
        framed.invariants,
        &shown.start,
        head,
        Some(budget.unroll),
        budget.points,
    )?;
    Ok(Some(ending))
}

/// How a segment ends, if by an event or by one backward transfer too many.
fn named(ending: FrameEnding) -> Option<Named>
    ensures { option_map named_of result ≡ named_in (frame_found_of ending) }
{
    match ending {
        FrameEnding::Failed { event, at, step } => Some(Named::Failed {
            event: FramedEvent::of(event),
            at,
            step,
        }),
        FrameEnding::Turned { at, step } => Some(Named::Turned { at, step }),
        FrameEnding::Exit { .. } => None,
        FrameEnding::Cut { .. } => None,
        FrameEnding::Left { .. } => None,
    }
}

/// The event of a frame that steps over contracts.
fn framed_event(event: CalledEvent) -> FramedEvent
    ensures { framed_event_of result ≡ called_event_of event }
{
    match event {
        CalledEvent::OfStep(event) => FramedEvent::OfStep(event),
        CalledEvent::NeedsFails { line } => FramedEvent::NeedsFails { line: line as u64 },
        CalledEvent::WritesFails => FramedEvent::WritesFails,
        CalledEvent::GivesFails { line } => FramedEvent::GivesFails { line: line as u64 },
        CalledEvent::ModifiesFails => FramedEvent::ModifiesFails,
    }
}

/// So of a run that steps over contracts, none of whose blocks is wrong.
fn named_called(ending: CalledEnding) -> Option<Named>
    ensures some { (x : Found) → IsFoundAs ending x → IfSome result (λ n. named_in x ≡ Some (named_of n)) }
    ensures right { IfSome result (λ n. cause_of ending ≡ None) }
    ensures none { (x : Found) → IsFoundAs ending x → ((step : ℕ) → cause_of ending ≢ Some (WrongAt step)) → result ≡ None → named_in x ≡ None }
{
    match ending {
        CalledEnding::Failed { event, at, step } => Some(Named::Failed {
            event: framed_event(event),
            at,
            step,
        }),
        CalledEnding::Turned { at, step } => Some(Named::Turned { at, step }),
        CalledEnding::Exit { .. } => None,
        CalledEnding::Left { .. } => None,
        CalledEnding::NoCall { .. } => None,
        CalledEnding::NotGiven { .. } => None,
    }
}

/// What the segment that is shown comes to in a frame that steps over no contract, if it ends by an event or by one backward transfer too many, and begins in a
/// head state, where it begins at a head. The error is want of memory.
fn segment_end<M: Machine>(
    alloc: Global,
    framed: &Framed<M>,
    budget: &Budget,
    shown: Shown,
) -> Result<Option<Ended>, AllocError>
    requires runs { CanRun framed.now }
    requires shown { IsShownAt (whole_of (program_of_framed framed.now) framed.now.invariants.now) 0 M.form (shown_of shown) }
    requires head { IsHeadWritten (program_of_framed framed.now) framed.now.invariants.now M.form shown.head }
    requires none { shown.calls.items ≡ [] }
    ensures { IfOk result (IsCame (whole_of (program_of_framed framed.now) framed.now.invariants.now) 0 budget.now.unroll budget.now.points M.form
        (shown_of shown)) }
{
    match ending::<M>(alloc, framed, budget, &shown)? {
        None => Ok(None),
        Some(ending) => match named(ending) {
            None => Ok(None),
            Some(ending) => Ok(Some(Ended {
                shown,
                called: false,
                ending,
            })),
        },
    }
}

/// What the run that is shown comes to in the frame of a rank, which may step over contracts and has no head, if it ends by an event or by one backward transfer
/// too many. Of what contract steps are given that stays which they take. The error is want of memory.
fn called_end<M: Machine>(
    alloc: Global,
    framed: &Framed<M>,
    budget: &Budget,
    rank: usize,
    shown: Shown,
) -> Result<Option<Ended>, AllocError>
    requires runs { CanRun framed.now }
    requires some { framed.now.contracts.now ≢ [] }
    requires rank { rank ≤ length framed.now.contracts.now }
    requires ends { CanEnd M.form framed.now budget.now rank shown }
    ensures { IfOk result (IsCame (whole_of_framed framed.now) rank budget.now.unroll budget.now.points M.form (shown_of shown)) }
{
    let frame = RankedFrame {
        program: framed.program,
        contracts: framed.contracts,
        rank,
    };
    let (k, limit) = (budget.unroll, budget.points);
    let Shown { start, head, calls } = shown;
    let calls = made_calls::<M>(alloc, &frame, &start, &calls, k, limit)?;
    let run = run_called::<M>(alloc, &frame, &start, &calls, Some(k), limit)?;
    match named_called(run.ending) {
        None => Ok(None),
        Some(ending) => Ok(Some(Ended {
            shown: Shown { start, head, calls },
            called: run.called,
            ending,
        })),
    }
}

/// What the segment that is shown comes to in the frame of a rank, if it ends by an event or by one backward transfer too many, and begins in a head state, where
/// it begins at a head. The error is want of memory.
fn came_to<M: Machine>(
    alloc: Global,
    framed: &Framed<M>,
    budget: &Budget,
    rank: usize,
    shown: Shown,
) -> Result<Option<Ended>, AllocError>
    requires runs { CanRun framed.now }
    requires rank { rank ≤ length framed.now.contracts.now }
    requires ends { CanEnd M.form framed.now budget.now rank shown }
    ensures { IfOk result (IsCame (whole_of_framed framed.now) rank budget.now.unroll budget.now.points M.form (shown_of shown)) }
{
    if framed.contracts.is_empty() {
        let came = segment_end::<M>(alloc, framed, budget, shown)?;
        return Ok(came);
    }
    let came = called_end::<M>(alloc, framed, budget, rank, shown)?;
    Ok(came)
}

/// Whether a question asks for segments that begin there.
fn wants(asked: Asked, head: Option<Root>) -> bool
    ensures { (stacks : List (List ℕ)) → result ≡ specs.wants_anchor (frame_question asked) (anchor_of stacks head) }
{
    match asked {
        Asked::Entry => false,
        Asked::Fail => head.is_none(),
        Asked::Step => head.is_some(),
        Asked::Turn => true,
    }
}

/// Whether a segment ended as a question asks: by an event, or by one backward transfer too many.
fn is_end(asked: Asked, ending: Named) -> bool
    ensures { result ≡ specs.is_end (frame_question asked) (named_of ending) }
{
    match asked {
        Asked::Entry => false,
        Asked::Fail | Asked::Step => matches!(ending, Named::Failed { .. }),
        Asked::Turn => matches!(ending, Named::Turned { .. }),
    }
}

/// The start that is shown of the root of a number, with its end, if that is a start whose segment ends as a question asks. The error is want of memory.
fn try_root<M: Machine>(
    alloc: Global,
    framed: &Framed<M>,
    budget: &Budget,
    rank: usize,
    unrolled: &Unrolled,
    segments: &Segments,
    asked: Asked,
    root: usize,
) -> Result<Option<Ended>, AllocError>
    requires ready { CanShow M.form framed.now budget.now rank unrolled.now }
    requires segments { AreSegments (frame_at framed.now rank) budget.now.unroll M.form (frame_question asked) unrolled.now segments.now }
    requires root { root < length unrolled.now.roots.items }
    ensures { IfOk result (λ o. MatchOption o
        (¬ EndsAsAsked (whole_of_framed framed.now) rank budget.now.unroll M.form (frame_question asked) unrolled.now segments.now root)
        (IsEnded (whole_of_framed framed.now) rank budget.now.unroll M.form (frame_question asked))) }
{
    if !wants(asked, unrolled.roots[root].head) {
        return Ok(None);
    }
    let shown = shown_of_root(alloc, unrolled, segments, root)?;
    match came_to::<M>(alloc, framed, budget, rank, shown)? {
        None => Ok(None),
        Some(ended) => {
            if is_end(asked, ended.ending) {
                return Ok(Some(ended));
            }
            Ok(None)
        }
    }
}

/// The first start that is shown whose segment ends as a question other than the entry's asks, of those roots for which it asks. The error is want of memory.
pub fn first_ended<M: Machine>(
    alloc: Global,
    framed: &Framed<M>,
    budget: &Budget,
    rank: usize,
    unrolled: &Unrolled,
    segments: &Segments,
    asked: Asked,
) -> Result<Ended, AllocError>
    requires ready { CanShow M.form framed.now budget.now rank unrolled.now }
    requires segments { AreSegments (frame_at framed.now rank) budget.now.unroll M.form (frame_question asked) unrolled.now segments.now }
    requires later { asked ≢ Asked.Entry }
    ensures { IfOk result (IsEnded (whole_of_framed framed.now) rank budget.now.unroll M.form (frame_question asked)) }
{
    for root in 0..unrolled.roots.len() {
        let tried = try_root::<M>(alloc, framed, budget, rank, unrolled, segments, asked, root)?;
        if let Some(ended) = tried {
            return Ok(ended);
        }
    }
    unreachable!()
}
