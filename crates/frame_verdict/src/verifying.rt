//! The questions of the frame of a rank, in their order.
ghost use Rattle.std.specs.Prelude.{◌≢◌, IfOk};
ghost use Rattle.call_form.specs.Views.{budget_of};
ghost use Rattle.frame_spec.specs.FrameQuestions.{FailQuestion, IsDue};
ghost use Rattle.frame_spec.specs.FrameReports.{Refutes};
ghost use Rattle.cnf_form.specs.Views.{proof_of};
ghost use Rattle.notes_value.specs.NoteViews.{notes_of};
ghost use Rattle.question_form.specs.Asked.{frame_question};
ghost use Rattle.start_value.specs.Starts.{written_of};
ghost use Rattle.frame_start.specs.Segments.{IsFrameAskable};
ghost use Rattle.frame_rounds.specs.FrameGrounds.{AreSegments};
ghost use Rattle.frame_verdict.specs.FrameFunctions.{IsNotesAt, IsReady, frame_at, whole_of_framed};
ghost use Rattle.frame_verdict.specs.JudgedFrames.{IsJudged};
ghost use Rattle.frame_verdict.specs.Questions.{IsEntered, IsStepRefuted};

use crate::early::judge_early;
use crate::framed::Framed;
use crate::judged::Judged;
use crate::shown::first_ended;
use call_form::Budget;
use cnf_form::Proof;
use frame_price::frame_price;
use frame_rounds::{FrameAnswered, decide_frame};
use frame_start::Segments;
use machine_law::Machine;
use notes_value::Notes;
use passify::passive_of_frame;
use question_form::{Asked, Passive, Unrolled};
use start_value::Start;
use std::alloc::{AllocError, Global};

/// The price of a frame from which on smaller bounds are tried first. Cheaper ones are unrolled once, for the whole bound.
const DEAR: u128 = 250_000;

/// What a question other than the entry's comes to that is due and true: the segment that shows it. The error is want of memory.
fn shows<M: Machine>(
    alloc: Global,
    framed: &Framed<M>,
    budget: &Budget,
    rank: usize,
    unrolled: &Unrolled,
    segments: &Segments,
    asked: Asked,
) -> Result<Judged, AllocError>
    requires ready { IsReady M.form framed.now budget.now rank unrolled.now }
    requires segments { AreSegments (frame_at framed.now rank) budget.now.unroll M.form (frame_question asked) unrolled.now segments.now }
    requires later { asked ≢ Asked.Entry }
    requires due { IsDue (frame_at framed.now rank) budget.now.unroll (frame_question asked) }
    ensures { IfOk result (IsJudged (whole_of_framed framed.now) rank M.form (budget_of budget.now)) }
{
    let ended = first_ended::<M>(alloc, framed, budget, rank, unrolled, segments, asked)?;
    Ok(Judged::Shows(ended))
}

/// What the last question comes to, where there is an entry state, and no segment fails. The question about head states was asked only where there is a head.
fn judge_turns<M: Machine>(
    alloc: Global,
    framed: &Framed<M>,
    budget: &Budget,
    rank: usize,
    passive: &Passive,
    start: Start,
    fail: Proof,
    step: Option<Proof>,
) -> Result<Judged, AllocError>
    requires ready { IsReady M.form framed.now budget.now rank passive.now.unrolled.now }
    requires askable { IsFrameAskable passive.now }
    requires entered { IsEntered (frame_at framed.now rank).program M.form (written_of start) }
    requires fail { Refutes (frame_at framed.now rank) budget.now.unroll FailQuestion (proof_of fail) }
    requires step { IsStepRefuted (frame_at framed.now rank) budget.now.unroll step }
    ensures { IfOk result (IsJudged (whole_of_framed framed.now) rank M.form (budget_of budget.now)) }
{
    match decide_frame(alloc, passive, Asked::Turn, budget.conflicts)? {
        FrameAnswered::Sat(segments) => shows::<M>(
            alloc,
            framed,
            budget,
            rank,
            passive.unrolled,
            &segments,
            Asked::Turn,
        ),
        FrameAnswered::Refuted(turn) => match step {
            None => Ok(Judged::Holds { start, fail, turn }),
            Some(step) => Ok(Judged::Partial {
                start,
                fail,
                step,
                turn,
            }),
        },
        FrameAnswered::Spent(proof) => Ok(Judged::Spent {
            question: Asked::Turn,
            proof,
        }),
    }
}

/// What the questions come to about head states, if there is a head, and about backward transfers, where there is an entry state, and no segment from one fails.
fn judge_heads<M: Machine>(
    alloc: Global,
    framed: &Framed<M>,
    budget: &Budget,
    rank: usize,
    passive: &Passive,
    start: Start,
    fail: Proof,
) -> Result<Judged, AllocError>
    requires ready { IsReady M.form framed.now budget.now rank passive.now.unrolled.now }
    requires askable { IsFrameAskable passive.now }
    requires entered { IsEntered (frame_at framed.now rank).program M.form (written_of start) }
    requires fail { Refutes (frame_at framed.now rank) budget.now.unroll FailQuestion (proof_of fail) }
    ensures { IfOk result (IsJudged (whole_of_framed framed.now) rank M.form (budget_of budget.now)) }
{
    if !passive.unrolled.heads {
        return judge_turns::<M>(alloc, framed, budget, rank, passive, start, fail, None);
    }
    match decide_frame(alloc, passive, Asked::Step, budget.conflicts)? {
        FrameAnswered::Sat(segments) => shows::<M>(
            alloc,
            framed,
            budget,
            rank,
            passive.unrolled,
            &segments,
            Asked::Step,
        ),
        FrameAnswered::Refuted(step) => {
            judge_turns::<M>(
                alloc,
                framed,
                budget,
                rank,
                passive,
                start,
                fail,
                Some(step),
            )
        }
        FrameAnswered::Spent(proof) => Ok(Judged::Spent {
            question: Asked::Step,
            proof,
        }),
    }
}

/// What the questions come to in their order.
fn judge<M: Machine>(
    alloc: Global,
    framed: &Framed<M>,
    budget: &Budget,
    rank: usize,
    passive: &Passive,
) -> Result<Judged, AllocError>
    requires ready { IsReady M.form framed.now budget.now rank passive.now.unrolled.now }
    requires askable { IsFrameAskable passive.now }
    ensures { IfOk result (IsJudged (whole_of_framed framed.now) rank M.form (budget_of budget.now)) }
{
    let entered = match decide_frame(alloc, passive, Asked::Entry, budget.conflicts)? {
        FrameAnswered::Sat(segments) => segments.parts.entry,
        FrameAnswered::Refuted(proof) => return Ok(Judged::Vacuous(proof)),
        FrameAnswered::Spent(proof) => {
            return Ok(Judged::Spent {
                question: Asked::Entry,
                proof,
            });
        }
    };
    match decide_frame(alloc, passive, Asked::Fail, budget.conflicts)? {
        FrameAnswered::Sat(segments) => shows::<M>(
            alloc,
            framed,
            budget,
            rank,
            passive.unrolled,
            &segments,
            Asked::Fail,
        ),
        FrameAnswered::Refuted(fail) => {
            judge_heads::<M>(alloc, framed, budget, rank, passive, entered, fail)
        }
        FrameAnswered::Spent(proof) => Ok(Judged::Spent {
            question: Asked::Fail,
            proof,
        }),
    }
}

/// What the questions of the unrolled frame of a rank come to, by smaller bounds on backward transfers where those settle them. The error is want of memory.
pub fn judge_frame<'a, M: Machine>(
    alloc: Global,
    framed: &Framed<'a, M>,
    notes: &'a Notes,
    budget: &Budget,
    rank: usize,
    unrolled: &Unrolled,
) -> Result<Judged, AllocError>
    requires notes { IsNotesAt framed.now rank (notes_of notes.now) }
    requires ready { IsReady M.form framed.now budget.now rank unrolled.now }
    ensures { IfOk result (IsJudged (whole_of_framed framed.now) rank M.form (budget_of budget.now)) }
{
    if frame_price(unrolled) >= DEAR {
        let early = judge_early::<M>(alloc, framed, notes, budget, rank, unrolled)?;
        if let Some(judged) = early {
            return Ok(judged);
        }
    }
    let passive = passive_of_frame(alloc, unrolled)?;
    let judged = judge::<M>(alloc, framed, budget, rank, &passive)?;
    Ok(judged)
}
