//! What the questions of a frame come to by smaller bounds on backward transfers than the budget's. Where no segment makes more than such a bound, they are settled
//! by it.
ghost use Rattle.std.specs.Prelude.{◌≤◌, IfOk, IfSome};
ghost use Rattle.call_form.specs.Views.{budget_of};
ghost use Rattle.notes_value.specs.NoteViews.{notes_of};
ghost use Rattle.frame_start.specs.Segments.{IsFrameAskable};
ghost use Rattle.frame_verdict.specs.FewerTurns.{IsEarly, IsSmaller};
ghost use Rattle.frame_verdict.specs.FrameFunctions.{CanShow, IsNotesAt, IsReady, contracts_of, frame_at, whole_of_framed};
ghost use Rattle.frame_verdict.specs.JudgedFrames.{IsJudged};

use crate::framed::Framed;
use crate::inputs::free_inputs;
use crate::judged::Judged;
use crate::ranks::unroll_rank;
use crate::shown::first_ended;
use crate::smaller::{NoTurns, ask_entry, ask_turns};
use call_form::Budget;
use machine_law::Machine;
use notes_value::Notes;
use passify::passive_of_frame;
use program_points::PointsFault;
use question_form::{Asked, Passive, Unrolled};
use std::alloc::{AllocError, Global};

/// What the questions within a smaller bound come to.
#[derive(Drop)]
enum Early {
    /// What those within the budget's bound come to.
    Settled(Judged),
    /// Some segment makes more backward transfers than the smaller bound, or begins at a head that only more of them reach.
    More,
    /// The smaller bound does not settle them, and no greater one below the budget's is tried.
    Open,
}

/// What the questions within a smaller bound come to, by its passive program. The error is want of memory.
fn judge_passive<M: Machine>(
    alloc: Global,
    framed: &Framed<M>,
    budget: &Budget,
    smaller: &Budget,
    rank: usize,
    whole: &Unrolled,
    passive: &Passive,
) -> Result<Early, AllocError>
    requires shows { CanShow M.form framed.now smaller.now rank passive.now.unrolled.now }
    requires smaller { IsSmaller (frame_at framed.now rank) (contracts_of framed.now) smaller.now.unroll budget.now.unroll M.form whole.now
        passive.now.unrolled.now }
    requires askable { IsFrameAskable passive.now }
    ensures { IfOk result (IsEarly (whole_of_framed framed.now) rank M.form (budget_of budget.now)) }
{
    let inputs = free_inputs(whole);
    let asked = ask_turns(alloc, passive, budget.conflicts, inputs)?;
    match asked {
        NoTurns::Refuted { fail, step, turn } => {
            let judged = ask_entry(alloc, passive, budget.conflicts, inputs, fail, step, turn)?;
            match judged {
                Some(judged) => Ok(Early::Settled(judged)),
                None => Ok(Early::Open),
            }
        }
        NoTurns::Fails(segments) => {
            let ended = first_ended::<M>(
                alloc,
                framed,
                smaller,
                rank,
                passive.unrolled,
                &segments,
                Asked::Fail,
            )?;
            Ok(Early::Settled(Judged::Shows(ended)))
        }
        NoTurns::More => Ok(Early::More),
        NoTurns::Open => Ok(Early::Open),
    }
}

/// What the questions within a smaller bound come to, by its unrolled frame. The error is want of memory.
fn judge_smaller<M: Machine>(
    alloc: Global,
    framed: &Framed<M>,
    budget: &Budget,
    smaller: &Budget,
    rank: usize,
    whole: &Unrolled,
    unrolled: &Unrolled,
) -> Result<Early, AllocError>
    requires shows { CanShow M.form framed.now smaller.now rank unrolled.now }
    requires smaller { IsSmaller (frame_at framed.now rank) (contracts_of framed.now) smaller.now.unroll budget.now.unroll M.form whole.now unrolled.now }
    ensures { IfOk result (IsEarly (whole_of_framed framed.now) rank M.form (budget_of budget.now)) }
{
    let passive = passive_of_frame(alloc, unrolled)?;
    let early = judge_passive::<M>(alloc, framed, budget, smaller, rank, whole, &passive)?;
    Ok(early)
}

/// What the questions for so many backward transfers come to, if they have the roots of the whole unrolled frame. The error is want of memory.
fn judge_within<'a, M: Machine>(
    alloc: Global,
    framed: &Framed<'a, M>,
    notes: &'a Notes,
    budget: &Budget,
    rank: usize,
    whole: &Unrolled,
    turns: u64,
) -> Result<Early, AllocError>
    requires notes { IsNotesAt framed.now rank (notes_of notes.now) }
    requires ready { IsReady M.form framed.now budget.now rank whole.now }
    requires turns { turns ≤ budget.now.unroll }
    ensures { IfOk result (IsEarly (whole_of_framed framed.now) rank M.form (budget_of budget.now)) }
{
    let smaller = budget.with_unroll(turns);
    match unroll_rank::<M>(alloc, framed, notes, rank, smaller.unroll, smaller.points) {
        Ok(unrolled) => {
            let roots = unrolled.roots.len();
            let all = whole.roots.len();
            if roots != all {
                return Ok(Early::More);
            }
            let early = judge_smaller::<M>(
                alloc, framed, budget, &smaller, rank, whole, &unrolled,
            )?;
            Ok(early)
        }
        Err(PointsFault::TooMany { .. }) => Ok(Early::Open),
        Err(PointsFault::Memory) => Err(AllocError),
    }
}

/// The most backward transfers that a point of an unrolled frame is behind. For so many and more of them it has the same points.
fn most_turns(unrolled: &Unrolled) -> u64 {
    let mut most = 0;
    for point in &unrolled.points {
        most = most.max(point.turns as u64);
    }
    most
}

/// What the questions of the frame of a rank come to by those for 1, 2, 4 and more backward transfers, as far as those have other points than the whole unrolled
/// frame: the first bound that no segment exceeds settles them. There is none where some segment exceeds each of those bounds, where one from a head state fails,
/// or where a question spends its conflicts. The error is want of memory.
pub fn judge_early<'a, M: Machine>(
    alloc: Global,
    framed: &Framed<'a, M>,
    notes: &'a Notes,
    budget: &Budget,
    rank: usize,
    whole: &Unrolled,
) -> Result<Option<Judged>, AllocError>
    requires notes { IsNotesAt framed.now rank (notes_of notes.now) }
    requires ready { IsReady M.form framed.now budget.now rank whole.now }
    ensures { IfOk result (λ o. IfSome o (IsJudged (whole_of_framed framed.now) rank M.form (budget_of budget.now))) }
{
    let most = most_turns(whole).min(budget.unroll);
    let mut turns: u64 = 1;
    while turns < most {
        match judge_within::<M>(alloc, framed, notes, budget, rank, whole, turns)? {
            Early::Settled(judged) => return Ok(Some(judged)),
            Early::More => turns *= 2,
            Early::Open => return Ok(None),
        }
    }
    Ok(None)
}
