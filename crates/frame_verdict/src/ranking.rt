//! The verdict on a program whose notes have invariants or contracts.
ghost use Rattle.std.specs.Prelude.{◌≡◌, ◌≢◌, ◌<◌, [], All, IfOk, length, map};
ghost use Rattle.std.specs.List.Sorted.{IsStrictlyIncreasing};
ghost use Rattle.program_value.specs.Programs.{program_of};
ghost use Rattle.call_form.specs.Views.{budget_of};
ghost use Rattle.frame_spec.specs.FrameReports.{IsRightReport, IsWithin, PassBelow, last_rank};
ghost use Rattle.frame_spec.specs.FrameVerdict.{Whole};
ghost use Rattle.machine_spec.specs.Machine.{IsAtPlace};
ghost use Rattle.machine_spec.specs.StateText.{Layout};
ghost use Rattle.notes_value.specs.FrameViews.{contract_of};
ghost use Rattle.notes_value.specs.NoteViews.{notes_of};
ghost use Rattle.call_form.specs.declared.budget.Budget.{Budget as Budgets};
ghost use Rattle.frame_verdict.specs.FrameFunctions.{AreNotesTo, CanRun, IsCallable, IsNotesAt, IsReady, whole_of_framed};
ghost use Rattle.frame_verdict.specs.FrameMeasures.{AreAllUnrolled, AreUnrolledTo};
ghost use Rattle.frame_verdict.specs.FrameVerdicts.{IsFrameVerdict, evidence_of, report_of};
ghost use Rattle.frame_verdict.specs.JudgedFrames.{ArePassed, ArePassedTo, IsJudged, IsPassing};

use crate::framed::Framed;
use crate::judged::{Ended, Judged};
use crate::measuring::{Frames, Weighed, measure};
use crate::ranks::notes_of_contracts;
use crate::segments::Shown;
use crate::verifying::judge_frame;
use crate::{FrameVerdict, Named, Passed};
use call_form::Budget;
use machine_law::Machine;
use notes_value::{Contract, Notes};
use program_value::Program;
use question_form::Unrolled;
use std::alloc::{AllocError, Global};

/// What the frame of a contract comes to.
#[derive(Drop)]
enum Passing {
    /// It passes.
    Passes(Passed),
    /// The verdict by it.
    Ends(FrameVerdict),
}

/// What the frames of all contracts come to.
#[derive(Drop)]
enum AllPassing {
    /// They pass.
    Pass(Vec<Passed>),
    /// The verdict by the first that does not.
    End(FrameVerdict),
}

/// What the frame of the contract of a rank comes to, where those of lower ranks pass; it has no head.
fn pass_or_end(rank: usize, judged: Judged) -> Passing
    ensures { (w : Whole) (layout : Layout) (b : Budgets) → w.invariants ≡ [] → rank < length w.contracts → IsWithin w (budget_of b) → PassBelow w b.unroll rank →
        IsJudged w rank layout (budget_of b) judged → IsPassing w rank layout b result }
{
    match judged {
        Judged::Holds { start, fail, turn } => {
            Passing::Passes(Passed::Refutations { start, fail, turn })
        }
        Judged::Partial {
            start,
            fail,
            turn,
            ..
        } => Passing::Passes(Passed::Refutations { start, fail, turn }),
        Judged::Vacuous(proof) => Passing::Passes(Passed::EntryRefuted(proof)),
        Judged::Shows(ended) => Passing::Ends(FrameVerdict::Unproved {
            rank,
            ending: ended.ending,
            start: ended.shown.start,
            calls: ended.shown.calls,
        }),
        Judged::Spent { question, proof } => Passing::Ends(FrameVerdict::Conflicts {
            rank,
            question,
            proof,
        }),
    }
}

/// What the unrolled frame of the contract of a rank comes to, by its notes, where those of lower ranks pass. The error is want of memory.
fn judge_contract<'a, M: Machine>(
    alloc: Global,
    framed: &Framed<'a, M>,
    notes: &'a Notes,
    budget: &Budget,
    rank: usize,
    unrolled: &Unrolled,
) -> Result<Passing, AllocError>
    requires rank { rank < length framed.now.contracts.now }
    requires notes { IsNotesAt framed.now rank (notes_of notes.now) }
    requires ready { IsReady M.form framed.now budget.now rank unrolled.now }
    requires below { PassBelow (whole_of_framed framed.now) budget.now.unroll rank }
    ensures { IfOk result (IsPassing (whole_of_framed framed.now) rank M.form budget.now) }
{
    let judged = judge_frame::<M>(alloc, framed, notes, budget, rank, unrolled)?;
    Ok(pass_or_end(rank, judged))
}

/// What the unrolled frames of all contracts come to, by their notes, in the order of their ranks up to the first that does not pass. The error is want of memory.
fn judge_contracts<'a, M: Machine>(
    alloc: Global,
    framed: &Framed<'a, M>,
    notes: &'a [Notes],
    budget: &Budget,
    frames: &[Unrolled],
) -> Result<AllPassing, AllocError>
    requires runs { CanRun framed.now }
    requires notes { AreNotesTo framed.now (length framed.now.contracts.now) notes.now }
    requires within { IsWithin (whole_of_framed framed.now) (budget_of budget.now) }
    requires frames { AreUnrolledTo (whole_of_framed framed.now) budget.now.unroll (length framed.now.contracts.now) M.form frames.now }
    ensures { IfOk result (ArePassed (whole_of_framed framed.now) M.form budget.now) }
{
    let mut passed = Vec::new(alloc);
    for rank in 0..framed.contracts.len() {
        match judge_contract::<M>(alloc, framed, &notes[rank], budget, rank, &frames[rank])? {
            Passing::Passes(one) => passed.push(one)?,
            Passing::Ends(verdict) => return Ok(AllPassing::End(verdict)),
        }
    }
    Ok(AllPassing::Pass(passed))
}

/// The verdict by a segment of the function's own frame, where the frames of the contracts pass.
fn shown_verdict(rank: usize, ended: Ended) -> FrameVerdict
    ensures { (w : Whole) (layout : Layout) (b : Budgets) → rank ≡ last_rank w → (w.contracts ≢ [] → w.invariants ≡ []) → IsWithin w (budget_of b) →
        PassBelow w b.unroll rank → IsJudged w rank layout (budget_of b) (Judged.Shows ended) → IsFrameVerdict w layout b result }
{
    let Ended {
        shown,
        called,
        ending,
    } = ended;
    let Shown { start, head, calls } = shown;
    if called {
        return FrameVerdict::Unproved {
            rank,
            ending,
            start,
            calls,
        };
    }
    match ending {
        Named::Turned { at, step } => FrameVerdict::Unroll {
            at,
            step,
            start,
            head,
        },
        Named::Failed { event, at, step } => match head {
            None => FrameVerdict::Fails {
                event,
                at,
                step,
                start,
            },
            Some(head) => FrameVerdict::NotInductive {
                event,
                at,
                step,
                start,
                head,
            },
        },
    }
}

/// The verdict by the function's own frame, whose rank this is, where the frames of the contracts pass. The error is want of memory.
fn last_verdict(
    rank: usize,
    passed: Vec<Passed>,
    judged: Judged,
) -> Result<FrameVerdict, AllocError>
    ensures { (w : Whole) (layout : Layout) (b : Budgets) → rank ≡ last_rank w → (w.contracts ≢ [] → w.invariants ≡ []) → IsWithin w (budget_of b) →
        ArePassedTo w layout b.unroll rank passed.items → IsJudged w rank layout (budget_of b) judged → IfOk result (IsFrameVerdict w layout b) }
{
    match judged {
        Judged::Holds { start, fail, turn } => {
            if rank == 0 {
                return Ok(FrameVerdict::Holds { start, fail, turn });
            }
            let mut all = passed;
            all.push(Passed::Refutations { start, fail, turn })?;
            Ok(FrameVerdict::ByFrames(all))
        }
        Judged::Partial {
            start,
            fail,
            step,
            turn,
        } => Ok(FrameVerdict::Partial {
            start,
            fail,
            step,
            turn,
        }),
        Judged::Vacuous(proof) => Ok(FrameVerdict::Vacuous(proof)),
        Judged::Shows(ended) => Ok(shown_verdict(rank, ended)),
        Judged::Spent { question, proof } => Ok(FrameVerdict::Conflicts {
            rank,
            question,
            proof,
        }),
    }
}

/// The verdict where all frames are within the budgets, by the frames, unrolled, and the notes of those of contracts. The error is want of memory.
fn verdict_within<'a, M: Machine>(
    alloc: Global,
    framed: &Framed<'a, M>,
    notes: &'a [Notes],
    budget: &Budget,
    frames: &Frames,
) -> Result<FrameVerdict, AllocError>
    requires runs { CanRun framed.now }
    requires notes { AreNotesTo framed.now (length framed.now.contracts.now) notes.now }
    requires within { IsWithin (whole_of_framed framed.now) (budget_of budget.now) }
    requires frames { AreAllUnrolled (whole_of_framed framed.now) budget.now.unroll M.form frames.now }
    ensures { IfOk result (IsFrameVerdict (whole_of_framed framed.now) M.form budget.now) }
{
    let passed = match judge_contracts::<M>(alloc, framed, notes, budget, &frames.contracts)? {
        AllPassing::Pass(passed) => passed,
        AllPassing::End(verdict) => return Ok(verdict),
    };
    let last = framed.contracts.len();
    let own = framed.program.notes;
    let judged = judge_frame::<M>(alloc, framed, own, budget, last, &frames.own)?;
    let verdict = last_verdict(last, passed, judged)?;
    Ok(verdict)
}

/// The verdict on a program, at whose function's address a row can stand, within the budgets, with what shows it. `invariants` are the
/// rising numbers of those assert lines of its notes that are invariants: their addresses are the heads at which runs are cut. `contracts` are those of the notes,
/// in the order of their ranks; each has a frame, whose calls step over the contracts of lower ranks, and the function's own frame steps over all of them. First
/// comes that all frames have more points than the budget, then that their price is above the budget, then the frames in the order of their ranks up to the first
/// that does not pass, each by its questions in their order: whether there is an entry state; whether a segment from one fails; where there is a head, whether one
/// from a head state fails; and whether one makes too many backward transfers.
///
/// # Errors
///
/// Want of memory; a price of 2^128 - 1 or more counts as that.
pub fn verify_frame<'a, M: Machine>(
    alloc: Global,
    program: &Program<'a, M>,
    invariants: &'a [u32],
    contracts: &'a [Contract],
    budget: &Budget,
) -> Result<FrameVerdict, AllocError>
    requires rising { IsStrictlyIncreasing invariants.now }
    requires place { IsAtPlace M.machine.narrow program.now.entry }
    requires callable { All (λ x. IsCallable M.machine (contract_of x)) contracts.now }
    requires alone { contracts.now ≢ [] → invariants.now ≡ [] }
    ensures { IfOk result (λ v. IsRightReport (record {
      program = program_of program.now;
      invariants = invariants.now;
      contracts = map contract_of contracts.now;
    }) M.form (budget_of budget.now) (report_of v) (evidence_of v)) }
{
    let framed = Framed {
        program: *program,
        invariants,
        contracts,
    };
    let notes = notes_of_contracts::<M>(alloc, &framed)?;
    let weighed = measure::<M>(alloc, &framed, &notes, budget)?;
    match weighed {
        Weighed::Exceeded(past) => Ok(FrameVerdict::Exceeded(past)),
        Weighed::Within(frames) => {
            let verdict = verdict_within::<M>(alloc, &framed, &notes, budget, &frames)?;
            Ok(verdict)
        }
    }
}
