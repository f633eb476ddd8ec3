//! The questions of a frame of a program whose notes may have invariants or contracts, certified one by one.
ghost use Rattle.std.specs.Prelude.{◌≤◌, ℕ, All, IfOk, length, map};
ghost use Rattle.program_value.specs.Programs.{program_of};
ghost use Rattle.call_form.specs.Views.{budget_of};
ghost use Rattle.call_spec.specs.Calls as answers;
ghost use Rattle.frame_spec.specs.FrameQuestions.{Question};
ghost use Rattle.frame_spec.specs.FrameReports.{IsWithin};
ghost use Rattle.frame_spec.specs.FrameVerdict.{Whole, frame_of};
ghost use Rattle.machine_spec.specs.Machine.{IsAtPlace};
ghost use Rattle.machine_spec.specs.StateText.{Layout};
ghost use Rattle.notes_value.specs.FrameViews.{contract_of};
ghost use Rattle.question_form.specs.Asked.{frame_question};
ghost use Rattle.question_form.specs.declared.unrolled.Unrolled.{Unrolled as UnrolledFrame};
ghost use Rattle.frame_rounds.specs.FrameGrounds.{AnswersFrame, IsFrameGround};
ghost use Rattle.frame_verdict.specs.FrameCertificates.{IsFrameCertificate};
ghost use Rattle.frame_verdict.specs.FrameFunctions.{IsCallable};
ghost use Rattle.frame_verdict.specs.FrameMeasures.{IsFrameMeasurable, IsFrameUnrolled};

use crate::framed::Framed;
use crate::measuring::{Weighed, measure};
use crate::ranks::notes_of_contracts;
use call_form::Budget;
use frame_rounds::{FrameAnswered, decide_frame};
use machine_law::Machine;
use notes_value::Contract;
use passify::passive_of_frame;
use program_value::Program;
use question_form::{Asked, Unrolled};
use std::alloc::{AllocError, Global};
use verdict::Certified;

/// What the answer to a question of the frame of a rank within the budgets certifies.
fn certified(answered: FrameAnswered) -> Certified
    ensures { (w : Whole) (rank : ℕ) (layout : Layout) (b : answers.Budget) (question : Question) (u : UnrolledFrame) → IsWithin w b →
        IsFrameGround (frame_of w rank) w.contracts b.unroll layout u → AnswersFrame u question b.conflicts answered →
        IsFrameCertificate w rank b question result }
{
    match answered {
        FrameAnswered::Sat(_) => Certified::Satisfiable,
        FrameAnswered::Refuted(proof) => Certified::Refuted(proof),
        FrameAnswered::Spent(proof) => Certified::Conflicts(proof),
    }
}

/// What a question of an unrolled frame comes to, where all frames are within the budgets.
fn certify_unrolled(
    alloc: Global,
    budget: &Budget,
    question: Asked,
    unrolled: &Unrolled,
) -> Result<Certified, AllocError>
    requires measurable { IsFrameMeasurable unrolled.now }
    ensures { (w : Whole) (rank : ℕ) (layout : Layout) → IsWithin w (budget_of budget.now) →
        IsFrameUnrolled (frame_of w rank) w.contracts budget.now.unroll layout unrolled.now →
        IfOk result (IsFrameCertificate w rank (budget_of budget.now) (frame_question question)) }
{
    let passive = passive_of_frame(alloc, unrolled)?;
    let answered = decide_frame(alloc, &passive, question, budget.conflicts)?;
    Ok(certified(answered))
}

/// What a question of a frame of a program comes to, at whose function's address a row can stand, within the budgets, whether it is due or not. `invariants` are the rising numbers of those assert lines of its notes that are invariants, `contracts` those of the notes in the order of their ranks;
/// the frame is that of the contract of a rank, or with as many as there are contracts for its rank the function's own. The budgets are over all frames. Where
/// there are no heads, the question about head states is true of nothing.
///
/// # Errors
///
/// Want of memory; a price of 2^128 - 1 or more counts as that.
pub fn certify_frame<'a, M: Machine>(
    alloc: Global,
    program: &Program<'a, M>,
    invariants: &'a [u32],
    contracts: &'a [Contract],
    rank: usize,
    budget: &Budget,
    question: Asked,
) -> Result<Certified, AllocError>
    requires place { IsAtPlace M.machine.narrow program.now.entry }
    requires callable { All (λ x. IsCallable M.machine (contract_of x)) contracts.now }
    requires rank { rank ≤ length contracts.now }
    ensures { IfOk result (IsFrameCertificate (record {
      program = program_of program.now;
      invariants = invariants.now;
      contracts = map contract_of contracts.now;
    }) rank (budget_of budget.now) (frame_question question)) }
{
    let framed = Framed {
        program: *program,
        invariants,
        contracts,
    };
    let notes = notes_of_contracts::<M>(alloc, &framed)?;
    let weighed = measure::<M>(alloc, &framed, &notes, budget)?;
    match weighed {
        Weighed::Exceeded(past) => Ok(Certified::Exceeded(past)),
        Weighed::Within(frames) => {
            let certified = certify_unrolled(alloc, budget, question, frames.of_rank(rank))?;
            Ok(certified)
        }
    }
}
