//! The scripts of the questions of a frame of a program whose notes may have invariants or contracts, for another solver.
ghost use Rattle.std.specs.Prelude.{◌≤◌, ℕ, All, IfOk, length, map, string_bytes};
ghost use Rattle.program_value.specs.Programs.{program_of};
ghost use Rattle.call_form.specs.Views.{budget_of};
ghost use Rattle.frame_spec.specs.FrameReports.{IsWithin};
ghost use Rattle.frame_spec.specs.FrameVerdict.{Whole, frame_of};
ghost use Rattle.frame_terms.specs.PassiveFrames.{IsPassive, IsWalkable};
ghost use Rattle.known_bytes.specs.Runs.{AreRuns};
ghost use Rattle.machine_spec.specs.Machine.{IsAtPlace};
ghost use Rattle.machine_spec.specs.StateText.{Layout};
ghost use Rattle.notes_value.specs.FrameViews.{contract_of};
ghost use Rattle.question_form.specs.Asked as questions;
ghost use Rattle.question_form.specs.FrameQuestions.{frame_passive_of};
ghost use Rattle.question_form.specs.FrameViews.{frame_unrolled_of};
ghost use Rattle.smtlib_print.specs.FrameTold.{TellsFrameScript};
ghost use Rattle.smtlib_print.specs.Numbered.{AreOnce};
ghost use Rattle.start_value.specs.Starts.{layout_of};
ghost use Rattle.frame_verdict.specs.FrameFunctions.{IsCallable};
ghost use Rattle.frame_verdict.specs.FrameMeasures.{IsFrameMeasurable, IsFrameUnrolled};
ghost use Rattle.frame_verdict.specs.FrameScripted.{IsFrameScripted};

use crate::framed::Framed;
use crate::measuring::{Weighed, measure};
use crate::ranks::notes_of_contracts;
use call_form::Budget;
use machine_law::Machine;
use notes_value::Contract;
use passify::passive_of_frame;
use program_value::Program;
use question_form::{Asked, Passive, Unrolled};
use smtlib_print::frame_script;
use std::alloc::{AllocError, Global};
use verdict::Scripted;
use weakest_pre::frame_question;

/// The script of a question of a passive program of a frame, in SMT-LIB 2.6. The error is want of memory, or of numbers for terms and points.
fn script_passive(alloc: Global, question: Asked, passive: &Passive) -> Result<String, AllocError>
    requires walkable { IsWalkable (frame_unrolled_of passive.now.unrolled.now) }
    requires passive { IsPassive (frame_unrolled_of passive.now.unrolled.now) passive.now.unrolled.now.heads (frame_passive_of passive.now) }
    requires runs { AreRuns passive.now.unrolled.now.known.items }
    requires once { AreOnce (map (λ q. q.point) (frame_unrolled_of passive.now.unrolled.now).points) }
    ensures { IfOk result (λ text. TellsFrameScript (frame_unrolled_of passive.now.unrolled.now) passive.now.unrolled.now.heads
        (layout_of passive.now.unrolled.now.form) (questions.frame_question question) (string_bytes text)) }
{
    let asked = frame_question(alloc, passive, question)?;
    let text = frame_script(alloc, &asked)?;
    Ok(text)
}

/// The script of a question of an unrolled frame, where all frames are within the budgets.
fn script_unrolled(
    alloc: Global,
    budget: &Budget,
    question: Asked,
    unrolled: &Unrolled,
) -> Result<Scripted, AllocError>
    requires measurable { IsFrameMeasurable unrolled.now }
    requires once { AreOnce (map (λ q. q.point) (frame_unrolled_of unrolled.now).points) }
    ensures { (w : Whole) (rank : ℕ) (layout : Layout) → IsWithin w (budget_of budget.now) →
        IsFrameUnrolled (frame_of w rank) w.contracts budget.now.unroll layout unrolled.now →
        IfOk result (IsFrameScripted w rank layout (budget_of budget.now) (questions.frame_question question)) }
{
    let passive = passive_of_frame(alloc, unrolled)?;
    let text = script_passive(alloc, question, &passive)?;
    Ok(Scripted::Script(text))
}

/// The script of a question about a frame of the function at an address of an image, at which a row can stand, by its notes and within the budgets, in SMT-LIB
/// 2.6, whether the question is due or not. `invariants` are the rising numbers of those assert lines of its notes that are invariants, `contracts` those of the
/// notes in the order of their ranks; the frame is that of the contract of a rank, or with as many as there are contracts for its rank the function's own. The
/// budgets are over all frames. Where there is a head, the script declares the head state too, whatever the question is.
///
/// # Errors
///
/// Want of memory, which a price of 2^128 - 1 or more counts as, and so does want of numbers: there are 2^32 - 1 for terms.
pub fn script_frame<'a, M: Machine>(
    alloc: Global,
    program: &Program<'a, M>,
    invariants: &'a [u32],
    contracts: &'a [Contract],
    rank: usize,
    budget: &Budget,
    question: Asked,
) -> Result<Scripted, AllocError>
    requires place { IsAtPlace M.machine.narrow program.now.entry }
    requires callable { All (λ x. IsCallable M.machine (contract_of x)) contracts.now }
    requires rank { rank ≤ length contracts.now }
    ensures { IfOk result (IsFrameScripted (record {
      program = program_of program.now;
      invariants = invariants.now;
      contracts = map contract_of contracts.now;
    }) rank M.form (budget_of budget.now) (questions.frame_question question)) }
{
    let framed = Framed {
        program: *program,
        invariants,
        contracts,
    };
    let notes = notes_of_contracts::<M>(alloc, &framed)?;
    let weighed = measure::<M>(alloc, &framed, &notes, budget)?;
    match weighed {
        Weighed::Exceeded(past) => Ok(Scripted::Exceeded(past)),
        Weighed::Within(frames) => {
            let scripted = script_unrolled(alloc, budget, question, frames.of_rank(rank))?;
            Ok(scripted)
        }
    }
}
