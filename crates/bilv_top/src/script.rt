//! The answer that prints the script of a question.
ghost use Rattle.std.specs.Prelude.{◌≡◌, ◌≤◌, ℕ, string_bytes, IfOk, length};
ghost use Rattle.std.specs.List.Sorted.{IsStrictlyIncreasing};
ghost use Rattle.call_spec.specs.Calls.{plain_answer};
ghost use Rattle.machine_spec.specs.StateText as texts;
ghost use Rattle.program_value.specs.Programs.{program_of};
ghost use Rattle.bilv_top.specs.Answers.{answer_of};
ghost use Rattle.bilv_top.specs.Frames.{AreContractsOn, AreFitted, IsScriptAt, whole_with};
ghost use Rattle.call_form.specs.Views.{frame_question};
ghost use Rattle.command_line.specs.Commands.{budget_of};
ghost use Rattle.frame_spec.specs.FrameScripts.{IsFrameScriptAnswer};
ghost use Rattle.frame_spec.specs.FrameQuestions.{Question as FrameQuestion};
ghost use Rattle.frame_spec.specs.FrameVerdict.{Whole};
ghost use Rattle.frame_verdict.specs.FrameScripted.{IsFrameScripted};
ghost use Rattle.machine_spec.specs.Machine.{IsAtPlace};

use crate::answer::{Answer, Evidence};
use crate::framed::Framed;
use crate::reports::beyond;
use command_line::{Asked, Budget};
use exit_status::DONE;
use frame_verdict::script_frame;
use machine_law::Machine;
use program_value::Program;
use std::alloc::{AllocError, Global};
use verdict::Scripted;

/// The answer that prints a script.
fn printed(text: String) -> Answer
    ensures { answer_of result ≡ plain_answer 0 (string_bytes text) }
{
    Answer {
        status: DONE,
        text: text.into_bytes(),
        evidence: Evidence::None,
    }
}

/// The answer to what the script of a question of the frame of a rank comes to within budgets. The error is want of memory.
fn say_frame(alloc: Global, budget: Budget, scripted: Scripted) -> Result<Answer, AllocError>
    ensures { IfOk result (λ a. (w : Whole) (rank : ℕ) (layout : texts.Layout) (question : FrameQuestion) →
        IsFrameScripted w rank layout (budget_of budget) question scripted →
        IsFrameScriptAnswer w rank layout (budget_of budget) question (answer_of a)) }
{
    match scripted {
        Scripted::Exceeded(past) => beyond(alloc, budget, past),
        Scripted::Script(text) => Ok(printed(text)),
    }
}

/// The answer that prints the script of a question about the frame of a rank of a function of a machine whose notes may have invariants or contracts. The error is
/// want of memory.
pub fn script_frames_by<M: Machine>(
    alloc: Global,
    program: &Program<M>,
    framed: &Framed,
    budget: Budget,
    question: Asked,
    rank: usize,
) -> Result<Answer, AllocError>
    requires place { IsAtPlace M.machine.narrow program.now.entry }
    requires rising { IsStrictlyIncreasing framed.now.invariants.items }
    requires contracts { AreContractsOn M.machine framed.now.contracts.items }
    requires fitted { AreFitted (whole_with (program_of program.now) framed.now) }
    requires rank { rank ≤ length framed.now.contracts.items }
    ensures { IfOk result (λ a. IsScriptAt (whole_with (program_of program.now) framed.now) rank M.form (budget_of budget) (frame_question question)
        (answer_of a)) }
{
    let invariants = framed.invariants.as_slice();
    let contracts = framed.contracts.as_slice();
    let scripted = script_frame::<M>(
        alloc, program, invariants, contracts, rank, &budget, question,
    )?;
    say_frame(alloc, budget, scripted)
}
