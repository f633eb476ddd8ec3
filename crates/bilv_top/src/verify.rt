//! The answer that verifies.
ghost use Rattle.std.specs.Prelude.{IfOk};
ghost use Rattle.std.specs.List.Sorted.{IsStrictlyIncreasing};
ghost use Rattle.answer_spec.specs.FrameAnswers.{IsVerifiedWhole};
ghost use Rattle.program_value.specs.Programs.{program_of};
ghost use Rattle.bilv_top.specs.Answers.{answer_of};
ghost use Rattle.bilv_top.specs.Frames.{AreContractsOn, AreFitted, whole_with};
ghost use Rattle.command_line.specs.Commands.{budget_of};
ghost use Rattle.machine_spec.specs.Machine.{IsAtPlace};

use crate::answer::Answer;
use crate::frame_reports::frame_report;
use crate::framed::Framed;
use crate::plain::as_due;
use command_line::Budget;
use frame_verdict::verify_frame;
use machine_law::Machine;
use program_value::Program;
use std::alloc::{AllocError, Global};

/// The report on a function of a machine, whose notes may have invariants or contracts. The error is want of memory.
pub fn report_frames_by<M: Machine>(
    alloc: Global,
    program: &Program<M>,
    framed: &Framed,
    budget: Budget,
) -> Result<Answer, AllocError>
    requires place { IsAtPlace M.machine.narrow program.now.entry }
    requires rising { IsStrictlyIncreasing framed.now.invariants.items }
    requires contracts { AreContractsOn M.machine framed.now.contracts.items }
    requires fitted { AreFitted (whole_with (program_of program.now) framed.now) }
    ensures { IfOk result (λ a. IsVerifiedWhole M.form (budget_of budget) (whole_with (program_of program.now) framed.now) (answer_of a)) }
{
    let invariants = framed.invariants.as_slice();
    let contracts = framed.contracts.as_slice();
    let verdict = verify_frame::<M>(alloc, program, invariants, contracts, &budget)?;
    let answer = frame_report(alloc, M::layout(), contracts, budget, verdict)?;
    Ok(as_due(framed, answer))
}
