//! The answers of reports.
ghost use Rattle.std.specs.Prelude.{◌≡◌, IfOk};
ghost use Rattle.call_spec.specs.Calls as answers;
ghost use Rattle.bilv_spec.specs.Answers.{budget_text, report_answer};
ghost use Rattle.machine_spec.specs.StateText.{printed};
ghost use Rattle.command_line.specs.Commands.{budget_of};
ghost use Rattle.start_value.specs.Starts.{layout_of, written_of};
ghost use Rattle.state_text.specs.Starts.{named_of};
ghost use Rattle.verdict.specs.Verdicts as verdicts;
ghost use Rattle.verdict.specs.Verdicts.{report_of};
ghost use Rattle.bilv_top.specs.Answers.{answer_of, evidence_of, exceeded_answer};

use crate::answer::{Answer, Evidence};
use crate::texts::budget_line;
use command_line::Budget;
use exit_status::{DONE, FAILS, UNKNOWN};
use start_value::{Layout, Start};
use state_text::{NamedEnding, StateText, print_state};
use std::alloc::{AllocError, Global};
use verdict::{Exceeded, Verdict};

/// The report that a budget of so much does not suffice, with what shows it. The error is want of memory.
pub fn exceeded(
    alloc: Global,
    budget: &[u8],
    number: u64,
    evidence: Evidence,
) -> Result<Answer, AllocError>
    ensures { IfOk result (λ a. answer_of a ≡ record { status = 3; text = budget_text budget.now number; evidence = evidence_of evidence }) }
{
    let text = budget_line(alloc, budget, number)?;
    Ok(Answer {
        status: UNKNOWN,
        text,
        evidence,
    })
}

/// The report that there are more points than the budget, or that the price is above it. The error is out of memory.
pub fn beyond(alloc: Global, budget: Budget, past: Exceeded) -> Result<Answer, AllocError>
    ensures { IfOk result (λ a. answer_of a ≡ exceeded_answer (budget_of budget) past) }
{
    match past {
        Exceeded::Points { count } => {
            let found = Evidence::Count(count as u128);
            exceeded(alloc, b"points", budget.points, found)
        }
        Exceeded::Size { price } => exceeded(alloc, b"size", budget.size, Evidence::Count(price)),
    }
}

/// The report of a verdict on all runs. The error is want of memory.
pub fn judged(alloc: Global, text: &[u8], evidence: Evidence) -> Result<Answer, AllocError>
    ensures { IfOk result (λ a. answer_of a ≡ record { status = 0; text = text.now; evidence = evidence_of evidence }) }
{
    let text = text.to_vec(alloc)?;
    Ok(Answer {
        status: DONE,
        text,
        evidence,
    })
}

/// The report of the end of the run from a start, which it shows in the form of its machine. The error is want of memory.
fn shown(
    alloc: Global,
    form: Layout,
    status: u8,
    named: NamedEnding,
    start: Start,
) -> Result<Answer, AllocError>
    ensures { IfOk result (λ a. answer_of a ≡ record {
      status = status;
      text = printed (layout_of form) (record { named = named_of named; start = written_of start });
      evidence = answers.RunOf (written_of start);
    }) }
{
    let state = StateText { named, start };
    let text = print_state(alloc, &state, form)?;
    Ok(Answer {
        status,
        text,
        evidence: Evidence::RunOf(state.start),
    })
}

/// The report of a verdict within budgets, on a program of a machine of this form. The error is want of memory.
pub fn report(
    alloc: Global,
    form: Layout,
    budget: Budget,
    verdict: Verdict,
) -> Result<Answer, AllocError>
    ensures { IfOk result (λ a. answer_of a ≡ report_answer (layout_of form) (budget_of budget) (report_of verdict) (verdicts.evidence_of verdict)) }
{
    match verdict {
        Verdict::Holds { start, fail, turn } => {
            judged(
                alloc,
                b"holds\n",
                Evidence::Refutations { start, fail, turn },
            )
        }
        Verdict::Vacuous(proof) => judged(alloc, b"vacuous\n", Evidence::EntryRefuted(proof)),
        Verdict::Fails {
            event,
            at,
            step,
            start,
        } => shown(
            alloc,
            form,
            FAILS,
            NamedEnding::FailsBy { event, at, step },
            start,
        ),
        Verdict::Unroll { at, step, start } => {
            let k = budget.unroll;
            shown(
                alloc,
                form,
                UNKNOWN,
                NamedEnding::UnknownBy { k, at, step },
                start,
            )
        }
        Verdict::Exceeded(past) => beyond(alloc, budget, past),
        Verdict::Conflicts { question, proof } => {
            let spent = Evidence::SpentOn { question, proof };
            exceeded(alloc, b"conflicts", budget.conflicts, spent)
        }
    }
}
