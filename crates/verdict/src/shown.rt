//! The runs that show a verdict.
ghost use Rattle.std.specs.Prelude.{◌≡◌, ◌-◌, Some, IfOk};
ghost use Rattle.call_spec.specs.Calls.{FailQuestion, TurnQuestion};
ghost use Rattle.bilv_spec.specs.Answers.{IsWithin, start_in};
ghost use Rattle.bilv_spec.specs.Points.{is_known_at};
ghost use Rattle.bilv_spec.specs.PointLaws.{HasLawfulRows};
ghost use Rattle.bilv_spec.specs.Questions.{IsSatisfiable};
ghost use Rattle.bilv_spec.specs.Reports.{found};
ghost use Rattle.machine_spec.specs.StateText.{IsWritten};
ghost use Rattle.start_value.specs.Starts.{written_of};
ghost use Rattle.table_run.specs.Endings.{found_of};
ghost use Rattle.program_value.specs.Programs.{program_of};
ghost use Rattle.verdict.specs.Grounds.{IsShownBy};
ghost use Rattle.verdict.specs.Verdicts.{IsVerdict, budget_of};

use crate::{Budget, Verdict};
use machine_law::Machine;
use program_value::Program;
use start_value::Start;
use std::alloc::{AllocError, Global};
use table_run::{Ending, run};

/// What the run from a start comes to within as many steps as there may be points.
fn ending<M: Machine>(
    alloc: Global,
    program: &Program<M>,
    budget: &Budget,
    start: &Start,
) -> Result<Ending, AllocError>
    requires written { IsWritten M.form (is_known_at (program_of program.now)) (written_of start.now) }
    ensures { IfOk result (λ e. found_of e ≡ found (program_of program.now) (Some budget.now.unroll)
        (start_in (program_of program.now) M.form (written_of start.now))
        (budget.now.points - 1)) }
{
    let ending = run::<M>(alloc, program, start, Some(budget.unroll), budget.points)?;
    Ok(ending)
}

/// The event of the run from a start that shows that some run fails.
pub fn failing<M: Machine>(
    alloc: Global,
    program: &Program<M>,
    budget: &Budget,
    start: Start,
) -> Result<Verdict, AllocError>
    requires within { IsWithin (program_of program.now) (budget_of budget.now) }
    requires lawful { HasLawfulRows (program_of program.now) }
    requires fails { IsShownBy (program_of program.now) budget.now.unroll M.form FailQuestion start }
    ensures { IfOk result (λ v. IsVerdict (program_of program.now) M.form budget.now v) }
{
    match ending::<M>(alloc, program, budget, &start)? {
        Ending::Failed { event, at, step } => Ok(Verdict::Fails {
            event,
            at,
            step,
            start,
        }),
        _ => unreachable!(),
    }
}

/// The last step of the run from a start that shows that some run makes one backward transfer too many, where none fails.
pub fn turning<M: Machine>(
    alloc: Global,
    program: &Program<M>,
    budget: &Budget,
    start: Start,
) -> Result<Verdict, AllocError>
    requires within { IsWithin (program_of program.now) (budget_of budget.now) }
    requires lawful { HasLawfulRows (program_of program.now) }
    requires never { IsSatisfiable (program_of program.now) budget.now.unroll FailQuestion → ⊥ }
    requires turns { IsShownBy (program_of program.now) budget.now.unroll M.form TurnQuestion start }
    ensures { IfOk result (λ v. IsVerdict (program_of program.now) M.form budget.now v) }
{
    match ending::<M>(alloc, program, budget, &start)? {
        Ending::Turned { at, step } => Ok(Verdict::Unroll { at, step, start }),
        _ => unreachable!(),
    }
}
