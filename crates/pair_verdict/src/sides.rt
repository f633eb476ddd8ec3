//! What each of two functions comes to alone, on its machine.
ghost use Rattle.std.specs.Prelude.{◌≡◌, ◌<◌, ℕ, IfErr, IfOk};
ghost use Rattle.bilv_spec.specs.Answers.{IsWithin};
ghost use Rattle.bilv_spec.specs.Points.{HasMore};
ghost use Rattle.links_lang.specs.Views.{links_of};
ghost use Rattle.pair_sides.specs.Sides.{IsSided, machine_in, program_of_side};
ghost use Rattle.pair_spec.specs.Links.{asking};
ghost use Rattle.program_points.specs.Listed.{IsTooMany};
ghost use Rattle.start_value.specs.Starts.{layout_of};
ghost use Rattle.verdict.specs.FewerTurns.{IsJudged};
ghost use Rattle.verdict.specs.Measures.{IsUnrolledOf};
ghost use Rattle.verdict.specs.Verdicts.{budget_of};
ghost use Rattle.pair_verdict.specs.Sides.{IsSideVerdict};

use crate::Holding;
use crate::machines::on_machine;
use arm_lift::Arm;
use flow_graph::descend;
use links_lang::{Link, flags_asked};
use machine_law::Machine;
use pair_sides::Sided;
use program_points::PointsFault;
use question_form::Unrolled;
use rv_lift::Rv32;
use start_value::{Layout, Profile};
use std::alloc::{AllocError, Global};
use unroller::unroll_asking;
use verdict::{Budget, Judged, Verdict, judge_unrolled, unroll_within};

/// What one of two functions comes to.
#[derive(Drop)]
pub enum SideVerdict {
    /// It holds, and no run makes more backward transfers than this number, which is at most the budget's.
    Holds { holding: Holding, turns: u64 },
    /// Its verdict is another one.
    Other(Verdict),
}

/// The unrolled program of a side, on its machine.
fn unroll_by<'a, M: Machine>(
    alloc: Global,
    side: &Sided<'a>,
    budget: &Budget,
) -> Result<Unrolled<'a>, PointsFault>
    requires machine { machine_in side.now.layout ≡ M.machine }
    requires form { layout_of side.now.layout ≡ M.form }
    requires sided { IsSided side.now }
    ensures unrolled { IfOk result (IsUnrolledOf (program_of_side side.now) (layout_of side.now.layout) (budget_of budget.now)) }
    ensures more { IfErr result (IsTooMany (program_of_side side.now) budget.now.unroll budget.now.points) }
{
    let program = side.program::<M>();
    unroll_within::<M>(alloc, &program, budget)
}

/// The unrolled program of a side.
///
/// # Errors
///
/// `TooMany` with one point more than the budget where there are more points; out of memory.
pub fn unroll_side<'a>(
    alloc: Global,
    side: &Sided<'a>,
    budget: &Budget,
) -> Result<Unrolled<'a>, PointsFault>
    requires sided { IsSided side.now }
    ensures unrolled { IfOk result (IsUnrolledOf (program_of_side side.now) (layout_of side.now.layout) (budget_of budget.now)) }
    ensures more { IfErr result (IsTooMany (program_of_side side.now) budget.now.unroll budget.now.points) }
{
    on_machine!(side.layout, unroll_by(alloc, side, budget))
}

/// The verdict on a side by its unrolled program, on its machine.
fn verdict_by<M: Machine>(
    alloc: Global,
    side: &Sided,
    budget: &Budget,
    unrolled: &Unrolled,
) -> Result<Judged, AllocError>
    requires machine { machine_in side.now.layout ≡ M.machine }
    requires form { layout_of side.now.layout ≡ M.form }
    requires sided { IsSided side.now }
    requires unrolled { IsUnrolledOf (program_of_side side.now) (layout_of side.now.layout) (budget_of budget.now) unrolled.now }
    ensures { IfOk result (λ j. IsJudged (program_of_side side.now) (layout_of side.now.layout) budget.now j) }
{
    let program = side.program::<M>();
    let judged = judge_unrolled::<M>(alloc, &program, budget, unrolled)?;
    Ok(judged)
}

/// The verdict on a side by its unrolled program.
fn verdict_of(
    alloc: Global,
    side: &Sided,
    budget: &Budget,
    unrolled: &Unrolled,
) -> Result<Judged, AllocError>
    requires sided { IsSided side.now }
    requires unrolled { IsUnrolledOf (program_of_side side.now) (layout_of side.now.layout) (budget_of budget.now) unrolled.now }
    ensures { IfOk result (λ j. IsJudged (program_of_side side.now) (layout_of side.now.layout) budget.now j) }
{
    on_machine!(side.layout, verdict_by(alloc, side, budget, unrolled))
}

/// What a side comes to by its unrolled program, where its points and its price are within the budget. The error is out of memory.
pub fn judge_side(
    alloc: Global,
    side: &Sided,
    budget: &Budget,
    unrolled: &Unrolled,
) -> Result<SideVerdict, AllocError>
    requires sided { IsSided side.now }
    requires unrolled { IsUnrolledOf (program_of_side side.now) (layout_of side.now.layout) (budget_of budget.now) unrolled.now }
    requires within { IsWithin (program_of_side side.now) (budget_of budget.now) }
    ensures { IfOk result (IsSideVerdict side.now (budget_of budget.now)) }
{
    let judged = verdict_of(alloc, side, budget, unrolled)?;
    let turns = judged.turns;
    match judged.verdict {
        Verdict::Holds { start, fail, turn } => Ok(SideVerdict::Holds {
            holding: Holding { start, fail, turn },
            turns,
        }),
        Verdict::Exceeded(_) => unreachable!(),
        other => Ok(SideVerdict::Other(other)),
    }
}

/// The unrolled program of a side in which the flags that links compare are asked for at the exit, on its machine. There are no more points than the budget.
fn unroll_asked_by<'a, M: Machine>(
    alloc: Global,
    side: &Sided<'a>,
    links: &[Link],
    second: bool,
    budget: &Budget,
) -> Result<Unrolled<'a>, AllocError>
    requires machine { machine_in side.now.layout ≡ M.machine }
    requires form { layout_of side.now.layout ≡ M.form }
    requires sided { IsSided side.now }
    requires few { HasMore (program_of_side side.now) budget.now.unroll budget.now.points → ⊥ }
    ensures unrolled { IfOk result (IsUnrolledOf (asking second (links_of links.now) (program_of_side side.now)) (layout_of side.now.layout) (budget_of budget.now)) }
    ensures form { IfOk result (λ u. layout_of u.form ≡ layout_of side.now.layout) }
{
    let program = side.program::<M>();
    program.image.bytes();
    let graph = descend::<M>(alloc, &program)?;
    let out = flags_asked(links, second);
    match unroll_asking::<M>(alloc, &graph, &program, out, budget.unroll, budget.points) {
        Ok(unrolled) => Ok(unrolled),
        Err(PointsFault::TooMany { .. }) => unreachable!(),
        Err(PointsFault::Memory) => Err(AllocError),
    }
}

/// The unrolled program of a side in which the flags that links compare are asked for at the exit. There are no more points than the budget. The error is out of
/// memory.
pub fn unroll_asked<'a>(
    alloc: Global,
    side: &Sided<'a>,
    links: &[Link],
    second: bool,
    budget: &Budget,
) -> Result<Unrolled<'a>, AllocError>
    requires sided { IsSided side.now }
    requires few { HasMore (program_of_side side.now) budget.now.unroll budget.now.points → ⊥ }
    ensures unrolled { IfOk result (IsUnrolledOf (asking second (links_of links.now) (program_of_side side.now)) (layout_of side.now.layout) (budget_of budget.now)) }
    ensures form { IfOk result (λ u. layout_of u.form ≡ layout_of side.now.layout) }
{
    on_machine!(
        side.layout,
        unroll_asked_by(alloc, side, links, second, budget)
    )
}
