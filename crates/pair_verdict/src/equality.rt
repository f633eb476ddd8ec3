//! The verdict on two functions.
ghost use Rattle.std.specs.Prelude.{◌≡◌, ◌<◌, IfErr, IfOk};
ghost use Rattle.bilv_spec.specs.Answers.{HoldsReport, IsRightReport};
ghost use Rattle.links_lang.specs.Views.{AreLinksOf, links_of};
ghost use Rattle.pair_sides.specs.Sides.{IsSided, side_of};
ghost use Rattle.pair_spec.specs.Equals.{AreWithin, HoldsBy, IsRightPair};
ghost use Rattle.verdict.specs.Verdicts.{budget_of};
ghost use Rattle.pair_verdict.specs.Settled.{IsSettled};
ghost use Rattle.pair_verdict.specs.Sides.{AreTooMany, AreUnrolled, HoldsWithin, IsPair, IsVerdictOf, first_program, second_program};
ghost use Rattle.pair_verdict.specs.Verdicts.{evidence_of, holding_of, report_of};

use crate::pairs::{Both, Pair};
use crate::settling::Settled;
use crate::sides::{SideVerdict, judge_side, unroll_side};
use crate::smaller::settle_within;
use crate::{Holding, PairVerdict};
use links_lang::Link;
use pair_price::pair_price;
use pair_sides::Sided;
use program_points::PointsFault;
use std::alloc::{AllocError, Global};
use verdict::{Budget, Exceeded};

/// Both functions unrolled.
///
/// # Errors
///
/// `TooMany` with one point more than the budget where there are more points together; out of memory.
fn unroll_both<'a>(alloc: Global, pair: &Pair<'a>) -> Result<Both<'a>, PointsFault>
    requires { IsPair pair.now }
    ensures unrolled { IfOk result (AreUnrolled pair.now) }
    ensures more { IfErr result (AreTooMany pair.now) }
{
    let most = pair.budget.points;
    let first = unroll_side(alloc, pair.first, pair.budget)?;
    let points = most - first.points.len() as u64;
    if points == 0 {
        return Err(PointsFault::TooMany { count: most + 1 });
    }
    let left = pair.budget.with_points(points);
    match unroll_side(alloc, pair.second, &left) {
        Ok(second) => Ok(Both { first, second }),
        Err(PointsFault::TooMany { .. }) => Err(PointsFault::TooMany { count: most + 1 }),
        Err(PointsFault::Memory) => Err(PointsFault::Memory),
    }
}

/// The verdict by what the questions about both come to, with what shows that each holds.
fn with_holdings(settled: Settled, first: Holding, second: Holding) -> PairVerdict
    ensures { (p : Pair) →
        AreWithin (first_program p) (second_program p) (links_of p.links.now) (budget_of p.budget.now) →
        HoldsBy (side_of p.first.now) (budget_of p.budget.now) (holding_of first) →
        HoldsBy (side_of p.second.now) (budget_of p.budget.now) (holding_of second) → IsSettled p settled → IsVerdictOf p result }
{
    match settled {
        Settled::NoPair(proof) => PairVerdict::NoPair(proof),
        Settled::Conflicts { question, proof } => PairVerdict::Conflicts { question, proof },
        Settled::Differs {
            line,
            first_step,
            second_step,
            first,
            second,
        } => PairVerdict::Differs {
            line,
            first_step,
            second_step,
            first,
            second,
        },
        Settled::Alike {
            first: first_start,
            second: second_start,
            difference,
        } => PairVerdict::Equal {
            first,
            second,
            first_start,
            second_start,
            difference,
        },
    }
}

/// The verdict on two functions of which the first holds, and no run of that makes more backward transfers than a number. The error is out of memory.
fn judge_second(
    alloc: Global,
    pair: &Pair,
    both: &Both,
    first: Holding,
    turns: u64,
) -> Result<PairVerdict, AllocError>
    requires pair { IsPair pair.now }
    requires unrolled { AreUnrolled pair.now both.now }
    requires within { AreWithin (first_program pair.now) (second_program pair.now) (links_of pair.now.links.now) (budget_of pair.now.budget.now) }
    requires first { HoldsBy (side_of pair.now.first.now) (budget_of pair.now.budget.now) (holding_of first) }
    requires turns { HoldsWithin (first_program pair.now) (budget_of pair.now.budget.now) turns }
    ensures { IfOk result (IsVerdictOf pair.now) }
{
    match judge_side(alloc, pair.second, pair.budget, &both.second)? {
        SideVerdict::Holds {
            holding: second,
            turns: second_turns,
        } => {
            let most = turns.max(second_turns);
            let settled = settle_within(alloc, pair, both, most)?;
            Ok(with_holdings(settled, first, second))
        }
        SideVerdict::Other(verdict) => Ok(PairVerdict::Second(verdict)),
    }
}

/// The verdict on two functions within the budgets. The error is out of memory.
fn judge_first(alloc: Global, pair: &Pair, both: &Both) -> Result<PairVerdict, AllocError>
    requires pair { IsPair pair.now }
    requires unrolled { AreUnrolled pair.now both.now }
    requires within { AreWithin (first_program pair.now) (second_program pair.now) (links_of pair.now.links.now) (budget_of pair.now.budget.now) }
    ensures { IfOk result (IsVerdictOf pair.now) }
{
    match judge_side(alloc, pair.first, pair.budget, &both.first)? {
        SideVerdict::Holds {
            holding: first,
            turns,
        } => {
            let verdict = judge_second(alloc, pair, both, first, turns)?;
            Ok(verdict)
        }
        SideVerdict::Other(verdict) => Ok(PairVerdict::First(verdict)),
    }
}

/// The verdict on two functions by their unrolled programs. The error is out of memory; a price of 2^128 - 1 or more counts as that.
fn judge_priced(alloc: Global, pair: &Pair, both: &Both) -> Result<PairVerdict, AllocError>
    requires pair { IsPair pair.now }
    requires unrolled { AreUnrolled pair.now both.now }
    ensures { IfOk result (IsVerdictOf pair.now) }
{
    let price = pair_price(&both.first, &both.second, pair.links);
    if price == u128::MAX {
        return Err(AllocError);
    }
    if price > pair.budget.size as u128 {
        return Ok(PairVerdict::Exceeded(Exceeded::Size { price }));
    }
    let verdict = judge_first(alloc, pair, both)?;
    Ok(verdict)
}

/// The verdict on two functions with links between them, within the budgets, with what shows it: first that there are more points together than the budget, then
/// that the price of both is above the budget, then the verdict on the first where it does not hold, then that on the second, and last what the two questions
/// about both come to. The error is out of memory; a price of 2^128 - 1 or more counts as that.
pub fn equal(
    alloc: Global,
    first: &Sided,
    second: &Sided,
    links: &[Link],
    budget: &Budget,
) -> Result<PairVerdict, AllocError>
    requires first { IsSided first.now }
    requires second { IsSided second.now }
    requires links { AreLinksOf first.now.layout second.now.layout links.now }
    ensures { IfOk result (λ v. IsRightPair (side_of first.now) (side_of second.now) (links_of links.now) (budget_of budget.now) (report_of v) (evidence_of v)) }
{
    let pair = Pair {
        first,
        second,
        links,
        budget,
    };
    match unroll_both(alloc, &pair) {
        Ok(both) => {
            let verdict = judge_priced(alloc, &pair, &both)?;
            Ok(verdict)
        }
        Err(PointsFault::TooMany { count }) => Ok(PairVerdict::Exceeded(Exceeded::Points {
            count,
        })),
        Err(PointsFault::Memory) => Err(AllocError),
    }
}
