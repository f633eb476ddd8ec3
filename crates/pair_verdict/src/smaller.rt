//! What the two questions about two functions come to by those within a smaller bound on backward transfers than the budget's, which no run of either exceeds.
ghost use Rattle.std.specs.Prelude.{◌≤◌, IfOk, IfSome};
ghost use Rattle.links_lang.specs.Views.{links_of};
ghost use Rattle.pair_spec.specs.Equals.{AreWithin};
ghost use Rattle.verdict.specs.Verdicts.{budget_of};
ghost use Rattle.pair_verdict.specs.Settled.{IsSettled};
ghost use Rattle.pair_verdict.specs.Sides.{AreUnrolled, HoldsWithin, IsPair, first_program, second_program};
ghost use Rattle.pair_verdict.specs.FewerTurns.{IsSmaller};

use crate::pairs::{Both, Pair};
use crate::settling::{Settled, settle};
use bit_blast::free_inputs;
use std::alloc::{AllocError, Global};
use verdict::over_variables;

/// What the questions within a smaller bound come to for the budget's, for which there are so many inputs besides bytes; none where the conflicts did not suffice.
fn raised(settled: Settled, inputs: u64) -> Option<Settled>
    ensures { (small great : Pair) → IsSmaller small great inputs → IsSettled small settled → IfSome result (IsSettled great) }
{
    match settled {
        Settled::NoPair(proof) => {
            let proof = over_variables(proof, inputs);
            Some(Settled::NoPair(proof))
        }
        Settled::Differs {
            line,
            first_step,
            second_step,
            first,
            second,
        } => Some(Settled::Differs {
            line,
            first_step,
            second_step,
            first,
            second,
        }),
        Settled::Alike {
            first,
            second,
            difference,
        } => {
            let difference = over_variables(difference, inputs);
            Some(Settled::Alike {
                first,
                second,
                difference,
            })
        }
        Settled::Conflicts { .. } => None,
    }
}

/// What the questions come to by those for so many backward transfers, within which both hold; none where the conflicts do not suffice for these. The error is out
/// of memory.
fn settle_smaller(
    alloc: Global,
    pair: &Pair,
    both: &Both,
    turns: u64,
) -> Result<Option<Settled>, AllocError>
    requires pair { IsPair pair.now }
    requires within { AreWithin (first_program pair.now) (second_program pair.now) (links_of pair.now.links.now) (budget_of pair.now.budget.now) }
    requires unrolled { AreUnrolled pair.now both.now }
    requires first { HoldsWithin (first_program pair.now) (budget_of pair.now.budget.now) turns }
    requires second { HoldsWithin (second_program pair.now) (budget_of pair.now.budget.now) turns }
    ensures { IfOk result (λ o. IfSome o (IsSettled pair.now)) }
{
    let budget = pair.budget.with_unroll(turns);
    let smaller = Pair {
        budget: &budget,
        ..*pair
    };
    let settled = settle(alloc, &smaller)?;
    let first = free_inputs(&both.first);
    let second = free_inputs(&both.second);
    let inputs = first + second;
    Ok(raised(settled, inputs))
}

/// What the two questions about two functions come to where both hold and are within the budgets, also for so many backward transfers. The questions for those
/// are asked first; where the conflicts do not suffice for them, those for the budget's number of backward transfers. The error is out of memory.
pub fn settle_within(
    alloc: Global,
    pair: &Pair,
    both: &Both,
    turns: u64,
) -> Result<Settled, AllocError>
    requires pair { IsPair pair.now }
    requires within { AreWithin (first_program pair.now) (second_program pair.now) (links_of pair.now.links.now) (budget_of pair.now.budget.now) }
    requires unrolled { AreUnrolled pair.now both.now }
    requires first { HoldsWithin (first_program pair.now) (budget_of pair.now.budget.now) turns }
    requires second { HoldsWithin (second_program pair.now) (budget_of pair.now.budget.now) turns }
    ensures { IfOk result (IsSettled pair.now) }
{
    if turns < pair.budget.unroll {
        let smaller = settle_smaller(alloc, pair, both, turns)?;
        if let Some(settled) = smaller {
            return Ok(settled);
        }
    }
    let settled = settle(alloc, pair)?;
    Ok(settled)
}
