//! The verdict on a program.
ghost use Rattle.std.specs.Prelude.{IfOk};
ghost use Rattle.bilv_spec.specs.Answers.{IsWithin};
ghost use Rattle.question_form.specs.Views.{unrolled_of};
ghost use Rattle.program_value.specs.Programs.{program_of};
ghost use Rattle.verdict.specs.FewerTurns.{IsJudged};
ghost use Rattle.verdict.specs.Grounds.{IsGround};
ghost use Rattle.verdict.specs.Measures.{IsUnrolledOf};
ghost use Rattle.verdict.specs.Rounds.{IsDecidable};
ghost use Rattle.verdict.specs.Verdicts.{IsVerdict, budget_of};

use crate::deciding::decide;
use crate::early::judge_early;
use crate::measuring::{Weighed, unroll_within, weigh};
use crate::shown::{failing, turning};
use crate::{Answered, Budget, Exceeded, Judged, Verdict};
use machine_law::Machine;
use passify::passive;
use program_points::PointsFault;
use program_value::Program;
use question_form::{Kind, Passive, Unrolled};
use std::alloc::{AllocError, Global};

/// The price from which on smaller bounds are tried first. Cheaper programs are unrolled once, for the whole bound.
const DEAR: u128 = 250_000;

/// The verdict by the three questions in their order.
fn judge<M: Machine>(
    alloc: Global,
    program: &Program<M>,
    budget: &Budget,
    passive: &Passive,
) -> Result<Verdict, AllocError>
    requires within { IsWithin (program_of program.now) (budget_of budget.now) }
    requires ground { IsGround (program_of program.now) budget.now.unroll M.form (unrolled_of passive.now.unrolled.now) }
    requires decidable { IsDecidable passive.now }
    ensures { IfOk result (λ v. IsVerdict (program_of program.now) M.form budget.now v) }
{
    let entered = match decide(alloc, passive, Kind::Entry, budget.conflicts)? {
        Answered::Sat(start) => start,
        Answered::Refuted(proof) => return Ok(Verdict::Vacuous(proof)),
        Answered::Spent(proof) => {
            return Ok(Verdict::Conflicts {
                question: Kind::Entry,
                proof,
            });
        }
    };
    let fail = match decide(alloc, passive, Kind::Fail, budget.conflicts)? {
        Answered::Sat(start) => return failing::<M>(alloc, program, budget, start),
        Answered::Refuted(proof) => proof,
        Answered::Spent(proof) => {
            return Ok(Verdict::Conflicts {
                question: Kind::Fail,
                proof,
            });
        }
    };
    match decide(alloc, passive, Kind::Turn, budget.conflicts)? {
        Answered::Sat(start) => turning::<M>(alloc, program, budget, start),
        Answered::Refuted(turn) => Ok(Verdict::Holds {
            start: entered,
            fail,
            turn,
        }),
        Answered::Spent(proof) => Ok(Verdict::Conflicts {
            question: Kind::Turn,
            proof,
        }),
    }
}

/// The verdict by an unrolled program: that its price is above the budget, or what the three questions come to, within a smaller bound where that settles them.
/// Where the program holds, no run makes more backward transfers than the number with the verdict.
pub fn judge_unrolled<M: Machine>(
    alloc: Global,
    program: &Program<M>,
    budget: &Budget,
    unrolled: &Unrolled,
) -> Result<Judged, AllocError>
    requires unrolled { IsUnrolledOf (program_of program.now) M.form (budget_of budget.now) unrolled.now }
    ensures { IfOk result (λ j. IsJudged (program_of program.now) M.form budget.now j) }
{
    let turns = budget.unroll;
    let price = match weigh(budget, unrolled)? {
        Weighed::Above(price) => {
            let verdict = Verdict::Exceeded(Exceeded::Size { price });
            return Ok(Judged { verdict, turns });
        }
        Weighed::Within(price) => price,
    };
    if price >= DEAR {
        let early = judge_early::<M>(alloc, program, budget, unrolled)?;
        if let Some(judged) = early {
            return Ok(judged);
        }
    }
    let passive = passive(alloc, unrolled)?;
    let verdict = judge::<M>(alloc, program, budget, &passive)?;
    Ok(Judged { verdict, turns })
}

/// The verdict on a program within the budgets, with what shows it: first that there are more points than the
/// budget, then that the price is above the budget, then the three questions in their order. The error is want of memory; a price of 2^128 - 1 or more counts
/// as that.
pub fn verify<'a, M: Machine>(
    alloc: Global,
    program: &Program<'a, M>,
    budget: &Budget,
) -> Result<Verdict, AllocError>
    ensures { IfOk result (λ v. IsVerdict (program_of program.now) M.form budget.now v) }
{
    match unroll_within::<M>(alloc, program, budget) {
        Ok(unrolled) => {
            let judged = judge_unrolled::<M>(alloc, program, budget, &unrolled)?;
            Ok(judged.verdict)
        }
        Err(PointsFault::TooMany { count }) => Ok(Verdict::Exceeded(Exceeded::Points { count })),
        Err(PointsFault::Memory) => Err(AllocError),
    }
}
