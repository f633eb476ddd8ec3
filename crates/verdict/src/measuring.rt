//! Programs, unrolled, and measured by the budgets.
ghost use Rattle.std.specs.Prelude.{◌≡◌, IfErr, IfOk};
ghost use Rattle.program_value.specs.Programs.{program_of};
ghost use Rattle.program_points.specs.Listed.{IsTooMany};
ghost use Rattle.start_value.specs.Starts.{layout_of};
ghost use Rattle.verdict.specs.Measures.{IsMeasurable, IsMeasured, IsUnrolledOf, IsWeighed};
ghost use Rattle.verdict.specs.Verdicts.{budget_of};

use crate::Budget;
use flow_graph::descend;
use machine_law::Machine;
use passify::passive;
use program_points::PointsFault;
use program_value::Program;
use question_form::{Passive, Unrolled};
use std::alloc::{AllocError, Global};
use unroller::{price, unroll};

/// The price of an unrolled program, by the budget.
#[derive(Clone, Copy)]
pub enum Weighed {
    Above(u128),
    Within(u128),
}

/// What an unrolled program comes to by its price.
#[derive(Drop)]
pub enum Measured<'a> {
    /// The price, which is above the budget.
    Above(u128),
    /// The price is within the budget, and this is the passive program.
    Within(Passive<'a>),
}

/// A program, unrolled.
///
/// # Errors
///
/// `TooMany` with one point more than the budget where there are more points; want of memory.
pub fn unroll_within<'a, M: Machine>(
    alloc: Global,
    program: &Program<'a, M>,
    budget: &Budget,
) -> Result<Unrolled<'a>, PointsFault>
    ensures unrolled { IfOk result (IsUnrolledOf (program_of program.now) M.form (budget_of budget.now)) }
    ensures form { IfOk result (λ u. layout_of u.form ≡ M.form) }
    ensures more { IfErr result (IsTooMany (program_of program.now) budget.now.unroll budget.now.points) }
{
    program.image.bytes();
    let graph = descend::<M>(alloc, program)?;
    unroll::<M>(alloc, &graph, program, budget.unroll, budget.points)
}

/// The price of an unrolled program, above the budget or within it. A price of 2^128 - 1 or more counts as want of memory, which is the error.
pub fn weigh(budget: &Budget, unrolled: &Unrolled) -> Result<Weighed, AllocError>
    requires { IsMeasurable unrolled.now }
    ensures { IfOk result (IsWeighed (budget_of budget.now) unrolled.now) }
{
    let price = price(unrolled);
    if price == u128::MAX {
        return Err(AllocError);
    }
    if price > budget.size as u128 {
        return Ok(Weighed::Above(price));
    }
    Ok(Weighed::Within(price))
}

/// The price of an unrolled program that is above the budget, or its passive program. The error is want of memory; a price of 2^128 - 1 or more counts as that.
pub fn measure<'a>(
    alloc: Global,
    budget: &Budget,
    unrolled: &'a Unrolled<'a>,
) -> Result<Measured<'a>, AllocError>
    requires { IsMeasurable unrolled.now }
    ensures { IfOk result (IsMeasured (budget_of budget.now) unrolled.now) }
{
    match weigh(budget, unrolled)? {
        Weighed::Above(price) => Ok(Measured::Above(price)),
        Weighed::Within(_) => {
            let passive = passive(alloc, unrolled)?;
            Ok(Measured::Within(passive))
        }
    }
}
