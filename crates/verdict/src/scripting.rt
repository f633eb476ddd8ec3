//! The scripts of the questions of a program, for another solver.
ghost use Rattle.std.specs.Prelude.{◌≡◌, IfOk, string_bytes};
ghost use Rattle.bilv_spec.specs.Scripts.{IsScript};
ghost use Rattle.question_form.specs.Views.{kind_of, unrolled_of};
ghost use Rattle.start_value.specs.Starts.{layout_of};
ghost use Rattle.program_value.specs.Programs.{program_of};
ghost use Rattle.verdict.specs.Grounds.{IsGround};
ghost use Rattle.verdict.specs.Measures.{IsUnrolledOf};
ghost use Rattle.verdict.specs.Rounds.{IsAskable};
ghost use Rattle.verdict.specs.Verdicts.{IsScripted, budget_of};

use crate::measuring::{Measured, measure, unroll_within};
use crate::{Budget, Exceeded, Scripted};
use machine_law::Machine;
use program_points::PointsFault;
use program_value::Program;
use question_form::{Kind, Passive, Unrolled};
use smtlib_print::script as script_of;
use std::alloc::{AllocError, Global};
use weakest_pre::question;

/// The script of a question of a passive program, in SMT-LIB 2.6. The error is want of memory, or of numbers for terms and points.
fn script_passive<M: Machine>(
    alloc: Global,
    program: &Program<M>,
    budget: &Budget,
    kind: Kind,
    passive: &Passive,
) -> Result<String, AllocError>
    requires ground { IsGround (program_of program.now) budget.now.unroll M.form (unrolled_of passive.now.unrolled.now) }
    requires askable { IsAskable passive.now }
    requires form { layout_of passive.now.unrolled.now.form ≡ M.form }
    ensures { IfOk result (λ text. IsScript (program_of program.now) M.form budget.now.unroll (kind_of kind) (string_bytes text)) }
{
    let question = question(alloc, passive, kind)?;
    let text = script_of(alloc, &question)?;
    Ok(text)
}

/// The script of a question of an unrolled program, behind its price.
fn script_unrolled<M: Machine>(
    alloc: Global,
    program: &Program<M>,
    budget: &Budget,
    kind: Kind,
    unrolled: &Unrolled,
) -> Result<Scripted, AllocError>
    requires unrolled { IsUnrolledOf (program_of program.now) M.form (budget_of budget.now) unrolled.now }
    requires form { layout_of unrolled.now.form ≡ M.form }
    ensures { IfOk result (λ s. IsScripted (program_of program.now) M.form (budget_of budget.now) (kind_of kind) s) }
{
    match measure(alloc, budget, unrolled)? {
        Measured::Above(price) => Ok(Scripted::Exceeded(Exceeded::Size { price })),
        Measured::Within(passive) => {
            let text = script_passive::<M>(alloc, program, budget, kind, &passive)?;
            Ok(Scripted::Script(text))
        }
    }
}

/// The script of a question about a program within the budgets, in SMT-LIB 2.6. The error is want of memory,
/// which a price of 2^128 - 1 or more counts as, and so does want of numbers: there are 2^32 - 1 for terms.
pub fn script<'a, M: Machine>(
    alloc: Global,
    program: &Program<'a, M>,
    budget: &Budget,
    kind: Kind,
) -> Result<Scripted, AllocError>
    ensures { IfOk result (λ s. IsScripted (program_of program.now) M.form (budget_of budget.now) (kind_of kind) s) }
{
    match unroll_within::<M>(alloc, program, budget) {
        Ok(unrolled) => {
            let scripted = script_unrolled::<M>(alloc, program, budget, kind, &unrolled)?;
            Ok(scripted)
        }
        Err(PointsFault::TooMany { count }) => Ok(Scripted::Exceeded(Exceeded::Points { count })),
        Err(PointsFault::Memory) => Err(AllocError),
    }
}
