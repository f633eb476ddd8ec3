//! The questions of a program, certified one by one.
ghost use Rattle.std.specs.Prelude.{IfOk};
ghost use Rattle.program_value.specs.Programs.{program_of};
ghost use Rattle.call_spec.specs.Calls as answers;
ghost use Rattle.call_spec.specs.Calls.{Question};
ghost use Rattle.bilv_spec.specs.Answers.{IsWithin};
ghost use Rattle.bilv_spec.specs.PointLaws.{HasLawfulRows, ReadsMemory};
ghost use Rattle.bilv_spec.specs.Run as tables;
ghost use Rattle.machine_spec.specs.StateText.{Layout};
ghost use Rattle.question_form.specs.Views.{kind_of};
ghost use Rattle.verdict.specs.Grounds.{IsAnswered};
ghost use Rattle.verdict.specs.Measures.{IsMeasurable, IsUnrolledOf};
ghost use Rattle.verdict.specs.Verdicts.{IsCertificate, budget_of};

use crate::deciding::decide;
use crate::measuring::{Measured, measure, unroll_within};
use crate::{Answered, Budget, Certified, Exceeded};
use machine_law::Machine;
use program_points::PointsFault;
use program_value::Program;
use question_form::{Kind, Unrolled};
use std::alloc::{AllocError, Global};

/// What the answer to a question of a program within the budgets certifies.
fn certified(answered: Answered) -> Certified
    ensures { (p : tables.Program) (layout : Layout) (b : answers.Budget) (question : Question) → HasLawfulRows p → ReadsMemory p →
        IsWithin p b → IsAnswered p b.unroll layout question b.conflicts answered →
        IsCertificate p b question result }
{
    match answered {
        Answered::Sat(_) => Certified::Satisfiable,
        Answered::Refuted(proof) => Certified::Refuted(proof),
        Answered::Spent(proof) => Certified::Conflicts(proof),
    }
}

/// What a question of an unrolled program comes to, behind its price.
fn certify_unrolled(
    alloc: Global,
    budget: &Budget,
    kind: Kind,
    unrolled: &Unrolled,
) -> Result<Certified, AllocError>
    requires measurable { IsMeasurable unrolled.now }
    ensures { IfOk result (λ c. (p : tables.Program) (layout : Layout) → ReadsMemory p → IsUnrolledOf p layout (budget_of budget.now) unrolled.now →
        IsCertificate p (budget_of budget.now) (kind_of kind) c) }
{
    match measure(alloc, budget, unrolled)? {
        Measured::Above(price) => Ok(Certified::Exceeded(Exceeded::Size { price })),
        Measured::Within(passive) => {
            let answered = decide(alloc, &passive, kind, budget.conflicts)?;
            Ok(certified(answered))
        }
    }
}

/// What a question about a program comes to within the budgets, whether it is due or not. The error is want of
/// memory; a price of 2^128 - 1 or more counts as that.
pub fn certify<'a, M: Machine>(
    alloc: Global,
    program: &Program<'a, M>,
    budget: &Budget,
    kind: Kind,
) -> Result<Certified, AllocError>
    ensures { IfOk result (λ c. IsCertificate (program_of program.now) (budget_of budget.now) (kind_of kind) c) }
{
    match unroll_within::<M>(alloc, program, budget) {
        Ok(unrolled) => {
            let certified = certify_unrolled(alloc, budget, kind, &unrolled)?;
            Ok(certified)
        }
        Err(PointsFault::TooMany { count }) => Ok(Certified::Exceeded(Exceeded::Points { count })),
        Err(PointsFault::Memory) => Err(AllocError),
    }
}
