//! The answer of an outside solver, judged.
ghost use Rattle.std.specs.Prelude.{◌≡◌, ℕ, ◌≤◌, ◌<◌, ◌^◌, length, slice_index, IfOk};
ghost use Rattle.clause_spec.specs.Checks.{text_limit};
ghost use Rattle.bilv_spec.specs.Questions.{Reading};
ghost use Rattle.start_value.specs.Starts.{layout_of};
ghost use Rattle.question_form.specs.Views.{kind_of, unrolled_of};
ghost use Rattle.program_value.specs.Programs.{program_of};
ghost use Rattle.verdict.specs.Grounds.{IsGround};
ghost use Rattle.verdict.specs.Rounds.{IsAskable};
ghost use Rattle.model_verdict.specs.Judgements.{IsJudged};
ghost use Rattle.model_verdict.specs.Models.{IsSound};
ghost use Rattle.model_verdict.specs.Readings.{AreDrawn, IsModelled, TakesNumbers};
ghost use Rattle.model_verdict.specs.Runs.{IsFound};

use crate::Judged;
use crate::accepting::accept;
use crate::drawn::drawn_by_number;
use crate::filling::fill_of;
use crate::readings::model_reading;
use crate::truth::is_true;
use machine_law::Machine;
use model_text::{Model, ModelFault, read_model};
use program_value::Program;
use question_form::{Kind, Passive};
use smtlib_print::numbers;
use std::alloc::{AllocError, Global};
use verdict::Budget;

/// Registers are words, and a byte is a byte, as their types say.
fn are_in_range(registers: &[u32], byte: u8)
    ensures words { (i : ℕ) → slice_index registers.now i < 2 ^ 32 }
    ensures byte { byte < 256 }
{}

/// Judges a model, where the points have these numbers by their places, and these choices are declared. The error is want of memory.
fn judge_model<M: Machine>(
    alloc: Global,
    program: &Program<M>,
    budget: &Budget,
    passive: &Passive,
    kind: Kind,
    numbers: &[u32],
    drawn: &[bool],
    model: &Model,
) -> Result<Judged, AllocError>
    requires ground { IsGround (program_of program.now) budget.now.unroll M.form (unrolled_of passive.now.unrolled.now) }
    requires points { length (unrolled_of passive.now.unrolled.now).points ≤ budget.now.points }
    requires askable { IsAskable passive.now }
    requires form { layout_of passive.now.unrolled.now.form ≡ M.form }
    requires count { length numbers.now ≡ length (unrolled_of passive.now.unrolled.now).points }
    requires within { (i : ℕ) → i < length numbers.now → slice_index numbers.now i < length numbers.now }
    requires drawn { AreDrawn (unrolled_of passive.now.unrolled.now) numbers.now drawn.now }
    requires sound { IsSound M.form (length numbers.now) model.now }
    requires some { (r : Reading) × IsModelled (unrolled_of passive.now.unrolled.now) M.form model.now r ×
        TakesNumbers (unrolled_of passive.now.unrolled.now) numbers.now model.now r }
    ensures { IfOk result (λ j. (r : Reading) → IsModelled (unrolled_of passive.now.unrolled.now) M.form model.now r →
        TakesNumbers (unrolled_of passive.now.unrolled.now) numbers.now model.now r →
        IsFound (program_of program.now) M.form budget.now.unroll (kind_of kind) r j) }
{
    let reading = model_reading(alloc, passive.unrolled, numbers, drawn, model)?;
    if !is_true(alloc, passive, kind, &model.memory, &reading)? {
        return Ok(Judged::Untrue);
    }
    let judged = accept::<M>(alloc, program, budget, passive, kind, model, &reading)?;
    Ok(judged)
}

/// Judges the answer of an outside solver to a question about a program, whose passive program this is: its first fault; else whether the question is true of
/// the reading that it gives; and then the start that shows it, with the end of its run. Its time is that of the text, of the question's terms and of the run,
/// and n log n of the bytes that the answer's memory lists; its memory is in proportion to the text and to the terms.
///
/// # Errors
///
/// Want of memory, or of numbers for points.
pub fn judge<M: Machine>(
    alloc: Global,
    program: &Program<M>,
    budget: &Budget,
    passive: &Passive,
    kind: Kind,
    text: &[u8],
) -> Result<Judged, AllocError>
    requires ground { IsGround (program_of program.now) budget.now.unroll M.form (unrolled_of passive.now.unrolled.now) }
    requires points { length (unrolled_of passive.now.unrolled.now).points ≤ budget.now.points }
    requires askable { IsAskable passive.now }
    requires form { layout_of passive.now.unrolled.now.form ≡ M.form }
    requires text { length text.now ≤ text_limit }
    ensures { IfOk result (λ j. IsJudged (program_of program.now) M.form budget.now.unroll (kind_of kind) text.now j) }
{
    let unrolled = passive.unrolled;
    let numbers = numbers(alloc, unrolled)?;
    let drawn = drawn_by_number(alloc, unrolled, &numbers)?;
    match read_model(alloc, text, unrolled.form, &drawn) {
        Ok(model) => {
            are_in_range(&model.registers, fill_of(&model.memory));
            let judged = judge_model::<M>(
                alloc, program, budget, passive, kind, &numbers, &drawn, &model,
            )?;
            Ok(judged)
        }
        Err(ModelFault::Text { line, kind }) => Ok(Judged::Refused { line, kind }),
        Err(ModelFault::Memory) => Err(AllocError),
    }
}
