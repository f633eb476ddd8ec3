//! The start that shows that a question is true of a reading.
ghost use Rattle.std.specs.Prelude.{◌≡◌, ℕ, ◌≤◌, [], length, slice_index, IfOk};
ghost use Rattle.word_spec.specs.Memory.{byte_in};
ghost use Rattle.machine_spec.specs.StateText.{AreRising};
ghost use Rattle.bilv_spec.specs.PointLaws.{HasLawfulRows};
ghost use Rattle.bilv_spec.specs.Questions as questions;
ghost use Rattle.call_spec.specs.Calls.{EntryQuestion, FailQuestion, TurnQuestion};
ghost use Rattle.machine_law.specs.Facts.{IsFit};
ghost use Rattle.start_value.specs.Starts.{written_of};
ghost use Rattle.table_run.specs.Traces.{IsModelState, TakesChoices};
ghost use Rattle.term_dag.specs.Readings.{reading_of};
ghost use Rattle.question_form.specs.Views.{kind_of, unrolled_of};
ghost use Rattle.program_value.specs.Programs.{program_of};
ghost use Rattle.verdict.specs.Grounds.{IsGround};
ghost use Rattle.verdict.specs.Rounds.{IsAskable};
ghost use Rattle.model_verdict.specs.Models.{filler, listed, HasModel, IsSound, IsSoundMemory};
ghost use Rattle.model_verdict.specs.Runs.{IsRunBy, IsShownAs, IsStartBy, IsTracedBy};
ghost use Rattle.model_verdict.specs.Shown.{AreChoicesOf, IsTrulyOf};

use crate::choices::run_choices;
use crate::filling::{fill_of, listed_of};
use crate::{End, Judged};
use machine_law::Machine;
use model_text::{Model, ModelMemory};
use program_value::Program;
use question_form::{Kind, Passive};
use start_value::Start;
use std::alloc::{AllocError, Global};
use table_run::{Ending, Traced, required_bytes, trace};
use term_dag::Reading;
use verdict::Budget;

/// A start with other bytes.
fn with_bytes(start: Start, bytes: Vec<(u32, u8)>) -> Start
    ensures { written_of result ≡ record (written_of start) { bytes = bytes.items } }
{
    Start {
        regs: start.regs,
        flags: start.flags,
        bytes,
        choices: start.choices,
    }
}

/// The start with the registers and flags of a model, without bytes. The error is want of memory.
fn model_start(alloc: Global, model: &Model, choices: Vec<(u64, u8)>) -> Result<Start, AllocError>
    ensures model { IfOk result (λ s. HasModel model.now (written_of s)) }
    ensures choices { IfOk result (λ s. (written_of s).choices ≡ choices.items) }
{
    let mut regs = Vec::new(alloc);
    regs.extend_from_slice(&model.registers)?;
    Ok(Start {
        regs,
        flags: model.flags,
        bytes: Vec::new(alloc),
        choices,
    })
}

/// What the run from a start with the memory of a model comes to, within as many steps as there may be points, and the bytes that it reads. The error is want
/// of memory.
fn traced<M: Machine>(
    alloc: Global,
    program: &Program<M>,
    budget: &Budget,
    start: &Start,
    memory: &Option<ModelMemory>,
) -> Result<Traced, AllocError>
    requires fit { IsFit M.form (written_of start.now) }
    requires choices { AreRising (written_of start.now).choices }
    requires sound { IsSoundMemory memory.now }
    requires lawful { HasLawfulRows (program_of program.now) }
    ensures { IfOk result (λ t. (r : questions.Reading) →
        IsModelState (program_of program.now) M.form (written_of start.now) (filler memory.now) (listed memory.now) r.state →
        TakesChoices (program_of program.now) budget.now.unroll r (byte_in (written_of start.now).choices) →
        IsTracedBy (program_of program.now) budget.now.unroll budget.now.points r t) }
{
    let traced = trace::<M>(
        alloc,
        program,
        start,
        fill_of(memory),
        listed_of(memory),
        budget.unroll,
        budget.points,
    )?;
    Ok(traced)
}

/// The start of an entry state, with the bytes that the require lines read. The error is want of memory.
fn entered<M: Machine>(
    alloc: Global,
    program: &Program<M>,
    start: Start,
    memory: &Option<ModelMemory>,
) -> Result<Judged, AllocError>
    requires lawful { HasLawfulRows (program_of program.now) }
    requires fit { IsFit M.form (written_of start) }
    requires none { (written_of start).choices ≡ [] }
    requires sound { IsSoundMemory memory.now }
    ensures { IfOk result (λ j. (k : ℕ) (r : questions.Reading) →
        IsStartBy (program_of program.now) M.form k EntryQuestion (written_of start) (filler memory.now) (listed memory.now) r →
        IsShownAs (program_of program.now) M.form k EntryQuestion r j) }
{
    let bytes = required_bytes::<M>(alloc, program, &start, fill_of(memory), listed_of(memory))?;
    Ok(Judged::Accepted {
        end: End::AtEntry,
        start: with_bytes(start, bytes),
    })
}

/// The start of a run that has an event, with the bytes that the require lines and the run read. The error is want of memory.
fn failed<M: Machine>(
    alloc: Global,
    program: &Program<M>,
    budget: &Budget,
    start: Start,
    memory: &Option<ModelMemory>,
) -> Result<Judged, AllocError>
    requires lawful { HasLawfulRows (program_of program.now) }
    requires fit { IsFit M.form (written_of start) }
    requires choices { AreRising (written_of start).choices }
    requires sound { IsSoundMemory memory.now }
    requires some { (r : questions.Reading) × IsRunBy (program_of program.now) M.form budget.now.unroll budget.now.points FailQuestion
        (written_of start) (filler memory.now) (listed memory.now) r }
    ensures { IfOk result (λ j. (r : questions.Reading) →
        IsRunBy (program_of program.now) M.form budget.now.unroll budget.now.points FailQuestion (written_of start) (filler memory.now)
        (listed memory.now) r → IsShownAs (program_of program.now) M.form budget.now.unroll FailQuestion r j) }
{
    let traced = traced::<M>(alloc, program, budget, &start, memory)?;
    match traced.ending {
        Ending::Failed { event, at, step } => Ok(Judged::Accepted {
            end: End::Failed { event, at, step },
            start: with_bytes(start, traced.bytes),
        }),
        _ => unreachable!(),
    }
}

/// The start of a run that makes one backward transfer too many, with the bytes that the require lines and the run read. The error is want of memory.
fn turned<M: Machine>(
    alloc: Global,
    program: &Program<M>,
    budget: &Budget,
    start: Start,
    memory: &Option<ModelMemory>,
) -> Result<Judged, AllocError>
    requires lawful { HasLawfulRows (program_of program.now) }
    requires fit { IsFit M.form (written_of start) }
    requires choices { AreRising (written_of start).choices }
    requires sound { IsSoundMemory memory.now }
    requires some { (r : questions.Reading) × IsRunBy (program_of program.now) M.form budget.now.unroll budget.now.points TurnQuestion
        (written_of start) (filler memory.now) (listed memory.now) r }
    ensures { IfOk result (λ j. (r : questions.Reading) →
        IsRunBy (program_of program.now) M.form budget.now.unroll budget.now.points TurnQuestion (written_of start) (filler memory.now)
        (listed memory.now) r → IsShownAs (program_of program.now) M.form budget.now.unroll TurnQuestion r j) }
{
    let traced = traced::<M>(alloc, program, budget, &start, memory)?;
    match traced.ending {
        Ending::Turned { at, step } => Ok(Judged::Accepted {
            end: End::Turned { at, step },
            start: with_bytes(start, traced.bytes),
        }),
        _ => unreachable!(),
    }
}

/// The start of a model with the choices of its run. The error is want of memory.
fn run_start(
    alloc: Global,
    passive: &Passive,
    model: &Model,
    reading: &Reading,
) -> Result<Start, AllocError>
    requires askable { IsAskable passive.now }
    requires count { length reading.now.choices.items ≡ length (unrolled_of passive.now.unrolled.now).points }
    requires few { (i : ℕ) → slice_index reading.now.choices.items i ≤ 3 }
    ensures state { IfOk result (λ s. HasModel model.now (written_of s)) }
    ensures choices { IfOk result (λ s. AreChoicesOf passive.now (reading_of reading.now) (written_of s).choices) }
{
    let choices = run_choices(alloc, passive, reading)?;
    let start = model_start(alloc, model, choices)?;
    Ok(start)
}

/// The start that shows that a question is true of the reading of a model, with the end of its run. The error is want of memory.
pub fn accept<M: Machine>(
    alloc: Global,
    program: &Program<M>,
    budget: &Budget,
    passive: &Passive,
    kind: Kind,
    model: &Model,
    reading: &Reading,
) -> Result<Judged, AllocError>
    requires ground { IsGround (program_of program.now) budget.now.unroll M.form (unrolled_of passive.now.unrolled.now) }
    requires points { length (unrolled_of passive.now.unrolled.now).points ≤ budget.now.points }
    requires askable { IsAskable passive.now }
    requires sound { IsSound M.form (length (unrolled_of passive.now.unrolled.now).points) model.now }
    requires count { length reading.now.choices.items ≡ length (unrolled_of passive.now.unrolled.now).points }
    requires few { (i : ℕ) → slice_index reading.now.choices.items i ≤ 3 }
    requires some { (r : questions.Reading) × IsTrulyOf (program_of program.now) M.form budget.now.unroll (kind_of kind)
        (unrolled_of passive.now.unrolled.now) model.now (reading_of reading.now) r }
    ensures { IfOk result (λ j. (r : questions.Reading) → IsTrulyOf (program_of program.now) M.form budget.now.unroll (kind_of kind)
        (unrolled_of passive.now.unrolled.now) model.now (reading_of reading.now) r →
        IsShownAs (program_of program.now) M.form budget.now.unroll (kind_of kind) r j) }
{
    match kind {
        Kind::Entry => {
            let start = model_start(alloc, model, Vec::new(alloc))?;
            let judged = entered::<M>(alloc, program, start, &model.memory)?;
            Ok(judged)
        }
        Kind::Fail => {
            let start = run_start(alloc, passive, model, reading)?;
            let judged = failed::<M>(alloc, program, budget, start, &model.memory)?;
            Ok(judged)
        }
        Kind::Turn => {
            let start = run_start(alloc, passive, model, reading)?;
            let judged = turned::<M>(alloc, program, budget, start, &model.memory)?;
            Ok(judged)
        }
    }
}
