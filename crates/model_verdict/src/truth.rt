//! Whether a question is true of a reading.
ghost use Rattle.std.specs.Prelude.{◌≡◌, ◌↔◌, true, map, IfOk};
ghost use Rattle.bilv_spec.specs.Questions as questions;
ghost use Rattle.term_spec.specs.WalkQuestions.{IsTrueOfWalk};
ghost use Rattle.known_bytes.specs.Runs.{AreRuns, run_of};
ghost use Rattle.term_dag.specs.Readings.{reading_of};
ghost use Rattle.question_form.specs.Views.{kind_of, unrolled_of};
ghost use Rattle.verdict.specs.Rounds.{IsAskable};
ghost use Rattle.model_verdict.specs.Models.{IsSoundMemory, memory_over};
ghost use Rattle.model_verdict.specs.Readings.{HasKnown, StandsFor};

use crate::known::has_known;
use known_bytes::Known;
use model_text::ModelMemory;
use question_form::{Kind, Passive};
use std::alloc::{AllocError, Global};
use term_dag::Reading;
use weakest_pre::question;

/// Whether the memory of a model has the bytes of runs; where an answer gives no memory, it has them.
fn memory_has(known: &[Known], memory: &Option<ModelMemory>) -> bool
    requires runs { AreRuns known.now }
    requires sound { IsSoundMemory memory.now }
    ensures { (result ≡ true) ↔ HasKnown (map run_of known.now) (memory_over (map run_of known.now) memory.now) }
{
    match memory {
        None => true,
        Some(memory) => has_known(known, memory.fill, &memory.bytes),
    }
}

/// Whether a question is true of a reading, the bytes of the file included. The error is want of memory.
pub fn is_true(
    alloc: Global,
    passive: &Passive,
    kind: Kind,
    memory: &Option<ModelMemory>,
    reading: &Reading,
) -> Result<bool, AllocError>
    requires askable { IsAskable passive.now }
    requires sound { IsSoundMemory memory.now }
    requires memory { (reading_of reading.now).mem 0 ≡ memory_over (unrolled_of passive.now.unrolled.now).known memory.now }
    ensures { IfOk result (λ b. (r : questions.Reading) → StandsFor (unrolled_of passive.now.unrolled.now) (reading_of reading.now) r →
        (b ≡ true) ↔ IsTrueOfWalk (unrolled_of passive.now.unrolled.now) r (kind_of kind)) }
{
    if !memory_has(&passive.unrolled.known, memory) {
        return Ok(false);
    }
    let question = question(alloc, passive, kind)?;
    let word = question.dag.value(alloc, reading, question.root)?;
    Ok(word == 1)
}
