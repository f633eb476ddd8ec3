//! The choices that a run draws.
ghost use Rattle.std.specs.Prelude.{◌≡◌, ℕ, ◌≤◌, false, length, slice_index, IfOk};
ghost use Rattle.term_dag.specs.Readings.{reading_of};
ghost use Rattle.question_form.specs.Views.{unrolled_of};
ghost use Rattle.verdict.specs.Rounds.{IsAskable};
ghost use Rattle.model_verdict.specs.Shown.{AreChoicesOf};

use bit_blast::choices_by_step;
use question_form::Passive;
use std::alloc::{AllocError, Global};
use term_dag::Reading;

/// Whether some choice is not 0.
fn has_choice(choices: &[u8]) -> bool
    ensures { result ≡ false → (i : ℕ) → slice_index choices.now i ≡ 0 }
{
    for choice in choices {
        if *choice > 0 {
            return true;
        }
    }
    false
}

/// The choices that are not 0 of the run of a reading, by their steps: those of the points that it meets, in their order. Where all are 0, no term has to be
/// read. The error is want of memory.
pub fn run_choices(
    alloc: Global,
    passive: &Passive,
    reading: &Reading,
) -> Result<Vec<(u64, u8)>, AllocError>
    requires askable { IsAskable passive.now }
    requires count { length reading.now.choices.items ≡ length (unrolled_of passive.now.unrolled.now).points }
    requires few { (i : ℕ) → slice_index reading.now.choices.items i ≤ 3 }
    ensures { IfOk result (λ xs. AreChoicesOf passive.now (reading_of reading.now) xs.items) }
{
    if !has_choice(&reading.choices) {
        return Ok(Vec::new(alloc));
    }
    let words = passive.dag.values(alloc, reading)?;
    let choices = choices_by_step(alloc, &passive.met, &words, &reading.choices)?;
    Ok(choices)
}
