//! The choices of a start, by their steps.
ghost use Rattle.std.specs.Prelude.{◌≡◌, ℕ, ◌<◌, ◌≤◌, ◌+◌, ◌*◌, ◌^◌, length, slice_index, slice_index_or, IfOk, OnOk};
ghost use Rattle.clause_spec.specs.Clauses.{valuation};
ghost use Rattle.term_spec.specs.ClauseForm.{bits_from};
ghost use Rattle.term_dag.specs.declared.nodes.Term.{Term};
ghost use Rattle.bit_blast.specs.Steps.{AreChoices, choice_at, choice_by, count_met, is_met_by, with_choice};

use crate::input_places::InputPlaces;
use crate::values::number_at;
use std::alloc::{AllocError, Global};
use term_dag::Term;

/// Lists the choice of a step where it is not 0.
pub fn list_choice(choices: &mut Vec<(u64, u8)>, step: u64, choice: u8) -> Result<(), AllocError>
    ensures { OnOk result (choices.new.items ≡ with_choice choices.old.items step choice) }
{
    if choice > 0 {
        choices.push((step, choice))?;
        return Ok(());
    }
    Ok(())
}

/// The choice of a place.
fn choice_of(places: &InputPlaces, drawn: Option<u32>, values: &[bool]) -> u8
    ensures value { result ≡ choice_by places.now (valuation values.now) drawn }
    ensures few { result ≤ 3 }
{
    match drawn {
        None => 0,
        Some(choice) => {
            let first = places.first_choice as usize + 2 * choice as usize;
            number_at(values, first, 2) as u8
        }
    }
}

/// The choices of the places that are met, each by the number of met places below it; those that are 0 are not listed. A place is met where its term has the
/// word 1. The error is want of memory.
pub fn choices_by_step(
    alloc: Global,
    met: &[Term],
    words: &[u64],
    choices: &[u8],
) -> Result<Vec<(u64, u8)>, AllocError>
    requires count { length met.now ≡ length choices.now }
    requires within { (i : ℕ) (d : Term) → i < length met.now → (slice_index_or met.now i d).0 < length words.now }
    requires few { (i : ℕ) → slice_index choices.now i ≤ 3 }
    ensures { IfOk result (λ xs. AreChoices (is_met_by met.now words.now) (slice_index choices.now) (length met.now)
        (count_met (is_met_by met.now words.now) (length met.now)) xs.items) }
{
    let mut listed = Vec::new(alloc);
    let mut step = 0u64;
    for i in 0..met.len() {
        if words[met[i].0 as usize] == 1 {
            list_choice(&mut listed, step, choices[i])?;
            step += 1;
        }
    }
    Ok(listed)
}

/// The choices by the places of their points.
pub fn choices_by_place(
    alloc: Global,
    places: &InputPlaces,
    values: &[bool],
) -> Result<Vec<u8>, AllocError>
    ensures each { IfOk result (λ w. (i : ℕ) → i < length places.now.drawn.items → slice_index w.items i ≡ choice_at places.now (valuation values.now) i) }
    ensures count { IfOk result (λ w. length w.items ≡ length places.now.drawn.items) }
    ensures few { IfOk result (λ w. (i : ℕ) → slice_index w.items i ≤ 3) }
{
    let mut choices = Vec::new(alloc);
    for i in 0..places.drawn.len() {
        choices.push(choice_of(places, places.drawn[i], values))?;
    }
    Ok(choices)
}
