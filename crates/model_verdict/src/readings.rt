//! What terms are read under by a model.
ghost use Rattle.std.specs.Prelude.{◌≡◌, ℕ, ◌≤◌, ◌<◌, ◌+◌, ◌^◌, false, if◌then◌else◌, length, slice_index, slice_index_or, IfOk};
ghost use Rattle.word_spec.specs.Words.{bit_at};
ghost use Rattle.known_bytes.specs.Runs.{AreRuns};
ghost use Rattle.start_value.specs.Starts.{layout_of};
ghost use Rattle.term_dag.specs.Readings.{reading_of};
ghost use Rattle.question_form.specs.Views.{unrolled_of};
ghost use Rattle.model_verdict.specs.Models.{IsSound};
ghost use Rattle.model_verdict.specs.Readings.{AreDrawn, IsOfModel};

use crate::filling::{fill_of, model_memory};
use model_text::Model;
use question_form::Unrolled;
use std::alloc::{AllocError, Global};
use term_dag::Reading;

/// The registers by their numbers, from a first number on; those before it are 0. The error is want of memory.
fn registers_by_number(alloc: Global, first: u8, registers: &[u32]) -> Result<Vec<u32>, AllocError>
    requires { length registers.now < 2 ^ 32 }
    ensures { IfOk result (λ w. (i : ℕ) → i < length registers.now → slice_index w.items (first + i) ≡ slice_index registers.now i) }
{
    let mut numbered = Vec::new(alloc);
    numbered.resize(first as usize, 0)?;
    for i in 0..registers.len() {
        numbered.push(registers[i])?;
    }
    Ok(numbered)
}

/// The flags by their numbers. The error is want of memory.
fn flags_by_number(alloc: Global, flags: u8) -> Result<Vec<u8>, AllocError>
    ensures { IfOk result (λ w. (f : ℕ) → f < 8 → slice_index w.items f ≡ bit_at f flags) }
{
    let mut numbered = Vec::new(alloc);
    for flag in 0..8u8 {
        numbered.push((flags >> flag) % 2)?;
    }
    Ok(numbered)
}

/// The choice of a number where it is drawn, and else 0.
fn choice_of(drawn: &[bool], choices: &[u8], number: u32) -> u8
    requires drawn { number < length drawn.now }
    requires choices { number < length choices.now }
    ensures { result ≡ (if slice_index_or drawn.now number false then slice_index choices.now number else 0) }
{
    if drawn[number as usize] {
        choices[number as usize]
    } else {
        0
    }
}

/// The choices by the places of their points, 0 where none is drawn. The error is want of memory.
fn choices_by_place(
    alloc: Global,
    numbers: &[u32],
    drawn: &[bool],
    choices: &[u8],
) -> Result<Vec<u8>, AllocError>
    requires drawn { (i : ℕ) → i < length numbers.now → slice_index numbers.now i < length drawn.now }
    requires choices { (i : ℕ) → i < length numbers.now → slice_index numbers.now i < length choices.now }
    ensures count { IfOk result (λ w. length w.items ≡ length numbers.now) }
    ensures each { IfOk result (λ w. (i : ℕ) → i < length numbers.now → slice_index w.items i
        ≡ (if slice_index_or drawn.now (slice_index numbers.now i) false then slice_index choices.now (slice_index numbers.now i) else 0)) }
{
    let mut placed = Vec::with_capacity(alloc, numbers.len())?;
    for i in 0..numbers.len() {
        placed.push(choice_of(drawn, choices, numbers[i]))?;
    }
    Ok(placed)
}

/// What terms are read under by a model: the choice of a point is that of its number, where it is drawn. The error is want of memory.
pub fn model_reading(
    alloc: Global,
    unrolled: &Unrolled,
    numbers: &[u32],
    drawn: &[bool],
    model: &Model,
) -> Result<Reading, AllocError>
    requires runs { AreRuns unrolled.now.known.items }
    requires count { length numbers.now ≡ length (unrolled_of unrolled.now).points }
    requires within { (i : ℕ) → i < length numbers.now → slice_index numbers.now i < length numbers.now }
    requires drawn { AreDrawn (unrolled_of unrolled.now) numbers.now drawn.now }
    requires sound { IsSound (layout_of unrolled.now.form) (length numbers.now) model.now }
    ensures of { IfOk result (λ y. IsOfModel (unrolled_of unrolled.now) (layout_of unrolled.now.form) numbers.now model.now (reading_of y)) }
    ensures choices { IfOk result (λ y. length y.choices.items ≡ length (unrolled_of unrolled.now).points) }
    ensures few { IfOk result (λ y. (i : ℕ) → slice_index y.choices.items i ≤ 3) }
{
    let (first, _) = unrolled.form.registers();
    let registers = registers_by_number(alloc, first, &model.registers)?;
    let flags = flags_by_number(alloc, model.flags)?;
    let memory = model_memory(alloc, &unrolled.known, &model.memory)?;
    let choices = choices_by_place(alloc, numbers, drawn, &model.choices)?;
    Ok(Reading {
        registers,
        flags,
        memory,
        fill: fill_of(&model.memory),
        choices,
        base: Vec::new(alloc),
    })
}
