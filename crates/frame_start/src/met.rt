//! The points that are met, by the parts as they are written.
ghost use Rattle.std.specs.Prelude.{◌≡◌, ℕ, Bool, true, false, List, None, ◌≤◌, ◌<◌, ◌^◌, All, length, slice_index, IfOk};
ghost use Rattle.word_spec.specs.Memory.{memory_of};
ghost use Rattle.frame_spec.specs.FrameWalk.{Gift};
ghost use Rattle.frame_terms.specs.PassiveFrames.{IsGiftAt};
ghost use Rattle.frame_terms.specs.FrameCells.{AreFormed};
ghost use Rattle.frame_terms.specs.FrameStarts.{AreParts, part_byte, part_memory};
ghost use Rattle.known_bytes.specs.Runs.{AreRuns};
ghost use Rattle.start_value.specs.Starts.{written_of};
ghost use Rattle.question_form.specs.FrameQuestions.{heads_of_question, is_of_heads};
ghost use Rattle.mem_cells.specs.FrameViews.{frame_cells_of, frame_of_cells};
ghost use Rattle.bit_blast.specs.Places.{AreInOrder};
ghost use Rattle.bit_blast.specs.Stored.{AreBytes};
ghost use Rattle.frame_start.specs.Evaluations.{ArePartReadings, IsEvaluated};
ghost use Rattle.frame_start.specs.Files.{ForSomeValues};
ghost use Rattle.frame_start.specs.Met.{IsMet, IsOfPart};
ghost use Rattle.frame_start.specs.Segments.{IsFrameAskable, written_parts};

use crate::changed::steps_over;
use crate::evaluated::Evaluated;
use crate::gifts::other_readings;
use crate::inputs::part_inputs;
use crate::memory::head_memory;
use crate::parts::Parts;
use crate::reads::speaks_of_heads;
use bit_blast::{InputPlaces, of_bytes, start_memory};
use byte_mem::Bytes32;
use mem_cells::Celled;
use start_value::Start;
use std::alloc::{AllocError, Global};
use term_dag::Reading;

/// Which points are met, and what they choose.
#[derive(Drop)]
pub struct Met {
    /// Some point draws a choice or makes a contract step; else no term has to be read.
    pub needed: bool,
    /// The words of the terms of the passive program, of which some say which points are met.
    pub words: Vec<u64>,
    /// The choices of the points, by their places.
    pub choices: Vec<u8>,
}

/// The memory of the head as it is written, if the question speaks of head states; else none.
fn memory_of_head(alloc: Global, c: &Celled, head: &Start) -> Result<Bytes32, AllocError>
    requires runs { AreRuns c.now.question.now.passive.now.unrolled.now.known.items }
    requires unknown { is_of_heads c.now.question.now ≡ true →
        All (λ b. part_byte (frame_of_cells c.now) 1 b.0 ≡ None) head.now.bytes.items }
    ensures value { IfOk result (λ memory. is_of_heads c.now.question.now ≡ true → (a : ℕ) →
        memory_of memory.entries a ≡ part_memory (frame_of_cells c.now) 1 (written_of head.now) a) }
    ensures below { IfOk result (λ memory. AreBytes (memory_of memory.entries)) }
{
    if speaks_of_heads(c.question) {
        let unrolled = c.question.passive.unrolled;
        let memory = head_memory(alloc, &unrolled.known, unrolled.kept, &head.bytes)?;
        return Ok(memory);
    }
    let memory = of_bytes(alloc, &[])?;
    Ok(memory)
}

/// What the head's part is read under, with its memory if the question speaks of head states.
fn head_reading(
    alloc: Global,
    c: &Celled,
    places: &InputPlaces,
    values: &[bool],
    head: &Start,
) -> Result<Reading, AllocError>
    requires order { AreInOrder places.now }
    requires few { length c.now.addresses.items < 2 ^ 32 }
    requires runs { AreRuns c.now.question.now.passive.now.unrolled.now.known.items }
    requires unknown { is_of_heads c.now.question.now ≡ true →
        All (λ b. part_byte (frame_of_cells c.now) 1 b.0 ≡ None) head.now.bytes.items }
    ensures { IfOk result (λ r. is_of_heads c.now.question.now ≡ true → IsOfPart c.now places.now values.now 1 (written_of head.now) r) }
{
    let memory = memory_of_head(alloc, c, head)?;
    let count = c.addresses.len();
    let inputs = part_inputs(alloc, places, values, 1, count, Vec::new(alloc))?;
    Ok(Reading { memory, ..inputs })
}

/// What the parts besides the entry's are read under, with their memories.
fn part_readings(alloc: Global, e: &Evaluated, parts: &Parts) -> Result<Vec<Reading>, AllocError>
    requires askable { IsFrameAskable e.now.celled.now.question.now.passive.now }
    requires formed { AreFormed (frame_of_cells e.now.celled.now) (heads_of_question e.now.celled.now.question.now) (frame_cells_of e.now.celled.now) }
    requires evaluated { IsEvaluated e.now }
    requires parts { ForSomeValues e.now.celled.now e.now.values.now (λ x. AreParts (frame_of_cells e.now.celled.now)
        (is_of_heads e.now.celled.now.question.now) (frame_cells_of e.now.celled.now) x (written_parts parts.now)) }
    ensures { IfOk result (λ v. ArePartReadings e.now parts.now v.items) }
{
    let celled = e.celled;
    let head = head_reading(alloc, celled, &e.places, e.values, &parts.head)?;
    let count = celled.addresses.len();
    let unrolled = celled.question.passive.unrolled;
    let others = other_readings(
        alloc,
        unrolled,
        &e.places,
        e.values,
        count,
        head,
        &parts.gifts,
    )?;
    Ok(others)
}

/// Whether the words of terms are needed: some point draws a choice or makes a contract step.
fn is_needed(e: &Evaluated) -> bool
    ensures { result ≡ false → (e.now.places.choices ≡ 0) × ((i : ℕ) (g : Gift) → ¬ IsGiftAt (frame_of_cells e.now.celled.now) i g) }
{
    if e.places.choices > 0 {
        return true;
    }
    steps_over(e.celled.question.passive.unrolled)
}

/// Which points are met from the parts, by the words of their terms, and their choices. Nothing is computed where no point draws or makes a contract step. The
/// error is want of memory.
pub fn met_points(alloc: Global, e: Evaluated, parts: &Parts) -> Result<Met, AllocError>
    requires askable { IsFrameAskable e.celled.now.question.now.passive.now }
    requires formed { AreFormed (frame_of_cells e.celled.now) (heads_of_question e.celled.now.question.now) (frame_cells_of e.celled.now) }
    requires evaluated { IsEvaluated e }
    requires parts { ForSomeValues e.celled.now e.values.now (λ x. AreParts (frame_of_cells e.celled.now) (is_of_heads e.celled.now.question.now)
        (frame_cells_of e.celled.now) x (written_parts parts.now)) }
    ensures count { IfOk result (λ m. m.needed ≡ true → length m.words.items ≡ length e.entry.celled.now.question.now.passive.now.dag) }
    ensures few { IfOk result (λ m. (i : ℕ) → slice_index m.choices.items i ≤ 3) }
    ensures met { IfOk result (IsMet e.entry.celled.now e.entry.values.now parts.now) }
{
    if !is_needed(&e) {
        return Ok(Met {
            needed: false,
            words: Vec::new(alloc),
            choices: Vec::new(alloc),
        });
    }
    let others = part_readings(alloc, &e, parts)?;
    let Evaluated { celled, entry, .. } = e;
    let passive = celled.question.passive;
    let memory = start_memory(alloc, &passive.unrolled.known, &parts.entry.bytes)?;
    let entry = Reading { memory, ..entry };
    let both = term_dag::Parts {
        first: &entry,
        others: &others,
    };
    let words = passive.dag.values_of_parts(alloc, &both)?;
    Ok(Met {
        needed: true,
        words,
        choices: entry.choices,
    })
}
