//! What values of the inputs of a question of a frame give, each of it made once.
ghost use Rattle.std.specs.Prelude.{◌≡◌, IfOk};
ghost use Rattle.frame_terms.specs.FrameCells.{AreFormed};
ghost use Rattle.question_form.specs.FrameQuestions.{heads_of_question};
ghost use Rattle.mem_cells.specs.FrameViews.{frame_cells_of, frame_of_cells};
ghost use Rattle.frame_start.specs.Evaluations.{IsEvaluated};

use crate::gifts::other_readings;
use crate::inputs::part_inputs;
use crate::reads::{Reads, reads_of_parts};
use bit_blast::{InputPlaces, choices_by_place, places_of};
use mem_cells::Celled;
use std::alloc::{AllocError, Global};
use term_dag::Reading;

/// What values of the inputs of a question of a frame give.
#[derive(Drop)]
pub struct Evaluated<'a> {
    pub celled: &'a Celled<'a>,
    pub values: &'a [bool],
    /// Where the inputs stand.
    pub places: InputPlaces,
    /// What terms are read under in the entry's part, with the choices of the points. The memory is empty.
    pub entry: Reading,
    /// The base reads of all parts, with their bytes.
    pub reads: Reads,
}

/// What values give. The error is want of memory, which more than 2^28 points, addresses or base reads are.
pub fn evaluate<'a>(
    alloc: Global,
    celled: &'a Celled<'a>,
    values: &'a [bool],
) -> Result<Evaluated<'a>, AllocError>
    requires formed { AreFormed (frame_of_cells celled.now) (heads_of_question celled.now.question.now) (frame_cells_of celled.now) }
    ensures of { IfOk result (λ e. (e.celled.now ≡ celled.now) × (e.values.now ≡ values.now)) }
    ensures is { IfOk result IsEvaluated }
{
    let count = celled.addresses.len();
    if count > u32::MAX as usize {
        return Err(AllocError);
    }
    let unrolled = celled.question.passive.unrolled;
    if unrolled.points.len() > u32::MAX as usize - 2 {
        return Err(AllocError);
    }
    let places = places_of(alloc, celled)?;
    let choices = choices_by_place(alloc, &places, values)?;
    let entry = part_inputs(alloc, &places, values, 0, count, choices)?;
    let head = part_inputs(alloc, &places, values, 1, count, Vec::new(alloc))?;
    let others = other_readings(alloc, unrolled, &places, values, count, head, &[])?;
    let reads = reads_of_parts(alloc, celled, &entry, &others)?;
    Ok(Evaluated {
        celled,
        values,
        places,
        entry,
        reads,
    })
}
