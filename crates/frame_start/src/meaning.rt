//! What satisfying values mean.
ghost use Rattle.std.specs.Prelude.{IfOk};
ghost use Rattle.frame_terms.specs.FrameCells.{AreFormed};
ghost use Rattle.question_form.specs.FrameQuestions.{heads_of_question, is_of_heads};
ghost use Rattle.mem_cells.specs.FrameViews.{frame_cells_of, frame_of_cells};
ghost use Rattle.frame_start.specs.Evaluations.{IsEvaluated};
ghost use Rattle.frame_start.specs.Files.{AreBroken, AreOne, AreWhole, ForSomeValues};
ghost use Rattle.frame_start.specs.Segments.{AreSegmentsOf, IsFrameAskable, IsMeaning};

use crate::broken::broken_reads;
use crate::calls::calls_of_roots;
use crate::choices::choices_of_roots;
use crate::evaluated::{Evaluated, evaluate};
use crate::met::met_points;
use crate::parts::{Parts, parts_of};
use mem_cells::Celled;
use std::alloc::{AllocError, Global};

/// What values show of the segments of a frame.
#[derive(Drop)]
pub struct Segments {
    /// The entry, the head and gifts as they are written, without choices. The head is one only where the question speaks of head states.
    pub parts: Parts,
    /// For each root, in their order, the choices of its segment by steps, those that are not 0. A root of a head has none where the question does not speak of
    /// head states, since its segment cannot be shown.
    pub choices: Vec<Vec<(u64, u8)>>,
    /// For each root, in their order, the contract steps of its segment: the number of the step, and the place of the gift that it is given.
    pub calls: Vec<Vec<(u64, usize)>>,
}

/// What satisfying values of the inputs of a question of a frame mean.
#[derive(Drop)]
pub enum Meaning {
    /// They show these segments.
    Shown(Segments),
    /// They have not the bytes of the file at these addresses, which rise, and of which there are some: known ones of the entry's part, and kept ones of the head's,
    /// where the question speaks of head states.
    Broken(Vec<u32>),
}

/// What values show that break no byte of the file. The error is want of memory.
fn segments_of(alloc: Global, e: Evaluated) -> Result<Segments, AllocError>
    requires formed { AreFormed (frame_of_cells e.celled.now) (heads_of_question e.celled.now.question.now) (frame_cells_of e.celled.now) }
    requires askable { IsFrameAskable e.celled.now.question.now.passive.now }
    requires evaluated { IsEvaluated e }
    requires whole { ForSomeValues e.celled.now e.values.now (AreWhole e.celled.now) }
    ensures { IfOk result (AreSegmentsOf e.entry.celled.now e.entry.values.now) }
{
    let celled = e.celled;
    let parts = parts_of(alloc, &e)?;
    let met = met_points(alloc, e, &parts)?;
    let choices = choices_of_roots(alloc, celled, &met)?;
    let calls = calls_of_roots(alloc, celled, &met)?;
    Ok(Segments {
        parts,
        choices,
        calls,
    })
}

/// The addresses of the bytes of the file that base reads have otherwise under values of the inputs, rising and each once: known ones of the entry's part, and kept
/// ones of the head's, where the question speaks of head states.
///
/// # Errors
///
/// Want of memory, which more than 2^28 points, addresses or base reads are.
pub fn broken_bytes(alloc: Global, c: &Celled, values: &[bool]) -> Result<Vec<u32>, AllocError>
    requires formed { AreFormed (frame_of_cells c.now) (heads_of_question c.now.question.now) (frame_cells_of c.now) }
    ensures { IfOk result (λ v. AreBroken c.now values.now v.items) }
{
    let evaluated = evaluate(alloc, c, values)?;
    let broken = broken_reads(alloc, c.question.passive.unrolled, &evaluated.reads)?;
    Ok(broken)
}

/// What values mean that satisfy the clauses of a question of a frame, and so give base reads of one address of a part one byte: the segments that they show, if no
/// base read has another byte than its part has of the file, and else the addresses of those that have.
///
/// # Errors
///
/// Want of memory, which more than 2^28 points, addresses or base reads are.
pub fn meaning_of(alloc: Global, c: &Celled, values: &[bool]) -> Result<Meaning, AllocError>
    requires formed { AreFormed (frame_of_cells c.now) (heads_of_question c.now.question.now) (frame_cells_of c.now) }
    requires askable { IsFrameAskable c.now.question.now.passive.now }
    requires one { ForSomeValues c.now values.now (AreOne (is_of_heads c.now.question.now) (frame_cells_of c.now)) }
    ensures { IfOk result (IsMeaning c.now values.now) }
{
    let evaluated = evaluate(alloc, c, values)?;
    let broken = broken_reads(alloc, c.question.passive.unrolled, &evaluated.reads)?;
    if broken.is_empty() {
        let segments = segments_of(alloc, evaluated)?;
        return Ok(Meaning::Shown(segments));
    }
    Ok(Meaning::Broken(broken))
}
