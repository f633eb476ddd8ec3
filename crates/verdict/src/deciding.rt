//! Questions, decided in rounds as those of the frame of the program.
ghost use Rattle.std.specs.Prelude.{◌≡◌, ◌≤◌, IfOk, length};
ghost use Rattle.question_form.specs.Questions.{program_of_question};
ghost use Rattle.question_form.specs.Views.{kind_of, unrolled_of};
ghost use Rattle.start_value.specs.Starts.{written_of};
ghost use Rattle.verdict.specs.Rounds.{AreAdded, AreFurther, AreMore, IsDecidable, IsDecided, IsTold, entry_shown};
ghost use Rattle.verdict.specs.Grounds.{Answers};

use crate::Answered;
use frame_rounds::{FrameAnswered, FrameDecided, decide_frame_from};
use frame_start::Segments;
use question_form::{Asked, Kind, Passive, Question};
use start_value::Start;
use std::alloc::{AllocError, Global};

/// The addresses whose bytes the next round asks: those that were asked, and the known ones in the blocks of the broken ones. The error is want of memory.
pub fn asked_next(
    alloc: Global,
    question: &Question,
    added: &[u32],
    broken: &[u32],
) -> Result<Vec<u32>, AllocError>
    requires added { AreAdded (program_of_question question.now) added.now }
    requires broken { AreFurther (program_of_question question.now) added.now broken.now }
    ensures { IfOk result (λ v. AreMore (program_of_question question.now) added.now v.items) }
{
    let more = asked_bytes::asked_next(alloc, &question.passive.unrolled.known, added, broken)?;
    Ok(more)
}

/// What a question comes to, and the addresses whose bytes were asked for it besides those of literals.
#[derive(Drop)]
pub struct Decided {
    pub answered: Answered,
    pub asked: Vec<u32>,
}

/// The start that is shown of the one segment of a program: the entry, with the choices of the segment.
pub fn start_shown(alloc: Global, segments: Segments) -> Start
    ensures { length segments.choices.items ≡ 1 → written_of result ≡ entry_shown segments }
{
    let Segments {
        parts,
        mut choices,
        ..
    } = segments;
    let choices = match choices.pop() {
        Some(choices) => choices,
        None => Vec::new(alloc),
    };
    Start {
        choices,
        ..parts.entry
    }
}

/// The answer to a question of the frame of a program as one of the program.
fn told(alloc: Global, answered: FrameAnswered) -> Answered
    ensures { IsTold answered result }
{
    match answered {
        FrameAnswered::Sat(segments) => Answered::Sat(start_shown(alloc, segments)),
        FrameAnswered::Refuted(proof) => Answered::Refuted(proof),
        FrameAnswered::Spent(proof) => Answered::Spent(proof),
    }
}

/// What a question of a passive program comes to, within so many conflicts of the search, where the bytes at some addresses are asked from the beginning. The
/// error is want of memory.
pub fn decide_from(
    alloc: Global,
    passive: &Passive,
    kind: Kind,
    conflicts: u64,
    first: Vec<u32>,
) -> Result<Decided, AllocError>
    requires some { 1 ≤ conflicts }
    requires decidable { IsDecidable passive.now }
    requires first { AreAdded (unrolled_of passive.now.unrolled.now) first.items }
    ensures { IfOk result (λ d. IsDecided (unrolled_of passive.now.unrolled.now) (kind_of kind) conflicts first.items d) }
{
    let asked = Asked::of_program(kind);
    let FrameDecided { answered, added } = decide_frame_from(
        alloc, passive, asked, conflicts, first,
    )?;
    Ok(Decided {
        answered: told(alloc, answered),
        asked: added,
    })
}

/// What a question of a passive program comes to, within so many conflicts of the search. The bytes of the file are asked on demand: at first those of literals
/// alone, and where values are found that have not some known bytes, those too, with the known ones beside them in blocks that grow with the number of bytes
/// that are asked. The error is want of memory.
pub fn decide(
    alloc: Global,
    passive: &Passive,
    kind: Kind,
    conflicts: u64,
) -> Result<Answered, AllocError>
    requires some { 1 ≤ conflicts }
    requires decidable { IsDecidable passive.now }
    ensures { IfOk result (λ a. Answers (unrolled_of passive.now.unrolled.now) (kind_of kind) conflicts a) }
{
    let none = Vec::new(alloc);
    let decided = decide_from(alloc, passive, kind, conflicts, none)?;
    Ok(decided.answered)
}
