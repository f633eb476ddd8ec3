//! Questions of frames, decided in rounds.
ghost use Rattle.std.specs.Prelude.{◌≤◌, IfOk};
ghost use Rattle.asked_bytes.specs.AskedBytes.{AreAdded};
ghost use Rattle.question_form.specs.Asked as questions;
ghost use Rattle.question_form.specs.FrameViews.{frame_unrolled_of};
ghost use Rattle.frame_rounds.specs.FrameGrounds.{AnswersFrame};
ghost use Rattle.frame_rounds.specs.FrameRounds.{IsFrameDecided};
ghost use Rattle.frame_start.specs.Segments.{IsFrameAskable};

use crate::rounds::{Round, one_round};
use crate::{FrameAnswered, FrameDecided};
use asked_bytes::asked_next;
use question_form::{Asked, Passive};
use std::alloc::{AllocError, Global};
use weakest_pre::frame_question;

/// What a question of a passive program of a frame comes to, within so many conflicts of the search, where the bytes at some addresses are asked from the
/// beginning. The bytes of the file are asked on demand: at first those and the ones of literals, and where values are found that have not some of them, those
/// too, with the known ones beside them in blocks that grow with the number of bytes that are asked. The error is want of memory.
pub fn decide_frame_from(
    alloc: Global,
    passive: &Passive,
    asked: Asked,
    conflicts: u64,
    first: Vec<u32>,
) -> Result<FrameDecided, AllocError>
    requires some { 1 ≤ conflicts }
    requires askable { IsFrameAskable passive.now }
    requires first { AreAdded (frame_unrolled_of passive.now.unrolled.now).known first.items }
    ensures { IfOk result (IsFrameDecided passive.now.unrolled.now (questions.frame_question asked) conflicts first.items) }
{
    let question = frame_question(alloc, passive, asked)?;
    let mut added = first;
    loop {
        match one_round(alloc, &question, &added, conflicts)? {
            Round::Answered(answered) => return Ok(FrameDecided { answered, added }),
            Round::Broken(broken) => {
                added = asked_next(alloc, &passive.unrolled.known, &added, &broken)?;
            }
        }
    }
}

/// What a question of a passive program of a frame comes to, within so many conflicts of the search, where at first the bytes of literals alone are asked. The
/// error is want of memory.
pub fn decide_frame(
    alloc: Global,
    passive: &Passive,
    asked: Asked,
    conflicts: u64,
) -> Result<FrameAnswered, AllocError>
    requires some { 1 ≤ conflicts }
    requires askable { IsFrameAskable passive.now }
    ensures { IfOk result (λ a. AnswersFrame passive.now.unrolled.now (questions.frame_question asked) conflicts a) }
{
    let none = Vec::new(alloc);
    let decided = decide_frame_from(alloc, passive, asked, conflicts, none)?;
    Ok(decided.answered)
}
