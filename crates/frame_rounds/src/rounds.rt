//! One round of a question of a frame: its clauses over some bytes of the file, and what the search says of them.
ghost use Rattle.std.specs.Prelude.{◌≡◌, ◌≤◌, IfOk};
ghost use Rattle.frame_terms.specs.FrameCells.{AreFormed};
ghost use Rattle.frame_terms.specs.PassiveFrames.{TellsQuestion};
ghost use Rattle.asked_bytes.specs.AskedBytes.{AreAdded};
ghost use Rattle.question_form.specs.FrameQuestions.{frame_of_question, frame_question_of, heads_of_question, is_of_heads};
ghost use Rattle.question_form.specs.Questions.{term_of};
ghost use Rattle.mem_cells.specs.FrameViews.{frame_cells_of, frame_of_cells};
ghost use Rattle.frame_start.specs.Files.{AreOne, ForSomeValues};
ghost use Rattle.frame_start.specs.Segments.{IsFrameAskable};
ghost use Rattle.frame_rounds.specs.FrameRounds.{AreJudged, IsRound};

use crate::FrameAnswered;
use bit_blast::blast_frame;
use cnf_form::Proof;
use frame_start::{Meaning, meaning_of};
use mem_cells::{Celled, frame_cells};
use question_form::Question;
use sat_core::{Answer, solve};
use std::alloc::{AllocError, Global};

/// What a round of a question comes to.
#[derive(Drop)]
pub enum Round {
    /// The question's answer.
    Answered(FrameAnswered),
    /// The values that were found have not the bytes of the file at these addresses.
    Broken(Vec<u32>),
}

/// What satisfying values come to: the segments that they show, or the bytes of the file that they have not.
fn judge_values(alloc: Global, celled: &Celled, values: &[bool]) -> Result<Round, AllocError>
    requires formed { AreFormed (frame_of_cells celled.now) (heads_of_question celled.now.question.now) (frame_cells_of celled.now) }
    requires one { ForSomeValues celled.now values.now (AreOne (is_of_heads celled.now.question.now) (frame_cells_of celled.now)) }
    requires askable { IsFrameAskable celled.now.question.now.passive.now }
    ensures { IfOk result (λ r. AreJudged celled.now values.now r) }
{
    match meaning_of(alloc, celled, values)? {
        Meaning::Shown(segments) => Ok(Round::Answered(FrameAnswered::Sat(segments))),
        Meaning::Broken(broken) => Ok(Round::Broken(broken)),
    }
}

/// One round of a question over the bytes of the file at some addresses and those of its literals, which are all known. The error is want of memory.
pub fn one_round(
    alloc: Global,
    question: &Question,
    added: &[u32],
    conflicts: u64,
) -> Result<Round, AllocError>
    requires some { 1 ≤ conflicts }
    requires askable { IsFrameAskable question.now.passive.now }
    requires tells { TellsQuestion (frame_of_question question.now) (heads_of_question question.now) (frame_question_of question.now) (term_of question.now) }
    requires added { AreAdded (frame_of_question question.now).known added.now }
    ensures { IfOk result (λ r. IsRound question.now added.now conflicts r) }
{
    let celled = frame_cells(alloc, question, added)?;
    let clauses = blast_frame(alloc, &celled)?;
    match solve(alloc, &clauses, conflicts)? {
        Answer::Sat(values) => {
            let judged = judge_values(alloc, &celled, &values)?;
            Ok(judged)
        }
        Answer::Unsat(log) => Ok(Round::Answered(FrameAnswered::Refuted(Proof { clauses, log }))),
        Answer::Spent(log) => Ok(Round::Answered(FrameAnswered::Spent(Proof { clauses, log }))),
    }
}
