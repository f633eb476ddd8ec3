//! The cells of a question.

ghost use Rattle.std.specs.Prelude.{◌≡◌, ℕ, ◌<◌, Some, length, slice_index, Contains, IfOk};
ghost use Rattle.term_spec.specs.Terms.{HasWidth};
ghost use Rattle.walk_spec.specs.Unrolled.{byte_of_runs};
ghost use Rattle.term_spec.specs.WalkQuestions as walks;
ghost use Rattle.term_spec.specs.WalkQuestions.{Room};
ghost use Rattle.frame_terms.specs.PassiveFrames as frames;
ghost use Rattle.frame_terms.specs.HeadlessTerms.{as_cells};
ghost use Rattle.term_dag.specs.declared.nodes.Term.{Term};
ghost use Rattle.question_form.specs.Questions.{program_of_question, term_of};
ghost use Rattle.question_form.specs.FrameQuestions.{frame_of_question, heads_of_question};
ghost use Rattle.question_form.specs.FrameQuestions as questions;
ghost use Rattle.question_form.specs.FrameViews.{IsHeadless};
ghost use Rattle.mem_cells.specs.Views.{cells_of, AreCellsOf};
ghost use Rattle.mem_cells.specs.FrameViews.{frame_cells_of, AreFrameCellsOf};
ghost use Rattle.mem_cells.specs.Words.{IsWordAt, AreCellsWithWords};
ghost use Rattle.mem_cells.specs.Parts.{CountsGifts};
ghost use Rattle.mem_cells.specs.Tells.{AreMadeOf};

use crate::asking::ask_bytes;
use crate::building::Build;
use crate::cells::{Celled, CelledWords};
use crate::file_bytes::asked_bytes;
use crate::lowering::lower_all;
use crate::parts::{parts_read, reads_of};
use crate::ties::agreements;
use question_form::Question;
use std::alloc::{AllocError, Global};
use std::collections::BTreeMap;
use term_dag::{Dag, Term};

/// Whether a question is of head states, which its frame has.
fn is_of_heads(question: &Question) -> bool
    ensures { result ≡ questions.is_of_heads question.now }
{
    if question.passive.unrolled.heads {
        return question.asked.speaks_of_heads();
    }
    false
}

/// The cells of a question of a frame, in which those known bytes are asked that were added, and the four of each literal's word, with the places of some words
/// of the question.
fn made<'a>(
    alloc: Global,
    question: &'a Question<'a>,
    words: &[Term],
    added: &[u32],
) -> Result<CelledWords<'a>, AllocError>
    requires named { frames.AreNamedBelow (frame_of_question question.now) (heads_of_question question.now) 0 (term_of question.now).nodes }
    requires root { HasWidth (term_of question.now).nodes 1 (term_of question.now).root }
    requires words { (t : Term) → Contains words.now t → IsWordAt (term_of question.now).nodes t.0 }
    requires bytes { (a b : ℕ) → byte_of_runs (frame_of_question question.now).known a ≡ Some b → b < 256 }
    requires gifts { CountsGifts (frame_of_question question.now) }
    ensures { IfOk result (λ c. AreMadeOf question.now words.now added.now c) }
{
    let mut build = Build {
        question,
        dag: Dag::new(alloc),
        addresses: Vec::new(alloc),
        seen: BTreeMap::new(alloc),
    };
    let lowered = lower_all(&mut build, alloc)?;
    let root = lowered.word(question.root);
    let words = lowered.words_for(alloc, words)?;
    let parts = parts_read(alloc, &build)?;
    let agrees = agreements(&mut build, alloc, &parts)?;
    let unrolled = question.passive.unrolled;
    let of_heads = is_of_heads(question);
    let file = asked_bytes(
        alloc,
        &unrolled.known,
        &unrolled.literals,
        added,
        of_heads,
        unrolled.kept,
    )?;
    let asked = ask_bytes(&mut build, alloc, &parts, &file)?;
    let reads = reads_of(alloc, &parts)?;
    let Build { dag, addresses, .. } = build;
    let celled = Celled {
        question,
        dag,
        addresses,
        reads,
        agrees,
        asked,
        root,
    };
    Ok(CelledWords { celled, words })
}

/// The cells of a question of a frame, in which those known bytes are asked that were added, and the four of each literal's word: of the entry's memory all of
/// them, of the head's those that are kept, if the question is of head states, and of what is given none. An address that is not known is not asked.
///
/// # Errors
///
/// Out of memory; more terms or base reads than 32 bits number are the same error.
pub fn frame_cells<'a>(
    alloc: Global,
    question: &'a Question<'a>,
    added: &[u32],
) -> Result<Celled<'a>, AllocError>
    requires terms { frames.AreTermsWithin (frame_of_question question.now) (heads_of_question question.now)
        (frames.question_room (frame_of_question question.now) (heads_of_question question.now)) (term_of question.now).nodes }
    requires root { HasWidth (term_of question.now).nodes 1 (term_of question.now).root }
    requires bytes { (a b : ℕ) → byte_of_runs (frame_of_question question.now).known a ≡ Some b → b < 256 }
    requires gifts { CountsGifts (frame_of_question question.now) }
    requires rising { (i j : ℕ) → i < j → j < length added.now → slice_index added.now i < slice_index added.now j }
    ensures { IfOk result (λ c. AreFrameCellsOf question.now added.now c) }
{
    let CelledWords { celled, .. } = made(alloc, question, &[], added)?;
    Ok(celled)
}

/// The cells of a question, in which those known bytes are asked that were added, and the four of each literal's word, with the places of some words of the
/// question. An address that is not known is not asked. The terms may load any number of bytes: there are no more base reads.
///
/// # Errors
///
/// Out of memory; more terms or base reads than 32 bits number are the same error.
pub fn cells_with_words<'a>(
    alloc: Global,
    question: &'a Question<'a>,
    words: &[Term],
    added: &[u32],
) -> Result<CelledWords<'a>, AllocError>
    requires headless { IsHeadless question.now.passive.now.unrolled.now }
    requires terms { (room : Room) × walks.AreTermsWithin (program_of_question question.now) room (term_of question.now).nodes }
    requires root { HasWidth (term_of question.now).nodes 1 (term_of question.now).root }
    requires words { (t : Term) → Contains words.now t → IsWordAt (term_of question.now).nodes t.0 }
    requires bytes { (a b : ℕ) → byte_of_runs (program_of_question question.now).known a ≡ Some b → b < 256 }
    ensures cells { IfOk result (λ c. AreCellsWithWords question.now words.now added.now c) }
    ensures flat { IfOk result (λ c. frame_cells_of c.celled ≡ as_cells (cells_of c.celled)) }
{
    let cells = made(alloc, question, words, added)?;
    Ok(cells)
}

/// The cells of a question, in which those known bytes are asked that were added, and the four of each literal's word. An address that is not known is not
/// asked.
///
/// # Errors
///
/// Out of memory; more terms or base reads than 32 bits number are the same error.
pub fn cells_some<'a>(
    alloc: Global,
    question: &'a Question<'a>,
    added: &[u32],
) -> Result<Celled<'a>, AllocError>
    requires headless { IsHeadless question.now.passive.now.unrolled.now }
    requires terms { walks.AreTermsWithin (program_of_question question.now) (walks.question_room (program_of_question question.now))
        (term_of question.now).nodes }
    requires root { HasWidth (term_of question.now).nodes 1 (term_of question.now).root }
    requires bytes { (a b : ℕ) → byte_of_runs (program_of_question question.now).known a ≡ Some b → b < 256 }
    requires rising { (i j : ℕ) → i < j → j < length added.now → slice_index added.now i < slice_index added.now j }
    ensures cells { IfOk result (λ c. AreCellsOf question.now added.now c) }
    ensures flat { IfOk result (λ c. frame_cells_of c ≡ as_cells (cells_of c)) }
{
    let CelledWords { celled, .. } = cells_with_words(alloc, question, &[], added)?;
    Ok(celled)
}
