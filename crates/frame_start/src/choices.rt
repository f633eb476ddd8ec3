//! The choices of the segments of roots, by their steps.
ghost use Rattle.std.specs.Prelude.{◌≡◌, ◌==◌, ◌&&◌, ℕ, Bool, List, true, false, ◌<◌, ◌≤◌, length, slice_index, slice_index_or, IfOk};
ghost use Rattle.frame_terms.specs.FrameStarts.{IsWrittenAnchor};
ghost use Rattle.term_dag.specs.declared.nodes.Term.{Term};
ghost use Rattle.question_form.specs.FrameQuestions.{is_of_heads};
ghost use Rattle.question_form.specs.FrameViews.{anchor_at};
ghost use Rattle.bit_blast.specs.Steps as steps;
ghost use Rattle.bit_blast.specs.Steps.{count_met};
ghost use Rattle.frame_start.specs.declared.parts.Parts.{Parts};
ghost use Rattle.frame_start.specs.Met.{IsMet, is_met_of};
ghost use Rattle.frame_start.specs.Segments.{AreChoicesOf, AreChoicesTo, IsFrameAskable};

use crate::met::Met;
use crate::reads::speaks_of_heads;
use bit_blast::list_choice;
use mem_cells::Celled;
use question_form::{Point, Question};
use std::alloc::{AllocError, Global};
use term_dag::Term;

/// Whether a point is of a root, and is met.
pub fn is_met(points: &[Point], met: &[Term], words: &[u64], root: usize, place: usize) -> bool
    requires point { place < length points.now }
    requires term { place < length met.now }
    requires word { (d : Term) → (slice_index_or met.now place d).0 < length words.now }
    ensures { result ≡ is_met_of points.now root met.now words.now place }
{
    if points[place].root as usize != root {
        return false;
    }
    words[met[place].0 as usize] == 1
}

/// The choice of a place; it is 0 after the last.
fn choice_of(choices: &[u8], place: usize) -> u8
    ensures { result ≡ slice_index choices.now place }
{
    if place < choices.len() {
        choices[place]
    } else {
        0
    }
}

/// The choices of the points of a root that are met, each by the number of such points before it; those that are 0 are not listed. A point is met where its term
/// has the word 1. The error is want of memory.
fn choices_by_step(
    alloc: Global,
    points: &[Point],
    met: &[Term],
    words: &[u64],
    root: usize,
    choices: &[u8],
) -> Result<Vec<(u64, u8)>, AllocError>
    requires points { length points.now ≡ length met.now }
    requires within { (i : ℕ) (d : Term) → i < length met.now → (slice_index_or met.now i d).0 < length words.now }
    requires few { (i : ℕ) → slice_index choices.now i ≤ 3 }
    ensures { IfOk result (λ xs. steps.AreChoices (is_met_of points.now root met.now words.now) (slice_index choices.now) (length met.now)
        (count_met (is_met_of points.now root met.now words.now) (length met.now)) xs.items) }
{
    let mut listed = Vec::new(alloc);
    let mut step = 0u64;
    for i in 0..met.len() {
        if is_met(points, met, words, root, i) {
            list_choice(&mut listed, step, choice_of(choices, i))?;
            step += 1;
        }
    }
    Ok(listed)
}

/// Whether the segment of a root can be shown: the entry's can, and a head's where the question speaks of head states.
pub fn can_be_shown(question: &Question, root: usize) -> bool
    requires within { root < length question.now.passive.now.unrolled.now.roots.items }
    ensures shown { result ≡ true → IsWrittenAnchor (is_of_heads question.now) (anchor_at question.now.passive.now.unrolled.now root) }
    ensures other { result ≡ false → ¬ IsWrittenAnchor (is_of_heads question.now) (anchor_at question.now.passive.now.unrolled.now root) }
{
    match question.passive.unrolled.roots[root].head {
        None => true,
        Some(_) => speaks_of_heads(question),
    }
}

/// The choices of the segment of a root by its steps: those that are not 0 of the points that are met on it, and none if it cannot be shown or no term was read. The
/// error is want of memory.
fn choices_of_root(
    alloc: Global,
    c: &Celled,
    met: &Met,
    root: usize,
) -> Result<Vec<(u64, u8)>, AllocError>
    requires askable { IsFrameAskable c.now.question.now.passive.now }
    requires words { met.now.needed ≡ true → length met.now.words.items ≡ length c.now.question.now.passive.now.dag }
    requires few { (i : ℕ) → slice_index met.now.choices.items i ≤ 3 }
    requires within { root < length c.now.question.now.passive.now.unrolled.now.roots.items }
    ensures { IfOk result (λ xs. (values : List Bool) (p : Parts) → IsMet c.now values p met.now → AreChoicesOf c.now values p root xs.items) }
{
    if !met.needed {
        return Ok(Vec::new(alloc));
    }
    if can_be_shown(c.question, root) {
        let passive = c.question.passive;
        let points = &passive.unrolled.points;
        let choices = choices_by_step(alloc, points, &passive.met, &met.words, root, &met.choices)?;
        return Ok(choices);
    }
    Ok(Vec::new(alloc))
}

/// The choices of the segment of each root. The error is want of memory.
pub fn choices_of_roots(
    alloc: Global,
    c: &Celled,
    met: &Met,
) -> Result<Vec<Vec<(u64, u8)>>, AllocError>
    requires askable { IsFrameAskable c.now.question.now.passive.now }
    requires words { met.now.needed ≡ true → length met.now.words.items ≡ length c.now.question.now.passive.now.dag }
    requires few { (i : ℕ) → slice_index met.now.choices.items i ≤ 3 }
    ensures { IfOk result (λ xs. (values : List Bool) (p : Parts) → IsMet c.now values p met.now →
        AreChoicesTo c.now values p (length c.now.question.now.passive.now.unrolled.now.roots.items) xs.items) }
{
    let mut choices = Vec::new(alloc);
    for root in 0..c.question.passive.unrolled.roots.len() {
        choices.push(choices_of_root(alloc, c, met, root)?)?;
    }
    Ok(choices)
}
