//! The contract steps of the segments of roots, by their steps.
ghost use Rattle.std.specs.Prelude.{◌≡◌, ◌++◌, ℕ, Bool, List, true, [], ◌∷◌, ◌<◌, if◌then◌else◌, length, slice_index_or, IfOk, OnOk};
ghost use Rattle.term_dag.specs.declared.nodes.Term.{Term};
ghost use Rattle.question_form.specs.FrameViews.{is_contract};
ghost use Rattle.frame_start.specs.declared.parts.Parts.{Parts};
ghost use Rattle.frame_start.specs.Met.{IsMet, call_steps, is_gift, is_met_of};
ghost use Rattle.frame_start.specs.Segments.{AreCallsOf, AreCallsTo, IsFrameAskable};

use crate::changed::is_contract_step;
use crate::choices::{can_be_shown, is_met};
use crate::met::Met;
use mem_cells::Celled;
use question_form::{Deed, Point};
use std::alloc::{AllocError, Global};
use term_dag::Term;

/// Lists a step and its place, if a contract step is made there.
fn list_call(
    calls: &mut Vec<(u64, usize)>,
    deed: Deed,
    step: u64,
    place: usize,
) -> Result<(), AllocError>
    ensures { OnOk result (calls.new.items ≡ (if is_contract deed then calls.old.items ++ (step, place) ∷ [] else calls.old.items)) }
{
    if is_contract_step(deed) {
        calls.push((step, place))?;
        return Ok(());
    }
    Ok(())
}

/// The contract points of a root that are met, each by the number of met points of the root before it. A point is met where its term has the word 1. The error is
/// want of memory.
fn calls_by_step(
    alloc: Global,
    points: &[Point],
    met: &[Term],
    words: &[u64],
    root: usize,
) -> Result<Vec<(u64, usize)>, AllocError>
    requires points { length points.now ≡ length met.now }
    requires within { (i : ℕ) (d : Term) → i < length met.now → (slice_index_or met.now i d).0 < length words.now }
    ensures { IfOk result (λ xs. xs.items ≡ call_steps (is_met_of points.now root met.now words.now) (is_gift points.now) (length met.now)) }
{
    let mut listed = Vec::new(alloc);
    let mut step = 0u64;
    for i in 0..met.len() {
        if is_met(points, met, words, root, i) {
            list_call(&mut listed, points[i].deed, step, i)?;
            step += 1;
        }
    }
    Ok(listed)
}

/// The contract steps of the segment of a root: the step of each contract point that is met on it, and its place; none if the segment cannot be shown, or no term
/// was read. The error is want of memory.
fn calls_of_root(
    alloc: Global,
    c: &Celled,
    met: &Met,
    root: usize,
) -> Result<Vec<(u64, usize)>, AllocError>
    requires askable { IsFrameAskable c.now.question.now.passive.now }
    requires words { met.now.needed ≡ true → length met.now.words.items ≡ length c.now.question.now.passive.now.dag }
    requires within { root < length c.now.question.now.passive.now.unrolled.now.roots.items }
    ensures { IfOk result (λ xs. (values : List Bool) (p : Parts) → IsMet c.now values p met.now → AreCallsOf c.now values p root xs.items) }
{
    if !met.needed {
        return Ok(Vec::new(alloc));
    }
    if can_be_shown(c.question, root) {
        let passive = c.question.passive;
        let points = &passive.unrolled.points;
        let calls = calls_by_step(alloc, points, &passive.met, &met.words, root)?;
        return Ok(calls);
    }
    Ok(Vec::new(alloc))
}

/// The contract steps of the segment of each root. The error is want of memory.
pub fn calls_of_roots(
    alloc: Global,
    c: &Celled,
    met: &Met,
) -> Result<Vec<Vec<(u64, usize)>>, AllocError>
    requires askable { IsFrameAskable c.now.question.now.passive.now }
    requires words { met.now.needed ≡ true → length met.now.words.items ≡ length c.now.question.now.passive.now.dag }
    ensures { IfOk result (λ xs. (values : List Bool) (p : Parts) → IsMet c.now values p met.now →
        AreCallsTo c.now values p (length c.now.question.now.passive.now.unrolled.now.roots.items) xs.items) }
{
    let mut calls = Vec::new(alloc);
    for root in 0..c.question.passive.unrolled.roots.len() {
        calls.push(calls_of_root(alloc, c, met, root)?)?;
    }
    Ok(calls)
}
