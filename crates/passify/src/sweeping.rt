//! The passive program of an unrolled one.

ghost use Rattle.std.specs.Prelude.{◌≡◌, ◌<◌, ◌+◌, ◌-◌, ℕ, Option, Some, None, IfOk, length};
ghost use Rattle.walk_spec.specs.Unrolling as tables;
ghost use Rattle.frame_terms.specs.PassiveFrames.{IsPassive, IsWalkable};
ghost use Rattle.question_form.specs.Views.{unrolled_of};
ghost use Rattle.question_form.specs.FrameViews.{IsHeadless, frame_unrolled_of};
ghost use Rattle.question_form.specs.FrameQuestions.{frame_passive_of};
ghost use Rattle.question_form.specs.Forms.{AreRootsFormed, AreStepsFormed, IsFormed};
ghost use Rattle.passify.specs.Handled.{IsSweepOf};
ghost use Rattle.passify.specs.Lasts.{AreCarriedIn, AreCarriedTo};
ghost use Rattle.passify.specs.Made.{IsPassiveIn, IsPassiveOf};
ghost use Rattle.passify.specs.Planted.{AreHeaded};
ghost use Rattle.passify.specs.Spans.{AreOwn};
ghost use Rattle.passify.specs.Sweeps.{AreTermsOf, AreWell};
ghost use Rattle.passify.specs.Swept.{AreSwept, IsPassed};
ghost use Rattle.term_names.specs.declared.names.Names.{Names};

use crate::point::{begins_at_head, handle};
use crate::roots::begin;
use crate::sweep::Sweep;
use question_form::{Passive, Unrolled};
use std::alloc::{AllocError, Global};
use std::mem::replace;
use term_dag::Dag;
use term_names::Names;

/// The greatest number of a place.
const LAST: usize = 4_294_967_295;

/// Events of segments from the entry and from heads change their bits.
fn exchange(sweep: &mut Sweep)
    ensures { sweep.new ≡ record sweep.old { fails = sweep.old.steps; steps = sweep.old.fails } }
{
    let fails = sweep.fails;
    sweep.fails = sweep.steps;
    sweep.steps = fails;
}

/// The point of a place is handled. Its events are those of a segment from a head where its own begins there.
fn pass(
    alloc: Global,
    unrolled: &Unrolled,
    dag: &mut Dag,
    sweep: &mut Sweep,
    place: u32,
    names: &Names,
) -> Result<(), AllocError>
    requires walkable { IsWalkable (frame_unrolled_of unrolled.now) }
    requires formed { IsFormed unrolled.now }
    requires roots { AreRootsFormed unrolled.now }
    requires steps { AreStepsFormed unrolled.now }
    requires place { place < length unrolled.now.points.items }
    requires well { AreWell dag.old sweep.old }
    requires sweep { IsSweepOf unrolled.now sweep.old }
    requires own { AreOwn unrolled.now dag.old sweep.old }
    requires names { AreTermsOf sweep.old.entry dag.old names.now }
    ensures { IfOk result (λ _. IsPassed unrolled.now dag.old dag.new sweep.old sweep.new place names.now) }
{
    if begins_at_head(unrolled, place) {
        exchange(sweep);
        handle(alloc, unrolled, dag, sweep, place, names)?;
        exchange(sweep);
        return Ok(());
    }
    handle(alloc, unrolled, dag, sweep, place, names)?;
    Ok(())
}

/// The point of a place is handled, if it can be met at all. The result are the terms of what is carried to it, if a walk can come to it.
fn visit(
    alloc: Global,
    unrolled: &Unrolled,
    dag: &mut Dag,
    sweep: &mut Sweep,
    place: u32,
) -> Result<Option<Names>, AllocError>
    requires walkable { IsWalkable (frame_unrolled_of unrolled.now) }
    requires formed { IsFormed unrolled.now }
    requires roots { AreRootsFormed unrolled.now }
    requires steps { AreStepsFormed unrolled.now }
    requires place { place < length unrolled.now.points.items }
    requires swept { AreSwept unrolled.now place dag.old sweep.old }
    ensures swept { IfOk result (λ _. AreSwept unrolled.now (place + 1) dag.new sweep.new) }
    ensures carried { IfOk result (λ names. AreCarriedIn (frame_unrolled_of unrolled.now) place dag.new names) }
    ensures kept { (i : ℕ) (names : Option Names) → AreCarriedIn (frame_unrolled_of unrolled.now) i dag.old names →
        IfOk result (λ _. AreCarriedIn (frame_unrolled_of unrolled.now) i dag.new names) }
{
    let met = sweep.met[place as usize];
    let state = replace(&mut sweep.states[place as usize], None);
    match state {
        None => Ok(None),
        Some(names) => {
            if let Some(0) = dag.constant(met) {
                return Ok(Some(names));
            }
            pass(alloc, unrolled, dag, sweep, place, &names)?;
            Ok(Some(names))
        }
    }
}

/// A passive program, and the terms of what is carried to its last place.
#[derive(Drop)]
pub struct ToLast<'a> {
    pub passive: Passive<'a>,
    /// Over the nodes of the passive program; `None` only where no walk comes to the last place.
    pub last: Option<Names>,
}

/// The passive program of an unrolled frame, with the terms of what is carried to its last place.
fn swept<'a>(alloc: Global, unrolled: &'a Unrolled<'a>) -> Result<ToLast<'a>, AllocError>
    requires walkable { IsWalkable (frame_unrolled_of unrolled.now) }
    requires formed { IsFormed unrolled.now }
    requires roots { AreRootsFormed unrolled.now }
    requires steps { AreStepsFormed unrolled.now }
    requires headed { AreHeaded unrolled.now }
    ensures passive { IfOk result (λ t. IsPassiveIn unrolled.now t.passive) }
    ensures last { IfOk result (λ t. AreCarriedIn (frame_unrolled_of unrolled.now) (length unrolled.now.points.items - 1) t.passive.dag t.last) }
{
    let mut dag = Dag::new(alloc);
    let mut sweep = begin(alloc, &mut dag, unrolled)?;
    let mut last = None;
    for place in 0..unrolled.points.len() {
        if place > LAST {
            return Err(AllocError);
        }
        last = visit(alloc, unrolled, &mut dag, &mut sweep, place as u32)?;
    }
    let Sweep {
        met,
        fails,
        steps,
        turns,
        ..
    } = sweep;
    Ok(ToLast {
        passive: Passive {
            unrolled,
            dag,
            met,
            fails,
            steps,
            turns,
        },
        last,
    })
}

/// The passive program of an unrolled frame, of which terms can be made: for each point whether it is met, and whether an event of the entry's segment, one of a
/// segment from a head, or one backward transfer too many comes, where the invariants that roots assume are true. Among its nodes are the states at the points
/// that are met, behind a contract step but for memory that no machine sees.
///
/// # Errors
///
/// Out of memory, or of numbers for places.
pub fn passive_of_frame<'a>(
    alloc: Global,
    unrolled: &'a Unrolled<'a>,
) -> Result<Passive<'a>, AllocError>
    requires walkable { IsWalkable (frame_unrolled_of unrolled.now) }
    requires formed { IsFormed unrolled.now }
    requires roots { AreRootsFormed unrolled.now }
    requires steps { AreStepsFormed unrolled.now }
    requires headed { AreHeaded unrolled.now }
    ensures of { IfOk result (λ p. p.unrolled.now ≡ unrolled.now) }
    ensures passive { IfOk result (λ p. IsPassive (frame_unrolled_of unrolled.now) unrolled.now.heads (frame_passive_of p)) }
    ensures states { IfOk result (IsPassiveIn unrolled.now) }
{
    let ToLast { passive, .. } = swept(alloc, unrolled)?;
    Ok(passive)
}

/// The passive program of an unrolled one, of which terms can be made, with the terms of what is carried to its last place.
///
/// # Errors
///
/// Out of memory, or of numbers for places.
pub fn passive_to_last<'a>(
    alloc: Global,
    unrolled: &'a Unrolled<'a>,
) -> Result<ToLast<'a>, AllocError>
    requires walkable { tables.IsWalkable (unrolled_of unrolled.now) }
    requires formed { IsFormed unrolled.now }
    requires roots { AreRootsFormed unrolled.now }
    requires headless { IsHeadless unrolled.now }
    ensures passive { IfOk result (λ t. IsPassiveOf unrolled.now t.passive) }
    ensures last { IfOk result (λ t. AreCarriedTo (unrolled_of unrolled.now) (length (unrolled_of unrolled.now).points - 1) t.passive.dag t.last) }
{
    let all = swept(alloc, unrolled)?;
    Ok(all)
}

/// The passive program of an unrolled one, of which terms can be made: for each point whether it is met, and whether an event or one backward transfer too many
/// comes. Among its nodes are the states at the points that are met. The error is out of memory, or of numbers for places.
pub fn passive<'a>(alloc: Global, unrolled: &'a Unrolled<'a>) -> Result<Passive<'a>, AllocError>
    requires walkable { tables.IsWalkable (unrolled_of unrolled.now) }
    requires formed { IsFormed unrolled.now }
    requires roots { AreRootsFormed unrolled.now }
    requires headless { IsHeadless unrolled.now }
    ensures { IfOk result (λ p. IsPassiveOf unrolled.now p) }
{
    let ToLast { passive, .. } = passive_to_last(alloc, unrolled)?;
    Ok(passive)
}
