//! The questions of a frame within a smaller bound on backward transfers than the budget's. Where no segment makes more than that, they are answered for the
//! budget's bound.
ghost use Rattle.std.specs.Prelude.{◌≡◌, ◌≤◌, ℕ, List, IfOk, IfSome};
ghost use Rattle.call_spec.specs.Calls.{Budget as Budgets};
ghost use Rattle.machine_spec.specs.StateText.{Layout};
ghost use Rattle.frame_spec.specs.Frames.{Contract};
ghost use Rattle.frame_spec.specs.FramePoints.{has_heads};
ghost use Rattle.frame_spec.specs.FrameQuestions.{FailQuestion, TurnQuestion};
ghost use Rattle.frame_spec.specs.FrameVerdict.{Whole, frame_of};
ghost use Rattle.frame_turns.specs.Raised.{free_inputs, over_variables};
ghost use Rattle.asked_bytes.specs.AskedBytes.{AreAdded};
ghost use Rattle.cnf_form.specs.Views.{proof_of};
ghost use Rattle.question_form.specs.FrameViews.{frame_unrolled_of};
ghost use Rattle.question_form.specs.declared.unrolled.Unrolled.{Unrolled};
ghost use Rattle.frame_start.specs.Segments.{IsFrameAskable};
ghost use Rattle.frame_verdict.specs.FewerTurns.{AreNoTurns, ComesTo, IsSmaller, RefutesLater, TurnsNever};
ghost use Rattle.frame_verdict.specs.JudgedFrames.{IsJudged};

use crate::judged::Judged;
use cnf_form::{Cnf, Proof};
use frame_rounds::{FrameAnswered, FrameDecided, decide_frame, decide_frame_from};
use frame_start::Segments;
use question_form::{Asked, Passive};
use std::alloc::{AllocError, Global};

/// What the questions about segments within a smaller bound come to.
#[derive(Drop)]
pub enum NoTurns {
    /// No segment makes more backward transfers, and none fails. There is a head where the question about head states was asked.
    Refuted {
        fail: Proof,
        step: Option<Proof>,
        turn: Proof,
    },
    /// No segment makes more backward transfers, and the entry's fails.
    Fails(Segments),
    /// Some segment makes more backward transfers.
    More,
    /// No segment makes more backward transfers, and one from a head state fails; or the conflicts are spent.
    Open,
}

/// The proof over at least so many variables.
fn over_variables(proof: Proof, least: u64) -> Proof
    ensures { proof_of result ≡ over_variables least (proof_of proof) }
{
    let Proof { clauses, log } = proof;
    let Cnf { variables, clauses } = clauses;
    Proof {
        clauses: Cnf {
            variables: variables.max(least),
            clauses,
        },
        log,
    }
}

/// What the question about head states, if there is a head, within a smaller bound comes to, where the others are refuted. It asks the bytes of the file at some
/// addresses from the beginning; no reading that has those makes more backward transfers. The error is want of memory.
fn ask_steps(
    alloc: Global,
    passive: &Passive,
    conflicts: u64,
    inputs: u64,
    fail: Proof,
    turn: Proof,
    asked: Vec<u32>,
) -> Result<NoTurns, AllocError>
    requires some { 1 ≤ conflicts }
    requires askable { IsFrameAskable passive.now }
    requires added { AreAdded (frame_unrolled_of passive.now.unrolled.now).known asked.items }
    requires fail { RefutesLater passive.now.unrolled.now inputs FailQuestion fail }
    requires turn { RefutesLater passive.now.unrolled.now inputs TurnQuestion turn }
    requires never { TurnsNever passive.now.unrolled.now asked.items }
    ensures { IfOk result (ComesTo passive.now.unrolled.now inputs) }
{
    if !passive.unrolled.heads {
        return Ok(NoTurns::Refuted {
            fail,
            step: None,
            turn,
        });
    }
    let FrameDecided { answered, .. } = decide_frame_from(
        alloc,
        passive,
        Asked::Step,
        conflicts,
        asked,
    )?;
    match answered {
        FrameAnswered::Refuted(step) => {
            let step = over_variables(step, inputs);
            Ok(NoTurns::Refuted {
                fail,
                step: Some(step),
                turn,
            })
        }
        FrameAnswered::Sat(_) => Ok(NoTurns::Open),
        FrameAnswered::Spent(_) => Ok(NoTurns::Open),
    }
}

/// What the fail question, and after it that about head states, within a smaller bound come to, where the turn question is refuted. They ask the bytes of the file
/// at some addresses from the beginning; no reading that has those makes more backward transfers. The error is want of memory.
fn ask_fails(
    alloc: Global,
    passive: &Passive,
    conflicts: u64,
    inputs: u64,
    turn: Proof,
    asked: Vec<u32>,
) -> Result<NoTurns, AllocError>
    requires some { 1 ≤ conflicts }
    requires askable { IsFrameAskable passive.now }
    requires added { AreAdded (frame_unrolled_of passive.now.unrolled.now).known asked.items }
    requires turn { RefutesLater passive.now.unrolled.now inputs TurnQuestion turn }
    requires never { TurnsNever passive.now.unrolled.now asked.items }
    ensures { IfOk result (ComesTo passive.now.unrolled.now inputs) }
{
    let FrameDecided { answered, added } = decide_frame_from(
        alloc,
        passive,
        Asked::Fail,
        conflicts,
        asked,
    )?;
    match answered {
        FrameAnswered::Refuted(fail) => {
            let fail = over_variables(fail, inputs);
            let no_turns = ask_steps(alloc, passive, conflicts, inputs, fail, turn, added)?;
            Ok(no_turns)
        }
        FrameAnswered::Sat(segments) => Ok(NoTurns::Fails(segments)),
        FrameAnswered::Spent(_) => Ok(NoTurns::Open),
    }
}

/// What the questions about segments of a frame that is unrolled for a smaller bound come to for a greater one that has equally many roots, and for which the
/// frame has so many inputs besides bytes: the turn question first, and where it is refuted the others. The error is want of memory.
pub fn ask_turns(
    alloc: Global,
    passive: &Passive,
    conflicts: u64,
    inputs: u64,
) -> Result<NoTurns, AllocError>
    requires some { 1 ≤ conflicts }
    requires askable { IsFrameAskable passive.now }
    ensures { IfOk result (ComesTo passive.now.unrolled.now inputs) }
{
    let none = Vec::new(alloc);
    let FrameDecided { answered, added } = decide_frame_from(
        alloc,
        passive,
        Asked::Turn,
        conflicts,
        none,
    )?;
    match answered {
        FrameAnswered::Refuted(turn) => {
            let turn = over_variables(turn, inputs);
            let no_turns = ask_fails(alloc, passive, conflicts, inputs, turn, added)?;
            Ok(no_turns)
        }
        FrameAnswered::Sat(_) => Ok(NoTurns::More),
        FrameAnswered::Spent(_) => Ok(NoTurns::Open),
    }
}

/// What a frame comes to, no segment of which fails or makes too many backward transfers: it passes, or there is no entry state; none where the conflicts are
/// spent. The error is want of memory.
pub fn ask_entry(
    alloc: Global,
    passive: &Passive,
    conflicts: u64,
    inputs: u64,
    fail: Proof,
    step: Option<Proof>,
    turn: Proof,
) -> Result<Option<Judged>, AllocError>
    requires some { 1 ≤ conflicts }
    requires askable { IsFrameAskable passive.now }
    ensures { (w : Whole) (rank : ℕ) (contracts : List Contract) (k : ℕ) (layout : Layout) (b : Budgets) (whole : Unrolled) →
        IsSmaller (frame_of w rank) contracts k b.unroll layout whole passive.now.unrolled.now →
        inputs ≡ free_inputs (frame_unrolled_of whole) (has_heads (frame_of w rank)) →
        AreNoTurns (frame_of w rank) k b.unroll layout passive.now.unrolled.now (NoTurns.Refuted fail step turn) →
        IfOk result (λ o. IfSome o (IsJudged w rank layout b)) }
{
    let start = match decide_frame(alloc, passive, Asked::Entry, conflicts)? {
        FrameAnswered::Sat(segments) => segments.parts.entry,
        FrameAnswered::Refuted(proof) => {
            let entry = over_variables(proof, inputs);
            return Ok(Some(Judged::Vacuous(entry)));
        }
        FrameAnswered::Spent(_) => return Ok(None),
    };
    match step {
        None => Ok(Some(Judged::Holds { start, fail, turn })),
        Some(step) => Ok(Some(Judged::Partial {
            start,
            fail,
            step,
            turn,
        })),
    }
}
