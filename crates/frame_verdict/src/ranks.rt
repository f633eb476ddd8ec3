//! The frames of a program by their ranks, unrolled: those of its contracts in their order, and last the function's own.
ghost use Rattle.std.specs.Prelude.{◌≡◌, ◌≤◌, ◌<◌, ◌^◌, Contains, IfErr, IfOk, length};
ghost use Rattle.program_value.specs.Programs.{program_of};
ghost use Rattle.bilv_spec.specs.Notes.{Assert};
ghost use Rattle.notes_value.specs.NoteViews.{notes_of};
ghost use Rattle.notes_value.specs.declared.notes.Contract.{Contract as Listed};
ghost use Rattle.program_points.specs.Listed.{HasTooMany};
ghost use Rattle.unroller.specs.Frames.{parts_frame};
ghost use Rattle.frame_verdict.specs.FrameFunctions.{AreNotesTo, CanUnroll, IsNotesAt, contracts_of, frame_at};
ghost use Rattle.frame_verdict.specs.FrameMeasures.{IsFrameUnrolled};

use crate::framed::Framed;
use flow_graph::descend;
use machine_law::Machine;
use notes_value::Notes;
use program_points::PointsFault;
use question_form::Unrolled;
use rank_notes::contract_notes;
use std::alloc::{AllocError, Global};
use unroller::{FrameParts, unroll_contracted};

/// Assert lines are at addresses of 32 bits.
fn places_are_words(notes: &Notes)
    ensures { (a : Assert) → Contains (notes_of notes.now).asserts a → a.at < 2 ^ 32 }
{
    for line in &notes.asserts {
        let at = line.at;
        prove!(at <= u32::MAX);
    }
}

/// What makes the frame of the program's function, with the notes that are the frame's.
fn entry_parts<'a, M: Machine>(framed: &Framed<'a, M>, notes: &'a Notes) -> FrameParts<'a, M>
    requires runs { CanUnroll framed.now }
    requires notes { IsNotesAt framed.now (length framed.now.contracts.now) (notes_of notes.now) }
    ensures frame { parts_frame (program_of result.program) result ≡ frame_at framed.now (length framed.now.contracts.now) }
    ensures notes { result.program.notes.now ≡ notes.now }
    ensures contracts { result.contracts.now ≡ framed.now.contracts.now }
    ensures stepped { result.stepped.now ≡ framed.now.contracts.now }
{
    let program = framed.program.with_function(notes, framed.program.entry);
    FrameParts {
        program,
        invariants: framed.invariants,
        stepped: framed.contracts,
        own: None,
        contracts: framed.contracts,
    }
}

/// What makes the frame of the contract of a rank, with the notes that are the frame's.
fn own_parts<'a, M: Machine>(
    framed: &Framed<'a, M>,
    notes: &'a Notes,
    rank: usize,
) -> FrameParts<'a, M>
    requires runs { CanUnroll framed.now }
    requires rank { rank < length framed.now.contracts.now }
    requires notes { IsNotesAt framed.now rank (notes_of notes.now) }
    ensures frame { parts_frame (program_of result.program) result ≡ frame_at framed.now rank }
    ensures notes { result.program.notes.now ≡ notes.now }
    ensures contracts { result.contracts.now ≡ framed.now.contracts.now }
    ensures stepped { (x : Listed) → Contains result.stepped.now x → Contains framed.now.contracts.now x }
{
    let own = &framed.contracts[rank];
    let program = framed.program.with_function(notes, own.at);
    FrameParts {
        program,
        invariants: framed.invariants,
        stepped: &framed.contracts[..rank],
        own: Some(own),
        contracts: framed.contracts,
    }
}

/// What makes the frame of a rank, with the notes that are the frame's.
fn parts_of<'a, M: Machine>(
    framed: &Framed<'a, M>,
    notes: &'a Notes,
    rank: usize,
) -> FrameParts<'a, M>
    requires runs { CanUnroll framed.now }
    requires rank { rank ≤ length framed.now.contracts.now }
    requires notes { IsNotesAt framed.now rank (notes_of notes.now) }
    ensures frame { parts_frame (program_of result.program) result ≡ frame_at framed.now rank }
    ensures notes { result.program.notes.now ≡ notes.now }
    ensures contracts { result.contracts.now ≡ framed.now.contracts.now }
    ensures stepped { (x : Listed) → Contains result.stepped.now x → Contains framed.now.contracts.now x }
{
    if rank >= framed.contracts.len() {
        return entry_parts(framed, notes);
    }
    own_parts(framed, notes, rank)
}

/// The notes of the frame of the contract of a rank, in memory of their own. The error is want of memory.
fn notes_of_rank<M: Machine>(
    alloc: Global,
    framed: &Framed<M>,
    rank: usize,
) -> Result<Notes, AllocError>
    requires { rank < length framed.now.contracts.now }
    ensures { IfOk result (λ n. IsNotesAt framed.now rank (notes_of n)) }
{
    let notes = contract_notes(alloc, framed.program.notes, &framed.contracts[rank])?;
    Ok(notes)
}

/// The notes of the frames of all contracts, in the order of their ranks, in memory of their own. The error is want of memory.
pub fn notes_of_contracts<M: Machine>(
    alloc: Global,
    framed: &Framed<M>,
) -> Result<Vec<Notes>, AllocError>
    ensures { IfOk result (λ v. AreNotesTo framed.now (length framed.now.contracts.now) v.items) }
{
    let mut all = Vec::new(alloc);
    for rank in 0..framed.contracts.len() {
        all.push(notes_of_rank(alloc, framed, rank)?)?;
    }
    Ok(all)
}

/// The frame of a rank, unrolled by the notes that are the frame's: those of the file for the function's own.
///
/// # Errors
///
/// `TooMany` with one point more than `max` where there are more points; want of memory.
pub fn unroll_rank<'a, M: Machine>(
    alloc: Global,
    framed: &Framed<'a, M>,
    notes: &'a Notes,
    rank: usize,
    k: u64,
    max: u64,
) -> Result<Unrolled<'a>, PointsFault>
    requires runs { CanUnroll framed.now }
    requires rank { rank ≤ length framed.now.contracts.now }
    requires notes { IsNotesAt framed.now rank (notes_of notes.now) }
    requires k { k ≤ 4096 }
    requires max { max ≤ 16777216 }
    ensures unrolled { IfOk result (IsFrameUnrolled (frame_at framed.now rank) (contracts_of framed.now) k M.form) }
    ensures few { IfOk result (λ u. length u.points.items ≤ max) }
    ensures more { IfErr result (HasTooMany (frame_at framed.now rank) k max) }
{
    framed.program.image.bytes();
    places_are_words(notes);
    let parts = parts_of(framed, notes, rank);
    let graph = descend::<M>(alloc, &parts.program)?;
    unroll_contracted::<M>(alloc, &graph, &parts, k, max)
}
