//! Heads, and one step of a run that is cut there.
ghost use Rattle.std.specs.Prelude.{◌≡◌, ◌==◌, IfOk, OnOk, map, nat_eq, reverse};
ghost use Rattle.std.specs.List.{list_any};
ghost use Rattle.std.specs.List.Sorted.{IsStrictlyIncreasing};
ghost use Rattle.word_spec.specs.Memory as memory;
ghost use Rattle.bilv_spec.specs.Run.{Program as Tables, false_assert as first_false};
ghost use Rattle.frame_spec.specs.Frames as frames;
ghost use Rattle.frame_spec.specs.FrameRuns as runs;
ghost use Rattle.frame_spec.specs.FrameFound.{found_by};
ghost use Rattle.notes_value.specs.NoteViews.{assert_of, notes_of};
ghost use Rattle.notes_index.specs.Indexed.{AreIndexed, IsIndex, assert_places};
ghost use Rattle.state_text.specs.Starts.{event_of};
ghost use Rattle.program_value.specs.Programs.{program_of};
ghost use Rattle.state_text.specs.Starts.{frame_event_of};
ghost use Rattle.table_run.specs.WatchedRuns.{frame_step_in};
ghost use Rattle.trace_spec.specs.Seen.{left_in};
ghost use Rattle.table_run.specs.FrameEnds.{frame_of, frame_found_of, IsFrameStepEnd};

use crate::ending::{FrameEnding, FrameStepEnd, StepEnd};
use crate::lines::false_assert;
use crate::steps::step;
use byte_mem::View;
use machine_law::Machine;
use notes_index::{Index, group};
use notes_value::Assert;
use program_value::Program;
use state_text::{Event, FrameEvent};
use std::alloc::AllocError;

/// The line is one of these, which rise: by binary search.
pub(crate) fn is_line(line: u64, lines: &[u32]) -> bool
    requires { IsStrictlyIncreasing lines.now }
    ensures { result ≡ list_any (nat_eq line) lines.now }
{
    let i = lines.partition_point(|x| u64::from(*x) < line);
    if i == lines.len() {
        return false;
    }
    line == lines[i] as u64
}

/// One of the assert lines of the address is an invariant. Two binary searches, and one for each assert line of the address.
fn has_invariant(asserts: &[Assert], index: &[(u32, usize)], invariants: &[u32], at: u32) -> bool
    requires index { IsIndex (assert_places asserts.now) index.now }
    requires rising { IsStrictlyIncreasing invariants.now }
    ensures { (p : Tables) → result ≡ list_any (λ x. x.at == at) (frames.invariants_of (frame_of p invariants.now) (map assert_of asserts.now)) }
{
    let (low, high) = group(index, at);
    for i in low..high {
        if is_line(asserts[index[i].1].line as u64, invariants) {
            return true;
        }
    }
    false
}

/// The address is a head. Nothing is sought where there are no invariants.
pub(crate) fn is_head<M: Machine>(
    p: &Program<M>,
    index: &Index,
    invariants: &[u32],
    at: u32,
) -> bool
    requires index { AreIndexed p.now.notes.now index.now }
    requires rising { IsStrictlyIncreasing invariants.now }
    ensures { result ≡ frames.is_head (frame_of (program_of p.now) invariants.now) at }
{
    if invariants.is_empty() {
        return false;
    }
    has_invariant(&p.notes.asserts, &index.asserts, invariants, at)
}

/// An event of a step, where assert lines may be invariants.
pub(crate) fn frame_event(event: Event, invariants: &[u32]) -> FrameEvent
    requires { IsStrictlyIncreasing invariants.now }
    ensures { (p : Tables) → frame_event_of result ≡ frames.event_of (frame_of p invariants.now) (event_of event) }
{
    match event {
        Event::AssertFails { line } => {
            if is_line(line, invariants) {
                return FrameEvent::InvariantFails { line };
            }
            FrameEvent::OfStep(event)
        }
        _ => FrameEvent::OfStep(event),
    }
}

/// One step under a choice, for a run that began in the state at entry. The state and the stack, whose last address is the top, are those that the step leaves.
/// The error is want of memory.
pub(crate) fn frame_step<M: Machine>(
    p: &Program<M>,
    index: &Index,
    invariants: &[u32],
    entry: &M::State,
    state: &mut M::State,
    stack: &mut Vec<u32>,
    choice: u8,
) -> Result<FrameStepEnd, AllocError>
    requires index { AreIndexed p.now.notes.now index.now }
    requires rising { IsStrictlyIncreasing invariants.now }
    ensures end { IfOk result (λ end. IsFrameStepEnd end (M.State.view state.new) (reverse stack.new.items)
        (runs.frame_step (frame_of (program_of p.now) invariants.now) (M.State.view entry.now)
        (record { state = M.State.view state.old; stack = reverse stack.old.items }) choice)) }
    ensures left { OnOk result (M.State.view state.new ≡ left_in (program_of p.now) (M.State.view entry.now) (M.State.view state.old) choice) }
{
    match step::<M>(p, index, entry, state, stack, choice)? {
        StepEnd::Stops(event) => Ok(FrameStepEnd::Halts(frame_event(event, invariants))),
        StepEnd::Exits => Ok(FrameStepEnd::Leaves),
        StepEnd::Arrives => {
            if is_head(p, index, invariants, state.pc()) {
                return Ok(FrameStepEnd::Reaches);
            }
            Ok(FrameStepEnd::GoesTo)
        }
    }
}

/// The arrival at a head in a state, which is the step of a number: it is judged by the assert lines there.
pub(crate) fn arrival<M: Machine>(
    p: &Program<M>,
    index: &Index,
    invariants: &[u32],
    entry: &M::State,
    state: &M::State,
    step: u64,
) -> FrameEnding
    requires index { AreIndexed p.now.notes.now index.now }
    requires rising { IsStrictlyIncreasing invariants.now }
    ensures number { frame_step_in result ≡ step }
    ensures found { (before : runs.Run) → frame_found_of result ≡ found_by before (runs.arrival (frame_of (program_of p.now) invariants.now)
        (first_false M.machine.endian (notes_of p.now.notes.now).asserts (M.State.view state.now) (M.State.view entry.now)) step (M.State.view state.now).pc) }
{
    let at = state.pc();
    match false_assert(&p.notes.asserts, &index.asserts, state, entry, p.big) {
        None => FrameEnding::Cut { at, step },
        Some(line) => FrameEnding::Failed {
            event: frame_event(Event::AssertFails { line: line as u64 }, invariants),
            at,
            step,
        },
    }
}
