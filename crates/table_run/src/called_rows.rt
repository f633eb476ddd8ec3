//! The step of a row in a frame that steps over contracts.
ghost use Rattle.std.specs.Prelude.{◌≡◌, ◌≤◌, ◌&&◌, List, true, IfOk, OnOk, None, Option, Some, is_some, length, map, reverse, if◌then◌else◌};
ghost use Rattle.std.specs.Option.{option_map};
ghost use Rattle.word_spec.specs.Memory as memory;
ghost use Rattle.word_spec.specs.Memory.{Endian};
ghost use Rattle.word_spec.specs.State.{State};
ghost use Rattle.machine_spec.specs.Machine.{addresses};
ghost use Rattle.bilv_spec.specs.Run as meaning;
ghost use Rattle.bilv_spec.specs.Run.{Place, row_at};
ghost use Rattle.frame_spec.specs.Frames as frames;
ghost use Rattle.frame_spec.specs.Frames.{Contract as ContractMeant, stored_by_row};
ghost use Rattle.frame_spec.specs.FrameRuns as runs;
ghost use Rattle.frame_spec.specs.FrameRuns.{frame_step, leaves_by, links_by, unless_outside};
ghost use Rattle.notes_value.specs.FrameViews.{contract_of};
ghost use Rattle.notes_value.specs.Reads.{IsReadableContract};
ghost use Rattle.state_text.specs.Starts.{event_of};
ghost use Rattle.program_value.specs.Programs.{program_of};
ghost use Rattle.trace_spec.specs.Seen.{left_in};
ghost use Rattle.table_run.specs.CalledFrames.{landed, IsCalled, IsLeft, IsOwnAt, IsRowEnd, IsRunnable, called_event_of, called_frame, frame_in, own_of};

use crate::changes::{contract_at, has_changed};
use crate::ending::{CalledEvent, CalledStepEnd, StepEnd};
use crate::frame::{CallFrame, Own};
use crate::lines::false_line;
use crate::spans::{Span, is_outside};
use crate::steps::{exit, walk};
use crate::words::decoded_at;
use byte_mem::View;
use file_words::fetchable;
use machine_law::{Machine, length};
use program_value::Program;
use state_text::Event;
use std::alloc::AllocError;

/// What is known of the row of a place before its step: whether it stores a byte that the frame's contract may not write, and whether its call keeps its return
/// address in the link register.
#[derive(Clone, Copy)]
struct Ahead {
    outside: bool,
    links: bool,
}

/// The instruction at the address of a state, where it may be fetched.
pub(crate) fn row_there<M: Machine>(p: &Program<M>, state: &M::State) -> Option<M::Insn>
    ensures { option_map M.Machine.row result
        ≡ row_at (program_of p.now) ((program_of p.now).word (M.State.view state.now)) (M.State.view state.now).pc }
{
    let at = state.pc();
    let word = decoded_at::<M>(p, state, at);
    if !fetchable(p.image, at, length::<M>(word)) {
        return None;
    }
    M::decode(word)
}

/// One of the bytes that are stored, so many from an address on, is none that the frame's contract may write, if it has one.
fn stores_outside(own: Option<Own>, stored: Option<(u32, u8)>) -> bool
    ensures { (e : Endian) (entry : State) → IsOwnAt e own.entry entry → result ≡ frames.is_outside (own_of own.entry) e entry (addresses stored) }
{
    let Some(own) = own else {
        return false;
    };
    match stored {
        None => false,
        Some((first, count)) => is_outside(
            own.spans,
            Span {
                first,
                count: u32::from(count),
            },
        ),
    }
}

/// What is known of the row at the address of a state.
fn look_ahead<M: Machine>(frame: &CallFrame<M>, state: &M::State) -> Ahead
    ensures outside { (entry : State) → IsOwnAt M.machine.endian frame.now.own entry →
        result.outside ≡ frames.is_outside (own_of frame.now.own) M.machine.endian entry (stored_by_row (row_at (program_of frame.now.program)
        ((program_of frame.now.program).word (M.State.view state.now)) (M.State.view state.now).pc) (M.State.view state.now)) }
    ensures links { result.links ≡ links_by (row_at (program_of frame.now.program)
        ((program_of frame.now.program).word (M.State.view state.now)) (M.State.view state.now).pc) }
{
    match row_there::<M>(&frame.program, state) {
        None => Ahead {
            outside: false,
            links: false,
        },
        Some(insn) => Ahead {
            outside: stores_outside(frame.own, M::stored(&insn, state)),
            links: M::links(&insn),
        },
    }
}

/// An event of a step, or that of a byte that is stored outside of what the frame's contract may write, where it is judged later.
fn halted(outside: bool, event: Event) -> CalledEvent
    ensures { (p : meaning.Program) (stepped : List ContractMeant) (own : Option ContractMeant) (entry : State) (c : Place) →
        unless_outside outside (called_frame p stepped own) entry c (meaning.Stops (event_of event)) ≡ runs.Halts (called_event_of result) }
{
    if !outside {
        return CalledEvent::OfStep(event);
    }
    match event {
        Event::AssertFails { .. } => CalledEvent::OfStep(event),
        Event::FetchFails => CalledEvent::OfStep(event),
        Event::NoRow => CalledEvent::OfStep(event),
        Event::HalfwordFails => CalledEvent::OfStep(event),
        Event::CodeWritten => CalledEvent::OfStep(event),
        Event::Trapped => CalledEvent::WritesFails,
        Event::AlignFails => CalledEvent::WritesFails,
        Event::JumpFails => CalledEvent::WritesFails,
        Event::EnsureFails { .. } => CalledEvent::WritesFails,
    }
}

/// The exit of a contract's frame in a state, judged by what the contract gives and then by what it may change.
fn leave_own<M: Machine>(own: Own, big: bool, entry: &M::State, state: &M::State) -> CalledStepEnd
    requires order { memory.endian big ≡ M.machine.endian }
    requires readable { IsReadableContract M.State.has_register (contract_of own.contract.now) }
    ensures { (f : frames.Frame) → f.program.machine ≡ M.machine → IsLeft result
        (leaves_by (Some (contract_of own.entry.contract.now)) f (M.State.view entry.now) (M.State.view state.now)) }
{
    if let Some(line) = false_line(&own.contract.gives, state, entry, big) {
        return CalledStepEnd::Halts(CalledEvent::GivesFails { line });
    }
    if has_changed::<M>(own.contract, entry, state) {
        return CalledStepEnd::Halts(CalledEvent::ModifiesFails);
    }
    CalledStepEnd::Leaves
}

/// The exit of the entry's frame in a state, judged by the ensure lines.
fn leave_entry<M: Machine>(p: &Program<M>, entry: &M::State, state: &M::State) -> CalledStepEnd
    ensures { (stepped : List ContractMeant) (c : Place) → IsLeft result (runs.settles (called_frame (program_of p.now) stepped None)
        (M.State.view entry.now) c (meaning.exit (program_of p.now) (M.State.view entry.now) (M.State.view state.now))) }
{
    match exit::<M>(p, entry, state) {
        StepEnd::Stops(event) => CalledStepEnd::Halts(CalledEvent::OfStep(event)),
        StepEnd::Arrives => CalledStepEnd::Leaves,
        StepEnd::Exits => CalledStepEnd::Leaves,
    }
}

/// The exit of a frame in a state.
fn leave<M: Machine>(frame: &CallFrame<M>, entry: &M::State, state: &M::State) -> CalledStepEnd
    requires { IsRunnable frame.now }
    ensures { (c : Place) → IsLeft result (runs.settles (frame_in frame.now) (M.State.view entry.now) c
        (meaning.exit (frame_in frame.now).program (M.State.view entry.now) (M.State.view state.now))) }
{
    match frame.own {
        None => leave_entry::<M>(&frame.program, entry, state),
        Some(own) => leave_own::<M>(own, frame.program.big, entry, state),
    }
}

/// The step goes on to the start of a contract that is stepped over, by a call that keeps its return address in the link register.
fn is_called<M: Machine>(frame: &CallFrame<M>, links: bool, deeper: bool, to: u32) -> bool
    ensures { result ≡ (is_some (frames.contract_at (map contract_of frame.now.stepped.now) to) && deeper && links) }
{
    if !links {
        return false;
    }
    if !deeper {
        return false;
    }
    contract_at(frame.stepped, to).is_some()
}

/// The exit of a frame in a state, unless the step stores outside of what its contract may write.
fn leave_within<M: Machine>(
    frame: &CallFrame<M>,
    outside: bool,
    entry: &M::State,
    state: &M::State,
) -> CalledStepEnd
    requires { IsRunnable frame.now }
    ensures { (c : Place) → IsLeft result (if outside then runs.Halts frames.WritesFails else runs.settles (frame_in frame.now)
        (M.State.view entry.now) c (meaning.exit (frame_in frame.now).program (M.State.view entry.now) (M.State.view state.now))) }
{
    if outside {
        return CalledStepEnd::Halts(CalledEvent::WritesFails);
    }
    leave::<M>(frame, entry, state)
}

/// The step goes on to an address, unless it stores outside of what the frame's contract may write.
fn land<M: Machine>(frame: &CallFrame<M>, ahead: Ahead, deeper: bool, to: u32) -> CalledStepEnd
    ensures { result ≡ landed ahead.outside (is_some (frames.contract_at (map contract_of frame.now.stepped.now) to) && deeper && ahead.links) }
{
    if ahead.outside {
        return CalledStepEnd::Halts(CalledEvent::WritesFails);
    }
    if is_called(frame, ahead.links, deeper, to) {
        return CalledStepEnd::Calls;
    }
    CalledStepEnd::GoesTo
}

/// The step of the row at a place under a choice, in a run of a frame that began in the state at entry. The state and the stack, whose last address is the top,
/// are those that the step leaves. The error is want of memory.
pub(crate) fn row_turn<M: Machine>(
    frame: &CallFrame<M>,
    entry: &M::State,
    state: &mut M::State,
    stack: &mut Vec<u32>,
    choice: u8,
) -> Result<CalledStepEnd, AllocError>
    requires frame { IsRunnable frame.now }
    requires own { IsOwnAt M.machine.endian frame.now.own (M.State.view entry.now) }
    ensures end { IfOk result (λ end. IsRowEnd end (M.State.view state.new) (reverse stack.new.items)
        (frame_step (frame_in frame.now) (M.State.view entry.now)
        (record { state = M.State.view state.old; stack = reverse stack.old.items }) choice)) }
    ensures called { IfOk result (λ end. IsCalled end → is_some (frames.contract_at (map contract_of frame.now.stepped.now)
        (M.State.view state.new).pc) ≡ true) }
    ensures deeper { IfOk result (λ end. IsCalled end → 1 ≤ length stack.new.items) }
    ensures left { OnOk result (M.State.view state.new ≡ left_in (program_of frame.now.program) (M.State.view entry.now) (M.State.view state.old) choice) }
{
    let ahead = look_ahead::<M>(frame, state);
    let depth = stack.len();
    match walk::<M>(&frame.program, frame.index, entry, state, stack, choice)? {
        StepEnd::Stops(event) => Ok(CalledStepEnd::Halts(halted(ahead.outside, event))),
        StepEnd::Exits => Ok(leave_within::<M>(frame, ahead.outside, entry, state)),
        StepEnd::Arrives => {
            let deeper = stack.len() > depth;
            Ok(land(frame, ahead, deeper, state.pc()))
        }
    }
}
