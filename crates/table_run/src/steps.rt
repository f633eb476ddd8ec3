//! One step of a run.
ghost use Rattle.std.specs.Prelude.{◌≡◌, false, List, true, IfOk, OnOk, reverse, ℕ, if◌then◌else◌};
ghost use Rattle.word_spec.specs.Memory as memory;
ghost use Rattle.word_spec.specs.State.{State};
ghost use Rattle.machine_spec.specs.Machine.{Row};
ghost use Rattle.machine_spec.specs.MachineLaws.{IsLawful, IsWay};
ghost use Rattle.bilv_spec.specs.Run as meaning;
ghost use Rattle.byte_mem.specs.Views.{IsStep};
ghost use Rattle.program_value.specs.Programs.{program_of};
ghost use Rattle.notes_index.specs.Indexed.{AreIndexed};
ghost use Rattle.trace_spec.specs.Seen.{left_by_outcome, left_in};
ghost use Rattle.table_run.specs.Steps.{IsStepEnd, IsBefore, way_of};
ghost use Rattle.table_run.specs.Traces.{unjudged};

use crate::ending::StepEnd;
use crate::jumps::{Before, is_named, look};
use crate::lines::{false_assert, false_line};
use crate::words::{decoded_at, is_place, writes_kept};
use byte_mem::{How, StepOut, View};
use file_words::fetchable;
use machine_law::{Machine, length};
use notes_index::Index;
use program_value::Program;
use state_text::Event;
use std::alloc::AllocError;

/// The exit in a state, judged by the ensure lines.
pub(crate) fn exit<M: Machine>(p: &Program<M>, entry: &M::State, state: &M::State) -> StepEnd
    ensures { (stack : List ℕ) → IsStepEnd result (M.State.view state.now) stack
        (meaning.exit (program_of p.now) (M.State.view entry.now) (M.State.view state.now)) }
{
    match false_line(&p.notes.ensured, state, entry, p.big) {
        None => StepEnd::Exits,
        Some(line) => StepEnd::Stops(Event::EnsureFails { line: line as u64 }),
    }
}

/// The step of an indirect jump that is no call, to the state's address: a return to the stack's top, the exit where the stack is empty, which is not judged,
/// or a named target.
fn leave<M: Machine>(
    p: &Program<M>,
    index: &Index,
    before: Before,
    entry: &M::State,
    state: &M::State,
    stack: &mut Vec<u32>,
) -> StepEnd
    requires index { AreIndexed p.now.notes.now index.now }
    ensures { (row : Row) (old : State) → IsBefore (program_of p.now) row old before → (row.successors old.pc).indirect ≡ true →
        IsStepEnd result (M.State.view state.now) (reverse stack.new.items)
        (meaning.leave (unjudged (program_of p.now)) (M.State.view entry.now) row old (reverse stack.old.items) (M.State.view state.now)) }
{
    let to = state.pc();
    let count = stack.len();
    if count == 0 {
        if to == entry.link() {
            return StepEnd::Exits;
        }
    } else if stack[count - 1] == to {
        stack.truncate(count - 1);
        return StepEnd::Arrives;
    }
    if is_named(&p.notes.targets, &index.targets, before, to) {
        return StepEnd::Arrives;
    }
    StepEnd::Stops(Event::JumpFails)
}

/// The step of a row that went on to a state; an exit is not judged. The error is want of memory.
fn go_on<M: Machine>(
    p: &Program<M>,
    index: &Index,
    before: Before,
    how: Option<How>,
    entry: &M::State,
    state: &M::State,
    stack: &mut Vec<u32>,
) -> Result<StepEnd, AllocError>
    requires index { AreIndexed p.now.notes.now index.now }
    ensures { IfOk result (λ end. (row : Row) (old : State) → IsBefore (program_of p.now) row old before →
        IsWay (row.successors old.pc) (way_of how) (M.State.view state.now).pc →
        IsStepEnd end (M.State.view state.now) (reverse stack.new.items)
        (meaning.going_on false (unjudged (program_of p.now)) (M.State.view entry.now) row old (reverse stack.old.items) (way_of how)
        (M.State.view state.now))) }
{
    let to = state.pc();
    if !is_place::<M>(to) {
        return Ok(StepEnd::Stops(Event::AlignFails));
    }
    match how {
        None => Ok(StepEnd::Arrives),
        Some(How::Direct) => Ok(StepEnd::Arrives),
        Some(How::Indirect) => Ok(leave::<M>(p, index, before, entry, state, stack)),
        Some(How::DirectCall) => {
            stack.push(before.at.wrapping_add(u32::from(before.length)))?;
            Ok(StepEnd::Arrives)
        }
        Some(How::IndirectCall) => {
            if !is_named(&p.notes.targets, &index.targets, before, to) {
                return Ok(StepEnd::Stops(Event::JumpFails));
            }
            stack.push(before.at.wrapping_add(u32::from(before.length)))?;
            Ok(StepEnd::Arrives)
        }
    }
}

/// What a row does to a state under a choice, and how it goes on. The error is want of memory.
fn advance<M: Machine>(
    insn: &M::Insn,
    state: &mut M::State,
    choice: u8,
) -> Result<StepOut, AllocError>
    ensures { IfOk result (λ out. IsStep (M.State.view state.old) (M.State.view state.new) out
        ((M.Machine.row insn.now).effect (M.State.view state.old) choice)) }
{
    M::reserve(state, 64)?;
    let out = M::step(insn, state, choice);
    Ok(out)
}

/// What an exception comes to, where a kept byte would be written or not: an odd address of a halfword is judged before that, and every other one behind it.
fn raised(writes_kept: bool, event: Event) -> StepEnd
    ensures { result ≡ StepEnd.Stops (if writes_kept then Event.CodeWritten else event) }
{
    if writes_kept {
        return StepEnd::Stops(Event::CodeWritten);
    }
    StepEnd::Stops(event)
}

/// The step of an instruction, of so many bytes, under a choice; an exit is not judged. The error is want of memory.
#[tactic(auto, using(crate::proofs::Left::left_is))]
fn row_step<M: Machine>(
    p: &Program<M>,
    index: &Index,
    insn: &M::Insn,
    length: u8,
    entry: &M::State,
    state: &mut M::State,
    stack: &mut Vec<u32>,
    choice: u8,
) -> Result<StepEnd, AllocError>
    requires index { AreIndexed p.now.notes.now index.now }
    requires lawful { IsLawful (M.Machine.row insn.now) }
    requires length { length ≡ (M.Machine.row insn.now).length }
    ensures end { IfOk result (λ end. IsStepEnd end (M.State.view state.new) (reverse stack.new.items)
        (meaning.after_row (unjudged (program_of p.now)) (M.State.view entry.now) (M.Machine.row insn.now) (M.State.view state.old)
        (reverse stack.old.items) (meaning.writes_kept (program_of p.now) (M.Machine.row insn.now) (M.State.view state.old))
        ((M.Machine.row insn.now).effect (M.State.view state.old) choice))) }
    ensures left { OnOk result (M.State.view state.new
        ≡ left_by_outcome (M.State.view state.old) ((M.Machine.row insn.now).effect (M.State.view state.old) choice)) }
{
    let before = look::<M>(p, insn, length, state);
    let writes = writes_kept(p.image, M::stored(insn, state));
    let out = advance::<M>(insn, state, choice)?;
    let how = match out {
        StepOut::Halfword => return Ok(StepEnd::Stops(Event::HalfwordFails)),
        StepOut::Next => None,
        StepOut::Jump { how, .. } => Some(how),
        StepOut::Trap => return Ok(raised(writes, Event::Trapped)),
        StepOut::Align => return Ok(raised(writes, Event::AlignFails)),
    };
    if writes {
        return Ok(StepEnd::Stops(Event::CodeWritten));
    }
    let end = go_on::<M>(p, index, before, how, entry, state, stack)?;
    Ok(end)
}

/// One step under a choice, for a run that began in the state at entry; an exit is not judged. The state and the stack, whose last address is the top, are
/// those that the step leaves. The error is want of memory.
#[tactic(auto, using(crate::proofs::Left::left_false, crate::proofs::Left::left_unfetched, crate::proofs::Left::left_undecoded, crate::proofs::Left::left_row))]
pub(crate) fn walk<M: Machine>(
    p: &Program<M>,
    index: &Index,
    entry: &M::State,
    state: &mut M::State,
    stack: &mut Vec<u32>,
    choice: u8,
) -> Result<StepEnd, AllocError>
    requires index { AreIndexed p.now.notes.now index.now }
    ensures end { IfOk result (λ end. IsStepEnd end (M.State.view state.new) (reverse stack.new.items)
        (meaning.step (unjudged (program_of p.now)) (M.State.view entry.now)
        (record { state = M.State.view state.old; stack = reverse stack.old.items }) choice)) }
    ensures left { OnOk result (M.State.view state.new ≡ left_in (program_of p.now) (M.State.view entry.now) (M.State.view state.old) choice) }
{
    if let Some(line) = false_assert(&p.notes.asserts, &index.asserts, state, entry, p.big) {
        return Ok(StepEnd::Stops(Event::AssertFails { line: line as u64 }));
    }
    let at = state.pc();
    let word = decoded_at::<M>(p, state, at);
    let length = length::<M>(word);
    if !fetchable(p.image, at, length) {
        return Ok(StepEnd::Stops(Event::FetchFails));
    }
    match M::decode(word) {
        None => Ok(StepEnd::Stops(Event::NoRow)),
        Some(insn) => {
            let end = row_step::<M>(p, index, &insn, length, entry, state, stack, choice)?;
            Ok(end)
        }
    }
}

/// One step under a choice, for a run that began in the state at entry. The state and the stack, whose last address is the top, are those that the step leaves.
/// The error is want of memory.
pub(crate) fn step<M: Machine>(
    p: &Program<M>,
    index: &Index,
    entry: &M::State,
    state: &mut M::State,
    stack: &mut Vec<u32>,
    choice: u8,
) -> Result<StepEnd, AllocError>
    requires index { AreIndexed p.now.notes.now index.now }
    ensures end { IfOk result (λ end. IsStepEnd end (M.State.view state.new) (reverse stack.new.items)
        (meaning.step (program_of p.now) (M.State.view entry.now)
        (record { state = M.State.view state.old; stack = reverse stack.old.items }) choice)) }
    ensures left { OnOk result (M.State.view state.new ≡ left_in (program_of p.now) (M.State.view entry.now) (M.State.view state.old) choice) }
{
    match walk::<M>(p, index, entry, state, stack, choice)? {
        StepEnd::Stops(event) => Ok(StepEnd::Stops(event)),
        StepEnd::Arrives => Ok(StepEnd::Arrives),
        StepEnd::Exits => Ok(exit::<M>(p, entry, state)),
    }
}
