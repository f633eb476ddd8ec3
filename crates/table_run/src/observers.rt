//! What sees a run: nothing, or each of its steps.
ghost use Rattle.std.specs.Prelude.{◌≡◌, ℕ, ◌++◌, List, [], ◌∷◌, IfOk, OnOk, None, map};
ghost use Rattle.word_spec.specs.Memory as memory;
ghost use Rattle.word_spec.specs.State.{State};
ghost use Rattle.machine_spec.specs.Machine as table;
ghost use Rattle.bilv_spec.specs.Run.{row_at};
ghost use Rattle.notes_value.specs.FrameViews.{contract_of};
ghost use Rattle.notes_value.specs.Reads.{IsReadableContract};
ghost use Rattle.program_value.specs.Programs.{program_of};
ghost use Rattle.trace_spec.specs.Seen as trace;
ghost use Rattle.seen_step.specs.Views.{IsGlance, IsLooked, seen_of};
ghost use Rattle.table_run.specs.CalledFrames.{IsRunnable, frame_in};
ghost use Rattle.table_run.specs.Spans.{bytes_at, bytes_of};
ghost use Rattle.table_run.specs.Watching.{AreLow, HasSeen, IsSeenBy, frame_later_of, kind_at, later_of, places_at, row_places, row_stored, stored_at};

use crate::called_rows::row_there;
use crate::called_turns::Stand;
use crate::changes::contract_at;
use crate::ending::{CalledStepEnd, FrameStepEnd};
use crate::frame::CallFrame;
use crate::spans::{Span, writable};
use byte_mem::View;
use machine_law::Machine;
use program_value::Program;
use seen_step::{Glance, SeenStep, StepKind, look, seen};
use std::alloc::{AllocError, Global};

/// What sees a run.
#[derive(Drop)]
pub(crate) enum Observer {
    /// Nothing.
    Nothing,
    /// Each step.
    Steps(Vec<SeenStep>),
}

/// What a run comes to, each of its steps, and the state that the last one leaves. What is false at the end of a run was judged in that state.
#[derive(Drop)]
pub struct Watched<E, S> {
    pub ending: E,
    pub steps: Vec<SeenStep>,
    pub state: S,
}

/// The steps that an observer has seen.
pub(crate) fn steps_of(alloc: Global, seen: Observer) -> Vec<SeenStep>
    ensures { (steps : List trace.SeenStep) → HasSeen seen steps → map seen_of result.items ≡ steps }
{
    match seen {
        Observer::Nothing => Vec::new(alloc),
        Observer::Steps(steps) => steps,
    }
}

/// The first address and the number of the bytes that the row at the address of a state stores.
fn stored_there<M: Machine>(p: &Program<M>, state: &M::State) -> Option<(u32, u8)>
    ensures { result ≡ trace.stored_of (row_at (program_of p.now) ((program_of p.now).word (M.State.view state.now)) (M.State.view state.now).pc)
        (M.State.view state.now) }
{
    match row_there::<M>(p, state) {
        None => None,
        Some(insn) => M::stored(&insn, state),
    }
}

/// Adds the addresses of the bytes of a span. The error is want of memory.
fn add_span(places: &mut Vec<u32>, span: Span) -> Result<(), AllocError>
    ensures { OnOk result (places.new.items ≡ places.old.items ++ bytes_at span) }
{
    let mut at = span.first;
    for _ in 0..span.count {
        places.push(at)?;
        at = at.wrapping_add(1);
    }
    Ok(())
}

/// The addresses of the bytes of some spans. The error is want of memory.
fn addresses(alloc: Global, spans: &[Span]) -> Result<Vec<u32>, AllocError>
    ensures { IfOk result (λ v. v.items ≡ bytes_of spans.now) }
{
    let mut places = Vec::new(alloc);
    for span in spans {
        add_span(&mut places, *span)?;
    }
    Ok(places)
}

/// The addresses of so many bytes from one on. The error is want of memory.
#[tactic(auto, using(crate::proofs::Watching::low_span))]
fn places_from(alloc: Global, first: u32, count: u32) -> Result<Vec<u32>, AllocError>
    ensures places { IfOk result (λ v. v.items ≡ memory.span first count) }
    ensures low { AreLow (memory.span first count) }
{
    let mut places = Vec::new(alloc);
    add_span(&mut places, Span { first, count })?;
    Ok(places)
}

/// The addresses of the bytes that are stored, from the first address on, if there are any. The error is want of memory.
fn stored_places(alloc: Global, stored: Option<(u32, u8)>) -> Result<Vec<u32>, AllocError>
    ensures places { IfOk result (λ v. v.items ≡ table.addresses stored) }
    ensures low { OnOk result (AreLow (table.addresses stored)) }
{
    match stored {
        None => Ok(Vec::new(alloc)),
        Some((first, count)) => {
            let places = places_from(alloc, first, u32::from(count))?;
            Ok(places)
        }
    }
}

/// The bytes that the contract at the address of a state may write, if one is stepped over there. The error is want of memory.
fn written_there<M: Machine>(
    alloc: Global,
    frame: &CallFrame<M>,
    state: &M::State,
) -> Result<Vec<u32>, AllocError>
    requires { IsRunnable frame.now }
    ensures { IfOk result (λ v. v.items ≡ places_at Stand.Contract (frame_in frame.now) (M.State.view state.now)) }
{
    match contract_at(frame.stepped, state.pc()) {
        None => Ok(Vec::new(alloc)),
        Some(contract) => {
            let spans = writable(alloc, &contract.writes, state, frame.program.big)?;
            let places = addresses(alloc, &spans)?;
            Ok(places)
        }
    }
}

/// A look at the step of a number, that of the row at the address of a state, where so many calls have not returned, before it is made. The error is want of
/// memory.
fn row_look<M: Machine>(
    alloc: Global,
    p: &Program<M>,
    state: &M::State,
    depth: usize,
    number: u64,
) -> Result<Glance, AllocError>
    ensures looked { IfOk result (λ g. IsLooked M.form g) }
    ensures low { OnOk result (AreLow (row_places (program_of p.now) (M.State.view state.now))) }
    ensures glance { IfOk result (λ g. IsGlance M.form number trace.OfRow (M.State.view state.now) depth
        (row_stored (program_of p.now) (M.State.view state.now)) (row_places (program_of p.now) (M.State.view state.now)) g) }
{
    let stored = stored_there::<M>(p, state);
    let places = stored_places(alloc, stored)?;
    let found = look::<M>(alloc, number, StepKind::Row, state, depth, stored, places)?;
    Ok(found)
}

/// A look at the step of a number at a place, where so many calls have not returned, before it is made. The error is want of memory.
fn look_at<M: Machine>(
    alloc: Global,
    frame: &CallFrame<M>,
    state: &M::State,
    depth: usize,
    stand: Stand,
    number: u64,
) -> Result<Glance, AllocError>
    requires { IsRunnable frame.now }
    ensures looked { IfOk result (λ g. IsLooked M.form g) }
    ensures low { OnOk result (AreLow (places_at stand (frame_in frame.now) (M.State.view state.now))) }
    ensures glance { IfOk result (λ g. IsGlance M.form number (kind_at stand) (M.State.view state.now) depth
        (stored_at stand (frame_in frame.now) (M.State.view state.now)) (places_at stand (frame_in frame.now) (M.State.view state.now)) g) }
{
    match stand {
        Stand::Row => {
            let found = row_look::<M>(alloc, &frame.program, state, depth, number)?;
            Ok(found)
        }
        Stand::Contract => {
            let places = written_there::<M>(alloc, frame, state)?;
            let found = look::<M>(
                alloc,
                number,
                StepKind::Contract,
                state,
                depth,
                None,
                places,
            )?;
            Ok(found)
        }
    }
}

/// The same for an observer, which looks only where it sees steps. The error is want of memory.
pub(crate) fn look_for<M: Machine>(
    alloc: Global,
    observer: &Observer,
    frame: &CallFrame<M>,
    state: &M::State,
    depth: usize,
    stand: Stand,
    number: u64,
) -> Result<Option<Glance>, AllocError>
    requires { IsRunnable frame.now }
    ensures looked { IfOk result (λ o. IsSeenBy observer.now o (IsLooked M.form)) }
    ensures low { IfOk result (λ o. IsSeenBy observer.now o (λ g. AreLow (places_at stand (frame_in frame.now) (M.State.view state.now)))) }
    ensures glance { IfOk result (λ o. IsSeenBy observer.now o (IsGlance M.form number (kind_at stand) (M.State.view state.now) depth
        (stored_at stand (frame_in frame.now) (M.State.view state.now)) (places_at stand (frame_in frame.now) (M.State.view state.now)))) }
{
    match observer {
        Observer::Nothing => Ok(None),
        Observer::Steps(_) => {
            let found = look_at::<M>(alloc, frame, state, depth, stand, number)?;
            Ok(Some(found))
        }
    }
}

/// The same for the row of a program, at the step of a run that is cut at heads. The error is want of memory.
pub(crate) fn look_for_row<M: Machine>(
    alloc: Global,
    observer: &Observer,
    p: &Program<M>,
    state: &M::State,
    depth: usize,
    number: u64,
) -> Result<Option<Glance>, AllocError>
    ensures looked { IfOk result (λ o. IsSeenBy observer.now o (IsLooked M.form)) }
    ensures glance { IfOk result (λ o. IsSeenBy observer.now o (IsGlance M.form number trace.OfRow (M.State.view state.now) depth
        (row_stored (program_of p.now) (M.State.view state.now)) (row_places (program_of p.now) (M.State.view state.now)))) }
{
    match observer {
        Observer::Nothing => Ok(None),
        Observer::Steps(_) => {
            let found = row_look::<M>(alloc, p, state, depth, number)?;
            Ok(Some(found))
        }
    }
}

/// A look for an observer at the arrival at a head, where so many calls have not returned. The error is want of memory.
fn look_for_arrival<M: Machine>(
    alloc: Global,
    observer: &Observer,
    state: &M::State,
    depth: usize,
    number: u64,
) -> Result<Option<Glance>, AllocError>
    ensures looked { IfOk result (λ o. IsSeenBy observer.now o (IsLooked M.form)) }
    ensures glance { IfOk result (λ o. IsSeenBy observer.now o
        (IsGlance M.form number trace.OfArrival (M.State.view state.now) depth None [])) }
{
    match observer {
        Observer::Nothing => Ok(None),
        Observer::Steps(_) => {
            let places = Vec::new(alloc);
            let found = look::<M>(alloc, number, StepKind::Arrival, state, depth, None, places)?;
            Ok(Some(found))
        }
    }
}

/// Shows the arrival at a head to an observer, where so many calls have not returned. The error is want of memory.
pub(crate) fn note_arrival<M: Machine>(
    alloc: Global,
    observer: &mut Observer,
    state: &M::State,
    depth: usize,
    number: u64,
) -> Result<(), AllocError>
    ensures { (steps : List trace.SeenStep) → HasSeen observer.old steps → OnOk result (HasSeen observer.new (steps
        ++ trace.seen_between M.form trace.OfArrival number None [] (M.State.view state.now) depth (M.State.view state.now) depth ∷ [])) }
{
    let look = look_for_arrival::<M>(alloc, observer, state, depth, number)?;
    note::<M>(alloc, observer, &look, state, depth)?;
    Ok(())
}

/// How many calls have not returned after a step that comes to this in a run that is cut at heads.
pub(crate) fn frame_later(end: FrameStepEnd, depth: usize, after: usize) -> usize
    ensures { result ≡ frame_later_of end depth after }
{
    match end {
        FrameStepEnd::Halts(_) => depth,
        FrameStepEnd::GoesTo => after,
        FrameStepEnd::Reaches => after,
        FrameStepEnd::Leaves => depth,
    }
}

/// How many calls have not returned after a step that comes to this, by how many had not before it, and by how many addresses are on the stack.
pub(crate) fn later(end: CalledStepEnd, depth: usize, after: usize) -> usize
    ensures { result ≡ later_of end depth after }
{
    match end {
        CalledStepEnd::GoesTo => after,
        CalledStepEnd::Calls => after,
        CalledStepEnd::Halts(_) => depth,
        CalledStepEnd::Leaves => depth,
        CalledStepEnd::Breaks { .. } => depth,
        CalledStepEnd::NoCall => depth,
    }
}

/// Shows a step that is made to an observer that looked before it: the state is that which the step leaves, in which so many calls have not returned. The error
/// is want of memory.
pub(crate) fn note<M: Machine>(
    alloc: Global,
    observer: &mut Observer,
    glance: &Option<Glance>,
    state: &M::State,
    later: usize,
) -> Result<(), AllocError>
    requires { IsSeenBy observer.old glance.now (IsLooked M.form) }
    ensures { (steps : List trace.SeenStep) (number : ℕ) (kind : trace.StepKind) (old : State) (depth : ℕ) (stored : _) (places : List ℕ) →
        IsSeenBy observer.old glance.now (IsGlance M.form number kind old depth stored places) → HasSeen observer.old steps →
        OnOk result (HasSeen observer.new (steps ++ trace.seen_between M.form kind number stored places old depth (M.State.view state.now) later ∷ [])) }
{
    match observer {
        Observer::Nothing => Ok(()),
        Observer::Steps(steps) => match glance {
            None => unreachable!(),
            Some(glance) => {
                let step = seen::<M>(alloc, glance, state, later)?;
                steps.push(step)?;
                Ok(())
            }
        },
    }
}
