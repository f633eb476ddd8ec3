//! A run from a start.
ghost use Rattle.std.specs.Prelude.{◌≡◌, ℕ, ◌≤◌, ◌<◌, ◌+◌, ◌-◌, ◌^◌, List, [], IfOk, IfSome, MatchOption, None, Option, Some, map, nat_le, option_map, reverse};
ghost use Rattle.std.specs.List.Sorted.{IsStrictlyIncreasing};
ghost use Rattle.bilv_spec.specs.Elf.{loaded, is_kept};
ghost use Rattle.bilv_spec.specs.Run as meaning;
ghost use Rattle.bilv_spec.specs.Points.{is_known_at};
ghost use Rattle.machine_spec.specs.StateText.{AreRising, IsWritten};
ghost use Rattle.bilv_spec.specs.Reports as reports;
ghost use Rattle.frame_spec.specs.Frames.{Content};
ghost use Rattle.frame_spec.specs.FrameFound.{found, found_within};
ghost use Rattle.frame_spec.specs.FrameReports.{head_place};
ghost use Rattle.bilv_spec.specs.Answers.{start_in};
ghost use Rattle.start_value.specs.Starts.{written_of};
ghost use Rattle.program_value.specs.Programs.{program_of};
ghost use Rattle.table_run.specs.Endings.{found_of};
ghost use Rattle.state_text.specs.Starts.{written_head_of};
ghost use Rattle.table_run.specs.FrameEnds as ends;
ghost use Rattle.table_run.specs.FrameEnds.{Begins, IsOfTables, frame_found_of, frame_of, start_by, start_shown};
ghost use Rattle.trace_spec.specs.Seen.{seen_steps};
ghost use Rattle.seen_step.specs.Views.{seen_of};
ghost use Rattle.table_run.specs.Watching.{HasSeen};
ghost use Rattle.table_run.specs.WatchedRuns.{IsFrameWatched, IsLeftAt};
ghost use Rattle.notes_index.specs.Indexed.{AreIndexed};

use crate::choices::choice_at;
use crate::cuts::{arrival, frame_step, is_head};
use crate::ending::{Ending, FrameEnding, FrameStepEnd};
use crate::heads::head_state;
use crate::memory::memory_at;
use crate::observers::{
    Observer, Watched, frame_later, look_for_row, note, note_arrival, steps_of,
};
use byte_mem::View;
use machine_law::Machine;
use notes_index::{Index, index_of};
use program_value::Program;
use start_value::Start;
use state_text::{FrameEvent, HeadStart};
use std::alloc::{AllocError, Global};

/// How many backward transfers and how many steps a run may make.
#[derive(Clone, Copy)]
pub(crate) struct Limits {
    pub(crate) turns: u64,
    pub(crate) steps: u64,
}

/// How many backward transfers were made after a step from one address to another, or none where it is one more than `bound`.
pub(crate) fn next_turns(from: u32, to: u32, turns: u64, bound: u64) -> Option<u64>
    requires { turns + 1 < 2 ^ 64 }
    ensures few { IfSome result (λ t. t ≤ turns + 1) }
    ensures turned { (n : ℕ) (c : meaning.Place) → MatchOption result (meaning.arrive (nat_le to from) bound turns n from c ≡ meaning.Turned from n)
        (λ t. meaning.arrive (nat_le to from) bound turns n from c ≡ meaning.Going t (n + 1) c) }
{
    if to > from {
        return Some(turns);
    }
    if turns == bound {
        return None;
    }
    Some(turns + 1)
}

/// What the run of a frame from a state comes to within its limits; the last address of the stack is the top. Also the state that
/// its last step leaves; an observer sees the steps. The error is want of memory.
fn follow<M: Machine>(
    alloc: Global,
    p: &Program<M>,
    index: &Index,
    invariants: &[u32],
    entry: &M::State,
    mut state: M::State,
    mut stack: Vec<u32>,
    choices: &[(u64, u8)],
    limits: Limits,
    seen: &mut Observer,
) -> Result<(FrameEnding, M::State), AllocError>
    requires index { AreIndexed p.now.notes.now index.now }
    requires lines { IsStrictlyIncreasing invariants.now }
    requires rising { AreRising choices.now }
    requires some { 1 ≤ limits.steps }
    ensures found { (head : Option meaning.Place) (given : ℕ → Content) → IfOk result (λ r.
        Begins (frame_of (program_of p.now) invariants.now) (M.State.view entry.now) head
        (record { state = M.State.view state; stack = reverse stack.items }) →
        frame_found_of r.0 ≡ found_within (frame_of (program_of p.now) invariants.now) limits.turns
        (start_by (M.State.view entry.now) choices.now head given) (limits.steps - 1)) }
    ensures seen { (head : Option meaning.Place) (given : ℕ → Content) → HasSeen seen.old [] → IfOk result (λ r.
        Begins (frame_of (program_of p.now) invariants.now) (M.State.view entry.now) head
        (record { state = M.State.view state; stack = reverse stack.items }) →
        IsFrameWatched (frame_of (program_of p.now) invariants.now) M.form limits.turns
        (start_by (M.State.view entry.now) choices.now head given) limits.steps r.0 seen.new (M.State.view r.1)) }
{
    let mut turns = 0u64;
    let mut n = 0u64;
    loop {
        let at = state.pc();
        let choice = choice_at(choices, n);
        let depth = stack.len();
        let look = look_for_row::<M>(alloc, seen, p, &state, depth, n)?;
        let end = frame_step::<M>(p, index, invariants, entry, &mut state, &mut stack, choice)?;
        let later = frame_later(end, depth, stack.len());
        note::<M>(alloc, seen, &look, &state, later)?;
        match end {
            FrameStepEnd::Halts(event) => {
                return Ok((FrameEnding::Failed { event, at, step: n }, state));
            }
            FrameStepEnd::Leaves => return Ok((FrameEnding::Exit { at, step: n }, state)),
            FrameStepEnd::Reaches => {
                if n + 1 == limits.steps {
                    return Ok((FrameEnding::Left { at, step: n }, state));
                }
                note_arrival::<M>(alloc, seen, &state, later, n + 1)?;
                let ending = arrival::<M>(p, index, invariants, entry, &state, n + 1);
                return Ok((ending, state));
            }
            FrameStepEnd::GoesTo => {}
        }
        turns = match next_turns(at, state.pc(), turns, limits.turns) {
            None => return Ok((FrameEnding::Turned { at, step: n }, state)),
            Some(more) => more,
        };
        if n + 1 == limits.steps {
            return Ok((FrameEnding::Left { at, step: n }, state));
        }
        n += 1;
    }
}

/// What the run of a frame from an entry state comes to within its limits: an entry that is a head is arrived at. The error is want of memory.
fn follow_entry<M: Machine>(
    alloc: Global,
    p: &Program<M>,
    index: &Index,
    invariants: &[u32],
    state: M::State,
    choices: &[(u64, u8)],
    limits: Limits,
    seen: &mut Observer,
) -> Result<(FrameEnding, M::State), AllocError>
    requires index { AreIndexed p.now.notes.now index.now }
    requires lines { IsStrictlyIncreasing invariants.now }
    requires rising { AreRising choices.now }
    requires some { 1 ≤ limits.steps }
    ensures found { (given : ℕ → Content) → IfOk result (λ r. frame_found_of r.0 ≡ found_within (frame_of (program_of p.now) invariants.now)
        limits.turns (start_by (M.State.view state) choices.now None given) (limits.steps - 1)) }
    ensures seen { (given : ℕ → Content) → HasSeen seen.old [] → IfOk result (λ r. IsFrameWatched (frame_of (program_of p.now) invariants.now) M.form
        limits.turns (start_by (M.State.view state) choices.now None given) limits.steps r.0 seen.new (M.State.view r.1)) }
{
    if is_head(p, index, invariants, state.pc()) {
        note_arrival::<M>(alloc, seen, &state, 0, 0)?;
        let ending = arrival::<M>(p, index, invariants, &state, &state, 0);
        return Ok((ending, state));
    }
    let first = M::copy(alloc, &state)?;
    let found = follow::<M>(
        alloc,
        p,
        index,
        invariants,
        &first,
        state,
        Vec::new(alloc),
        choices,
        limits,
        seen,
    )?;
    Ok(found)
}

/// The state of a start at a program's function: its registers and flags, and in memory the file's byte where it is kept or fixed, else the start's, else 0. The start is
/// one that can be written. It takes memory for that state.
///
/// # Errors
///
/// Want of memory.
pub fn start_state<M: Machine>(
    alloc: Global,
    program: &Program<M>,
    start: &Start,
) -> Result<M::State, AllocError>
    requires { IsWritten M.form (is_known_at (program_of program.now)) (written_of start.now) }
    ensures { IfOk result (λ s.
        M.State.view s ≡ (start_in (program_of program.now) M.form (written_of start.now)).state) }
{
    let memory = memory_at(alloc, program, &start.bytes)?;
    Ok(M::make(start, program.entry, memory))
}

/// How many backward transfers are within a bound, or, without one, within so many steps.
pub(crate) fn turns_within(k: Option<u64>, limit: u64) -> u64
    requires { 1 ≤ limit }
    ensures { result ≡ reports.turns_within (limit - 1) k }
{
    match k {
        None => limit,
        Some(k) => k,
    }
}

/// What the run of a frame from a head state comes to within its limits. The error is want of memory.
fn follow_head<M: Machine>(
    alloc: Global,
    p: &Program<M>,
    index: &Index,
    invariants: &[u32],
    entry: &M::State,
    head: &HeadStart,
    limits: Limits,
    seen: &mut Observer,
) -> Result<(FrameEnding, M::State), AllocError>
    requires index { AreIndexed p.now.notes.now index.now }
    requires lines { IsStrictlyIncreasing invariants.now }
    requires head { IsWritten M.form (λ a. is_kept (loaded p.now.image.now a)) (written_of head.now.start) }
    requires some { 1 ≤ limits.steps }
    ensures found { (given : ℕ → Content) → IfOk result (λ r. frame_found_of r.0 ≡ found_within (frame_of (program_of p.now) invariants.now)
        limits.turns (start_by (M.State.view entry.now) (written_of head.now.start).choices
        (Some (head_place (program_of p.now) M.form (written_head_of head.now))) given) (limits.steps - 1)) }
    ensures seen { (given : ℕ → Content) → HasSeen seen.old [] → IfOk result (λ r. IsFrameWatched (frame_of (program_of p.now) invariants.now) M.form
        limits.turns (start_by (M.State.view entry.now) (written_of head.now.start).choices
        (Some (head_place (program_of p.now) M.form (written_head_of head.now))) given) limits.steps r.0 seen.new (M.State.view r.1)) }
{
    let state = head_state::<M>(alloc, p.image, head)?;
    let mut stack = Vec::new(alloc);
    stack.extend_from_slice(&head.stack)?;
    let found = follow::<M>(
        alloc,
        p,
        index,
        invariants,
        entry,
        state,
        stack,
        &head.start.choices,
        limits,
        seen,
    )?;
    Ok(found)
}

/// The run of a frame from a start at an address or, where a head state is given, from that, within its limits, and the state that its last step leaves; an observer
/// sees the steps. The error is want of memory.
fn run_seen<M: Machine>(
    alloc: Global,
    program: &Program<M>,
    invariants: &[u32],
    start: &Start,
    head: Option<&HeadStart>,
    k: Option<u64>,
    limit: u64,
    seen: &mut Observer,
) -> Result<(FrameEnding, M::State), AllocError>
    requires lines { IsStrictlyIncreasing invariants.now }
    requires some { 1 ≤ limit }
    requires start { IsWritten M.form (is_known_at (program_of program.now)) (written_of start.now) }
    requires head { IfSome head (λ h. IsWritten M.form (λ a. is_kept (loaded program.now.image.now a)) (written_of h.now.start)) }
    ensures found { IfOk result (λ r. frame_found_of r.0 ≡ found (frame_of (program_of program.now) invariants.now) k
        (start_shown (program_of program.now) invariants.now M.form (written_of start.now)
        (option_map (λ h. written_head_of h.now) head.entry)) (limit - 1)) }
    ensures seen { HasSeen seen.old [] → IfOk result (λ r. IsFrameWatched (frame_of (program_of program.now) invariants.now) M.form
        (reports.turns_within (limit - 1) k) (start_shown (program_of program.now) invariants.now M.form (written_of start.now)
        (option_map (λ h. written_head_of h.now) head.entry)) limit r.0 seen.new (M.State.view r.1)) }
{
    let index = index_of(alloc, program.notes)?;
    let state = start_state::<M>(alloc, program, start)?;
    let limits = Limits {
        turns: turns_within(k, limit),
        steps: limit,
    };
    match head {
        None => {
            let found = follow_entry::<M>(
                alloc,
                program,
                &index,
                invariants,
                state,
                &start.choices,
                limits,
                seen,
            )?;
            Ok(found)
        }
        Some(head) => {
            let found = follow_head::<M>(
                alloc, program, &index, invariants, &state, head, limits, seen,
            )?;
            Ok(found)
        }
    }
}

/// What the run of a frame comes to: from a start at an address or, where a head state is given, from that, within `limit` steps, and within `k` backward
/// transfers or, for none, any number of them. `invariants` are the numbers of the assert lines that are invariants, rising. The arrival at a head is a step,
/// and is judged by the lines there. Each start has the registers and flags of the machine's form, bytes that are not 0 at rising addresses (the entry's of
/// addresses whose byte the file does not give, the head's of those that are not kept), and choices for rising steps; those of the run are the head's where
/// there is one. It takes memory for two states, for an index of the notes, and for the calls that have not returned; its time beside that is for each step
/// what its row costs.
///
/// # Errors
///
/// Want of memory.
pub fn run_frame<M: Machine>(
    alloc: Global,
    program: &Program<M>,
    invariants: &[u32],
    start: &Start,
    head: Option<&HeadStart>,
    k: Option<u64>,
    limit: u64,
) -> Result<FrameEnding, AllocError>
    requires lines { IsStrictlyIncreasing invariants.now }
    requires some { 1 ≤ limit }
    requires start { IsWritten M.form (is_known_at (program_of program.now)) (written_of start.now) }
    requires head { IfSome head (λ h. IsWritten M.form (λ a. is_kept (loaded program.now.image.now a)) (written_of h.now.start)) }
    ensures { IfOk result (λ e. frame_found_of e ≡ found (frame_of (program_of program.now) invariants.now) k
        (start_shown (program_of program.now) invariants.now M.form (written_of start.now)
        (option_map (λ h. written_head_of h.now) head.entry)) (limit - 1)) }
{
    let mut seen = Observer::Nothing;
    let found = run_seen::<M>(alloc, program, invariants, start, head, k, limit, &mut seen)?;
    Ok(found.0)
}

/// The run of [`run_frame`] with each of its steps, in the order of their numbers, with what each changes. It takes memory for that besides, and time for it and
/// for each step's registers.
///
/// # Errors
///
/// Want of memory.
pub fn watch_frame<M: Machine>(
    alloc: Global,
    program: &Program<M>,
    invariants: &[u32],
    start: &Start,
    head: Option<&HeadStart>,
    k: Option<u64>,
    limit: u64,
) -> Result<Watched<FrameEnding, M::State>, AllocError>
    requires lines { IsStrictlyIncreasing invariants.now }
    requires some { 1 ≤ limit }
    requires start { IsWritten M.form (is_known_at (program_of program.now)) (written_of start.now) }
    requires head { IfSome head (λ h. IsWritten M.form (λ a. is_kept (loaded program.now.image.now a)) (written_of h.now.start)) }
    ensures found { IfOk result (λ w. frame_found_of w.ending ≡ found (frame_of (program_of program.now) invariants.now) k
        (start_shown (program_of program.now) invariants.now M.form (written_of start.now)
        (option_map (λ h. written_head_of h.now) head.entry)) (limit - 1)) }
    ensures steps { IfOk result (λ w. map seen_of w.steps.items ≡ seen_steps (frame_of (program_of program.now) invariants.now) M.form
        (reports.turns_within (limit - 1) k) (start_shown (program_of program.now) invariants.now M.form (written_of start.now)
        (option_map (λ h. written_head_of h.now) head.entry)) limit) }
    ensures state { IfOk result (λ w. IsLeftAt (frame_of (program_of program.now) invariants.now) (reports.turns_within (limit - 1) k)
        (start_shown (program_of program.now) invariants.now M.form (written_of start.now)
        (option_map (λ h. written_head_of h.now) head.entry)) w.ending (M.State.view w.state)) }
{
    let list = Vec::new(alloc);
    let mut seen = Observer::Steps(list);
    let found = run_seen::<M>(alloc, program, invariants, start, head, k, limit, &mut seen)?;
    let steps = steps_of(alloc, seen);
    Ok(Watched {
        ending: found.0,
        steps,
        state: found.1,
    })
}

/// What a run of a frame without invariants comes to, as one of the tables.
fn of_tables(ending: FrameEnding) -> Ending
    requires { IsOfTables (frame_found_of ending) }
    ensures { found_of result ≡ ends.of_tables (frame_found_of ending) }
{
    match ending {
        FrameEnding::Exit { at, step } => Ending::Exit { at, step },
        FrameEnding::Failed {
            event: FrameEvent::OfStep(event),
            at,
            step,
        } => Ending::Failed { event, at, step },
        FrameEnding::Turned { at, step } => Ending::Turned { at, step },
        FrameEnding::Left { at, step } => Ending::Left { at, step },
        FrameEnding::Failed {
            event: FrameEvent::InvariantFails { .. },
            ..
        } => unreachable!(),
        FrameEnding::Cut { .. } => unreachable!(),
    }
}

/// What the run from a start at an address comes to, within `limit` steps, and within `k` backward transfers or, for none, any number of them. The start has
/// the registers and flags of the machine's form, bytes that are not 0 at rising addresses whose byte the file does not give, and choices for rising steps. It
/// takes memory for two states, for an index of the notes, and for the calls that have not returned; its time beside that is for each step what its row costs.
///
/// # Errors
///
/// Want of memory.
pub fn run<M: Machine>(
    alloc: Global,
    program: &Program<M>,
    start: &Start,
    k: Option<u64>,
    limit: u64,
) -> Result<Ending, AllocError>
    requires some { 1 ≤ limit }
    requires start { IsWritten M.form (is_known_at (program_of program.now)) (written_of start.now) }
    ensures { IfOk result (λ e. found_of e ≡ reports.found (program_of program.now) k
        (start_in (program_of program.now) M.form (written_of start.now)) (limit - 1)) }
{
    let ending = run_frame::<M>(alloc, program, &[], start, None, k, limit)?;
    Ok(of_tables(ending))
}
