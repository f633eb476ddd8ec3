//! The state in which a run exits.
ghost use Rattle.std.specs.Prelude.{◌≡◌, ◌<◌, ◌+◌, ◌^◌, IfOk, IfSome, IfNone};
ghost use Rattle.word_spec.specs.Memory.{byte_in};
ghost use Rattle.word_spec.specs.State.{State};
ghost use Rattle.bilv_spec.specs.Points.{is_known_at};
ghost use Rattle.machine_spec.specs.StateText.{AreRising, IsWritten};
ghost use Rattle.bilv_spec.specs.Answers.{start_in};
ghost use Rattle.start_value.specs.Starts.{written_of};
ghost use Rattle.program_value.specs.Programs.{program_of};
ghost use Rattle.table_run.specs.Exits.{IsExit, IsNoExit};
ghost use Rattle.notes_index.specs.Indexed.{AreIndexed};

use crate::choices::choice_at;
use crate::ending::StepEnd;
use crate::runs::{next_turns, start_state};
use crate::steps::step;
use byte_mem::View;
use machine_law::Machine;
use notes_index::{Index, index_of};
use program_value::Program;
use start_value::Start;
use std::alloc::{AllocError, Global};

/// The state in which the run from a state exits by the step of a number, if it does. The error is want of memory.
fn exit_from<M: Machine>(
    alloc: Global,
    p: &Program<M>,
    index: &Index,
    entry: &M::State,
    mut state: M::State,
    choices: &[(u64, u8)],
    number: u64,
) -> Result<Option<M::State>, AllocError>
    requires index { AreIndexed p.now.notes.now index.now }
    requires rising { AreRising choices.now }
    requires few { number + 1 < 2 ^ 64 }
    requires same { M.State.view state ≡ M.State.view entry.now }
    ensures some { IfOk result (λ o. IfSome o (λ s. IsExit (program_of p.now)
        (record { state = M.State.view entry.now; choices = byte_in choices.now }) number (M.State.view s))) }
    ensures none { IfOk result (λ o. IfNone o (IsNoExit (program_of p.now)
        (record { state = M.State.view entry.now; choices = byte_in choices.now }) number)) }
{
    let mut stack = Vec::new(alloc);
    let mut turns = 0u64;
    let mut n = 0u64;
    loop {
        let at = state.pc();
        let choice = choice_at(choices, n);
        match step::<M>(p, index, entry, &mut state, &mut stack, choice)? {
            StepEnd::Stops(_) => return Ok(None),
            StepEnd::Exits => {
                if n == number {
                    return Ok(Some(state));
                }
                return Ok(None);
            }
            StepEnd::Arrives => {}
        }
        if n == number {
            return Ok(None);
        }
        turns = match next_turns(at, state.pc(), turns, number + 1) {
            None => return Ok(None),
            Some(more) => more,
        };
        n += 1;
    }
}

/// The state in which the run from a start at an address exits by the step of a number, counted from 0, whatever the number of its backward transfers; none where
/// it does not exit by that step. The start is as that of [`crate::run`]. It takes memory for two states, for an index of the notes, and for the calls that have
/// not returned.
///
/// # Errors
///
/// Want of memory.
pub fn exit_state<M: Machine>(
    alloc: Global,
    program: &Program<M>,
    start: &Start,
    number: u64,
) -> Result<Option<M::State>, AllocError>
    requires few { number + 1 < 2 ^ 64 }
    requires start { IsWritten M.form (is_known_at (program_of program.now)) (written_of start.now) }
    ensures some { IfOk result (λ o. IfSome o (λ s. IsExit (program_of program.now)
        (start_in (program_of program.now) M.form (written_of start.now)) number (M.State.view s))) }
    ensures none { IfOk result (λ o. IfNone o (IsNoExit (program_of program.now)
        (start_in (program_of program.now) M.form (written_of start.now)) number)) }
{
    let index = index_of(alloc, program.notes)?;
    let state = start_state::<M>(alloc, program, start)?;
    let first = M::copy(alloc, &state)?;
    let exit = exit_from::<M>(
        alloc,
        program,
        &index,
        &first,
        state,
        &start.choices,
        number,
    )?;
    Ok(exit)
}
