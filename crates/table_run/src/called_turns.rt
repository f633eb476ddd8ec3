//! One step of a run of a frame that steps over contracts.
ghost use Rattle.std.specs.Prelude.{ℕ, IfOk, IfSome, map, reverse};
ghost use Rattle.std.specs.Option.{option_map};
ghost use Rattle.bilv_spec.specs.PointLaws.{HasLawfulRows};
ghost use Rattle.bilv_spec.specs.Run.{Place};
ghost use Rattle.frame_spec.specs.Frames.{Content};
ghost use Rattle.notes_value.specs.FrameViews.{contract_of};
ghost use Rattle.state_text.specs.Starts.{written_call_of};
ghost use Rattle.program_value.specs.Programs.{program_of};
ghost use Rattle.table_run.specs.CalledFrames.{IsAt, IsBlock, IsGift, IsOwnAt, IsRunnable, IsStanding, IsTurnEnd, frame_in, stand_after, turned, turned_wrong};
ghost use Rattle.table_run.specs.Watching.{IsLeftBy};

use crate::called_rows::row_turn;
use crate::contract_steps::contract_turn;
use crate::ending::CalledStepEnd;
use crate::frame::CallFrame;
use byte_mem::View;
use machine_law::Machine;
use state_text::CallState;
use std::alloc::{AllocError, Global};

/// Where a run stands.
#[derive(Clone, Copy, PartialEq, Eq)]
pub(crate) enum Stand {
    /// At a row.
    Row,
    /// At a contract that is stepped over.
    Contract,
}

/// The step at a place under a choice, in a run of a frame that began in the state at entry, by the block of its number. The state and the stack, whose last
/// address is the top, are those that the step leaves. The error is want of memory.
pub(crate) fn turn<M: Machine>(
    alloc: Global,
    frame: &CallFrame<M>,
    entry: &M::State,
    state: &mut M::State,
    stack: &mut Vec<u32>,
    stand: Stand,
    choice: u8,
    block: Option<&CallState>,
) -> Result<CalledStepEnd, AllocError>
    requires frame { IsRunnable frame.now }
    requires lawful { HasLawfulRows (program_of frame.now.program) }
    requires own { IsOwnAt M.machine.endian frame.now.own (M.State.view entry.now) }
    requires block { IfSome block (λ c. IsBlock M.form (written_call_of c.now)) }
    requires stands { IsStanding stand (map contract_of frame.now.stepped.now) (M.State.view state.old) stack.old.items }
    ensures end { (c : Place) (given : Content) (n : ℕ) → IsAt (program_of frame.now.program) c (M.State.view state.old) (reverse stack.old.items) →
        IsGift (frame_in frame.now).stepped (option_map (λ c. written_call_of c.now) block.entry) given →
        IfOk result (λ end. IsTurnEnd end (program_of frame.now.program) (M.State.view state.new) (reverse stack.new.items) n
        (turned stand (frame_in frame.now) (M.State.view entry.now) c choice given)
        (turned_wrong stand (frame_in frame.now) (M.State.view entry.now) c (option_map (λ c. written_call_of c.now) block.entry) given n)) }
    ensures left { IfOk result (λ end. IsLeftBy stand end (program_of frame.now.program) (M.State.view entry.now) (M.State.view state.old) choice
        (M.State.view state.new)) }
    ensures stands { (c : Place) (given : Content) → IsAt (program_of frame.now.program) c (M.State.view state.old) (reverse stack.old.items) →
        IsGift (frame_in frame.now).stepped (option_map (λ c. written_call_of c.now) block.entry) given →
        IfOk result (λ end. IsStanding (stand_after end) (map contract_of frame.now.stepped.now) (M.State.view state.new) stack.new.items) }
{
    match stand {
        Stand::Row => {
            if block.is_some() {
                return Ok(CalledStepEnd::NoCall);
            }
            let end = row_turn::<M>(frame, entry, state, stack, choice)?;
            Ok(end)
        }
        Stand::Contract => {
            let end = contract_turn::<M>(alloc, frame, state, stack, block)?;
            Ok(end)
        }
    }
}
