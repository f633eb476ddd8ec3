//! Head states.
ghost use Rattle.std.specs.Prelude.{◌≡◌, ℕ, None, Some, true, IfErr, IfOk, OnOk};
ghost use Rattle.std.specs.List.Sorted.{IsStrictlyIncreasing};
ghost use Rattle.bilv_spec.specs.Elf.{loaded, is_kept};
ghost use Rattle.bilv_spec.specs.Notes.{Notes as NotesMeant};
ghost use Rattle.bilv_spec.specs.Run.{false_assert};
ghost use Rattle.bilv_spec.specs.Files.{program_of as files_program};
ghost use Rattle.machine_spec.specs.StateText.{IsWritten};
ghost use Rattle.frame_spec.specs.Frames.{is_head, invariants_of};
ghost use Rattle.frame_spec.specs.FrameReports.{head_place};
ghost use Rattle.frame_spec.specs.FrameVerdict.{IsHeadState};
ghost use Rattle.start_value.specs.Starts.{written_of};
ghost use Rattle.program_value.specs.Programs.{program_of};
ghost use Rattle.state_text.specs.Starts.{written_head_of};
ghost use Rattle.table_run.specs.FrameEnds.{frame_of, HasKept};

use crate::lines::false_invariant;
use crate::memory::memory_given;
use elf32_reader::Image;
use machine_law::Machine;
use program_value::Program;
use state_text::HeadStart;
use std::alloc::{AllocError, Global};

/// The state of a head: its registers and flags, and in memory the file's byte where it is kept, else the start's, else 0. The start is one that can be
/// written. It takes memory for that state.
///
/// # Errors
///
/// Want of memory.
pub fn head_state<M: Machine>(
    alloc: Global,
    image: &Image,
    head: &HeadStart,
) -> Result<M::State, AllocError>
    requires { IsWritten M.form (λ a. is_kept (loaded image.now a)) (written_of head.now.start) }
    ensures state { (notes : NotesMeant) (entry : ℕ) → IfOk result (λ s.
        M.State.view s ≡ (head_place (files_program M.machine image.now notes entry) M.form (written_head_of head.now)).state) }
    ensures kept { (notes : NotesMeant) (entry : ℕ) → IfOk result (λ s. HasKept (files_program M.machine image.now notes entry) (M.State.view s)) }
{
    let memory = memory_given(alloc, image, &[], &head.start.bytes)?;
    Ok(M::make(&head.start, head.at, memory))
}

/// Each invariant at the address of a head state is true, for an entry state; so it is a head state, if it stands at a head and has the kept bytes of the file.
/// `invariants` are the rising numbers of the assert lines that are invariants. It takes no memory.
///
/// # Errors
///
/// The number of the first line that is false.
pub fn head_ok<M: Machine>(
    program: &Program<M>,
    invariants: &[u32],
    entry: &M::State,
    state: &M::State,
) -> Result<(), u32>
    requires rising { IsStrictlyIncreasing invariants.now }
    ensures lines { OnOk result (false_assert M.machine.endian
        (invariants_of (frame_of (program_of program.now) invariants.now) (program_of program.now).notes.asserts)
        (M.State.view state.now) (M.State.view entry.now) ≡ None) }
    ensures head { OnOk result (
        is_head (frame_of (program_of program.now) invariants.now) (M.State.view state.now).pc ≡ true →
        HasKept (program_of program.now) (M.State.view state.now) →
        IsHeadState (frame_of (program_of program.now) invariants.now) (M.State.view entry.now) (M.State.view state.now)) }
    ensures fault { IfErr result (λ line. Some line ≡ false_assert M.machine.endian
        (invariants_of (frame_of (program_of program.now) invariants.now) (program_of program.now).notes.asserts)
        (M.State.view state.now) (M.State.view entry.now)) }
{
    match false_invariant(
        &program.notes.asserts,
        invariants,
        state,
        entry,
        program.big,
    ) {
        None => Ok(()),
        Some(line) => Err(line),
    }
}
