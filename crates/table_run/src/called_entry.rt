//! Whether a state may be the one at the entry of a frame of a file and of notes with contracts.
ghost use Rattle.std.specs.Prelude.{◌≡◌, ◌^◌, IfErr, OnOk, Some};
ghost use Rattle.bilv_spec.specs.EntryFaults.{IsEntryStateFault};
ghost use Rattle.bilv_spec.specs.Verdict.{IsEntryState};
ghost use Rattle.notes_value.specs.FrameViews.{contract_of};
ghost use Rattle.notes_value.specs.Reads.{IsReadableContract};
ghost use Rattle.program_value.specs.Programs.{program_at, program_of};
ghost use Rattle.table_run.specs.CalledFrames.{program_in};
ghost use Rattle.table_run.specs.CalledRuns.{bare_program, frame_of_rank};
ghost use Rattle.table_run.specs.Endings.{IsLinesFault, fault_of};
ghost use Rattle.table_run.specs.Known.{IsRightTo};

use crate::ending::EntryFault;
use crate::entry::lines_ok;
use crate::lines::false_line;
use crate::words::is_place;
use byte_mem::View;
use machine_law::Machine;
use notes_value::Contract;
use program_value::{Program, RankedFrame};

/// A row can stand at the address in the link register of a state, and each line that a contract needs is true: for a state at its address whose memory is known
/// to agree with the file. The error is the first fault.
fn own_lines_ok<M: Machine>(
    program: &Program<M>,
    contract: &Contract,
    state: &M::State,
) -> Result<(), EntryFault>
    requires readable { IsReadableContract M.State.has_register (contract_of contract.now) }
    ensures ok { (M.State.view state.now).pc ≡ contract.now.at →
        IsRightTo (bare_program M.machine program.now.image.now) (M.State.view state.now) (2 ^ 32) → OnOk result
        (IsEntryState (program_in (program_of program.now) (Some (contract_of contract.now))) (M.State.view state.now)) }
    ensures fault { IfErr result (λ f.
        IsEntryStateFault (program_in (program_of program.now) (Some (contract_of contract.now))) (M.State.view state.now) (fault_of f)) }
    ensures kind { IfErr result IsLinesFault }
{
    if !is_place::<M>(state.link()) {
        return Err(EntryFault::Link);
    }
    if let Some(line) = false_line(&contract.needs, state, state, program.big) {
        return Err(EntryFault::Require { line });
    }
    Ok(())
}

/// The same for a function's own frame, and the lines that the notes require.
fn function_lines_ok<M: Machine>(program: &Program<M>, state: &M::State) -> Result<(), EntryFault>
    ensures ok { IsRightTo (program_at program.now (M.State.view state.now).pc) (M.State.view state.now) (2 ^ 32) →
        OnOk result (IsEntryState (program_at program.now (M.State.view state.now).pc) (M.State.view state.now)) }
    ensures fault { IfErr result (λ f.
        IsEntryStateFault (program_at program.now (M.State.view state.now).pc) (M.State.view state.now) (fault_of f)) }
    ensures kind { IfErr result IsLinesFault }
{
    lines_ok::<M>(program, state)?;
    Ok(())
}

/// A row can stand at the address in the link register of a state, and each require line, or in the frame of a contract each line that it needs, is true: for a
/// state at the address of a frame's function whose memory is known to agree with the file. It takes no memory.
///
/// # Errors
///
/// `Link`, else `Require` with the number of the first line that is false.
pub fn called_lines_ok<M: Machine>(
    frame: &RankedFrame<M>,
    state: &M::State,
) -> Result<(), EntryFault>
    requires pc { (M.State.view state.now).pc ≡ (frame_of_rank frame.now).program.entry }
    ensures ok { IsRightTo (frame_of_rank frame.now).program (M.State.view state.now) (2 ^ 32) →
        OnOk result (IsEntryState (frame_of_rank frame.now).program (M.State.view state.now)) }
    ensures fault { IfErr result (λ f. IsEntryStateFault (frame_of_rank frame.now).program (M.State.view state.now) (fault_of f)) }
    ensures kind { IfErr result IsLinesFault }
{
    if frame.rank >= frame.contracts.len() {
        return match function_lines_ok::<M>(&frame.program, state) {
            Ok(()) => Ok(()),
            Err(fault) => Err(fault),
        };
    }
    match own_lines_ok::<M>(&frame.program, &frame.contracts[frame.rank], state) {
        Ok(()) => Ok(()),
        Err(fault) => Err(fault),
    }
}
