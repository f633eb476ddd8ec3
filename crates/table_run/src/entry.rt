//! Whether a state may be the one at entry.
ghost use Rattle.std.specs.Prelude.{◌≡◌, ℕ, ◌≤◌, ◌+◌, ◌^◌, MatchOption, IfErr, OnOk, None};
ghost use Rattle.machine_spec.specs.Machine.{IsAtPlace};
ghost use Rattle.bilv_spec.specs.Verdict.{IsEntryState};
ghost use Rattle.bilv_spec.specs.EntryFaults.{IsEntryStateFault, false_require};
ghost use Rattle.program_value.specs.Programs.{program_at};
ghost use Rattle.table_run.specs.Endings.{fault_of, IsLinesFault};
ghost use Rattle.table_run.specs.Known.{HasBytesTo, IsFirstOther, IsRightTo, IsFirstWrong};

use crate::ending::EntryFault;
use crate::lines::false_line;
use crate::words::{byte, is_place};
use byte_mem::View;
use elf32_reader::Part;
use known_bytes::{byte_in, first_known};
use machine_law::Machine;
use program_value::Program;

/// The first address of a part at which a state has another byte.
pub(crate) fn first_other<V: View>(part: &Part, state: &V) -> Option<u32>
    requires { part.now.first ≤ part.now.last }
    ensures { MatchOption result (HasBytesTo (V.view state.now).mem part.now (part.now.last + 1)) (IsFirstOther (V.view state.now).mem part.now) }
{
    let mut at = part.first;
    loop {
        if byte(state, at) != byte_in(part, at) {
            return Some(at);
        }
        if at == part.last {
            return None;
        }
        at += 1;
    }
}

/// The first known address at which a state has another byte than the file.
fn first_wrong<M: Machine>(p: &Program<M>, state: &M::State) -> Option<u32>
    ensures { MatchOption result (IsRightTo (program_at p.now (M.State.view state.now).pc) (M.State.view state.now) (2 ^ 32))
        (IsFirstWrong (program_at p.now (M.State.view state.now).pc) (M.State.view state.now)) }
{
    let mut at = 0u32;
    loop {
        let part = match first_known(p.image, p.notes, at) {
            None => return None,
            Some(part) => part,
        };
        if let Some(wrong) = first_other(&part, state) {
            return Some(wrong);
        }
        if part.last == u32::MAX {
            return None;
        }
        at = part.last + 1;
    }
}

/// A row can stand at the address in the link register of a state, and each require line is true: for a state whose memory is known to agree with the file. It
/// takes no memory.
///
/// # Errors
///
/// `Link`, else `Require` with the number of the first line that is false.
pub fn lines_ok<M: Machine>(program: &Program<M>, state: &M::State) -> Result<(), EntryFault>
    ensures link { OnOk result (IsAtPlace M.machine.narrow ((M.State.view state.now).regs M.machine.link)) }
    ensures lines { OnOk result
        (false_require (program_at program.now (M.State.view state.now).pc) (M.State.view state.now) ≡ None) }
    ensures fault { IfErr result (λ f.
        IsEntryStateFault (program_at program.now (M.State.view state.now).pc) (M.State.view state.now) (fault_of f)) }
    ensures kind { IfErr result IsLinesFault }
{
    if !is_place::<M>(state.link()) {
        return Err(EntryFault::Link);
    }
    match false_line(&program.notes.required, state, state, program.big) {
        None => Ok(()),
        Some(line) => Err(EntryFault::Require { line }),
    }
}

/// The state may be the one at entry, the function's address being its own: a row can stand at the address in its link register, each require line is true, and
/// its memory agrees with the file on the bytes that are kept or fixed. It takes no memory; its time is that of the loaded bytes that are kept or fixed.
///
/// # Errors
///
/// The first fault in the order of [`EntryFault`].
pub fn entry_ok<M: Machine>(program: &Program<M>, state: &M::State) -> Result<(), EntryFault>
    ensures ok { OnOk result (IsEntryState (program_at program.now (M.State.view state.now).pc) (M.State.view state.now)) }
    ensures fault { IfErr result (λ f.
        IsEntryStateFault (program_at program.now (M.State.view state.now).pc) (M.State.view state.now) (fault_of f)) }
{
    lines_ok::<M>(program, state)?;
    match first_wrong::<M>(program, state) {
        None => Ok(()),
        Some(at) => Err(EntryFault::Byte { at }),
    }
}
