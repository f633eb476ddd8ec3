//! All warnings about a function and its notes.
ghost use Rattle.std.specs.Prelude.{IfOk};
ghost use Rattle.bilv_spec.specs.ElfFaults.{IsImage};
ghost use Rattle.program_value.specs.Programs.{program_of};
ghost use Rattle.note_check.specs.Checks.{AreWarnings};
ghost use Rattle.note_check.specs.Reached.{whole_from};

use crate::constants::constant_lines;
use crate::options::wrong_option;
use crate::ranges::writable_code;
use crate::reached::unreached;
use crate::warning::Warning;
use machine_law::Machine;
use notes_value::Contract;
use program_value::Program;
use std::alloc::{AllocError, Global};

/// Warns of what makes an answer about a program mean less than it seems: what is not reached, as [`unreached`] says; then code that may be written, as
/// [`writable_code`] says, options that do not fit the file, as [`wrong_option`] says, and lines of constants alone, as [`constant_lines`] says. `file` are the bytes
/// of the program's image, and `rvc` tells whether compressed instructions were asked for.
///
/// # Errors
///
/// Want of memory.
pub fn warnings<M: Machine>(
    alloc: Global,
    file: &[u8],
    program: &Program<M>,
    invariants: &[u32],
    contracts: &[Contract],
    rvc: bool,
) -> Result<Vec<Warning>, AllocError>
    requires { IsImage file.now }
    ensures { IfOk result (λ v. AreWarnings rvc file.now (whole_from (program_of program.now) invariants.now contracts.now) v.items) }
{
    let mut found = unreached::<M>(alloc, program, invariants, contracts)?;
    let writable = writable_code(alloc, file)?;
    found.extend_from_slice(&writable)?;
    let options = wrong_option(alloc, file, program.notes, rvc)?;
    found.extend_from_slice(&options)?;
    let constant = constant_lines(alloc, program.notes)?;
    found.extend_from_slice(&constant)?;
    Ok(found)
}
