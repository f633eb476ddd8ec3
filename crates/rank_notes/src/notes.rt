//! The notes of the frame of a contract.
ghost use Rattle.std.specs.Prelude.{◌≡◌, IfOk, []};
ghost use Rattle.bilv_spec.specs.Notes as notes;
ghost use Rattle.notes_value.specs.FrameViews.{contract_of};
ghost use Rattle.notes_value.specs.NoteViews.{notes_of};

use crate::copies::{copy_asserts, copy_function, copy_lines, copy_targets};
use notes_value::{Contract, Notes};
use std::alloc::{AllocError, Global};

/// The notes of the frame of a contract: what the contract needs is required, nothing is ensured or fixed, and all else is as in the notes of the file. They are
/// copies, in memory of their own.
///
/// # Errors
///
/// Want of memory.
pub fn contract_notes(
    alloc: Global,
    notes: &Notes,
    contract: &Contract,
) -> Result<Notes, AllocError>
    ensures { IfOk result (λ n. notes_of n ≡ record (notes_of notes.now) { requires = (contract_of contract.now).needs; ensures = []; fixed = [] }) }
{
    Ok(Notes {
        entry: copy_function(alloc, &notes.entry)?,
        required: copy_lines(alloc, &contract.needs)?,
        ensured: Vec::new(alloc),
        asserts: copy_asserts(alloc, &notes.asserts)?,
        targets: copy_targets(alloc, &notes.targets)?,
        fixed: Vec::new(alloc),
    })
}
