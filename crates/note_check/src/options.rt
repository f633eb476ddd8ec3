//! Options and lines that do not fit the file.
ghost use Rattle.std.specs.Prelude.{◌≡◌, ◌++◌, IfOk, OnOk};
ghost use Rattle.bilv_spec.specs.ElfFaults.{IsImage};
ghost use Rattle.notes_value.specs.NoteViews.{notes_of};
ghost use Rattle.note_check.specs.Options.{misses_compressed, AreWrongOptions};
ghost use Rattle.note_check.specs.Warnings.{only};

use crate::fields::word;
use crate::symbols::{is_risc_v, is_thumb, lacks_symbols};
use crate::warning::Warning;
use notes_value::Notes;
use std::alloc::{AllocError, Global};

/// The file has compressed instructions, and they were not asked for.
fn misses_compressed(file: &[u8], rvc: bool) -> bool
    requires { IsImage file.now }
    ensures { result ≡ misses_compressed rvc file.now }
{
    is_risc_v(file) && !rvc && word(file, 36) % 2 == 1
}

/// Adds a warning where it is so. The error is want of memory.
fn push_if(found: &mut Vec<Warning>, so: bool, warning: Warning) -> Result<(), AllocError>
    ensures { OnOk result (found.new.items ≡ found.old.items ++ only so warning) }
{
    if so {
        found.push(warning)?;
        return Ok(());
    }
    Ok(())
}

/// Warns where a file that is an image does not fit what is asked of it: it has compressed instructions and `rvc` does not ask for them; the function of the notes
/// is Thumb code; its name is to be looked up, and there is no symbol table.
///
/// # Errors
///
/// Want of memory.
pub fn wrong_option(
    alloc: Global,
    file: &[u8],
    notes: &Notes,
    rvc: bool,
) -> Result<Vec<Warning>, AllocError>
    requires { IsImage file.now }
    ensures { IfOk result (λ v. AreWrongOptions rvc file.now (notes_of notes.now).entry v.items) }
{
    let mut found = Vec::new(alloc);
    push_if(
        &mut found,
        misses_compressed(file, rvc),
        Warning::CompressedCode,
    )?;
    push_if(
        &mut found,
        is_thumb(file, &notes.entry),
        Warning::ThumbFunction,
    )?;
    push_if(
        &mut found,
        lacks_symbols(file, &notes.entry),
        Warning::NoSymbols,
    )?;
    Ok(found)
}
