//! The work of a number.

ghost use Rattle.std.specs.Prelude.{◌≡◌, ◌+◌, ◌<◌, ◌≤◌, ◌^◌, ◌++◌, IfOk, [], ◌∷◌};
ghost use Rattle.command_spec.specs.Work as work_of;
ghost use Rattle.command_spec.specs.Work.{work_file, work_notes, work_text};

use crate::items::computed;
use crate::row_file::row_file;
use state_text::{push_number, push_text, push_word};
use std::alloc::{AllocError, Global};

/// An executable and notes, and what its function leaves in `a0`.
#[derive(Drop)]
pub struct MadeWork {
    /// The bytes of the ELF file.
    pub file: Vec<u8>,
    /// The text of the notes.
    pub notes: Vec<u8>,
    /// The word in `a0` at the return.
    pub result: u32,
}

/// The notes: where the function begins, what it begins with, and what it leaves.
fn notes(alloc: Global, seed: u32, count: u32, left: u32) -> Result<Vec<u8>, AllocError>
    requires { left ≡ work_of.result seed count }
    ensures { IfOk result (λ text. text.items ≡ work_notes seed count) }
{
    let mut text = Vec::new(alloc);
    push_text(&mut text, b"entry 0x10000\nrequire a0 = ")?;
    push_number(alloc, &mut text, seed as u64)?;
    push_text(&mut text, b"\nrequire a1 = ")?;
    push_number(alloc, &mut text, count as u64)?;
    push_text(&mut text, b"\nensure a0 = ")?;
    push_word(&mut text, left)?;
    push_text(&mut text, b"\n")?;
    Ok(text)
}

/// The work of a seed, below 2^31, and a number of items: so many computing rows, chosen by a sequence of numbers, and the return, in a row file; and the notes
/// that say what they compute from the seed in `a0` and the number of items in `a1`. Its verdict is `holds`. The error is want of memory.
pub fn work(alloc: Global, seed: u32, count: u32) -> Result<MadeWork, AllocError>
    requires seed { seed < 2 ^ 31 }
    requires count { count ≤ 16000 }
    ensures file { IfOk result (λ w. w.file.items ≡ work_file seed count) }
    ensures notes { IfOk result (λ w. w.notes.items ≡ work_notes seed count) }
    ensures computes { IfOk result (λ w. w.result ≡ work_of.result seed count) }
{
    let computed = computed(alloc, seed, count)?;
    let file = row_file(alloc, &computed.words)?;
    let notes = notes(alloc, seed, count, computed.result)?;
    Ok(MadeWork {
        file,
        notes,
        result: computed.result,
    })
}

/// What is written before the verdict's line: the seed, the number of items, the number of words and what the function leaves. The error is want of memory.
pub fn front(alloc: Global, seed: u32, count: u32, left: u32) -> Result<Vec<u8>, AllocError>
    requires count { count ≤ 16000 }
    requires left { left ≡ work_of.result seed count }
    ensures { IfOk result (λ text. text.items ≡ work_text seed count) }
{
    let mut text = Vec::new(alloc);
    push_text(&mut text, b"selfrun ")?;
    push_number(alloc, &mut text, seed as u64)?;
    push_text(&mut text, b" ")?;
    push_number(alloc, &mut text, count as u64)?;
    push_text(&mut text, b" words ")?;
    push_number(alloc, &mut text, (count + 1) as u64)?;
    push_text(&mut text, b" a0 ")?;
    push_word(&mut text, left)?;
    push_text(&mut text, b" ")?;
    Ok(text)
}
