//! Segments whose code may be written.
ghost use Rattle.std.specs.Prelude.{◌≡◌, ◌≤◌, ◌<◌, ◌+◌, ◌*◌, ◌-◌, ◌&&◌, length, IfOk, MatchOption, false, true};
ghost use Rattle.bilv_spec.specs.Elf.{field, executable, writable};
ghost use Rattle.bilv_spec.specs.ElfFaults.{IsImage};
ghost use Rattle.elf32_reader.specs.Loads.{header};
ghost use Rattle.note_check.specs.Ranges.{is_writable_code, range_warning, writable_ranges};

use crate::fields::{half, word};
use crate::warning::Warning;
use std::alloc::{AllocError, Global};

/// PT_LOAD, the kind of a segment that is loaded.
const LOAD: u32 = 1;

/// Where program header `i` stands.
fn header_place(file: &[u8], i: u16) -> usize
    requires accepted { IsImage file.now }
    requires within { i < field file.now 2 44 }
    ensures place { result ≡ field file.now 4 28 + 32 * i }
    ensures room { result + 32 ≤ length file.now }
    ensures order { 52 ≤ length file.now }
{
    word(file, 28) as usize + 32 * i as usize
}

/// Flags have both X, which is 1, and W, which is 2.
fn allows_both(flags: u32) -> bool
    ensures { result ≡ (executable flags && writable flags) }
{
    flags % 2 == 1 && flags / 2 % 2 == 1
}

/// The warning of program header `i`, if its segment's code may be written.
fn writable_at(file: &[u8], i: u16) -> Option<Warning>
    requires accepted { IsImage file.now }
    requires within { i < field file.now 2 44 }
    ensures { MatchOption result (is_writable_code (header file.now i) ≡ false)
        (λ w. (is_writable_code (header file.now i) ≡ true) × (w ≡ range_warning (header file.now i))) }
{
    let at = header_place(file, i);
    let size = word(file, at + 20);
    if word(file, at) != LOAD || size == 0 || !allows_both(word(file, at + 24)) {
        return None;
    }
    let first = word(file, at + 8);
    Some(Warning::WritableCode {
        first,
        last: first + (size - 1),
    })
}

/// Warns of each loaded segment that is executable and writable, in the order of the program headers of a file that is an image.
///
/// # Errors
///
/// Want of memory.
pub fn writable_code(alloc: Global, file: &[u8]) -> Result<Vec<Warning>, AllocError>
    requires { IsImage file.now }
    ensures { IfOk result (λ v. v.items ≡ writable_ranges file.now) }
{
    let mut found = Vec::new(alloc);
    for i in 0..segment_count(file) {
        if let Some(warning) = writable_at(file, i) {
            found.push(warning)?;
        }
    }
    Ok(found)
}

/// How many program headers a file has.
fn segment_count(file: &[u8]) -> u16
    requires { IsImage file.now }
    ensures { result ≡ field file.now 2 44 }
{
    half(file, 44)
}
