//! The known bytes as runs.
ghost use Rattle.std.specs.Prelude.{◌≡◌, ℕ, ◌<◌, ◌≤◌, ◌^◌, None, IfOk, map};
ghost use Rattle.machine_spec.specs.Machine.{Machine};
ghost use Rattle.bilv_spec.specs.Files.{program_of};
ghost use Rattle.bilv_spec.specs.Points.{IsCount, is_known_at};
ghost use Rattle.walk_spec.specs.Unrolled.{byte_of_runs};
ghost use Rattle.walk_spec.specs.Unrolling.{file_known};
ghost use Rattle.notes_value.specs.NoteViews.{notes_of};
ghost use Rattle.known_bytes.specs.Runs.{AreRuns, run_of, sum_of};

use crate::stretches::first_known;
use elf32_reader::Image;
use notes_value::Notes;
use std::alloc::{AllocError, Global};

/// Known bytes that stand together. Those behind the ones that the file has are 0; a run that ends early has more of them than addresses, which do not belong
/// to it.
#[derive(Clone, Copy)]
pub struct Known<'a> {
    /// The first address.
    pub first: u32,
    /// The last address; it belongs to the run.
    pub last: u32,
    /// The bytes from the first address on that the file has, borrowed from it.
    pub bytes: &'a [u8],
}

/// The known bytes of a file with notes.
#[derive(Drop)]
pub struct KnownBytes<'a> {
    /// The runs, rising. Two may meet.
    pub runs: Vec<Known<'a>>,
    /// The number of the bytes.
    pub count: u64,
}

/// The known bytes of a file with notes: those that are kept, and those that are loaded and fixed. Memory is taken for the runs alone.
///
/// # Errors
///
/// Want of memory.
pub fn known_bytes<'a>(
    alloc: Global,
    image: &Image<'a>,
    notes: &Notes,
) -> Result<KnownBytes<'a>, AllocError>
    ensures rising { IfOk result (λ k. AreRuns k.runs.items) }
    ensures bytes { (m : Machine) (entry x : ℕ) → x < 2 ^ 32 → IfOk result (λ k. byte_of_runs (map run_of k.runs.items) x
        ≡ file_known (program_of m image.now (notes_of notes.now) entry) x) }
    ensures beyond { (x : ℕ) → 2 ^ 32 ≤ x → IfOk result (λ k. byte_of_runs (map run_of k.runs.items) x ≡ None) }
    ensures sum { IfOk result (λ k. sum_of k.runs.items ≡ k.count) }
    ensures count { (m : Machine) (entry : ℕ) → IfOk result (λ k. IsCount (is_known_at (program_of m image.now (notes_of notes.now) entry)) k.count) }
{
    let mut runs: Vec<Known<'a>> = Vec::new(alloc);
    let mut count = 0u64;
    let mut at = 0u32;
    loop {
        let part = match first_known(image, notes, at) {
            None => return Ok(KnownBytes { runs, count }),
            Some(part) => part,
        };
        runs.push(Known {
            first: part.first,
            last: part.last,
            bytes: part.bytes,
        })?;
        count += (part.last - part.first) as u64 + 1;
        if part.last == u32::MAX {
            return Ok(KnownBytes { runs, count });
        }
        at = part.last + 1;
    }
}
