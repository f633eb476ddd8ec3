//! The addresses at which values go against the bytes of the file.
ghost use Rattle.std.specs.Prelude.{◌≡◌, ◌↔◌, ◌++◌, ℕ, Bool, [], ◌∷◌, Contains, filter, map, IfOk, OnOk};
ghost use Rattle.std.specs.List.Sorted.{IsStrictlyIncreasing};
ghost use Rattle.term_spec.specs.Terms.{TermReading};
ghost use Rattle.frame_terms.specs.FrameCells.{Cells};
ghost use Rattle.frame_terms.specs.FrameStarts.{IsBroken};
ghost use Rattle.question_form.specs.FrameViews.{frame_unrolled_of};
ghost use Rattle.frame_start.specs.Files.{differs};
ghost use Rattle.frame_start.specs.Reads.{HaveReads};

use crate::file_bytes::file_byte;
use crate::reads::Reads;
use bit_blast::addresses_in_order;
use question_form::Unrolled;
use std::alloc::{AllocError, Global};

/// Lists the address of a read if the part has another byte of the file there.
fn list_differing(
    found: &mut Vec<u32>,
    unrolled: &Unrolled,
    part: u32,
    read: (u32, u8),
) -> Result<(), AllocError>
    ensures { OnOk result (found.new.items ≡ found.old.items ++ map (λ x. x.0) (filter (differs (frame_unrolled_of unrolled.now) part) (read ∷ []))) }
{
    let Some(byte) = file_byte(unrolled, part, read.0) else {
        return Ok(());
    };
    if byte == read.1 {
        return Ok(());
    }
    found.push(read.0)?;
    Ok(())
}

/// Lists the addresses of the reads of a part at which it has another byte of the file.
fn list_all_differing(
    reads: &[(u32, u8)],
    found: &mut Vec<u32>,
    unrolled: &Unrolled,
    part: u32,
) -> Result<(), AllocError>
    ensures { OnOk result (found.new.items ≡ found.old.items ++ map (λ x. x.0) (filter (differs (frame_unrolled_of unrolled.now) part) reads.now)) }
{
    for i in 0..reads.len() {
        list_differing(found, unrolled, part, reads[i])?;
    }
    Ok(())
}

/// The addresses of the bytes of the file that a base read has otherwise, rising and each once: known ones of the entry's part, and kept ones of the head's. The
/// error is want of memory.
pub fn broken_reads(
    alloc: Global,
    unrolled: &Unrolled,
    reads: &Reads,
) -> Result<Vec<u32>, AllocError>
    ensures rise { IfOk result (λ v. IsStrictlyIncreasing v.items) }
    ensures broken { IfOk result (λ v. (c : Cells) (of_head : Bool) (x : TermReading) → HaveReads (frame_unrolled_of unrolled.now) c of_head x reads.now → (a : ℕ) →
        Contains v.items a ↔ IsBroken (frame_unrolled_of unrolled.now) of_head c x a) }
{
    let mut found = Vec::new(alloc);
    list_all_differing(&reads.entry, &mut found, unrolled, 0)?;
    list_all_differing(&reads.head, &mut found, unrolled, 1)?;
    let at = addresses_in_order(found)?;
    Ok(at)
}
