//! The memory of a start.
ghost use Rattle.std.specs.Prelude.{◌≡◌, ℕ, ◌≤◌, ◌<◌, IfOk, OnOk, All, map, length, false};
ghost use Rattle.word_spec.specs.Words.{word};
ghost use Rattle.word_spec.specs.Memory.{memory_of};
ghost use Rattle.machine_spec.specs.StateText.{AreRising, known_or};
ghost use Rattle.notes_value.specs.NoteViews.{fixed_of};
ghost use Rattle.known_bytes.specs.Known.{is_known, given};
ghost use Rattle.table_run.specs.Known.{IsPut, HasFirst, Fills};

use bv_word::Word;
use byte_mem::{Bytes32, Endian};
use elf32_reader::{Image, Part};
use known_bytes::first_given;
use machine_law::Machine;
use notes_value::FixedRange;
use program_value::Program;
use std::alloc::{AllocError, Global};

/// Stores a byte. The error is want of memory.
fn put(memory: &mut Bytes32, a: u32, value: u8) -> Result<(), AllocError>
    ensures { OnOk result (IsPut memory.old.entries a value memory.new.entries) }
{
    memory.store(a, 1, Endian::Little, Word::new(8, value as u64))?;
    Ok(())
}

/// The memory of bytes by their addresses. The error is want of memory.
fn of_bytes(alloc: Global, bytes: &[(u32, u8)]) -> Result<Bytes32, AllocError>
    requires { AreRising bytes.now }
    ensures { IfOk result (λ memory. HasFirst bytes.now (length bytes.now) memory.entries) }
{
    let mut memory = Bytes32::new(alloc);
    for i in 0..bytes.len() {
        let (a, value) = bytes[i];
        put(&mut memory, a, value)?;
    }
    Ok(memory)
}

/// Stores the bytes that the file has for a part. The error is want of memory.
fn fill(memory: &mut Bytes32, part: &Part) -> Result<(), AllocError>
    requires { part.now.first ≤ part.now.last }
    ensures { OnOk result (Fills part.now memory.old.entries memory.new.entries) }
{
    let room = (part.last - part.first) as usize + 1;
    let count = usize::min(part.bytes.len(), room);
    for i in 0..count {
        put(memory, part.first + i as u32, part.bytes[i])?;
    }
    Ok(())
}

/// The memory of a start: the file's byte where it is kept, or loaded and within one of the ranges, else the start's, else 0; addresses wrap. The error is want
/// of memory.
pub(crate) fn memory_given(
    alloc: Global,
    image: &Image,
    ranges: &[FixedRange],
    bytes: &[(u32, u8)],
) -> Result<Bytes32, AllocError>
    requires rising { AreRising bytes.now }
    requires unknown { All (λ b. is_known image.now (map fixed_of ranges.now) b.0 ≡ false) bytes.now }
    ensures bytes { IfOk result (λ memory. (x : ℕ) → memory_of memory.entries x
        ≡ known_or (given image.now (map fixed_of ranges.now) (word 32 x)) bytes.now x) }
{
    let mut memory = of_bytes(alloc, bytes)?;
    let mut at = 0u32;
    loop {
        let part = match first_given(image, ranges, at) {
            None => return Ok(memory),
            Some(part) => part,
        };
        fill(&mut memory, &part)?;
        if part.last == u32::MAX {
            return Ok(memory);
        }
        at = part.last + 1;
    }
}

/// The memory of a start: the file's byte where it is kept or fixed, else the start's, else 0; addresses wrap. The error is want of memory.
pub(crate) fn memory_at<M: Machine>(
    alloc: Global,
    p: &Program<M>,
    bytes: &[(u32, u8)],
) -> Result<Bytes32, AllocError>
    requires rising { AreRising bytes.now }
    requires unknown { All (λ b. is_known p.now.image.now (map fixed_of p.now.notes.now.fixed.items) b.0 ≡ false) bytes.now }
    ensures bytes { IfOk result (λ memory. (x : ℕ) → memory_of memory.entries x
        ≡ known_or (given p.now.image.now (map fixed_of p.now.notes.now.fixed.items) (word 32 x)) bytes.now x) }
{
    let memory = memory_given(alloc, p.image, &p.notes.fixed, bytes)?;
    Ok(memory)
}
