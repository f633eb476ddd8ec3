//! The memory of a model as terms are read under it.
ghost use Rattle.std.specs.Prelude.{◌≡◌, ◌==◌, ℕ, ◌<◌, ◌%◌, bit_xor, if◌then◌else◌, map, IfOk, OnOk};
ghost use Rattle.word_spec.specs.Words.{word};
ghost use Rattle.word_spec.specs.Memory.{memory_of};
ghost use Rattle.known_bytes.specs.Runs.{AreRuns, run_of};
ghost use Rattle.model_verdict.specs.Models.{filler, listed, memory_over, turned, IsSoundMemory};

use bit_blast::start_memory;
use bv_word::Word;
use byte_mem::{Bytes32, Endian};
use known_bytes::Known;
use model_text::ModelMemory;
use std::alloc::{AllocError, Global};

/// Stores a byte. The error is want of memory.
fn put(memory: &mut Bytes32, a: u32, value: u8) -> Result<(), AllocError>
    ensures { OnOk result ((x : ℕ) → memory_of memory.new.entries x ≡ (if word 32 x == a then value else memory_of memory.old.entries x)) }
{
    memory.store(a, 1, Endian::Little, Word::new(8, value as u64))?;
    Ok(())
}

/// The memory of a list of bytes over a fill, each with the bits of the fill turned: the byte at an address that is not listed is 0. They are stored downwards,
/// so that of two bytes at one address the first counts. The error is want of memory.
fn turned_memory(alloc: Global, fill: u8, bytes: &[(u32, u8)]) -> Result<Bytes32, AllocError>
    ensures { IfOk result (λ memory. (x : ℕ) → memory_of memory.entries x ≡ memory_of (turned fill bytes.now) x) }
{
    let mut memory = Bytes32::new(alloc);
    let count = bytes.len();
    for i in 0..count {
        let (a, value) = bytes[count - 1 - i];
        put(&mut memory, a, value ^ fill)?;
    }
    Ok(memory)
}

/// The byte at each address that a model's memory does not list. Where the answer gives no memory it is 0.
pub fn fill_of(memory: &Option<ModelMemory>) -> u8
    ensures { result ≡ filler memory.now }
{
    match memory {
        None => 0,
        Some(memory) => memory.fill,
    }
}

/// The bytes of a model's memory over its fill. Where the answer gives no memory there are none.
pub fn listed_of<'a>(memory: &'a Option<ModelMemory>) -> &'a [(u32, u8)]
    ensures { result.now ≡ listed memory.now }
{
    match memory {
        None => &[],
        Some(memory) => &memory.bytes,
    }
}

/// The memory of a model, each byte with the bits of the fill turned. Where the answer gives no memory it has the known bytes. The error is want of memory.
pub fn model_memory(
    alloc: Global,
    known: &[Known],
    memory: &Option<ModelMemory>,
) -> Result<Bytes32, AllocError>
    requires runs { AreRuns known.now }
    requires sound { IsSoundMemory memory.now }
    ensures { IfOk result (λ m. (x : ℕ) → bit_xor (filler memory.now % 256) (memory_of m.entries x % 256) ≡ memory_over (map run_of known.now) memory.now x) }
{
    match memory {
        None => {
            let filled = start_memory(alloc, known, &[])?;
            Ok(filled)
        }
        Some(memory) => {
            let filled = turned_memory(alloc, memory.fill, &memory.bytes)?;
            Ok(filled)
        }
    }
}
