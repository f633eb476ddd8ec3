//! The memory of a start.
ghost use Rattle.std.specs.Prelude.{◌≡◌, ◌==◌, ℕ, ◌≤◌, ◌<◌, ◌+◌, ◌-◌, None, All, IfOk, OnOk, if◌then◌else◌, length, map, min};
ghost use Rattle.word_spec.specs.Words.{word};
ghost use Rattle.word_spec.specs.Memory.{memory_of};
ghost use Rattle.machine_spec.specs.StateText.{known_or};
ghost use Rattle.walk_spec.specs.Unrolled.{byte_of_runs};
ghost use Rattle.known_bytes.specs.Runs.{AreRuns, run_of};
ghost use Rattle.bit_blast.specs.Stored.{AreBytes, filled};

use bv_word::Word;
use byte_mem::{Bytes32, Endian};
use known_bytes::Known;
use std::alloc::{AllocError, Global};

/// Stores a byte.
pub fn put(memory: &mut Bytes32, a: u32, value: u8) -> Result<(), AllocError>
    ensures value { OnOk result ((x : ℕ) → memory_of memory.new.entries x ≡ (if word 32 x == a then value else memory_of memory.old.entries x)) }
    ensures below { OnOk result (AreBytes (memory_of memory.old.entries) → AreBytes (memory_of memory.new.entries)) }
{
    memory.store(a, 1, Endian::Little, Word::new(8, value as u64))?;
    Ok(())
}

/// The memory of bytes by their addresses, of which the first of an address counts.
pub fn of_bytes(alloc: Global, bytes: &[(u32, u8)]) -> Result<Bytes32, AllocError>
    ensures value { IfOk result (λ memory. (x : ℕ) → memory_of memory.entries x ≡ memory_of bytes.now x) }
    ensures below { IfOk result (λ memory. AreBytes (memory_of memory.entries)) }
{
    let mut memory = Bytes32::new(alloc);
    let count = bytes.len();
    for i in 0..count {
        let (a, value) = bytes[count - 1 - i];
        put(&mut memory, a, value)?;
    }
    Ok(memory)
}

/// Stores the bytes that the file has for a run.
fn fill(memory: &mut Bytes32, run: &Known) -> Result<(), AllocError>
    requires { run.now.first ≤ run.now.last }
    ensures value { OnOk result ((x : ℕ) → memory_of memory.new.entries x
        ≡ filled run.now (min (length run.now.bytes.now) (run.now.last - run.now.first + 1)) (word 32 x) (memory_of memory.old.entries x)) }
    ensures below { OnOk result (AreBytes (memory_of memory.old.entries) → AreBytes (memory_of memory.new.entries)) }
{
    let room = (run.last - run.first) as usize + 1;
    let count = usize::min(run.bytes.len(), room);
    for i in 0..count {
        put(memory, run.first + i as u32, run.bytes[i])?;
    }
    Ok(())
}

/// The memory of a start: the known byte, else the one that is written, else 0; addresses wrap.
pub fn start_memory(
    alloc: Global,
    runs: &[Known],
    bytes: &[(u32, u8)],
) -> Result<Bytes32, AllocError>
    requires rising { AreRuns runs.now }
    requires unknown { All (λ b. byte_of_runs (map run_of runs.now) b.0 ≡ None) bytes.now }
    ensures value { IfOk result (λ memory. (x : ℕ) → memory_of memory.entries x ≡ known_or (byte_of_runs (map run_of runs.now) (word 32 x)) bytes.now x) }
    ensures below { IfOk result (λ memory. AreBytes (memory_of memory.entries)) }
{
    let mut memory = of_bytes(alloc, bytes)?;
    let count = runs.len();
    for i in 0..count {
        let run = runs[count - 1 - i];
        fill(&mut memory, &run)?;
    }
    Ok(memory)
}
