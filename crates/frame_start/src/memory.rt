//! The memory of a head state.
ghost use Rattle.std.specs.Prelude.{◌≡◌, ◌==◌, ◌&&◌, ℕ, ◌≤◌, ◌+◌, ◌-◌, None, All, OnOk, IfOk, if◌then◌else◌, length, map, min};
ghost use Rattle.word_spec.specs.Words.{word};
ghost use Rattle.word_spec.specs.Memory.{memory_of};
ghost use Rattle.walk_spec.specs.Unrolled.{byte_of_runs, is_in};
ghost use Rattle.machine_spec.specs.StateText.{known_or};
ghost use Rattle.known_bytes.specs.Runs.{AreRuns, run_of};
ghost use Rattle.question_form.specs.Views.{kept_of};
ghost use Rattle.bit_blast.specs.Stored.{AreBytes};
ghost use Rattle.frame_start.specs.Kept.{filled_kept};

use bit_blast::{of_bytes, put};
use byte_mem::Bytes32;
use known_bytes::Known;
use mem_cells::is_kept;
use std::alloc::{AllocError, Global};

/// Stores a byte where it is kept.
fn put_kept(memory: &mut Bytes32, kept: &[(u32, u32)], a: u32, value: u8) -> Result<(), AllocError>
    ensures value { OnOk result ((x : ℕ) → memory_of memory.new.entries x
        ≡ (if (word 32 x == a) && is_in (map kept_of kept.now) a then value else memory_of memory.old.entries x)) }
    ensures below { OnOk result (AreBytes (memory_of memory.old.entries) → AreBytes (memory_of memory.new.entries)) }
{
    if is_kept(kept, a) {
        put(memory, a, value)?;
        return Ok(());
    }
    Ok(())
}

/// Stores the bytes that the file has for a run, where they are kept.
fn fill_kept(memory: &mut Bytes32, run: &Known, kept: &[(u32, u32)]) -> Result<(), AllocError>
    requires { run.now.first ≤ run.now.last }
    ensures value { OnOk result ((x : ℕ) → memory_of memory.new.entries x
        ≡ filled_kept (map kept_of kept.now) run.now (min (length run.now.bytes.now) (run.now.last - run.now.first + 1)) (word 32 x)
        (memory_of memory.old.entries x)) }
    ensures below { OnOk result (AreBytes (memory_of memory.old.entries) → AreBytes (memory_of memory.new.entries)) }
{
    let room = (run.last - run.first) as usize + 1;
    let count = usize::min(run.bytes.len(), room);
    for i in 0..count {
        put_kept(memory, kept, run.first + i as u32, run.bytes[i])?;
    }
    Ok(())
}

/// The memory of a head state as it is written: the known byte where it is kept, else the one that is written, else 0; addresses wrap.
pub fn head_memory(
    alloc: Global,
    runs: &[Known],
    kept: &[(u32, u32)],
    bytes: &[(u32, u8)],
) -> Result<Bytes32, AllocError>
    requires rising { AreRuns runs.now }
    requires unknown { All (λ b. (if is_in (map kept_of kept.now) b.0 then byte_of_runs (map run_of runs.now) b.0 else None) ≡ None) bytes.now }
    ensures value { IfOk result (λ memory. (x : ℕ) → memory_of memory.entries x
        ≡ known_or (if is_in (map kept_of kept.now) (word 32 x) then byte_of_runs (map run_of runs.now) (word 32 x) else None) bytes.now x) }
    ensures below { IfOk result (λ memory. AreBytes (memory_of memory.entries)) }
{
    let mut memory = of_bytes(alloc, bytes)?;
    let count = runs.len();
    for i in 0..count {
        let run = runs[count - 1 - i];
        fill_kept(&mut memory, &run, kept)?;
    }
    Ok(memory)
}
