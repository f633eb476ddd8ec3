//! Whether the memory of a model has the bytes of the file.
ghost use Rattle.std.specs.Prelude.{◌≡◌, ◌≤◌, ◌<◌, ◌^◌, true, false, length, map, slice_index};
ghost use Rattle.std.specs.List.{AllWithin};
ghost use Rattle.word_spec.specs.Words.{word};
ghost use Rattle.machine_spec.specs.StateText.{AreRising};
ghost use Rattle.known_bytes.specs.Runs.{AreRuns, run_of};
ghost use Rattle.table_run.specs.Traces.{byte_over};
ghost use Rattle.model_verdict.specs.Readings.{AreFill, HasKnown, HasRun};

use known_bytes::Known;

/// Whether the bytes from a place up to another one are all the fill; those behind the list are 0.
fn are_fill(bytes: &[u8], fill: u8, low: u64, high: u64) -> bool
    requires { low ≤ high }
    ensures all { result ≡ true → AreFill bytes.now fill low high }
    ensures other { result ≡ false → ¬ AreFill bytes.now fill low high }
{
    let mut place = low;
    while place < high {
        if place >= bytes.len() as u64 {
            return fill == 0;
        }
        if bytes[place as usize] != fill {
            return false;
        }
        place += 1;
    }
    true
}

/// The byte at a place; those behind the list are 0.
fn byte_at(bytes: &[u8], place: u64) -> u8
    ensures { result ≡ slice_index bytes.now place }
{
    if place < bytes.len() as u64 {
        bytes[place as usize]
    } else {
        0
    }
}

/// The place of the first byte of a list whose address is not below one.
fn first_from(bytes: &[(u32, u8)], address: u32) -> usize
    requires { AreRising bytes.now }
    ensures within { result ≤ length bytes.now }
    ensures below { AllWithin (λ e. e.0 < address) bytes.now 0 result }
    ensures from { AllWithin (λ e. address ≤ e.0) bytes.now result (length bytes.now) }
{
    bytes.partition_point(|entry| entry.0 < address)
}

/// Whether a list of bytes over a fill, by rising addresses, has the bytes of a run. The time is that of the bytes that the file has for the run and of those
/// of the list within it: a run may have 2^32 zeros.
fn has_run(run: &Known, fill: u8, bytes: &[(u32, u8)]) -> bool
    requires some { run.now.first ≤ run.now.last }
    requires rising { AreRising bytes.now }
    ensures last { run.now.last < 2 ^ 32 }
    ensures all { result ≡ true → HasRun fill bytes.now run.now }
    ensures other { result ≡ false → ¬ HasRun fill bytes.now run.now }
{
    let count = (run.last - run.first) as u64 + 1;
    let mut from = 0u64;
    let mut next = first_from(bytes, run.first);
    while next < bytes.len() && bytes[next].0 <= run.last {
        let place = (bytes[next].0 - run.first) as u64;
        if !are_fill(run.bytes, fill, from, place) {
            return false;
        }
        if byte_at(run.bytes, place) != bytes[next].1 {
            return false;
        }
        from = place + 1;
        next += 1;
    }
    are_fill(run.bytes, fill, from, count)
}

/// Whether a list of bytes over a fill, by rising addresses, has the bytes of all runs.
pub fn has_known(known: &[Known], fill: u8, bytes: &[(u32, u8)]) -> bool
    requires runs { AreRuns known.now }
    requires rising { AreRising bytes.now }
    ensures all { result ≡ true → HasKnown (map run_of known.now) (λ a. byte_over fill bytes.now (word 32 a)) }
    ensures other { result ≡ false → ¬ HasKnown (map run_of known.now) (λ a. byte_over fill bytes.now (word 32 a)) }
{
    for i in 0..known.len() {
        if !has_run(&known[i], fill, bytes) {
            return false;
        }
    }
    true
}
