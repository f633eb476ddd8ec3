//! The known bytes beside those that values break, in aligned blocks, which are the larger the more bytes are asked: a round asks at most as many further bytes
//! as are asked already, or just the broken ones.
ghost use Rattle.std.specs.Prelude.{◌≡◌, ◌+◌, ◌≤◌, ◌^◌, ℕ, true, false, Some, Contains, IfOk, OnOk, map};
ghost use Rattle.walk_spec.specs.Unrolled.{byte_of_runs};
ghost use Rattle.known_bytes.specs.Runs.{AreRuns, run_of};
ghost use Rattle.asked_bytes.specs.AskedBytes.{AreBeside, AreBrokenFound, AreRising, HasByte, IsStretchFound};

use known_bytes::Known;
use std::alloc::{AllocError, Global};

/// The low bits of an address that tell its place in its block, by how many bytes are asked and how many are broken. The size of blocks is the largest power of
/// two, up to 2^16, with which the blocks of all broken bytes have together no more addresses than are asked already, and else 1.
fn place_bits(added: usize, broken: usize) -> u32 {
    let mut bits = 0;
    for power in 1u32..17 {
        if broken <= added >> power {
            bits = (bits << 1) | 1;
        }
    }
    bits
}

/// Whether the byte at an address is known, by binary search among the runs, which rise.
fn is_known(known: &[Known], address: u32) -> bool
    ensures known { result ≡ true → (b : ℕ) × (byte_of_runs (map run_of known.now) address ≡ Some b) }
    ensures unknown { AreRuns known.now → result ≡ false → ¬ HasByte known.now address }
{
    let at = known.partition_point(|run| run.last < address);
    if at >= known.len() {
        return false;
    }
    known[at].first <= address && address <= known[at].last
}

/// Whether an address is among rising ones, by binary search.
fn is_among(added: &[u32], address: u32) -> bool
    requires { AreRising added.now }
    ensures absent { result ≡ false → ¬ Contains added.now address }
    ensures there { result ≡ true → Contains added.now address }
{
    match added.binary_search(&address) {
        Ok(_) => true,
        Err(_) => false,
    }
}

/// Lists an address if its byte is known and not asked yet. The error is want of memory.
fn list_address(
    found: &mut Vec<u32>,
    known: &[Known],
    added: &[u32],
    address: u32,
) -> Result<(), AllocError>
    requires rise { AreRising added.now }
    requires before { AreBeside known.now added.now address found.old.items }
    ensures beside { OnOk result (AreBeside known.now added.now (address + 1) found.new.items) }
    ensures kept { OnOk result ((a : ℕ) → Contains found.old.items a → Contains found.new.items a) }
    ensures asked { AreRuns known.now → OnOk result (HasByte known.now address → ¬ Contains added.now address → Contains found.new.items address) }
{
    if !is_known(known, address) || is_among(added, address) {
        return Ok(());
    }
    found.push(address)?;
    Ok(())
}

/// Lists the addresses from one on and before an end whose bytes are known and not asked yet. Gives the first address that is not looked at. The error is want
/// of memory.
fn list_stretch(
    found: &mut Vec<u32>,
    known: &[Known],
    added: &[u32],
    from: u64,
    end: u64,
) -> Result<u64, AllocError>
    requires rise { AreRising added.now }
    requires before { AreBeside known.now added.now from found.old.items }
    requires within { end ≤ 2 ^ 32 }
    ensures beside { IfOk result (λ next. AreBeside known.now added.now next found.new.items) }
    ensures reached { IfOk result (λ next. end ≤ next) }
    ensures kept { OnOk result ((a : ℕ) → Contains found.old.items a → Contains found.new.items a) }
    ensures asked { AreRuns known.now → IfOk result (λ next. IsStretchFound known.now added.now from next found.new.items) }
{
    let mut next = from;
    while next < end {
        list_address(found, known, added, next as u32)?;
        next += 1;
    }
    Ok(next)
}

/// The addresses of known bytes that are not asked yet, in the blocks of the broken ones; they rise, as those that are given do. The error is want of memory.
pub fn known_beside(
    alloc: Global,
    known: &[Known],
    added: &[u32],
    broken: &[u32],
) -> Result<Vec<u32>, AllocError>
    requires { AreRising added.now }
    ensures beside { IfOk result (λ v. (before : ℕ) × AreBeside known.now added.now before v.items) }
    ensures asked { AreRuns known.now → AreRising broken.now → IfOk result (λ v. AreBrokenFound known.now added.now broken.now v.items) }
{
    let bits = place_bits(added.len(), broken.len());
    let mut found = Vec::new(alloc);
    let mut next: u64 = 0;
    for address in broken {
        let from = next.max((*address & !bits) as u64);
        let end = (*address | bits) as u64 + 1;
        next = list_stretch(&mut found, known, added, from, end)?;
    }
    Ok(found)
}
