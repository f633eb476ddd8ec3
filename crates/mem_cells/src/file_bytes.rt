//! The bytes of the file that are asked of the reads.

ghost use Rattle.std.specs.Prelude.{◌≡◌, ℕ, ◌+◌, ◌<◌, ◌≤◌, ◌↔◌, true, List, ◌++◌, length, map, drop, Contains, IfOk, OnOk};
ghost use Rattle.std.specs.List.Sorted.{IsStrictlyIncreasing};
ghost use Rattle.walk_spec.specs.Unrolled.{byte_of_runs, is_in};
ghost use Rattle.term_spec.specs.WalkQuestions.{is_asked};
ghost use Rattle.known_bytes.specs.Runs.{run_of, sum_of};
ghost use Rattle.question_form.specs.Views.{kept_of};
ghost use Rattle.mem_cells.specs.Asked.{and_byte, byte_of_run, head_asks, AreFileBytes};

use known_bytes::Known;
use std::alloc::{AllocError, Global};

/// A byte of the file, and its address.
#[derive(Clone, Copy)]
pub struct FileByte {
    pub at: u32,
    pub byte: u8,
    /// It is asked of the head's memory too.
    pub head: bool,
}

/// Numbers, each once and rising. The error is want of memory.
fn in_order(mut found: Vec<u32>) -> Result<Vec<u32>, AllocError>
    ensures rise { IfOk result (λ v. IsStrictlyIncreasing v.items) }
    ensures same { IfOk result (λ v. (a : ℕ) → Contains found.items a ↔ Contains v.items a) }
{
    found.sort()?;
    found.dedup();
    Ok(found)
}

/// The addresses that are asked, each once and rising: those that were added, and the four of each literal. The error is want of memory.
fn asked_addresses(alloc: Global, added: &[u32], literals: &[u32]) -> Result<Vec<u32>, AllocError>
    ensures rise { IfOk result (λ v. IsStrictlyIncreasing v.items) }
    ensures asked { IfOk result (λ v. (a : ℕ) → Contains v.items a ↔ (is_asked added.now literals.now a ≡ true)) }
{
    let mut found = Vec::new(alloc);
    found.extend_from_slice(added)?;
    for first in literals {
        found.extend_from_slice(&[
            *first,
            first.wrapping_add(1),
            first.wrapping_add(2),
            first.wrapping_add(3),
        ])?;
    }
    let asked = in_order(found)?;
    Ok(asked)
}

/// The byte that a run has at an address.
fn byte_in(run: &Known, at: u32) -> Option<u8>
    ensures { result ≡ byte_of_run (run_of run.now) at }
{
    if at < run.first {
        return None;
    }
    let place = at - run.first;
    if place > run.last.saturating_sub(run.first) {
        return None;
    }
    if (place as usize) < run.bytes.len() {
        return Some(run.bytes[place as usize]);
    }
    Some(0)
}

/// Where the runs from a place on begin without those at their front that end before an address.
fn passed(known: &[Known], from: usize, at: u32) -> usize
    requires { from ≤ length known.now }
    ensures within { result ≤ length known.now }
    ensures same { (a : ℕ) → at ≤ a → byte_of_runs (map run_of (drop result known.now)) a ≡ byte_of_runs (map run_of (drop from known.now)) a }
{
    for place in from..known.len() {
        if known[place].first >= at || known[place].last >= at {
            return place;
        }
    }
    known.len()
}

/// The byte that the runs from a place on have at an address.
fn known_byte(known: &[Known], from: usize, at: u32) -> Option<u8>
    requires { from ≤ length known.now }
    ensures { result ≡ byte_of_runs (map run_of (drop from known.now)) at }
{
    for place in from..known.len() {
        if let Some(byte) = byte_in(&known[place], at) {
            return Some(byte);
        }
    }
    None
}

/// Whether a kept run holds an address.
pub fn is_kept(kept: &[(u32, u32)], at: u32) -> bool
    ensures { result ≡ is_in (map kept_of kept.now) at }
{
    for place in 0..kept.len() {
        let (low, high) = kept[place];
        if low <= at && at <= high {
            return true;
        }
    }
    false
}

/// Whether the byte at an address is asked of the head's memory: it has the kept bytes, if the question is of heads.
fn is_of_head(of_heads: bool, kept: &[(u32, u32)], at: u32) -> bool
    ensures { result ≡ head_asks of_heads kept.now at }
{
    if of_heads {
        return is_kept(kept, at);
    }
    false
}

/// One more byte, if there is one at an address.
fn add_byte(
    bytes: &mut Vec<FileByte>,
    at: u32,
    head: bool,
    found: Option<u8>,
) -> Result<(), AllocError>
    ensures { OnOk result (bytes.new.items ≡ and_byte bytes.old.items at head found) }
{
    match found {
        None => Ok(()),
        Some(byte) => {
            bytes.push(FileByte { at, byte, head })?;
            Ok(())
        }
    }
}

/// The bytes that runs have at addresses, which rise. The error is want of memory.
fn bytes_at(
    alloc: Global,
    known: &[Known],
    asked: &[u32],
    of_heads: bool,
    kept: &[(u32, u32)],
) -> Result<Vec<FileByte>, AllocError>
    requires { IsStrictlyIncreasing asked.now }
    ensures are { IfOk result (λ v. AreFileBytes (map run_of known.now) (Contains asked.now) (head_asks of_heads kept.now) v.items) }
    ensures few { IfOk result (λ v. length v.items ≤ sum_of known.now) }
{
    let mut bytes = Vec::new(alloc);
    let mut from = 0;
    for at in asked {
        from = passed(known, from, *at);
        let found = known_byte(known, from, *at);
        let head = is_of_head(of_heads, kept, *at);
        add_byte(&mut bytes, *at, head, found)?;
    }
    Ok(bytes)
}

/// The bytes of the file that are asked, no more than it has, and of the head's memory those that are kept, if the question is of heads. The error is want of
/// memory.
pub fn asked_bytes(
    alloc: Global,
    known: &[Known],
    literals: &[u32],
    added: &[u32],
    of_heads: bool,
    kept: &[(u32, u32)],
) -> Result<Vec<FileByte>, AllocError>
    ensures are { IfOk result (λ v. AreFileBytes (map run_of known.now) (λ a. is_asked added.now literals.now a ≡ true)
        (head_asks of_heads kept.now) v.items) }
    ensures few { IfOk result (λ v. length v.items ≤ sum_of known.now) }
{
    let asked = asked_addresses(alloc, added, literals)?;
    let bytes = bytes_at(alloc, known, &asked, of_heads, kept)?;
    Ok(bytes)
}
