//! The loaded segments (System V ABI, program loading).
ghost use Rattle.std.specs.Prelude.{ℕ, ◌≡◌, ◌≤◌, ◌<◌, ◌+◌, ◌*◌, ◌↔◌, IsTrue, length, map, IfOk, MatchOption, true};
ghost use Rattle.std.specs.List.{filter, All, AllWithin, Contains};
ghost use Rattle.std.specs.List.Sorted.{IsPermutation, IsNonDecreasingBy};
ghost use Rattle.std.specs.Bool.{MatchBool};
ghost use Rattle.bilv_spec.specs.Elf.{field, segments, covers};
ghost use Rattle.bilv_spec.specs.ElfFaults.{BadSegmentRange, BadFileSize, FileFaultApplies};
ghost use Rattle.elf32_reader.specs.Loads.{segment, header, has_addresses, layers, IsApart};
ghost use Rattle.elf32_reader.specs.Images.{IsListed};

use crate::fields::{half, word};
use std::alloc::{AllocError, Global};

/// PT_LOAD, the kind of a segment that is loaded.
const LOAD: u32 = 1;

/// A program header: a part of the file and the addresses at which it is loaded.
#[derive(Clone, Copy)]
pub(crate) struct ProgramHeader {
    pub(crate) kind: u32,
    pub(crate) offset: u32,
    pub(crate) address: u32,
    pub(crate) in_file: u32,
    pub(crate) in_memory: u32,
    pub(crate) flags: u32,
}

/// Program header `i` of a file that has its table.
fn header_at(file: &[u8], i: u16) -> ProgramHeader
    requires order { 52 ≤ length file.now }
    requires table { field file.now 4 28 + 32 * field file.now 2 44 ≤ length file.now }
    requires within { i < field file.now 2 44 }
    ensures { segment result ≡ header file.now i }
{
    let at = word(file, 28) as usize + 32 * i as usize;
    ProgramHeader {
        kind: word(file, at),
        offset: word(file, at + 4),
        address: word(file, at + 8),
        in_file: word(file, at + 16),
        in_memory: word(file, at + 20),
        flags: word(file, at + 24),
    }
}

/// A loaded segment passes the last address.
#[tactic(auto, using(crate::proofs::Headers::range_faults))]
pub(crate) fn passes_memory(file: &[u8]) -> bool
    requires order { 52 ≤ length file.now }
    requires table { field file.now 4 28 + 32 * field file.now 2 44 ≤ length file.now }
    ensures { MatchBool result (FileFaultApplies file.now BadSegmentRange) (¬ FileFaultApplies file.now BadSegmentRange) }
{
    for i in 0..half(file, 44) {
        let s = header_at(file, i);
        if s.kind == LOAD && s.address as u64 + s.in_memory as u64 > 0x1_0000_0000 {
            return true;
        }
    }
    false
}

/// A loaded segment has more bytes in the file than in memory, or passes the file's end.
#[tactic(auto, using(crate::proofs::Headers::size_faults))]
pub(crate) fn passes_file(file: &[u8]) -> bool
    requires order { 52 ≤ length file.now }
    requires table { field file.now 4 28 + 32 * field file.now 2 44 ≤ length file.now }
    ensures { MatchBool result (FileFaultApplies file.now BadFileSize) (¬ FileFaultApplies file.now BadFileSize) }
{
    for i in 0..half(file, 44) {
        let s = header_at(file, i);
        if s.kind == LOAD {
            if s.in_file > s.in_memory {
                return true;
            }
            if s.offset as u64 + s.in_file as u64 > file.len() as u64 {
                return true;
            }
        }
    }
    false
}

/// A segment that is loaded at one address at least.
#[tactic(auto, using(crate::proofs::Apart::tests))]
fn has_memory(s: ProgramHeader) -> bool
    ensures { result ≡ has_addresses (segment s) }
{
    s.kind == LOAD && s.in_memory > 0
}

/// The segments that have addresses, in the order of the file.
#[tactic(auto, using(crate::proofs::Headers::kept_steps))]
fn read_segments(alloc: Global, file: &[u8]) -> Result<Vec<ProgramHeader>, AllocError>
    requires order { 52 ≤ length file.now }
    requires table { field file.now 4 28 + 32 * field file.now 2 44 ≤ length file.now }
    ensures { IfOk result (λ v. map segment v.items ≡ filter has_addresses (segments file.now)) }
{
    let mut found = Vec::new(alloc);
    for i in 0..half(file, 44) {
        let s = header_at(file, i);
        if has_memory(s) {
            found.push(s)?;
        }
    }
    Ok(found)
}

/// The segments by rising addresses.
fn sorted(mut found: Vec<ProgramHeader>) -> Result<Vec<ProgramHeader>, AllocError>
    ensures moved { IfOk result (λ v. IsPermutation found.items v.items) }
    ensures rising { IfOk result (λ v. IsNonDecreasingBy (λ h. h.address) v.items) }
{
    found.sort_by_key(|h| h.address)?;
    Ok(found)
}

/// The segments that have addresses, by rising addresses.
pub(crate) fn sorted_segments(alloc: Global, file: &[u8]) -> Result<Vec<ProgramHeader>, AllocError>
    requires order { 52 ≤ length file.now }
    requires table { field file.now 4 28 + 32 * field file.now 2 44 ≤ length file.now }
    ensures { IfOk result (λ v. IsListed file.now v.items) }
{
    let read = read_segments(alloc, file)?;
    let found = sorted(read)?;
    Ok(found)
}

/// Two of the segments, which rise, share an address.
pub(crate) fn overlaps(found: &[ProgramHeader]) -> bool
    requires rising { IsNonDecreasingBy (λ h. h.address) found.now }
    requires solid { All (λ h. has_addresses (segment h) ≡ true) found.now }
    ensures { MatchBool result ((a : ℕ) × (2 ≤ layers a found.now)) (IsApart found.now) }
{
    for i in 1..found.len() {
        let before = &found[i - 1];
        if before.address as u64 + before.in_memory as u64 > found[i].address as u64 {
            return true;
        }
    }
    false
}

/// How many segments begin at or before an address.
pub(crate) fn begun(found: &[ProgramHeader], a: u32) -> usize
    requires { IsNonDecreasingBy (λ h. h.address) found.now }
    ensures within { result ≤ length found.now }
    ensures before { AllWithin (λ h. h.address ≤ a) found.now 0 result }
    ensures behind { AllWithin (λ h. a < h.address) found.now result (length found.now) }
{
    found.partition_point(|h| h.address <= a)
}

/// The segment that covers an address, among segments that stand apart.
pub(crate) fn covering(found: &[ProgramHeader], a: u32) -> Option<ProgramHeader>
    requires rising { IsNonDecreasingBy (λ h. h.address) found.now }
    requires apart { IsApart found.now }
    requires solid { All (λ h. has_addresses (segment h) ≡ true) found.now }
    ensures { MatchOption result (layers a found.now ≡ 0) (λ h. Contains found.now h × (covers a (segment h) ≡ true)) }
{
    let place = begun(found, a);
    if place == 0 {
        return None;
    }
    let h = found[place - 1];
    if a - h.address < h.in_memory {
        return Some(h);
    }
    None
}
