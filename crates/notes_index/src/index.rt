//! The places of lines of notes by the addresses that they name.
ghost use Rattle.std.specs.Prelude.{◌≡◌, ◌≤◌, ◌<◌, ℕ, List, IfOk, length};
ghost use Rattle.std.specs.List.{AllWithin};
ghost use Rattle.std.specs.List.Sorted.{IsNonDecreasingBy, IsPermutation, IsStableByKey};
ghost use Rattle.std.specs.Ordering.{nat_cmp};
ghost use Rattle.notes_index.specs.Indexed.{assert_places, targets_places, IsNumbered, IsIndex, ArePlacesOf, AreIndexed};

use notes_value::{Assert, Notes, Targets};
use std::alloc::{AllocError, Global};

/// The places of assert lines and of targets lines, each with the line's address, by rising addresses.
#[derive(Drop)]
pub struct Index {
    pub asserts: Vec<(u32, usize)>,
    pub targets: Vec<(u32, usize)>,
}

/// The address and the place of each assert line. The error is want of memory.
fn numbered_asserts(alloc: Global, asserts: &[Assert]) -> Result<Vec<(u32, usize)>, AllocError>
    ensures { IfOk result (λ v. IsNumbered (assert_places asserts.now) v.items (length asserts.now)) }
{
    let mut places = Vec::new(alloc);
    for i in 0..asserts.len() {
        places.push((asserts[i].at, i))?;
    }
    Ok(places)
}

/// The address and the place of each targets line. The error is want of memory.
fn numbered_targets(alloc: Global, targets: &[Targets]) -> Result<Vec<(u32, usize)>, AllocError>
    ensures { IfOk result (λ v. IsNumbered (targets_places targets.now) v.items (length targets.now)) }
{
    let mut places = Vec::new(alloc);
    for i in 0..targets.len() {
        places.push((targets[i].at, i))?;
    }
    Ok(places)
}

/// The places by rising addresses; those of one address stay in their order.
fn sorted(mut places: Vec<(u32, usize)>) -> Result<Vec<(u32, usize)>, AllocError>
    ensures moved { IfOk result (λ v. IsPermutation places.items v.items) }
    ensures rising { IfOk result (λ v. IsNonDecreasingBy (λ x. x.0) v.items) }
    ensures stable { IfOk result (λ v. IsStableByKey (λ x. x.0) nat_cmp places.items v.items) }
{
    places.sort_by_key(|x| x.0)?;
    Ok(places)
}

/// The index of notes.
///
/// # Errors
///
/// Want of memory.
pub fn index_of(alloc: Global, notes: &Notes) -> Result<Index, AllocError>
    ensures { IfOk result (λ index. AreIndexed notes.now index) }
{
    let asserts = sorted(numbered_asserts(alloc, &notes.asserts)?)?;
    let targets = sorted(numbered_targets(alloc, &notes.targets)?)?;
    Ok(Index { asserts, targets })
}

/// The first place whose address is not below one.
fn first_from(index: &[(u32, usize)], at: u32) -> usize
    requires { IsNonDecreasingBy (λ x. x.0) index.now }
    ensures within { result ≤ length index.now }
    ensures before { AllWithin (λ x. x.0 < at) index.now 0 result }
    ensures behind { AllWithin (λ x. at ≤ x.0) index.now result (length index.now) }
{
    index.partition_point(|x| x.0 < at)
}

/// The first place whose address is above one.
fn first_above(index: &[(u32, usize)], at: u32) -> usize
    requires { IsNonDecreasingBy (λ x. x.0) index.now }
    ensures within { result ≤ length index.now }
    ensures before { AllWithin (λ x. x.0 ≤ at) index.now 0 result }
    ensures behind { AllWithin (λ x. at < x.0) index.now result (length index.now) }
{
    index.partition_point(|x| x.0 <= at)
}

/// Where the places of an address stand among places by rising addresses: from the first number up to the second, which is none of them. Two binary searches.
pub fn group(index: &[(u32, usize)], at: u32) -> (usize, usize)
    requires { IsNonDecreasingBy (λ x. x.0) index.now }
    ensures ordered { result.0 ≤ result.1 }
    ensures within { result.1 ≤ length index.now }
    ensures here { AllWithin (λ x. x.0 ≡ at) index.now result.0 result.1 }
    ensures before { AllWithin (λ x. x.0 < at) index.now 0 result.0 }
    ensures behind { AllWithin (λ x. at < x.0) index.now result.1 (length index.now) }
    ensures places { (places : List ℕ) → IsIndex places index.now → ArePlacesOf places index.now at result.0 result.1 }
{
    (first_from(index, at), first_above(index, at))
}
