//! Points as numbers, in the order of places.
ghost use Rattle.std.specs.Prelude.{◌≡◌, ◌↔◌, ◌≤◌, ◌<◌, ℕ, IfOk, MatchOption, Contains, filter, length, map, slice_index, slice_index_or};
ghost use Rattle.std.specs.List.Sorted.{IsNonDecreasingBy, IsStrictlyIncreasing};
ghost use Rattle.program_points.specs.declared.values.FramePoint.{FramePoint as ListedPoint};
ghost use Rattle.program_points.specs.Tables.{is_among};
ghost use Rattle.unroller.specs.Keys as numbers;
ghost use Rattle.unroller.specs.Keys.{IsAimAt};

use crate::returning::is_stepped;
use notes_index::group;
use program_points::{End, FramePoint, Root};
use question_form::Aim;
use std::alloc::{AllocError, Global};

/// What a root counts in the number of a point: 2^96.
const ROOT: u128 = 79_228_162_514_264_337_593_543_950_336;

/// What a backward transfer counts in the number of a point: 2^64.
const TURN: u128 = 18_446_744_073_709_551_616;

/// What an address counts in the number of a point: 2^32.
const ADDRESS: u128 = 4_294_967_296;

/// The number of a point: by the number of its root, then by its backward transfers, then by its address, then by the number of its stack, and last by whether a
/// contract step is made there.
pub fn key_of(root: u32, turns: u32, at: u32, stack: usize, contract: bool) -> u128
    requires { root ≤ 16777216 }
    ensures { result ≡ numbers.key_of root turns at stack contract }
{
    let even = root as u128 * ROOT
        + turns as u128 * TURN
        + at as u128 * ADDRESS
        + stack as u128 * 2;
    if contract { even + 1 } else { even }
}

/// The number of the root of the point of a number.
pub fn root_of(key: u128) -> u32
    ensures { result ≡ numbers.root_of key }
{
    (key / ROOT) as u32
}

/// The backward transfers of the point of a number.
pub fn turns_of(key: u128) -> u32
    ensures { result ≡ numbers.turns_of key }
{
    (key / TURN % 4_294_967_296) as u32
}

/// The address of the point of a number.
pub fn address_of(key: u128) -> u32
    ensures { result ≡ numbers.address_of key }
{
    (key / ADDRESS % 4_294_967_296) as u32
}

/// The number of the stack of the point of a number.
pub fn stack_of(key: u128) -> usize
    ensures { result ≡ numbers.stack_of key }
{
    (key % ADDRESS / 2) as usize
}

/// Whether a contract step is made at the point of a number.
pub fn contract_of(key: u128) -> bool
    ensures { result ≡ numbers.contract_of key }
{
    key % 2 == 1
}

/// The number of where a segment begins: 0 for the entry, and for a head by its address and the number of its stack.
fn head_number(head: Option<Root>) -> u128
    ensures { result ≡ numbers.head_number head }
{
    match head {
        None => 0,
        Some(head) => head.at as u128 * 18_446_744_073_709_551_616 + head.stack as u128 + 1,
    }
}

/// Where the segment of a number begins: at a head, or at the entry.
pub fn head_of(number: u128) -> Option<Root>
    ensures { result ≡ numbers.head_of number }
{
    if number == 0 {
        return None;
    }
    let stack = ((number - 1) % 18_446_744_073_709_551_616) as usize;
    let at = ((number - 1) / 18_446_744_073_709_551_616 % 4_294_967_296) as u32;
    Some(Root { stack, at })
}

/// The number of the point at an end of a point, which is of the same segment; by the addresses of the contracts that are stepped over, and the stack behind the
/// point's call, where that links.
pub fn target_key(stepped: &[u32], linked: Option<usize>, own: u128, end: End) -> u128
    requires root { numbers.root_of own ≤ 16777216 }
    requires low { numbers.turns_of own ≤ 4096 }
    ensures value { result ≡ numbers.target_key stepped.now linked own end }
    ensures small { end.at < 4294967296 }
{
    let turns = turns_of(own);
    let contract = is_stepped(stepped, linked, end);
    if end.at <= address_of(own) {
        return key_of(root_of(own), turns + 1, end.at, end.stack, contract);
    }
    key_of(root_of(own), turns, end.at, end.stack, contract)
}

/// The numbers of where the segments of points begin, each once and rising. The error is want of memory.
pub fn segments(alloc: Global, points: &[FramePoint]) -> Result<Vec<u128>, AllocError>
    ensures rise { IfOk result (λ v. IsStrictlyIncreasing v.items) }
    ensures same { IfOk result (λ v. (x : ℕ) → Contains (map numbers.segment_of points.now) x ↔ Contains v.items x) }
    ensures few { IfOk result (λ v. length v.items ≤ length points.now) }
{
    let mut found: Vec<u128> = Vec::with_capacity(alloc, points.len())?;
    for point in points {
        found.push(head_number(point.root))?;
    }
    let ordered = keys_in_order(found)?;
    Ok(ordered)
}

/// The place of a number that is among rising ones, by binary search.
pub fn place_in(list: &[u128], number: u128) -> usize
    requires rise { IsStrictlyIncreasing list.now }
    requires among { Contains list.now number }
    ensures within { result < length list.now }
    ensures at { slice_index list.now result ≡ number }
    ensures value { result ≡ numbers.place_in list.now number }
{
    match list.binary_search(&number) {
        Ok(place) => place,
        Err(_) => unreachable!(),
    }
}

/// The number of a listed point, by the numbers of where segments begin.
fn point_key(point: FramePoint, segments: &[u128]) -> u128
    requires rise { IsStrictlyIncreasing segments.now }
    requires few { length segments.now ≤ 16777216 }
    requires low { point.turns ≤ 4096 }
    requires rooted { Contains segments.now (numbers.segment_of point) }
    ensures value { result ≡ numbers.point_key segments.now point }
    ensures small { point.at < 4294967296 }
{
    let root = place_in(segments, head_number(point.root));
    key_of(
        root as u32,
        point.turns as u32,
        point.at,
        point.stack,
        point.contract,
    )
}

/// The numbers of points, by the numbers of where their segments begin. The error is want of memory.
pub fn point_keys(
    alloc: Global,
    points: &[FramePoint],
    segments: &[u128],
) -> Result<Vec<u128>, AllocError>
    requires rise { IsStrictlyIncreasing segments.now }
    requires few { length segments.now ≤ 16777216 }
    requires low { (q : ListedPoint) → Contains points.now q → q.turns ≤ 4096 }
    requires rooted { (q : ListedPoint) → Contains points.now q → Contains segments.now (numbers.segment_of q) }
    ensures listed { IfOk result (λ v. v.items ≡ map (numbers.point_key segments.now) points.now) }
    ensures small { IfOk result (λ v. (q : ListedPoint) → Contains points.now q → q.at < 4294967296) }
{
    let mut found: Vec<u128> = Vec::new(alloc);
    for point in points {
        found.push(point_key(*point, segments))?;
    }
    Ok(found)
}

/// Numbers of points, each once and rising. The error is want of memory.
pub fn keys_in_order(mut found: Vec<u128>) -> Result<Vec<u128>, AllocError>
    ensures rise { IfOk result (λ v. IsStrictlyIncreasing v.items) }
    ensures same { IfOk result (λ v. (x : ℕ) → Contains found.items x ↔ Contains v.items x) }
    ensures few { IfOk result (λ v. length v.items ≤ length found.items) }
{
    found.sort()?;
    found.dedup();
    Ok(found)
}

/// Addresses, each once and rising. The error is want of memory.
pub fn addresses_in_order(mut found: Vec<u32>) -> Result<Vec<u32>, AllocError>
    ensures rise { IfOk result (λ v. IsStrictlyIncreasing v.items) }
    ensures same { IfOk result (λ v. (x : ℕ) → Contains found.items x ↔ Contains v.items x) }
    ensures few { IfOk result (λ v. length v.items ≤ length found.items) }
{
    found.sort()?;
    found.dedup();
    Ok(found)
}

/// Whether a contract step is made at the point of a number, or none is.
fn is_of(contract: bool, key: u128) -> bool
    ensures { result ≡ numbers.is_of contract key }
{
    if contract {
        return contract_of(key);
    }
    !contract_of(key)
}

/// The addresses of those of the points of numbers at which a contract step is made, or of the others, each once and rising. The error is want of memory.
pub fn addresses(alloc: Global, keys: &[u128], contract: bool) -> Result<Vec<u32>, AllocError>
    ensures rise { IfOk result (λ v. IsStrictlyIncreasing v.items) }
    ensures same { IfOk result (λ v. (x : ℕ) → Contains (map numbers.address_of (filter (numbers.is_of contract) keys.now)) x ↔ Contains v.items x) }
    ensures few { IfOk result (λ v. length v.items ≤ length keys.now) }
{
    let mut found: Vec<u32> = Vec::new(alloc);
    for key in keys {
        if is_of(contract, *key) {
            found.push(address_of(*key))?;
        }
    }
    let ordered = addresses_in_order(found)?;
    Ok(ordered)
}

/// The place of an address among rising ones, by binary search.
pub fn address_place(addresses: &[u32], at: u32) -> Option<usize>
    requires { IsStrictlyIncreasing addresses.now }
    ensures { MatchOption result (¬ Contains addresses.now at) (λ i. (i < length addresses.now) × (slice_index addresses.now i ≡ at)) }
{
    match addresses.binary_search(&at) {
        Ok(place) => Some(place),
        Err(_) => None,
    }
}

/// What says where edges lead: the heads, the addresses of the contracts that are stepped over, in the order of their ranks, the assert lines by address, and the
/// numbers of all points.
#[derive(Clone, Copy)]
pub struct Aims<'a> {
    pub heads: &'a [u32],
    pub stepped: &'a [u32],
    pub asserts: &'a [(u32, usize)],
    pub keys: &'a [u128],
}

/// Whether an address is a head.
pub fn is_head(heads: &[u32], at: u32) -> bool
    ensures { result ≡ is_among heads.now at }
{
    heads.contains(&at)
}

/// Where an edge to the point of a number leads: to a head, or else by binary search among the numbers of all points.
pub fn aim(aims: &Aims, key: u128) -> Aim
    requires rise { IsStrictlyIncreasing aims.now.keys.now }
    requires few { length aims.now.keys.now ≤ 16777216 }
    requires sorted { IsNonDecreasingBy (λ x. x.0) aims.now.asserts.now }
    ensures { IsAimAt aims.now.heads.now aims.now.asserts.now aims.now.keys.now key result }
{
    let at = address_of(key);
    if is_head(aims.heads, at) {
        return Aim::IntoHead {
            at,
            asserts: group(aims.asserts, at),
        };
    }
    match aims.keys.binary_search(&key) {
        Ok(place) => Aim::OnTo(place as u32),
        Err(_) => Aim::OverLast,
    }
}
