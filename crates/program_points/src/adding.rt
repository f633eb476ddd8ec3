//! Points that are found, each once.
ghost use Rattle.std.specs.Prelude.{◌≡◌, ◌≤◌, ◌<◌, ℕ, OnOk, MatchOption, Contains};
ghost use Rattle.program_points.specs.Tables as tables;
ghost use Rattle.program_points.specs.Tables.{IsListed, IsAdded, AreAdded, IsWithin};

use crate::values::{Cuts, End, FramePoint, Root};
use std::alloc::AllocError;
use std::collections::BTreeSet;

/// What tells a point from others: backward transfers, stack, address, whether a contract step is made, and the root.
type Key = (u64, usize, u32, bool, Option<(usize, u32)>);

/// Where a listing of points stops: the cuts of the frame, the most backward transfers, and the most points.
#[derive(Clone, Copy)]
pub struct Limits<'a> {
    pub cuts: Cuts<'a>,
    pub k: u64,
    pub max: u64,
}

/// The points that were found, in the order of finding, and the set of their keys.
#[derive(Drop)]
pub struct Found {
    pub points: Vec<FramePoint>,
    pub seen: BTreeSet<Key>,
}

/// A root as a part of a key.
fn root_key(root: Option<Root>) -> Option<(usize, u32)>
    ensures { result ≡ tables.root_key root }
{
    match root {
        None => None,
        Some(root) => Some((root.stack, root.at)),
    }
}

/// Adds a point, where it is not found yet. The error is out of memory.
pub fn add(found: &mut Found, point: FramePoint) -> Result<(), AllocError>
    ensures { OnOk result ((k stacks : ℕ) → IsListed k stacks found.old.points.items found.old.seen → IsWithin k stacks point →
        IsListed k stacks found.new.points.items found.new.seen × IsAdded point found.old.points.items found.new.points.items) }
{
    let root = root_key(point.root);
    if found
        .seen
        .insert((point.turns, point.stack, point.at, point.contract, root))?
    {
        found.points.push(point)?;
    }
    Ok(())
}

/// The first point of the root at a head.
pub fn head_point(end: End) -> FramePoint
    ensures { result ≡ tables.head_point end }
{
    let (stack, at) = (end.stack, end.at);
    FramePoint {
        root: Some(Root { stack, at }),
        turns: 0,
        contract: false,
        stack,
        at,
    }
}

/// Whether a call to an end is stepped over: the end's stack is the one behind the point's call, where that links, and its address is a contract's.
fn is_stepped(stepped: &[u32], linked: Option<usize>, end: End) -> bool
    ensures { result ≡ tables.is_stepped stepped.now linked end }
{
    match linked {
        None => false,
        Some(called) => end.stack == called && stepped.contains(&end.at),
    }
}

/// The point of the same root at an end of a point, where it has at most `k` backward transfers.
fn point_to(k: u64, contract: bool, point: FramePoint, end: End) -> Option<FramePoint>
    requires { point.turns ≤ k }
    ensures { MatchOption result (k < (tables.point_to contract point end).turns) (λ t. (t ≡ tables.point_to contract point end) × (t.turns ≤ k)) }
{
    let root = point.root;
    let (stack, at) = (end.stack, end.at);
    if at > point.at {
        return Some(FramePoint {
            root,
            turns: point.turns,
            contract,
            stack,
            at,
        });
    }
    if point.turns == k {
        return None;
    }
    Some(FramePoint {
        root,
        turns: point.turns + 1,
        contract,
        stack,
        at,
    })
}

/// The point at an end of a point, where it has at most `k` backward transfers: the first one of the end's root where the end is a head, and else one of the
/// same root. The stack behind the point's call is given where that links.
fn target(
    k: u64,
    cuts: &Cuts,
    linked: Option<usize>,
    point: FramePoint,
    end: End,
) -> Option<FramePoint>
    requires { point.turns ≤ k }
    ensures { MatchOption result (k < (tables.target cuts.now.heads.now cuts.now.stepped.now linked point end).turns)
        (λ t. (t ≡ tables.target cuts.now.heads.now cuts.now.stepped.now linked point end) × (t.turns ≤ k)) }
{
    if cuts.heads.contains(&end.at) {
        return Some(head_point(end));
    }
    let contract = is_stepped(cuts.stepped, linked, end);
    point_to(k, contract, point, end)
}

/// Adds the points at the ends of a point, and stops where there are more than the most. The stack behind the point's call is given where that links. The error
/// is out of memory.
pub fn add_ends(
    found: &mut Found,
    limits: &Limits,
    linked: Option<usize>,
    point: FramePoint,
    ends: &[End],
) -> Result<(), AllocError>
    requires { point.turns ≤ limits.now.k }
    ensures { OnOk result ((stacks : ℕ) → IsListed limits.now.k stacks found.old.points.items found.old.seen → IsWithin limits.now.k stacks point →
        ((e : tables.End) → Contains ends.now e → e.stack ≤ stacks) → IsListed limits.now.k stacks found.new.points.items found.new.seen ×
        AreAdded (tables.target limits.now.cuts.heads.now limits.now.cuts.stepped.now linked point) limits.now.k limits.now.max ends.now found.old.points.items
        found.new.points.items) }
{
    for end in ends {
        if found.points.len() as u64 > limits.max {
            return Ok(());
        }
        if let Some(next) = target(limits.k, &limits.cuts, linked, point, *end) {
            add(found, next)?;
        }
    }
    Ok(())
}
