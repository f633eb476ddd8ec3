//! The list of the points of a frame of contracts, and of a program.
ghost use Rattle.std.specs.Prelude.{◌≡◌, ◌≤◌, None, IfOk, IfErr, OnOk, Contains, length, map};
ghost use Rattle.bilv_spec.specs.Run.{Program};
ghost use Rattle.frame_spec.specs.Frames as frames;
ghost use Rattle.graph_nodes.specs.Graphs.{IsGraph};
ghost use Rattle.program_points.specs.declared.values.Point.{Point};
ghost use Rattle.program_points.specs.declared.values.FramePoint.{FramePoint};
ghost use Rattle.program_points.specs.Listed.{AreCuts, AreFramePointsOf, ArePointsOf, HasOneWay, HasTooMany, IsTooMany, plain_of};
ghost use Rattle.program_points.specs.Tables as tables;
ghost use Rattle.program_points.specs.Tables.{IsTable, IsListed, AreAdded, frame_at, is_root_within, listed, return_end};
ghost use Rattle.program_points.specs.Walks.{AreFirst, IsStep};

use crate::adding::{Found, Limits, add, add_ends, head_point};
use crate::leading::{called, ends, returned};
use crate::stacks::{Stacks, no_frames};
use crate::values::{Cuts, End, FramePoint, FramePoints, Point, Points, PointsFault};
use graph_nodes::{Graph, node_at};
use std::alloc::{AllocError, Global};
use std::collections::BTreeSet;

/// The first points, at the frame's address: the entry's, and where that is a head, the one of its root. The error is out of memory.
fn first(alloc: Global, heads: &[u32], entry: u32) -> Result<Found, AllocError>
    ensures listed { IfOk result (λ f. IsListed 0 0 f.points.items f.seen) }
    ensures first { IfOk result (λ f. AreFirst heads.now entry f.points.items) }
{
    let mut found = Found {
        points: Vec::new(alloc),
        seen: BTreeSet::new(alloc),
    };
    let point = FramePoint {
        root: None,
        turns: 0,
        contract: false,
        stack: 0,
        at: entry,
    };
    add(&mut found, point)?;
    if !heads.contains(&entry) {
        return Ok(found);
    }
    let head = head_point(End {
        stack: 0,
        at: entry,
    });
    add(&mut found, head)?;
    Ok(found)
}

/// Whether the segment of the entry ends at a point, which is a head.
fn is_cut(heads: &[u32], point: FramePoint) -> bool
    ensures { result ≡ tables.is_cut heads.now point }
{
    point.root.is_none() && heads.contains(&point.at)
}

/// The stack behind a call of a row, where the row links: there is no call where its number is 0.
fn linked(links: bool, called: usize) -> Option<usize>
    ensures { result ≡ tables.linked links called }
{
    if links && called != 0 {
        Some(called)
    } else {
        None
    }
}

/// Adds the point to which the contract step of a point of the list returns. The error is out of memory.
fn add_return(
    alloc: Global,
    narrow: bool,
    limits: &Limits,
    stacks: &Stacks,
    found: &mut Found,
    point: FramePoint,
) -> Result<(), AllocError>
    requires table { IsTable stacks.now.frames.items stacks.now.numbers }
    requires listed { IsListed limits.now.k (length stacks.now.frames.items) found.old.points.items found.old.seen }
    requires point { Contains found.old.points.items point }
    ensures listed { OnOk result (IsListed limits.now.k (length stacks.now.frames.items) found.new.points.items found.new.seen) }
    ensures added { OnOk result (AreAdded (tables.target limits.now.cuts.heads.now limits.now.cuts.stepped.now None point) limits.now.k limits.now.max
        (listed (return_end narrow (frame_at stacks.now.frames.items point.stack))) found.old.points.items found.new.points.items) }
{
    let ends = returned(alloc, narrow, &stacks.frames, point.stack)?;
    add_ends(found, limits, None, point, &ends)?;
    Ok(())
}

/// Adds the points that a point of the list leads to, until there are more than the most. The error is out of memory.
fn expand(
    alloc: Global,
    graph: &Graph,
    limits: &Limits,
    stacks: &mut Stacks,
    found: &mut Found,
    point: FramePoint,
) -> Result<(), AllocError>
    requires table { IsTable stacks.old.frames.items stacks.old.numbers }
    requires listed { IsListed limits.now.k (length stacks.old.frames.items) found.old.points.items found.old.seen }
    requires point { Contains found.old.points.items point }
    ensures table { OnOk result (IsTable stacks.new.frames.items stacks.new.numbers) }
    ensures listed { OnOk result (IsListed limits.now.k (length stacks.new.frames.items) found.new.points.items found.new.seen) }
    ensures step { OnOk result (IsStep graph.now limits.now.cuts.heads.now limits.now.cuts.stepped.now limits.now.k limits.now.max point stacks.old.frames.items
        stacks.new.frames.items found.old.points.items found.new.points.items) }
{
    if point.contract {
        add_return(alloc, graph.narrow, limits, stacks, found, point)?;
        return Ok(());
    }
    if is_cut(limits.cuts.heads, point) {
        return Ok(());
    }
    let node = match node_at(graph, point.at) {
        None => return Ok(()),
        Some(node) => node,
    };
    let called = called(stacks, node, point.stack)?;
    let ends = ends(
        alloc,
        graph.narrow,
        node,
        &stacks.frames,
        point.stack,
        called,
    )?;
    let linked = linked(node.links, called);
    add_ends(found, limits, linked, point, &ends)?;
    Ok(())
}

/// The points of a frame of contracts with at most `k` backward transfers, from its program's flow graph: those that are reached from the frame's address. A
/// segment ends at each head, and the one of the head's root begins there; a call by the link register of a contract that is stepped over leads to the contract
/// step, which returns. The frame has these cuts.
///
/// # Errors
///
/// `TooMany` with the count `max + 1` as soon as more than `max` points are found; out of memory.
pub fn frame_points(
    alloc: Global,
    graph: &Graph,
    cuts: &Cuts,
    entry: u32,
    k: u64,
    max: u64,
) -> Result<FramePoints, PointsFault>
    requires max { max ≤ 16777216 }
    ensures points { (f : frames.Frame) → IsGraph f.program graph.now → f.program.entry ≡ entry → HasOneWay f.program →
        AreCuts f cuts.now.heads.now cuts.now.stepped.now → IfOk result (λ v. AreFramePointsOf f k v) }
    ensures few { IfOk result (λ v. length v.points.items ≤ max) }
    ensures table { IfOk result (λ v. IsTable v.stacks.frames.items v.stacks.numbers) }
    ensures numbered { IfOk result (λ v. (q : FramePoint) → Contains v.points.items q → q.stack ≤ length v.stacks.frames.items) }
    ensures low { IfOk result (λ v. (q : FramePoint) → Contains v.points.items q → q.turns ≤ k) }
    ensures rooted { IfOk result (λ v. (q : FramePoint) → Contains v.points.items q → is_root_within (length v.stacks.frames.items) q.root) }
    ensures few_stacks { IfOk result (λ v. length v.stacks.frames.items ≤ max) }
    ensures more { (f : frames.Frame) → IsGraph f.program graph.now → f.program.entry ≡ entry → HasOneWay f.program →
        AreCuts f cuts.now.heads.now cuts.now.stepped.now → IfErr result (HasTooMany f k max) }
{
    let limits = Limits {
        cuts: *cuts,
        k,
        max,
    };
    let mut stacks = no_frames(alloc);
    let mut found = first(alloc, cuts.heads, entry)?;
    let mut next = 0;
    'listing: loop {
        if found.points.len() as u64 > max {
            return Err(PointsFault::TooMany { count: max + 1 });
        }
        if next == found.points.len() {
            return Ok(FramePoints {
                stacks,
                points: found.points,
            });
        }
        let point = found.points[next];
        expand(alloc, graph, &limits, &mut stacks, &mut found, point)?;
        next += 1;
    }
}

/// Points without their roots and contract steps. The error is out of memory.
fn plain(alloc: Global, points: &[FramePoint]) -> Result<Vec<Point>, AllocError>
    ensures { IfOk result (λ v. v.items ≡ map plain_of points.now) }
{
    let mut found = Vec::with_capacity(alloc, points.len())?;
    for point in points {
        found.push(Point {
            turns: point.turns,
            stack: point.stack,
            at: point.at,
        })?;
    }
    Ok(found)
}

/// The points of a program with at most `k` backward transfers, from its flow graph: those that are reached from the function's address.
///
/// # Errors
///
/// `TooMany` with the count `max + 1` as soon as more than `max` points are found; out of memory.
pub fn points(
    alloc: Global,
    graph: &Graph,
    entry: u32,
    k: u64,
    max: u64,
) -> Result<Points, PointsFault>
    requires max { max ≤ 16777216 }
    ensures points { (p : Program) → IsGraph p graph.now → p.entry ≡ entry → HasOneWay p → IfOk result (λ v. ArePointsOf p k v) }
    ensures few { IfOk result (λ v. length v.points.items ≤ max) }
    ensures table { IfOk result (λ v. IsTable v.stacks.frames.items v.stacks.numbers) }
    ensures numbered { IfOk result (λ v. (q : Point) → Contains v.points.items q → q.stack ≤ length v.stacks.frames.items) }
    ensures more { (p : Program) → IsGraph p graph.now → p.entry ≡ entry → HasOneWay p → IfErr result (IsTooMany p k max) }
{
    let cuts = Cuts {
        heads: &[],
        stepped: &[],
    };
    let found = frame_points(alloc, graph, &cuts, entry, k, max)?;
    let points = plain(alloc, &found.points)?;
    Ok(Points {
        stacks: found.stacks,
        points,
    })
}
