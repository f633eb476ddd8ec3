//! The points of a frame as numbers.
ghost use Rattle.std.specs.Prelude.{◌≤◌, IfOk, IfErr, length};
ghost use Rattle.std.specs.List.Sorted.{IsStrictlyIncreasing};
ghost use Rattle.frame_spec.specs.Frames.{Frame};
ghost use Rattle.program_points.specs.Listed.{HasTooMany};
ghost use Rattle.program_points.specs.Tables.{IsTable};
ghost use Rattle.unroller.specs.Keys.{AreKeys, AreSegments, IsFrameOf};

use crate::keys::{keys_in_order, point_keys, segments};
use graph_nodes::Graph;
use program_points::{Cuts, PointsFault, Stacks, frame_points};
use std::alloc::Global;

/// The points of a frame as numbers, in the order of places, with the numbers of where its segments begin.
#[derive(Drop)]
pub struct Keyed {
    pub stacks: Stacks,
    pub segments: Vec<u128>,
    pub keys: Vec<u128>,
}

/// The points of a frame with these heads, which steps over the contracts of these addresses, with at most `k` backward transfers, from its program's flow graph.
///
/// # Errors
///
/// `TooMany` with the count `max + 1` exactly where there are more than `max` points; out of memory.
pub fn number_points(
    alloc: Global,
    graph: &Graph,
    cuts: &Cuts,
    entry: u32,
    k: u64,
    max: u64,
) -> Result<Keyed, PointsFault>
    requires max { max ≤ 16777216 }
    requires k { k ≤ 4096 }
    ensures keys { (f : Frame) → IsFrameOf f graph.now cuts.now.heads.now cuts.now.stepped.now entry →
        IfOk result (λ v. AreKeys f k v.stacks.frames.items v.segments.items v.keys.items) }
    ensures segments { (f : Frame) → IsFrameOf f graph.now cuts.now.heads.now cuts.now.stepped.now entry → IfOk result (λ v. AreSegments f k v.stacks.frames.items v.segments.items) }
    ensures rise { IfOk result (λ v. IsStrictlyIncreasing v.keys.items) }
    ensures few { IfOk result (λ v. length v.keys.items ≤ max) }
    ensures short { IfOk result (λ v. length v.segments.items ≤ max) }
    ensures table { IfOk result (λ v. IsTable v.stacks.frames.items v.stacks.numbers) }
    ensures few_stacks { IfOk result (λ v. length v.stacks.frames.items ≤ max) }
    ensures more { (f : Frame) → IsFrameOf f graph.now cuts.now.heads.now cuts.now.stepped.now entry → IfErr result (HasTooMany f k max) }
{
    let listed = frame_points(alloc, graph, cuts, entry, k, max)?;
    let segments = segments(alloc, &listed.points)?;
    let keys = keys_in_order(point_keys(alloc, &listed.points, &segments)?)?;
    Ok(Keyed {
        stacks: listed.stacks,
        segments,
        keys,
    })
}
