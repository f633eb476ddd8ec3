//! The order of points in scripts: by where their segments begin, the entry first, then by backward transfers, then by how many addresses their stacks have,
//! then by these from the bottom, then by address; a contract step comes behind the row of the same address. Heads are in the order of their stacks and
//! addresses.
ghost use Rattle.std.specs.Prelude.{◌≡◌, ◌<◌, ◌≤◌, ◌∷◌, [], ℕ, length, slice_index, IfOk, MatchOption, OnOk};
ghost use Rattle.std.specs.List.Sorted.{IsPermutation};
ghost use Rattle.program_points.specs.Listed.{anchor_of};
ghost use Rattle.program_points.specs.Tables.{stack_at, stacks_of};
ghost use Rattle.smtlib_print.specs.Orders.{AreDepths, AreSorted, anchor_order, placed_order, spot_order, stack_order};

use program_points::Root;
use question_form::Frame;
use std::alloc::{AllocError, Global};
use std::cmp::Ordering;

/// A point and its place in the unrolled program.
#[derive(Clone, Copy)]
pub struct Placed {
    /// Where its segment begins, if not at the entry.
    pub root: Option<Root>,
    pub turns: u32,
    /// The number of its stack.
    pub stack: usize,
    pub at: u32,
    /// A contract step is made there.
    pub contract: bool,
    pub place: u32,
}

/// The frame of a stack by its number, above one of a lower number; the empty stack has none.
pub fn frame(frames: &[Frame], stack: usize) -> Option<Frame>
    ensures { MatchOption result (stack_at frames.now stack ≡ [])
        (λ f. (f.below < stack) × (stack_at frames.now stack ≡ f.top ∷ stack_at frames.now f.below)) }
{
    if stack == 0 {
        return None;
    }
    if stack > frames.len() {
        return None;
    }
    let found = frames[stack - 1];
    if found.below < stack {
        return Some(found);
    }
    Some(Frame {
        top: found.top,
        below: 0,
    })
}

/// How many addresses a stack has that follows those of a table.
fn next_depth(frames: &[Frame], stack: usize, depths: &[usize]) -> usize
    requires below { (n : ℕ) → n < stack → (slice_index depths.now n ≡ length (stack_at frames.now n)) × (slice_index depths.now n ≤ n) }
    requires count { length depths.now ≡ stack }
    ensures { (result ≡ length (stack_at frames.now stack)) × (result ≤ stack) }
{
    match frame(frames, stack) {
        None => 0,
        Some(found) => depths[found.below] + 1,
    }
}

/// How many addresses each stack has, by its number. The error is want of memory.
pub fn all_depths(alloc: Global, frames: &[Frame]) -> Result<Vec<usize>, AllocError>
    ensures { IfOk result (λ v. AreDepths frames.now v.items) }
{
    let mut found: Vec<usize> = Vec::new(alloc);
    found.push(0)?;
    for place in 0..frames.len() {
        let depth = next_depth(frames, place + 1, &found);
        found.push(depth)?;
    }
    Ok(found)
}

/// How many addresses the stack of a number has; one that is not in the table has none.
fn depth(depths: &[usize], stack: usize) -> usize
    ensures { result ≡ slice_index depths.now stack }
{
    if stack < depths.len() {
        return depths[stack];
    }
    0
}

/// The order of two stacks that have as many addresses, by these from the bottom.
fn compare_stacks(frames: &[Frame], left: usize, right: usize) -> Ordering
    requires { length (stack_at frames.now left) ≡ length (stack_at frames.now right) }
    ensures { result ≡ stack_order (stack_at frames.now left) (stack_at frames.now right) }
{
    let mut upper = left;
    let mut other = right;
    let mut order = Ordering::Equal;
    while upper != other {
        let Some(top) = frame(frames, upper) else {
            return order;
        };
        let Some(against) = frame(frames, other) else {
            return order;
        };
        order = top.top.cmp(&against.top).then(order);
        upper = top.below;
        other = against.below;
    }
    order
}

/// The order of two stacks with an address each: by how many addresses the stacks have, by these from the bottom, and by the address.
fn compare_spots(frames: &[Frame], depths: &[usize], x: Root, y: Root) -> Ordering
    requires { AreDepths frames.now depths.now }
    ensures { result ≡ spot_order (stack_at frames.now x.stack) x.at (stack_at frames.now y.stack) y.at }
{
    match depth(depths, x.stack).cmp(&depth(depths, y.stack)) {
        Ordering::Equal => compare_stacks(frames, x.stack, y.stack).then(x.at.cmp(&y.at)),
        order => order,
    }
}

/// The order of two beginnings of segments: the entry comes first.
fn compare_anchors(frames: &[Frame], depths: &[usize], x: Option<Root>, y: Option<Root>) -> Ordering
    requires { AreDepths frames.now depths.now }
    ensures { result ≡ anchor_order (anchor_of (stacks_of frames.now) x) (anchor_of (stacks_of frames.now) y) }
{
    match x {
        None => match y {
            None => Ordering::Equal,
            Some(_) => Ordering::Less,
        },
        Some(left) => match y {
            None => Ordering::Greater,
            Some(right) => compare_spots(frames, depths, left, right),
        },
    }
}

/// Where a point stands, without its segment, its backward transfers and its contract step.
fn spot(x: &Placed) -> Root
    ensures stack { result.stack ≡ x.now.stack }
    ensures at { result.at ≡ x.now.at }
{
    Root {
        stack: x.stack,
        at: x.at,
    }
}

/// The order of two points.
fn compare(frames: &[Frame], depths: &[usize], x: &Placed, y: &Placed) -> Ordering
    requires { AreDepths frames.now depths.now }
    ensures { result ≡ placed_order frames.now x.now y.now }
{
    let anchors = compare_anchors(frames, depths, x.root, y.root);
    match anchors.then(x.turns.cmp(&y.turns)) {
        Ordering::Equal => compare_spots(frames, depths, spot(x), spot(y)).then(
            x.contract.cmp(&y.contract),
        ),
        order => order,
    }
}

/// Puts points into their order. The error is want of memory.
pub fn sort(points: &mut Vec<Placed>, frames: &[Frame], depths: &[usize]) -> Result<(), AllocError>
    requires { AreDepths frames.now depths.now }
    ensures same { IsPermutation points.old.items points.new.items }
    ensures sorted { OnOk result (AreSorted frames.now points.new.items) }
{
    points.sort_by(|x, y| compare(frames, depths, x, y))
}
