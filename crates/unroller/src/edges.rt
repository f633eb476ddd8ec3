//! The edges of a point.
ghost use Rattle.std.specs.Prelude.{◌≡◌, ◌↔◌, ◌≤◌, ◌<◌, ◌++◌, ◌==◌, ◌&&◌, ℕ, IfOk, OnOk, Contains, length, map};
ghost use Rattle.std.specs.List.Sorted.{IsNonDecreasingBy, IsStrictlyIncreasing};
ghost use Rattle.program_points.specs.declared.values.End.{End as JumpEnd};
ghost use Rattle.program_points.specs.Tables.{listed};
ghost use Rattle.unroller.specs.Keys as numbers;
ghost use Rattle.unroller.specs.Led as leads;
ghost use Rattle.unroller.specs.Led.{AreAddedTo, HasBackLed, HasLed, HasRowLed, IsLedTo, exit_edge, exits_by, is_both, is_next_key, next_of};

use crate::keys::{Aims, address_of, aim, keys_in_order, stack_of, target_key};
use crate::returning::{linked, returned};
use graph_nodes::{Letter, Node, Successor};
use program_points::{End, Frame, jumps};
use question_form::{Aim, Edge};
use std::alloc::{AllocError, Global};

/// Whether the next address is among successors.
fn goes_on(successors: &[Successor]) -> bool
    ensures { result ≡ leads.goes_on successors.now }
{
    successors.iter().any(|s| s.letter == Letter::Next)
}

/// The end by going on to the next address with the point's stack, if the row may.
fn next_end(node: &Node, stack: usize) -> Option<End>
    ensures { result ≡ next_of node.now stack }
{
    if !goes_on(&node.successors) {
        return None;
    }
    let at = node.at.wrapping_add(node.length as u32);
    Some(End { stack, at })
}

/// Whether two ends are the same.
fn is_same(e: End, other: End) -> bool
    ensures { result ≡ leads.is_same e other }
{
    e.stack == other.stack && e.at == other.at
}

/// Whether an end is among ends.
fn is_among(ends: &[End], other: End) -> bool
    ensures { result ≡ leads.is_among ends.now other }
{
    for end in ends {
        if is_same(*end, other) {
            return true;
        }
    }
    false
}

/// Whether the end by going on is that of a jump too.
fn also_jumps(jumps: &[End], next: Option<End>) -> bool
    ensures { result ≡ is_both jumps.now next }
{
    match next {
        None => false,
        Some(next) => is_among(jumps, next),
    }
}

/// Whether the point of a number is at the end by going on.
fn is_next(next: Option<End>, key: u128) -> bool
    ensures { result ≡ is_next_key next key }
{
    match next {
        None => false,
        Some(e) => e.at == address_of(key) && e.stack == stack_of(key),
    }
}

/// The edge to the point of a number.
fn edge(aims: &Aims, next: Option<End>, both: bool, key: u128) -> Edge
    requires rise { IsStrictlyIncreasing aims.now.keys.now }
    requires few { length aims.now.keys.now ≤ 16777216 }
    requires sorted { IsNonDecreasingBy (λ x. x.0) aims.now.asserts.now }
    ensures { IsLedTo aims.now.heads.now aims.now.asserts.now aims.now.keys.now next both key result }
{
    let falls = is_next(next, key);
    Edge {
        falls,
        jumps: !falls || both,
        to: Some(address_of(key)),
        aim: aim(aims, key),
    }
}

/// The numbers of the points at ends of a point, each once and rising. The error is want of memory.
fn targets(
    alloc: Global,
    stepped: &[u32],
    linked: Option<usize>,
    own: u128,
    jumps: &[End],
    next: Option<End>,
) -> Result<Vec<u128>, AllocError>
    requires root { numbers.root_of own ≤ 16777216 }
    requires low { numbers.turns_of own ≤ 4096 }
    ensures rise { IfOk result (λ v. IsStrictlyIncreasing v.items) }
    ensures same { IfOk result (λ v. (x : ℕ) → Contains (map (numbers.target_key stepped.now linked own) (jumps.now ++ listed next)) x ↔ Contains v.items x) }
    ensures small { IfOk result (λ v. (e : JumpEnd) → Contains jumps.now e → e.at < 4294967296) }
{
    let mut found: Vec<u128> = Vec::new(alloc);
    for end in jumps {
        found.push(target_key(stepped, linked, own, *end))?;
    }
    if let Some(end) = next {
        found.push(target_key(stepped, linked, own, end))?;
    }
    let ordered = keys_in_order(found)?;
    Ok(ordered)
}

/// Whether the point of a node is left out of the function: its row may return, and its stack is empty.
fn exits(node: &Node, stack: usize) -> bool
    ensures { result ≡ (node.now.returns && stack == 0) }
{
    node.returns && stack == 0
}

/// Adds the edge out of the function, where there is one. The error is want of memory.
fn add_exit(edges: &mut Vec<Edge>, exits: bool) -> Result<(), AllocError>
    ensures { OnOk result (edges.new.items ≡ edges.old.items ++ exits_by exits) }
{
    if exits {
        let exit = Edge {
            falls: false,
            jumps: true,
            to: None,
            aim: Aim::Outward,
        };
        edges.push(exit)?;
    }
    Ok(())
}

/// Adds the edges to the points of numbers. The error is want of memory.
fn add_targets(
    edges: &mut Vec<Edge>,
    aims: &Aims,
    next: Option<End>,
    both: bool,
    targets: &[u128],
) -> Result<(), AllocError>
    requires rise { IsStrictlyIncreasing aims.now.keys.now }
    requires few { length aims.now.keys.now ≤ 16777216 }
    requires sorted { IsNonDecreasingBy (λ x. x.0) aims.now.asserts.now }
    ensures { OnOk result (AreAddedTo aims.now.heads.now aims.now.asserts.now aims.now.keys.now next both targets.now edges.old.items edges.new.items) }
{
    for key in targets {
        edges.push(edge(aims, next, both, *key))?;
    }
    Ok(())
}

/// Where the edges of a point lead: to ends by jumps, and to one by going on, if the row may; out of the function or not. The stack behind the point's call is
/// given where that links.
#[derive(Clone, Copy)]
struct Ends<'a> {
    linked: Option<usize>,
    jumps: &'a [End],
    next: Option<End>,
    exits: bool,
}

/// Adds the edges of the point of a number. The error is want of memory.
fn add_ends(
    alloc: Global,
    edges: &mut Vec<Edge>,
    aims: &Aims,
    own: u128,
    ends: &Ends,
) -> Result<(), AllocError>
    requires root { numbers.root_of own ≤ 16777216 }
    requires low { numbers.turns_of own ≤ 4096 }
    requires rise { IsStrictlyIncreasing aims.now.keys.now }
    requires few { length aims.now.keys.now ≤ 16777216 }
    requires sorted { IsNonDecreasingBy (λ x. x.0) aims.now.asserts.now }
    ensures { OnOk result (HasLed aims.now.heads.now aims.now.stepped.now aims.now.asserts.now aims.now.keys.now own ends.now.linked ends.now.jumps.now
        ends.now.next ends.now.exits edges.old.items edges.new.items) }
{
    let targets = targets(alloc, aims.stepped, ends.linked, own, ends.jumps, ends.next)?;
    let both = also_jumps(ends.jumps, ends.next);
    add_exit(edges, ends.exits)?;
    add_targets(edges, aims, ends.next, both, &targets)?;
    Ok(())
}

/// Adds the edges of the point of a number at its node, with the number of the stack behind a call; `narrow` says whether some rows have 2 bytes. The error is
/// want of memory.
pub fn add_edges(
    alloc: Global,
    edges: &mut Vec<Edge>,
    narrow: bool,
    node: &Node,
    frames: &[Frame],
    aims: &Aims,
    own: u128,
    called: usize,
) -> Result<(), AllocError>
    requires root { numbers.root_of own ≤ 16777216 }
    requires low { numbers.turns_of own ≤ 4096 }
    requires rise { IsStrictlyIncreasing aims.now.keys.now }
    requires few { length aims.now.keys.now ≤ 16777216 }
    requires sorted { IsNonDecreasingBy (λ x. x.0) aims.now.asserts.now }
    ensures { OnOk result (HasRowLed aims.now.heads.now aims.now.stepped.now aims.now.asserts.now narrow node.now frames.now aims.now.keys.now own called
        edges.old.items edges.new.items) }
{
    let stack = stack_of(own);
    let jumps = jumps(alloc, narrow, node, frames, stack, called)?;
    let ends = Ends {
        linked: linked(node.links, called),
        jumps: &jumps,
        next: next_end(node, stack),
        exits: exits(node, stack),
    };
    add_ends(alloc, edges, aims, own, &ends)?;
    Ok(())
}

/// Adds the edge of the point of a number at which a contract step is made, the return to the top of its stack, if a row can stand there; `narrow` says whether
/// some rows have 2 bytes. The error is want of memory.
pub fn add_return(
    alloc: Global,
    edges: &mut Vec<Edge>,
    narrow: bool,
    frames: &[Frame],
    aims: &Aims,
    own: u128,
) -> Result<(), AllocError>
    requires root { numbers.root_of own ≤ 16777216 }
    requires low { numbers.turns_of own ≤ 4096 }
    requires rise { IsStrictlyIncreasing aims.now.keys.now }
    requires few { length aims.now.keys.now ≤ 16777216 }
    requires sorted { IsNonDecreasingBy (λ x. x.0) aims.now.asserts.now }
    ensures { OnOk result (HasBackLed aims.now.heads.now aims.now.stepped.now aims.now.asserts.now narrow frames.now aims.now.keys.now own edges.old.items
        edges.new.items) }
{
    let jumps = returned(alloc, narrow, frames, stack_of(own))?;
    let ends = Ends {
        linked: None,
        jumps: &jumps,
        next: None,
        exits: false,
    };
    add_ends(alloc, edges, aims, own, &ends)?;
    Ok(())
}
