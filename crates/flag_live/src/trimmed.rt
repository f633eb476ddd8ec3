//! A graph with the flag assignments that are live.
ghost use Rattle.std.specs.Prelude.{◌≡◌, ◌<◌, ◌||◌, [], ℕ, Bool, true, false, IfOk, map, slice_index_or, if◌then◌else◌};
ghost use Rattle.bilv_spec.specs.Run.{Program};
ghost use Rattle.graph_nodes.specs.Graphs as graphs;
ghost use Rattle.graph_nodes.specs.Graphs.{IsFlagSet, IsGraph, IsSameGraph, LiveStay};
ghost use Rattle.graph_nodes.specs.Places.{AreRising};
ghost use Rattle.flag_live.specs.Asked.{ensuring, unasked};
ghost use Rattle.flag_live.specs.Contracted.{LiveStayBy, LiveStayWith};
ghost use Rattle.flag_live.specs.Keeps.{IsSetOf};
ghost use Rattle.flag_live.specs.Lives.{AreAllLive, AreLiveBy};
ghost use Rattle.notes_value.specs.FrameViews.{contract_of};

use crate::asking::asked_graph;
use crate::copies::with_keeps;
use crate::live::{is_marked, lives};
use graph_nodes::{Graph, has_flag};
use notes_value::Contract;
use std::alloc::{AllocError, Global};

/// For each of the flags and each node whether the node's assignment is live.
#[derive(Drop)]
struct Lives {
    negative: Vec<bool>,
    zero: Vec<bool>,
    carry: Vec<bool>,
    overflow: Vec<bool>,
}

/// A weight, or 0.
fn weight(is: bool, weight: u8) -> u8
    ensures { result ≡ (if is then weight else 0) }
{
    if is { weight } else { 0 }
}

/// The set of the flags that are told.
fn set_of(negative: bool, zero: bool, carry: bool, overflow: bool) -> u8
    ensures { IsSetOf result negative zero carry overflow }
{
    weight(negative, 8) + weight(zero, 4) + weight(carry, 2) + weight(overflow, 1)
}

/// Whether one of two sets has a flag.
fn is_in_one(a: u8, b: u8, flag: u8) -> bool
    requires { flag < 4 }
    ensures { result ≡ (graphs.has_flag a flag || graphs.has_flag b flag) }
{
    if has_flag(a, flag) {
        return true;
    }
    has_flag(b, flag)
}

/// The flags of two sets.
fn joined(a: u8, b: u8) -> u8
    ensures { IsFlagSet result (λ f. graphs.has_flag a f || graphs.has_flag b f) }
{
    let negative = is_in_one(a, b, 3);
    let zero = is_in_one(a, b, 2);
    let carry = is_in_one(a, b, 1);
    let overflow = is_in_one(a, b, 0);
    set_of(negative, zero, carry, overflow)
}

/// The flags whose assignment at a place is live.
fn keeps_at(lives: &Lives, i: usize) -> u8
    ensures { IsSetOf result (slice_index_or lives.now.negative.items i false) (slice_index_or lives.now.zero.items i false)
        (slice_index_or lives.now.carry.items i false) (slice_index_or lives.now.overflow.items i false) }
{
    let negative = is_marked(&lives.negative, i);
    let zero = is_marked(&lives.zero, i);
    let carry = is_marked(&lives.carry, i);
    let overflow = is_marked(&lives.overflow, i);
    set_of(negative, zero, carry, overflow)
}

/// For each of the flags and each node of a graph whether the node's assignment is live, where a set of flags is read at the exit. The error is want of memory.
fn all_lives(alloc: Global, graph: &Graph, ensured: u8) -> Result<Lives, AllocError>
    ensures { AreRising graph.now.nodes.items → IfOk result (λ live. AreAllLive (ensuring graph.now ensured) live) }
{
    Ok(Lives {
        negative: lives(alloc, graph, ensured, 3)?,
        zero: lives(alloc, graph, ensured, 2)?,
        carry: lives(alloc, graph, ensured, 1)?,
        overflow: lives(alloc, graph, ensured, 0)?,
    })
}

/// So where the flags are read besides that contracts read. The error is want of memory.
fn lives_with(
    alloc: Global,
    graph: &Graph,
    contracts: &[Contract],
    ensured: u8,
) -> Result<Lives, AllocError>
    requires { ensured < 16 }
    ensures { AreRising graph.now.nodes.items → IfOk result (AreLiveBy (map contract_of contracts.now) (ensuring graph.now ensured)) }
{
    if contracts.is_empty() {
        let live = all_lives(alloc, graph, ensured)?;
        return Ok(live);
    }
    let asked = asked_graph(alloc, graph, contracts, ensured)?;
    let live = all_lives(alloc, &asked, asked.ensured)?;
    Ok(live)
}

/// Keeps of a graph's flag assignments exactly those that are live: some static path reads the flag before it is surely assigned again. A contract step at an
/// address reads flags there, and the exit of each contract's frame. The flags of the set `out`, N 8, Z 4, C 2 and V 1, are read at the exit, besides those that
/// ensure lines name; the graph does not speak of them before, and does so after.
///
/// # Errors
///
/// Out of memory.
pub fn trim(
    alloc: Global,
    graph: &Graph,
    contracts: &[Contract],
    out: u8,
) -> Result<Graph, AllocError>
    ensures same { IfOk result (λ t. IsSameGraph (ensuring graph.now t.ensured) t) }
    ensures asked { IfOk result (λ t. IsFlagSet t.ensured (λ f. graphs.has_flag out f || graphs.has_flag graph.now.ensured f)) }
    ensures alive { AreRising graph.now.nodes.items → IfOk result (λ t. LiveStayBy (map contract_of contracts.now) (ensuring graph.now t.ensured) t) }
    ensures graph { (p : Program) → IsFlagSet out p.out → IsGraph (unasked p) graph.now → IfOk result (λ t. IsGraph p t) }
    ensures frames { (p : Program) → IsFlagSet out p.out → IsGraph (unasked p) graph.now →
        IfOk result (λ t. LiveStayWith p (map contract_of contracts.now) t) }
    ensures live { (p : Program) → contracts.now ≡ [] → IsFlagSet out p.out → IsGraph (unasked p) graph.now → IfOk result (λ t. LiveStay p t) }
{
    let ensured = joined(out, graph.ensured);
    let lives = lives_with(alloc, graph, contracts, ensured)?;
    let mut nodes = Vec::new(alloc);
    for i in 0..graph.nodes.len() {
        let node = with_keeps(alloc, &graph.nodes[i], keeps_at(&lives, i))?;
        nodes.push(node)?;
    }
    Ok(Graph {
        narrow: graph.narrow,
        nodes,
        ensured,
    })
}
