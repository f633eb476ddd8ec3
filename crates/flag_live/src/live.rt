//! The nodes whose assignment of a flag is live.
ghost use Rattle.std.specs.Prelude.{◌≡◌, ◌<◌, ◌+◌, ◌↔◌, ℕ, Bool, true, false, List, IfOk, Contains, length, slice_index_or};
ghost use Rattle.std.specs.List.Sorted.{IsNonDecreasingBy, IsPermutation};
ghost use Rattle.graph_nodes.specs.Places.{AreRising};
ghost use Rattle.flag_live.specs.Asked.{ensuring};
ghost use Rattle.flag_live.specs.Meanings.{AreReads, LeadsOn, IsOn, IsLiveNode, AreLive};

use crate::paths::{edges_of, starts_of};
use crate::walk::reach;
use graph_nodes::{Graph, Letter, Node, Successor, has_flag, place};
use std::alloc::{AllocError, Global};

/// The edges by rising first vertices. The error is want of memory.
fn sorted(mut edges: Vec<(usize, usize)>) -> Result<Vec<(usize, usize)>, AllocError>
    ensures moved { IfOk result (λ v. IsPermutation edges.items v.items) }
    ensures rising { IfOk result (λ v. IsNonDecreasingBy (λ e. e.0) v.items) }
{
    edges.sort_by_key(|edge| edge.0)?;
    Ok(edges)
}

/// The vertices of a graph that read a flag, where a set of flags is read at the exit. The error is want of memory.
fn readers(alloc: Global, graph: &Graph, ensured: u8, flag: u8) -> Result<Vec<bool>, AllocError>
    requires { flag < 4 }
    ensures { AreRising graph.now.nodes.items → IfOk result (λ marked. AreReads (ensuring graph.now ensured) flag marked.items) }
{
    let edges = sorted(edges_of(alloc, &graph.nodes, flag)?)?;
    let starts = starts_of(alloc, graph, ensured, flag)?;
    let marked = reach(alloc, graph.nodes.len() + 1, &edges, &starts)?;
    Ok(marked)
}

/// Whether a vertex is marked.
pub fn is_marked(marked: &[bool], vertex: usize) -> bool
    ensures { result ≡ slice_index_or marked.now vertex false }
{
    if vertex >= marked.len() {
        return false;
    }
    marked[vertex]
}

/// Whether a successor is no return and leads to a node that is marked.
fn leads_on(nodes: &[Node], marked: &[bool], successor: Successor) -> bool
    ensures found { result ≡ true → LeadsOn nodes.now marked.now successor }
    ensures only { AreRising nodes.now → LeadsOn nodes.now marked.now successor → result ≡ true }
{
    if successor.letter == Letter::Return {
        return false;
    }
    match place(nodes, successor.to) {
        None => false,
        Some(to) => is_marked(marked, to),
    }
}

/// Whether the marks say that the flag is read after a node.
fn is_on(nodes: &[Node], marked: &[bool], node: &Node) -> bool
    ensures found { result ≡ true → IsOn nodes.now marked.now node.now }
    ensures only { AreRising nodes.now → IsOn nodes.now marked.now node.now → result ≡ true }
{
    for successor in &node.successors {
        if leads_on(nodes, marked, *successor) {
            return true;
        }
    }
    if !node.returns {
        return false;
    }
    is_marked(marked, nodes.len())
}

/// Whether a node assigns a flag that the marks say is read after it.
fn is_live(nodes: &[Node], marked: &[bool], node: &Node, flag: u8) -> bool
    requires { flag < 4 }
    ensures found { result ≡ true → IsLiveNode nodes.now marked.now flag node.now }
    ensures only { AreRising nodes.now → IsLiveNode nodes.now marked.now flag node.now → result ≡ true }
{
    if !has_flag(node.flags.assigns, flag) {
        return false;
    }
    is_on(nodes, marked, node)
}

/// For each node of a graph whether its assignment of a flag is live, where a set of flags is read at the exit. The error is want of memory.
pub fn lives(alloc: Global, graph: &Graph, ensured: u8, flag: u8) -> Result<Vec<bool>, AllocError>
    requires { flag < 4 }
    ensures { AreRising graph.now.nodes.items → IfOk result (λ live. AreLive (ensuring graph.now ensured) flag live.items) }
{
    let marked = readers(alloc, graph, ensured, flag)?;
    let mut live = Vec::new(alloc);
    for i in 0..graph.nodes.len() {
        live.push(is_live(&graph.nodes, &marked, &graph.nodes[i], flag))?;
    }
    Ok(live)
}
