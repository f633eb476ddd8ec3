//! The edges along which a read of a flag goes back over a graph, and the vertices that read it themselves.
//!
//! There is a vertex for each node, which says that the flag is read from the node on before it is surely assigned, and a last one, which says that it is read
//! after a return.
ghost use Rattle.std.specs.Prelude.{◌≡◌, ◌<◌, ◌↔◌, ◌++◌, ℕ, IfOk, IfSome, Contains, length};
ghost use Rattle.std.specs.Option.{option_to_list};
ghost use Rattle.graph_nodes.specs.Places.{AreRising};
ghost use Rattle.flag_live.specs.Asked.{ensuring};
ghost use Rattle.flag_live.specs.Vertices.{IsEdgeBy, IsEdgeOf, IsEdge, IsStartAt, IsStart, Adds};

use graph_nodes::{Graph, Letter, Node, Successor, has_flag, place};
use std::alloc::{AllocError, Global};

/// Puts an item at the end of a list, if there is one. The error is want of memory.
fn add<T: Drop>(list: &mut Vec<T>, item: Option<T>) -> Result<(), AllocError>
    ensures { IfOk result (λ _. list.new.items ≡ list.old.items ++ option_to_list item) }
{
    match item {
        Some(item) => {
            list.push(item)?;
            Ok(())
        }
        None => Ok(()),
    }
}

/// The edge by a successor of the node at a place: the flag is read from the node on if it is read from the successor on and the node does not surely assign
/// it; and it is read after a return if it is read behind a call.
fn edge_by(
    nodes: &[Node],
    from: usize,
    assigned: bool,
    successor: Successor,
) -> Option<(usize, usize)>
    ensures found { IfSome result (λ e. IsEdgeBy nodes.now from assigned successor e) }
    ensures only { AreRising nodes.now → (e : ℕ × ℕ) → IsEdgeBy nodes.now from assigned successor e → result ≡ Some e }
{
    let to = place(nodes, successor.to)?;
    if successor.letter == Letter::Return {
        return Some((to, nodes.len()));
    }
    if assigned {
        return None;
    }
    Some((to, from))
}

/// Adds the edges by the node at a place. The error is want of memory.
fn add_edges(
    edges: &mut Vec<(usize, usize)>,
    nodes: &[Node],
    node: &Node,
    from: usize,
    flag: u8,
) -> Result<(), AllocError>
    requires { flag < 4 }
    ensures { IfOk result (λ _. Adds edges.old.items edges.new.items (AreRising nodes.now) (λ e. IsEdgeOf nodes.now flag from node.now e)) }
{
    let assigned = has_flag(node.flags.surely, flag);
    for successor in &node.successors {
        add(edges, edge_by(nodes, from, assigned, *successor))?;
    }
    if assigned {
        return Ok(());
    }
    if !node.returns {
        return Ok(());
    }
    edges.push((nodes.len(), from))?;
    Ok(())
}

/// The edges of a graph for a flag. The error is want of memory.
pub fn edges_of(alloc: Global, nodes: &[Node], flag: u8) -> Result<Vec<(usize, usize)>, AllocError>
    requires { flag < 4 }
    ensures found { IfOk result (λ v. (e : ℕ × ℕ) → Contains v.items e → IsEdge nodes.now flag (length nodes.now) e) }
    ensures all { AreRising nodes.now → IfOk result (λ v. (e : ℕ × ℕ) → IsEdge nodes.now flag (length nodes.now) e → Contains v.items e) }
{
    let mut edges = Vec::new(alloc);
    for i in 0..nodes.len() {
        add_edges(&mut edges, nodes, &nodes[i], i, flag)?;
    }
    Ok(edges)
}

/// The place of a node, if the node itself reads the flag.
fn start_at(node: &Node, i: usize, flag: u8) -> Option<usize>
    requires { flag < 4 }
    ensures { (v : ℕ) → (result ≡ Some v) ↔ ((v ≡ i) × IsStartAt flag node.now) }
{
    if has_flag(node.asserted, flag) {
        return Some(i);
    }
    if has_flag(node.flags.reads, flag) {
        return Some(i);
    }
    None
}

/// The vertices that read a flag themselves, where a set of flags is read at the exit. The error is want of memory.
pub fn starts_of(
    alloc: Global,
    graph: &Graph,
    ensured: u8,
    flag: u8,
) -> Result<Vec<usize>, AllocError>
    requires { flag < 4 }
    ensures { IfOk result (λ starts. (v : ℕ) → Contains starts.items v ↔ IsStart (ensuring graph.now ensured) flag v) }
{
    let mut starts = Vec::new(alloc);
    for i in 0..graph.nodes.len() {
        add(&mut starts, start_at(&graph.nodes[i], i, flag))?;
    }
    if has_flag(ensured, flag) {
        starts.push(graph.nodes.len())?;
        return Ok(starts);
    }
    Ok(starts)
}
