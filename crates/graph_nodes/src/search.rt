//! The node of an address.
ghost use Rattle.std.specs.Prelude.{◌≡◌, ℕ, IfSome, MatchOption, Contains};
ghost use Rattle.graph_nodes.specs.Graphs.{addresses_of};
ghost use Rattle.graph_nodes.specs.Places.{AreRising, IsPlace};

use crate::nodes::{Graph, Node};

/// The place of the node at an address, by binary search.
pub fn place(nodes: &[Node], at: u32) -> Option<usize>
    ensures found { IfSome result (λ i. IsPlace nodes.now at i) }
    ensures only { AreRising nodes.now → (i : ℕ) → IsPlace nodes.now at i → result ≡ Some i }
{
    let i = nodes.partition_point(|node| node.at < at);
    if i >= nodes.len() {
        return None;
    }
    if nodes[i].at != at {
        return None;
    }
    Some(i)
}

/// The node of an address, if the graph has the address.
pub fn node_at(graph: &Graph, at: u32) -> Option<&Node>
    ensures { MatchOption result (AreRising graph.now.nodes.items → ¬ Contains (addresses_of graph.now) at) (λ n. (n.now.at ≡ at) ×
        Contains graph.now.nodes.items n.now) }
{
    match place(&graph.nodes, at) {
        None => None,
        Some(i) => Some(&graph.nodes[i]),
    }
}
