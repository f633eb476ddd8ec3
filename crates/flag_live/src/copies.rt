//! Copies of nodes.
ghost use Rattle.std.specs.Prelude.{◌≡◌, IfOk};
ghost use Rattle.graph_nodes.specs.Graphs.{IsSameNode};

use graph_nodes::{Node, Successor};
use std::alloc::{AllocError, Global};

/// A copy of successors. The error is want of memory.
fn copied(alloc: Global, successors: &[Successor]) -> Result<Vec<Successor>, AllocError>
    ensures { IfOk result (λ v. v.items ≡ successors.now) }
{
    successors.iter().copied().collect(alloc)
}

/// A copy of a node, in which other assignments stay. The error is want of memory.
pub fn with_keeps(alloc: Global, node: &Node, keeps: u8) -> Result<Node, AllocError>
    ensures same { IfOk result (λ n. IsSameNode node.now n) }
    ensures kept { IfOk result (λ n. n.keeps ≡ keeps) }
{
    let successors = copied(alloc, &node.successors)?;
    Ok(Node {
        at: node.at,
        length: node.length,
        fetchable: node.fetchable,
        word: node.word,
        successors,
        returns: node.returns,
        links: node.links,
        flags: node.flags,
        asserted: node.asserted,
        keeps,
    })
}
