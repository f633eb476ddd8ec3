//! A graph in which the flags are read besides that contracts read.
ghost use Rattle.std.specs.Prelude.{◌<◌, IfOk, map};
ghost use Rattle.notes_value.specs.FrameViews.{contract_of};
ghost use Rattle.flag_live.specs.Asked.{ensuring};
ghost use Rattle.flag_live.specs.Contracted.{IsAsked, IsAskedBy};

use crate::contract_flags::{read_at, read_at_exits};
use crate::copies::with_keeps;
use graph_nodes::{Graph, Node};
use notes_value::Contract;
use std::alloc::{AllocError, Global};

/// A copy of a node, at whose address the flags are read besides that a contract step reads there. The error is want of memory.
fn asked_node(alloc: Global, node: &Node, contracts: &[Contract]) -> Result<Node, AllocError>
    ensures { IfOk result (λ n. IsAsked (map contract_of contracts.now) node.now n) }
{
    let mut asked = with_keeps(alloc, node, node.keeps)?;
    asked.asserted |= read_at(contracts, asked.at);
    Ok(asked)
}

/// A copy of a graph, in which the flags are read besides that contract steps read at its addresses, and at the exit those of a set and those that the exits of
/// contracts' frames read. The error is want of memory.
pub fn asked_graph(
    alloc: Global,
    graph: &Graph,
    contracts: &[Contract],
    ensured: u8,
) -> Result<Graph, AllocError>
    requires { ensured < 16 }
    ensures { IfOk result (λ g. IsAskedBy (map contract_of contracts.now) (ensuring graph.now ensured) g) }
{
    let mut nodes = Vec::new(alloc);
    for i in 0..graph.nodes.len() {
        nodes.push(asked_node(alloc, &graph.nodes[i], contracts)?)?;
    }
    Ok(Graph {
        narrow: graph.narrow,
        nodes,
        ensured: ensured | read_at_exits(contracts),
    })
}
