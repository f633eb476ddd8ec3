//! The addresses to which calls of a program return.
ghost use Rattle.std.specs.Prelude.{◌≡◌, ℕ, ◌||◌, IfOk, OnOk};
ghost use Rattle.std.specs.List.{list_any};
ghost use Rattle.std.specs.List.Sorted.{IsStrictlyIncreasing};
ghost use Rattle.bilv_spec.specs.Run.{Program};
ghost use Rattle.frame_texts_spec.specs.FrameReplays.{TellsReturns};
ghost use Rattle.graph_nodes.specs.Graphs.{IsGraph, letter_of};
ghost use Rattle.frame_replay.specs.Readings.{is_among};
ghost use Rattle.frame_replay.specs.Returns.{is_return, returns_to, node_returns_to};

use graph_nodes::{Graph, Letter, Node, Successor};
use std::alloc::{AllocError, Global};

/// A successor of this letter is the address behind a call.
fn is_return(letter: Letter) -> bool
    ensures { result ≡ is_return (letter_of letter) }
{
    matches!(letter, Letter::Return)
}

/// Adds the addresses behind calls among successors. The error is want of memory.
fn add_returns(found: &mut Vec<u32>, successors: &[Successor]) -> Result<(), AllocError>
    ensures { (a : ℕ) → OnOk result (is_among found.new.items a ≡ (is_among found.old.items a || list_any (returns_to a) successors.now)) }
{
    for successor in successors {
        if is_return(successor.letter) {
            found.push(successor.to)?;
        }
    }
    Ok(())
}

/// The addresses behind calls among the successors of nodes, however often each. The error is want of memory.
fn all_returns(alloc: Global, nodes: &[Node]) -> Result<Vec<u32>, AllocError>
    ensures { (a : ℕ) → IfOk result (λ v. is_among v.items a ≡ list_any (node_returns_to a) nodes.now) }
{
    let mut found = Vec::new(alloc);
    for node in nodes {
        add_returns(&mut found, &node.successors)?;
    }
    Ok(found)
}

/// Addresses, rising and each once. The error is want of memory.
fn in_order(mut found: Vec<u32>) -> Result<Vec<u32>, AllocError>
    ensures rising { IfOk result (λ v. IsStrictlyIncreasing v.items) }
    ensures same { (a : ℕ) → IfOk result (λ v. is_among v.items a ≡ is_among found.items a) }
{
    found.sort()?;
    found.dedup();
    Ok(found)
}

/// The addresses to which calls of the program of a graph return, rising and each once: those behind a call of the graph.
///
/// # Errors
///
/// Want of memory.
pub fn return_addresses(alloc: Global, graph: &Graph) -> Result<Vec<u32>, AllocError>
    ensures rising { IfOk result (λ v. IsStrictlyIncreasing v.items) }
    ensures returns { (p : Program) → IsGraph p graph.now → IfOk result (λ v. TellsReturns p (is_among v.items)) }
{
    let found = all_returns(alloc, &graph.nodes)?;
    let returns = in_order(found)?;
    Ok(returns)
}
