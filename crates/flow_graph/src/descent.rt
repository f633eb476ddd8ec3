//! The descent from the function's address to every address of the flow graph.
ghost use Rattle.std.specs.Prelude.{IfOk, OnOk, map, [], ◌∷◌};
ghost use Rattle.std.specs.List.Sorted.{IsNonDecreasingBy, IsPermutation};
ghost use Rattle.notes_index.specs.Indexed.{AreIndexed};
ghost use Rattle.graph_nodes.specs.Graphs.{IsGraph, AllStay};
ghost use Rattle.program_value.specs.Programs.{program_of};
ghost use Rattle.flow_graph.specs.Walks.{IsSeen, IsMore, IsWhole, IsGraphFrom};

use crate::flags::ensured;
use crate::node::node;
use graph_nodes::{Graph, Node, Successor};
use machine_law::{Machine, is_narrow};
use notes_index::{Index, index_of};
use program_value::Program;
use std::alloc::{AllocError, Global};
use std::collections::BTreeSet;

/// Adds an address, if it is not found yet. The error is want of memory.
fn find(found: &mut Vec<u32>, seen: &mut BTreeSet<u32>, to: u32) -> Result<(), AllocError>
    requires { IsSeen found.old.items seen.old }
    ensures seen { OnOk result (IsSeen found.new.items seen.new) }
    ensures more { OnOk result (IsMore found.old.items (to ∷ []) found.new.items) }
{
    if seen.contains(&to) {
        return Ok(());
    }
    seen.insert(to)?;
    found.push(to)?;
    Ok(())
}

/// Adds each address of roots that is not found yet. The error is want of memory.
fn find_roots(
    found: &mut Vec<u32>,
    seen: &mut BTreeSet<u32>,
    roots: &[u32],
) -> Result<(), AllocError>
    requires { IsSeen found.old.items seen.old }
    ensures seen { OnOk result (IsSeen found.new.items seen.new) }
    ensures more { OnOk result (IsMore found.old.items roots.now found.new.items) }
{
    for root in roots {
        find(found, seen, *root)?;
    }
    Ok(())
}

/// Adds each address of successors that is not found yet. The error is want of memory.
fn find_all(
    found: &mut Vec<u32>,
    seen: &mut BTreeSet<u32>,
    successors: &[Successor],
) -> Result<(), AllocError>
    requires { IsSeen found.old.items seen.old }
    ensures seen { OnOk result (IsSeen found.new.items seen.new) }
    ensures more { OnOk result (IsMore found.old.items (map (λ s. s.to) successors.now) found.new.items) }
{
    for successor in successors {
        find(found, seen, successor.to)?;
    }
    Ok(())
}

/// The nodes of all addresses to which a program's entry and other roots lead, in the order in which they are found. The error is want of memory.
fn all_nodes<M: Machine>(
    alloc: Global,
    p: &Program<M>,
    others: &[u32],
    index: &Index,
) -> Result<Vec<Node>, AllocError>
    requires index { AreIndexed p.now.notes.now index.now }
    ensures { IfOk result (λ v. IsWhole (program_of p.now) others.now v.items) }
{
    let mut found = Vec::new(alloc);
    let mut seen = BTreeSet::new(alloc);
    found.push(p.entry)?;
    seen.insert(p.entry)?;
    find_roots(&mut found, &mut seen, others)?;
    let mut nodes: Vec<Node> = Vec::new(alloc);
    'descent: while nodes.len() < found.len() {
        let next = node::<M>(alloc, p, index, found[nodes.len()])?;
        find_all(&mut found, &mut seen, &next.successors)?;
        nodes.push(next)?;
    }
    Ok(nodes)
}

/// The nodes by rising addresses. The error is want of memory.
fn sorted(mut nodes: Vec<Node>) -> Result<Vec<Node>, AllocError>
    ensures moved { IfOk result (λ v. IsPermutation nodes.items v.items) }
    ensures rising { IfOk result (λ v. IsNonDecreasingBy (λ n. n.at) v.items) }
{
    nodes.sort_by_key(|n| n.at)?;
    Ok(nodes)
}

/// The flow graph of a program, with all addresses to which other roots lead; each assignment of a
/// flag stays. Roots that are found already, or stand more than once, change nothing.
///
/// # Errors
///
/// Want of memory.
pub fn descend_from<M: Machine>(
    alloc: Global,
    program: &Program<M>,
    others: &[u32],
) -> Result<Graph, AllocError>
    ensures graph { IfOk result (λ g. IsGraphFrom (program_of program.now) others.now g) }
    ensures stay { IfOk result (λ g. AllStay g) }
{
    let index = index_of(alloc, program.notes)?;
    let nodes = sorted(all_nodes::<M>(alloc, program, others, &index)?)?;
    Ok(Graph {
        narrow: is_narrow::<M>(),
        nodes,
        ensured: ensured(&program.notes.ensured),
    })
}

/// The flow graph of a program; each assignment of a flag stays.
///
/// # Errors
///
/// Want of memory.
pub fn descend<M: Machine>(alloc: Global, program: &Program<M>) -> Result<Graph, AllocError>
    ensures graph { IfOk result (λ g. IsGraph (program_of program.now) g) }
    ensures stay { IfOk result (λ g. AllStay g) }
{
    let graph = descend_from::<M>(alloc, program, &[])?;
    Ok(graph)
}
