//! The flow graph of notes with contracts, and its text.
ghost use Rattle.std.specs.Prelude.{◌≡◌, ℕ, List, IfOk, map};
ghost use Rattle.answer_spec.specs.FrameGraphs.{IsFrameGraphText};
ghost use Rattle.program_value.specs.Programs.{program_of};
ghost use Rattle.notes_value.specs.FrameViews.{contract_of};
ghost use Rattle.contract_graph.specs.Wholes.{IsWholeGraph, LiveStayWhole, whole_with};

use flag_live::trim;
use flow_graph::descend_from;
use graph_nodes::Graph;
use graph_text::print_graph;
use machine_law::Machine;
use notes_value::Contract;
use program_value::Program;
use std::alloc::{AllocError, Global};

/// The addresses of contracts. The error is want of memory.
fn addresses(alloc: Global, contracts: &[Contract]) -> Result<Vec<u32>, AllocError>
    ensures { IfOk result (λ v. v.items ≡ map (λ c. c.at) contracts.now) }
{
    let mut found = Vec::new(alloc);
    for contract in contracts {
        found.push(contract.at)?;
    }
    Ok(found)
}

/// The flow graph of a program whose notes have contracts, with the assignments of flags that are live.
///
/// # Errors
///
/// Want of memory.
pub fn whole_graph<M: Machine>(
    alloc: Global,
    program: &Program<M>,
    contracts: &[Contract],
) -> Result<Graph, AllocError>
    ensures graph { (heads : List ℕ) → IfOk result (IsWholeGraph (whole_with (program_of program.now) heads contracts.now)) }
    ensures live { (heads : List ℕ) → IfOk result (LiveStayWhole (whole_with (program_of program.now) heads contracts.now)) }
{
    let others = addresses(alloc, contracts)?;
    let graph = descend_from::<M>(alloc, program, &others)?;
    let live = trim(alloc, &graph, contracts, 0)?;
    Ok(live)
}

/// The text of that graph.
///
/// # Errors
///
/// Want of memory.
pub fn print_whole_graph<M: Machine>(
    alloc: Global,
    program: &Program<M>,
    contracts: &[Contract],
) -> Result<Vec<u8>, AllocError>
    ensures { (heads : List ℕ) → IfOk result (λ v. IsFrameGraphText (whole_with (program_of program.now) heads contracts.now) v.items) }
{
    let graph = whole_graph::<M>(alloc, program, contracts)?;
    let text = print_graph(alloc, &graph)?;
    Ok(text)
}
