//! Lines and contracts at addresses that the flow graph does not reach.
ghost use Rattle.std.specs.Prelude.{◌≡◌, ◌++◌, IfOk, OnOk, map, nat_eq};
ghost use Rattle.std.specs.List.{list_any};
ghost use Rattle.graph_nodes.specs.Places.{AreRising};
ghost use Rattle.notes_value.specs.FrameViews.{contract_of};
ghost use Rattle.notes_value.specs.NoteViews.{assert_of, targets_of};
ghost use Rattle.program_value.specs.Programs.{program_of};
ghost use Rattle.note_check.specs.Reached.{contract_warnings, line_warning, line_warnings, stands_in, targets_warnings, whole_from, AreUnreached};

use crate::warning::Warning;
use flow_graph::{descend, descend_from};
use graph_nodes::{Graph, place};
use machine_law::Machine;
use notes_value::{Assert, Contract, Targets};
use program_value::Program;
use std::alloc::{AllocError, Global};

/// Whether a graph has an address.
fn is_reached(graph: &Graph, at: u32) -> bool
    requires { AreRising graph.now.nodes.items }
    ensures { result ≡ stands_in graph.now at }
{
    match place(&graph.nodes, at) {
        None => false,
        Some(_) => true,
    }
}

/// Whether a line is among some.
fn is_among(lines: &[u32], line: u32) -> bool
    ensures { result ≡ list_any (nat_eq line) lines.now }
{
    for other in lines {
        if *other == line {
            return true;
        }
    }
    false
}

/// The warning of an assert line, which may be an invariant.
fn line_warning(line: u32, at: u32, invariants: &[u32]) -> Warning
    ensures { result ≡ line_warning invariants.now line at }
{
    if is_among(invariants, line) {
        return Warning::UnreachedInvariant { line, at };
    }
    Warning::UnreachedAssert { line, at }
}

/// Adds a warning of each assert line that is not reached. The error is want of memory.
fn add_lines(
    found: &mut Vec<Warning>,
    graph: &Graph,
    asserts: &[Assert],
    invariants: &[u32],
) -> Result<(), AllocError>
    requires { AreRising graph.now.nodes.items }
    ensures { OnOk result (found.new.items ≡ found.old.items ++ line_warnings (stands_in graph.now) invariants.now (map assert_of asserts.now)) }
{
    for line in asserts {
        if !is_reached(graph, line.at) {
            found.push(line_warning(line.line, line.at, invariants))?;
        }
    }
    Ok(())
}

/// Adds a warning of each targets line that is not reached. The error is want of memory.
fn add_targets(
    found: &mut Vec<Warning>,
    graph: &Graph,
    targets: &[Targets],
) -> Result<(), AllocError>
    requires { AreRising graph.now.nodes.items }
    ensures { OnOk result (found.new.items ≡ found.old.items ++ targets_warnings (stands_in graph.now) (map targets_of targets.now)) }
{
    for line in targets {
        if !is_reached(graph, line.at) {
            found.push(Warning::UnreachedTargets { at: line.at })?;
        }
    }
    Ok(())
}

/// Adds a warning of each contract that is not reached. The error is want of memory.
fn add_contracts(
    found: &mut Vec<Warning>,
    graph: &Graph,
    contracts: &[Contract],
) -> Result<(), AllocError>
    requires { AreRising graph.now.nodes.items }
    ensures { OnOk result (found.new.items ≡ found.old.items ++ contract_warnings (stands_in graph.now) (map contract_of contracts.now)) }
{
    for contract in contracts {
        if !is_reached(graph, contract.at) {
            found.push(Warning::UncalledContract { at: contract.at })?;
        }
    }
    Ok(())
}

/// The addresses of contracts. The error is want of memory.
fn addresses(alloc: Global, contracts: &[Contract]) -> Result<Vec<u32>, AllocError>
    ensures { IfOk result (λ v. v.items ≡ map (λ c. c.at) contracts.now) }
{
    let mut found = Vec::new(alloc);
    for contract in contracts {
        found.push(contract.at)?;
    }
    Ok(found)
}

/// Warns of the assert lines and invariants, then of the targets lines, at addresses that the flow graph does not reach, and then of the contracts whose function
/// it does not reach from the program's. `invariants` are the numbers of those assert lines that are invariants. With contracts the flow graph begins at the
/// address of each beside the program's entry.
///
/// # Errors
///
/// Want of memory.
pub fn unreached<M: Machine>(
    alloc: Global,
    program: &Program<M>,
    invariants: &[u32],
    contracts: &[Contract],
) -> Result<Vec<Warning>, AllocError>
    ensures { IfOk result (λ v. AreUnreached (whole_from (program_of program.now) invariants.now contracts.now) v.items) }
{
    let others = addresses(alloc, contracts)?;
    let whole = descend_from::<M>(alloc, program, &others)?;
    let own = descend::<M>(alloc, program)?;
    let mut found = Vec::new(alloc);
    add_lines(&mut found, &whole, &program.notes.asserts, invariants)?;
    add_targets(&mut found, &whole, &program.notes.targets)?;
    add_contracts(&mut found, &own, contracts)?;
    Ok(found)
}
