//! The successors of an instruction.
ghost use Rattle.std.specs.Prelude.{◌≡◌, map, IfOk, Some, if◌then◌else◌};
ghost use Rattle.bilv_spec.specs.Graph as graph;
ghost use Rattle.machine_law.specs.Facts as facts;
ghost use Rattle.notes_index.specs.Indexed.{targets_places, IsIndex};
ghost use Rattle.graph_nodes.specs.Graphs.{successor_of};
ghost use Rattle.program_value.specs.Programs.{program_of};
ghost use Rattle.flow_graph.specs.Programs.{IsSameSet};

use crate::listing::{ordered, push_each, push_some};
use crate::targets::indirect_targets;
use graph_nodes::{Letter, Successor};
use machine_law::{Machine, Succ, is_narrow};
use notes_index::Index;
use program_value::Program;
use std::alloc::{AllocError, Global};

/// The letter of a jump to another address.
fn jump_letter(call: bool) -> Letter
    ensures { result ≡ (if call then Letter.Call else Letter.Jump) }
{
    if call { Letter::Call } else { Letter::Jump }
}

/// All successors of an instruction of so many bytes at an address, in no order. The error is want of memory.
fn all_successors<M: Machine>(
    alloc: Global,
    p: &Program<M>,
    index: &Index,
    insn: &M::Insn,
    at: u32,
    length: u8,
    ways: Succ,
) -> Result<Vec<Successor>, AllocError>
    requires index { IsIndex (targets_places p.now.notes.now.targets.items) index.now.targets.items }
    requires length { length ≡ (M.Machine.row insn.now).length }
    ensures { IfOk result (λ v. IsSameSet (map successor_of v.items)
        (graph.successors_of (program_of p.now) at (M.Machine.row insn.now) (facts.successors_of ways))) }
{
    let behind = at.wrapping_add(length as u32);
    let letter = jump_letter(ways.call);
    let targets = indirect_targets::<M>(alloc, p, index, insn, at, ways.indirect)?;
    let mut found = Vec::new(alloc);
    push_some(&mut found, Letter::Next, ways.next.then_some(behind))?;
    push_some(&mut found, letter, ways.direct)?;
    push_each(&mut found, letter, &targets)?;
    push_some(&mut found, Letter::Return, ways.call.then_some(behind))?;
    Ok(found)
}

/// The successors of an instruction of so many bytes at an address, whose ways on are these, by rising addresses and in the order of their letters. The error
/// is want of memory.
pub(crate) fn successors<M: Machine>(
    alloc: Global,
    p: &Program<M>,
    index: &Index,
    insn: &M::Insn,
    at: u32,
    length: u8,
    ways: Succ,
) -> Result<Vec<Successor>, AllocError>
    requires index { IsIndex (targets_places p.now.notes.now.targets.items) index.now.targets.items }
    requires length { length ≡ (M.Machine.row insn.now).length }
    requires ways { facts.successors_of ways ≡ (M.Machine.row insn.now).successors at }
    ensures { IfOk result (λ v. map successor_of v.items ≡ graph.sort (graph.successors_by (program_of p.now) at (Some (M.Machine.row insn.now)))) }
{
    let found = all_successors::<M>(alloc, p, index, insn, at, length, ways)?;
    let found = ordered(found, is_narrow::<M>())?;
    Ok(found)
}
