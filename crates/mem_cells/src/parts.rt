//! Which parts are read at the addresses.

ghost use Rattle.std.specs.Prelude.{◌≡◌, ℕ, ◌<◌, ◌++◌, [], length, replicate, IfOk, OnOk};
ghost use Rattle.term_dag.specs.Nodes.{node_of};
ghost use Rattle.mem_cells.specs.Building.{read_places, IsBuilt};
ghost use Rattle.mem_cells.specs.Parts.{and_part, has_part, lists_of, noted, reads_at, reads_from, AreParts};

use crate::building::Build;
use crate::cells::BaseRead;
use std::alloc::{AllocError, Global};
use term_dag::{Node, Term};

/// Whether a part is one of some.
pub fn has_part(parts: &[u32], part: u32) -> bool
    ensures { result ≡ has_part parts.now part }
{
    parts.contains(&part)
}

/// Adds a part to some that rise, if it is not there.
fn add_part(parts: &mut Vec<u32>, part: u32) -> Result<(), AllocError>
    ensures { OnOk result (parts.new.items ≡ and_part parts.old.items part) }
{
    for place in 0..parts.len() {
        let one = parts[place];
        if part < one {
            parts.insert(place, part)?;
            return Ok(());
        }
        if part == one {
            return Ok(());
        }
    }
    parts.push(part)?;
    Ok(())
}

/// Notes what a node reads.
fn note(parts: &mut Vec<Vec<u32>>, node: Node) -> Result<(), AllocError>
    ensures { OnOk result (lists_of parts.new.items ≡ noted (lists_of parts.old.items) (node_of node)) }
{
    if let Node::Base { part, read } = node {
        if (read as usize) < parts.len() {
            add_part(&mut parts[read as usize], part)?;
            return Ok(());
        }
    }
    Ok(())
}

/// Lists without parts.
fn no_parts(alloc: Global, count: usize) -> Result<Vec<Vec<u32>>, AllocError>
    ensures { IfOk result (λ v. lists_of v.items ≡ replicate count []) }
{
    let mut parts = Vec::with_capacity(alloc, count)?;
    for _address in 0..count {
        parts.push(Vec::new(alloc))?;
    }
    Ok(parts)
}

/// Which parts are read at each address, rising. More nodes than 32 bits number are want of memory.
pub fn parts_read(alloc: Global, build: &Build) -> Result<Vec<Vec<u32>>, AllocError>
    requires built { IsBuilt build.now }
    ensures count { IfOk result (λ v. length v.items ≡ length (read_places build.now)) }
    ensures parts { IfOk result (λ v. AreParts build.now (lists_of v.items)) }
{
    let count = build.dag.nodes();
    if count > u32::MAX as usize {
        return Err(AllocError);
    }
    let mut parts = no_parts(alloc, build.addresses.len())?;
    for place in 0..count {
        note(&mut parts, build.dag.node(Term(place as u32)))?;
    }
    Ok(parts)
}

/// The reads of an address.
fn and_reads(reads: &mut Vec<BaseRead>, parts: &[u32], address: u32) -> Result<(), AllocError>
    ensures { OnOk result (reads.new.items ≡ reads.old.items ++ reads_at parts.now address) }
{
    for place in 0..parts.len() {
        reads.push(BaseRead {
            part: parts[place],
            address,
        })?;
    }
    Ok(())
}

/// The reads, by rising numbers of addresses, and of one address by rising parts. More addresses than 32 bits number are want of memory.
pub fn reads_of(alloc: Global, parts: &[Vec<u32>]) -> Result<Vec<BaseRead>, AllocError>
    ensures { IfOk result (λ v. v.items ≡ reads_from 0 (lists_of parts.now)) }
{
    if parts.len() > u32::MAX as usize {
        return Err(AllocError);
    }
    let mut reads = Vec::with_capacity(alloc, parts.len())?;
    for address in 0..parts.len() {
        and_reads(&mut reads, &parts[address], address as u32)?;
    }
    Ok(reads)
}
