//! What base reads have to agree in.

ghost use Rattle.std.specs.Prelude.{◌≡◌, ◌+◌, ◌*◌, ◌-◌, ◌<◌, ◌++◌, false, [], length, IfOk, OnOk};
ghost use Rattle.mem_cells.specs.Pieces.{IsZero};
ghost use Rattle.mem_cells.specs.Building.{read_places, IsBuilt, Grown};
ghost use Rattle.mem_cells.specs.Parts.{lists_of, one_if, KeepsParts};
ghost use Rattle.mem_cells.specs.Ties.{agreements_of, shared, AreSums, AreTies, Before};

use crate::building::Build;
use crate::cells::Agreement;
use crate::parts::has_part;
use crate::pieces::{Split, is_apart, sum_of};
use bil_ast::BinaryOp;
use std::alloc::{AllocError, Global};
use term_dag::{Node, Term};

/// Whether some share a part with others.
fn is_shared(parts: &[u32], others: &[u32]) -> bool
    ensures { result ≡ false → shared parts.now others.now ≡ [] }
{
    for place in 0..parts.len() {
        let part = parts[place];
        if has_part(others, part) {
            return true;
        }
    }
    false
}

/// One more agreement, if it is one.
fn and_agreement(
    agrees: &mut Vec<Agreement>,
    is_one: bool,
    agreement: Agreement,
) -> Result<(), AllocError>
    ensures { OnOk result (agrees.new.items ≡ agrees.old.items ++ one_if is_one agreement) }
{
    if is_one {
        agrees.push(agreement)?;
        return Ok(());
    }
    Ok(())
}

/// Says for each part of both that two reads agree where a bit is 1.
fn agree(
    agrees: &mut Vec<Agreement>,
    parts: &[u32],
    others: &[u32],
    condition: Term,
    read: u32,
    other: u32,
) -> Result<(), AllocError>
    ensures { OnOk result (agrees.new.items ≡ agrees.old.items ++ agreements_of (shared parts.now others.now) condition read other) }
{
    for place in 0..parts.len() {
        let part = parts[place];
        let is_both = has_part(others, part);
        let agreement = Agreement {
            condition,
            part,
            read,
            other,
        };
        and_agreement(agrees, is_both, agreement)?;
    }
    Ok(())
}

/// Says for each part that is read at two addresses that the reads agree where the addresses are equal, if they may be.
fn tie(
    build: &mut Build,
    sums: &[Split],
    parts: &[Vec<u32>],
    agrees: &mut Vec<Agreement>,
    read: u32,
    other: u32,
) -> Result<(), AllocError>
    requires built { IsBuilt build.old }
    requires count { length sums.now ≡ length (read_places build.old) }
    requires sums { AreSums build.old sums.now }
    requires read { read < other }
    requires other { other < length (read_places build.old) }
    requires parts { length parts.now ≡ length (read_places build.old) }
    requires ties { AreTies build.old (lists_of parts.now) agrees.old.items (Before other read) }
    ensures grown { OnOk result (Grown build.old build.new 32 0) }
    ensures kept { OnOk result (KeepsParts build.old build.new) }
    ensures ties { OnOk result (AreTies build.new (lists_of parts.now) agrees.new.items (Before other (read + 1))) }
{
    if is_apart(sums[read as usize], sums[other as usize], 1) {
        return Ok(());
    }
    if !is_shared(&parts[read as usize], &parts[other as usize]) {
        return Ok(());
    }
    let left = build.addresses[read as usize];
    let right = build.addresses[other as usize];
    let condition = build.make(Node::Binary {
        op: BinaryOp::Equal,
        width: 32,
        left,
        right,
    })?;
    agree(
        agrees,
        &parts[read as usize],
        &parts[other as usize],
        condition,
        read,
        other,
    )?;
    Ok(())
}

/// Says it of an address and each before it.
fn row(
    build: &mut Build,
    sums: &[Split],
    parts: &[Vec<u32>],
    agrees: &mut Vec<Agreement>,
    other: u32,
) -> Result<(), AllocError>
    requires built { IsBuilt build.old }
    requires count { length sums.now ≡ length (read_places build.old) }
    requires sums { AreSums build.old sums.now }
    requires other { other < length (read_places build.old) }
    requires parts { length parts.now ≡ length (read_places build.old) }
    requires ties { AreTies build.old (lists_of parts.now) agrees.old.items (Before other 0) }
    ensures grown { OnOk result (Grown build.old build.new (32 * other) 0) }
    ensures kept { OnOk result (KeepsParts build.old build.new) }
    ensures ties { OnOk result (AreTies build.new (lists_of parts.now) agrees.new.items (Before (other + 1) 0)) }
{
    for read in 0..other {
        tie(build, sums, parts, agrees, read, other)?;
    }
    Ok(())
}

/// The addresses of the reads as sums.
fn sums_of(alloc: Global, build: &Build, zero: Term) -> Result<Vec<Split>, AllocError>
    requires built { IsBuilt build.now }
    requires zero { IsZero build.now.dag zero.0 }
    ensures count { IfOk result (λ s. length s.items ≡ length (read_places build.now)) }
    ensures sums { IfOk result (λ s. AreSums build.now s.items) }
{
    let mut sums = Vec::with_capacity(alloc, build.addresses.len())?;
    for read in 0..build.addresses.len() {
        let sum = sum_of(&build.dag, zero, build.addresses[read]);
        sums.push(sum)?;
    }
    Ok(sums)
}

/// What the reads have to agree in, by the parts that are read at each address. More addresses than 32 bits number are want of memory.
pub fn agreements(
    build: &mut Build,
    alloc: Global,
    parts: &[Vec<u32>],
) -> Result<Vec<Agreement>, AllocError>
    requires built { IsBuilt build.old }
    requires parts { length parts.now ≡ length (read_places build.old) }
    ensures grown { OnOk result (Grown build.old build.new (16 * (length (read_places build.old) * (length (read_places build.old) - 1))) 0) }
    ensures kept { OnOk result (KeepsParts build.old build.new) }
    ensures ties { IfOk result (λ t. AreTies build.new (lists_of parts.now) t.items (Before (length (read_places build.new)) 0)) }
{
    let zero = build.make(Node::Constant {
        width: 32,
        value: 0,
    })?;
    let sums = sums_of(alloc, build, zero)?;
    let count = build.addresses.len();
    if count > u32::MAX as usize {
        return Err(AllocError);
    }
    let mut agrees = Vec::new(alloc);
    for other in 0..count as u32 {
        row(build, &sums, parts, &mut agrees, other)?;
    }
    Ok(agrees)
}
