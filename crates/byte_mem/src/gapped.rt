//! Entries with a gap, at which they are put in and taken out.
ghost use Rattle.std.specs.Prelude.{◌≡◌, ℕ, ◌≤◌, ◌<◌, ◌+◌, ◌∷◌, ◌++◌, length, get_or, take, drop, reverse, vec_len, vec_capacity, IfOk, OnOk};
ghost use Rattle.byte_mem.specs.Gaps.{entries_of, HasRoom, KeepsRoom, IsReplaced};

use std::alloc::{AllocError, Global};

/// Addresses with bytes. Those above the gap stand from the last to the first, so that moving the gap by one moves one entry.
#[derive(Drop)]
pub struct Gapped {
    pub below: Vec<(u32, u8)>,
    pub above: Vec<(u32, u8)>,
}

/// The number of the entries.
pub fn count(g: &Gapped) -> usize
    requires { HasRoom g.now 0 }
    ensures { result ≡ length (entries_of g.now) }
{
    g.below.len() + g.above.len()
}

/// The entry at a place.
pub fn entry(g: &Gapped, i: usize) -> (u32, u8)
    requires { i < length (entries_of g.now) }
    ensures { (d : ℕ × ℕ) → get_or (entries_of g.now) i d ≡ result }
{
    let below = g.below.len();
    if i < below {
        return g.below[i];
    }
    g.above[g.above.len() - 1 - (i - below)]
}

/// Puts another entry in the place of one.
pub fn replace(g: &mut Gapped, i: usize, with: (u32, u8))
    requires { i < length (entries_of g.old) }
    ensures replaced { IsReplaced (entries_of g.old) i with (entries_of g.new) }
    ensures room { KeepsRoom g.old g.new }
{
    let below = g.below.len();
    if i < below {
        g.below[i] = with;
        return;
    }
    let place = g.above.len() - 1 - (i - below);
    g.above[place] = with;
}

/// Moves the gap below one more entry.
fn lower(g: &mut Gapped)
    requires some { 0 < vec_len g.old.below }
    requires room { vec_len g.old.above < vec_capacity g.old.above }
    ensures entries { entries_of g.new ≡ entries_of g.old }
    ensures below { vec_len g.new.below + 1 ≡ vec_len g.old.below }
    ensures above { vec_len g.new.above ≡ vec_len g.old.above + 1 }
    ensures capacity_below { vec_capacity g.old.below ≤ vec_capacity g.new.below }
    ensures capacity_above { vec_capacity g.old.above ≤ vec_capacity g.new.above }
{
    let Some(moved) = g.below.pop() else {
        unreachable!()
    };
    let pushed = g.above.push(moved);
    if pushed.is_err() {
        unreachable!();
    }
}

/// Moves the gap above one more entry.
fn raise(g: &mut Gapped)
    requires some { 0 < vec_len g.old.above }
    requires room { vec_len g.old.below < vec_capacity g.old.below }
    ensures entries { entries_of g.new ≡ entries_of g.old }
    ensures below { vec_len g.new.below ≡ vec_len g.old.below + 1 }
    ensures above { vec_len g.new.above + 1 ≡ vec_len g.old.above }
    ensures capacity_below { vec_capacity g.old.below ≤ vec_capacity g.new.below }
    ensures capacity_above { vec_capacity g.old.above ≤ vec_capacity g.new.above }
{
    let Some(moved) = g.above.pop() else {
        unreachable!()
    };
    let pushed = g.below.push(moved);
    if pushed.is_err() {
        unreachable!();
    }
}

/// Moves the gap to a place.
fn seek(g: &mut Gapped, place: usize)
    requires room { HasRoom g.old 0 }
    requires within { place ≤ length (entries_of g.old) }
    ensures entries { entries_of g.new ≡ entries_of g.old }
    ensures place { vec_len g.new.below ≡ place }
    ensures room { KeepsRoom g.old g.new }
{
    while g.below.len() > place {
        lower(g);
    }
    while g.below.len() < place {
        raise(g);
    }
}

/// Puts an entry in at a place. It takes no memory.
pub fn insert(g: &mut Gapped, place: usize, entry: (u32, u8))
    requires room { HasRoom g.old 1 }
    requires within { place ≤ length (entries_of g.old) }
    ensures entries { entries_of g.new ≡ take place (entries_of g.old) ++ entry ∷ drop place (entries_of g.old) }
    ensures room { (n : ℕ) → HasRoom g.old (n + 1) → HasRoom g.new n }
{
    seek(g, place);
    let pushed = g.below.push(entry);
    if pushed.is_err() {
        unreachable!();
    }
}

/// Takes the entry at a place out.
pub fn remove(g: &mut Gapped, place: usize)
    requires room { HasRoom g.old 0 }
    requires within { place < length (entries_of g.old) }
    ensures entries { entries_of g.new ≡ take place (entries_of g.old) ++ drop (place + 1) (entries_of g.old) }
    ensures room { KeepsRoom g.old g.new }
{
    seek(g, place + 1);
    g.below.pop();
}

/// Makes room for so many more entries. The error is want of memory.
pub fn make_room(g: &mut Gapped, n: usize) -> Result<(), AllocError>
    ensures entries { entries_of g.new ≡ entries_of g.old }
    ensures kept { KeepsRoom g.old g.new }
    ensures room { OnOk result (HasRoom g.new n) }
{
    let below = g.above.len().checked_add(n).ok_or(AllocError)?;
    g.below.reserve(below)?;
    let above = g.below.len().checked_add(n).ok_or(AllocError)?;
    g.above.reserve(above)?;
    Ok(())
}

/// The entries in one list. The error is want of memory.
pub fn listed(alloc: Global, g: &Gapped) -> Result<Vec<(u32, u8)>, AllocError>
    requires { HasRoom g.now 0 }
    ensures { IfOk result (λ v. v.items ≡ entries_of g.now) }
{
    let mut list = Vec::with_capacity(alloc, count(g))?;
    for i in 0..count(g) {
        list.push(entry(g, i))?;
    }
    Ok(list)
}

/// The same entries with the same gap. The error is want of memory.
pub fn copied(alloc: Global, g: &Gapped) -> Result<Gapped, AllocError>
    requires { HasRoom g.now 0 }
    ensures entries { IfOk result (λ copy. entries_of copy ≡ entries_of g.now) }
    ensures room { IfOk result (λ copy. HasRoom copy 0) }
{
    let total = count(g);
    let mut below = Vec::with_capacity(alloc, total)?;
    below.extend_from_slice(&g.below)?;
    let mut above = Vec::with_capacity(alloc, total)?;
    above.extend_from_slice(&g.above)?;
    Ok(Gapped { below, above })
}
