//! Where gates stand.
ghost use Rattle.std.specs.Prelude.{◌≡◌, ◌<◌, ◌≤◌, ◌^◌, length, slice_index_or, IfSome};

use crate::gate::Gate;
use std::alloc::{AllocError, Global};

/// How many links a search follows.
const LONGEST_SEARCH: usize = 8;

/// A table of the gates by their hash. Nothing is claimed of it: a gate that it leads to is compared.
#[derive(Drop)]
pub struct GateIndex {
    /// The latest gate of each hash: its place and 1, or 0 where there is none.
    heads: Vec<u32>,
    /// The gate before each one of the same hash, likewise.
    links: Vec<u32>,
}

fn mixed(hash: u64, number: u32) -> u64 {
    (hash ^ number as u64)
        .wrapping_mul(0x9E37_79B9_7F4A_7C15)
        .rotate_left(29)
}

fn hash(gate: Gate) -> u64 {
    let (kind, a, b, c) = match gate {
        Gate::And(a, b) => (1, a, b, b),
        Gate::Xor(a, b) => (2, a, b, b),
        Gate::Ite(c, a, b) => (3, c, a, b),
        Gate::Parity(a, b, c) => (4, a, b, c),
        Gate::Majority(a, b, c) => (5, a, b, c),
        Gate::Same(s, a, b) => (6, s, a, b),
    };
    mixed(mixed(mixed(kind, a.code()), b.code()), c.code())
}

/// The place of a hash among the heads, of which there are some.
fn place(hash: u64, heads: usize) -> usize
    requires { 0 < heads }
    ensures { result < heads }
{
    hash as usize % heads
}

impl GateIndex {
    /// The table of no gates.
    pub fn new(alloc: Global) -> GateIndex {
        GateIndex {
            heads: Vec::new(alloc),
            links: Vec::new(alloc),
        }
    }

    /// A place of the gate, if the table leads to one.
    pub fn find(&self, gates: &[Gate], gate: Gate) -> Option<usize>
        ensures within { IfSome result (λ i. i < length gates.now) }
        ensures there { IfSome result (λ i. slice_index_or gates.now i gate ≡ gate) }
    {
        if self.heads.is_empty() {
            return None;
        }
        let mut next = self.heads[place(hash(gate), self.heads.len())] as usize;
        for _ in 0..LONGEST_SEARCH {
            if next == 0 || gates.len() < next {
                return None;
            }
            if gates[next - 1] == gate {
                return Some(next - 1);
            }
            next = match self.links.get(next - 1) {
                Some(link) => *link as usize,
                None => 0,
            };
        }
        None
    }

    /// The table of the gates, with so many heads.
    fn of(alloc: Global, gates: &[Gate], heads_len: usize) -> Result<GateIndex, AllocError>
        requires some { 0 < heads_len }
        requires few { length gates.now < 2 ^ 32 }
    {
        let mut heads = Vec::new(alloc);
        heads.resize(heads_len, 0)?;
        let mut links = Vec::with_capacity(alloc, heads_len)?;
        for i in 0..gates.len() {
            let at = place(hash(gates[i]), heads.len());
            links.push(heads[at])?;
            heads[at] = i as u32 + 1;
        }
        Ok(GateIndex { heads, links })
    }

    /// Adds a gate behind those that are in the table.
    pub fn add(&mut self, gates: &[Gate], gate: Gate) -> Result<(), AllocError>
        requires { length gates.now < 2 ^ 31 }
    {
        let alloc = *self.heads.allocator();
        if self.heads.len() <= gates.len() {
            *self = GateIndex::of(alloc, gates, 2 * gates.len() + 1024)?;
        }
        let len = self.heads.len();
        if len == 0 {
            return Ok(());
        }
        let at = place(hash(gate), len);
        self.links.push(self.heads[at])?;
        self.heads[at] = gates.len() as u32 + 1;
        Ok(())
    }
}
