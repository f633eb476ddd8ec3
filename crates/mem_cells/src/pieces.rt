//! Memories as pieces, and which of them the byte at an address needs.

ghost use Rattle.std.specs.Prelude.{◌≡◌, ℕ, ◌+◌, ◌<◌, ◌≤◌, ◌⊎◌, Bool, true, false, List, Some, length, slice_get, slice_index_or, IfOk, IfSome, IfNone};
ghost use Rattle.term_spec.specs.Terms.{HasWidth};
ghost use Rattle.mem_cells.specs.Pieces.{ends_in, lies_apart, bool_at, AreRising, IsRising, Needs, AreClosed, IsSplit, IsZero, part_read, piece_at};

use bil_ast::BinaryOp;
use std::alloc::{AllocError, Global};
use term_dag::{Dag, Node, Term};

/// A word as the sum of a term and a constant.
#[derive(Clone, Copy)]
pub struct Split {
    pub base: Term,
    pub offset: u32,
}

/// A byte that is stored: its address and its value.
#[derive(Clone, Copy)]
pub struct StoredByte {
    pub address: Term,
    pub value: Term,
}

/// Bytes that are taken from the memory of a part: so many, at the addresses from one on.
#[derive(Clone, Copy)]
pub struct Taken {
    pub part: u32,
    pub bytes: u32,
    /// The first address.
    pub first: Term,
    /// The second, if there are two bytes.
    pub second: Term,
    /// The first as a sum.
    pub at: Split,
}

/// A memory, over earlier ones by their numbers.
#[derive(Clone, Copy)]
pub enum Piece {
    /// The memory that a part begins with.
    Entry(u32),
    /// A memory with some bytes stored at an address, those from a place of a list on.
    Store {
        memory: usize,
        at: Split,
        first: usize,
        bytes: u8,
    },
    /// A memory with some bytes of a part's.
    Take {
        memory: usize,
        taken: Taken,
    },
    /// One of two memories.
    Join {
        condition: Term,
        when_true: usize,
        when_false: usize,
    },
}

/// Memories, and the bytes that they store.
#[derive(Drop)]
pub struct Memories {
    pub pieces: Vec<Piece>,
    pub stored: Vec<StoredByte>,
}

/// A word as a sum. A constant is one of the term `zero`, which is 0.
pub fn sum_of(dag: &Dag, zero: Term, term: Term) -> Split
    requires zero { IsZero dag.now zero.0 }
    requires place { HasWidth dag.now 32 term.0 }
    ensures { IsSplit dag.now term.0 result.base.0 result.offset }
{
    let _typed = dag.nodes();
    if let Some(value) = dag.constant(term) {
        return Split {
            base: zero,
            offset: value as u32,
        };
    }
    if let Node::Binary {
        op: BinaryOp::Plus,
        left,
        right,
        ..
    } = dag.node(term)
    {
        if let Some(value) = dag.constant(right) {
            return Split {
                base: left,
                offset: value as u32,
            };
        }
    }
    Split {
        base: term,
        offset: 0,
    }
}

/// Whether an address is surely one of those of some bytes from another on.
pub fn is_within(address: Split, first: Split, bytes: u32) -> bool
    ensures { result ≡ ends_in address first bytes }
{
    address.base.0 == first.base.0 && address.offset.wrapping_sub(first.offset) < bytes
}

/// Whether an address is surely none of those of some bytes from another on.
pub fn is_apart(address: Split, first: Split, bytes: u32) -> bool
    ensures { result ≡ lies_apart address first bytes }
{
    address.base.0 == first.base.0 && address.offset.wrapping_sub(first.offset) >= bytes
}

/// The part whose memory the byte at an address of a piece reads, if it may.
fn part_read(piece: Piece, address: Split) -> Option<u32>
    ensures { result ≡ part_read address piece }
{
    match piece {
        Piece::Entry(part) => Some(part),
        Piece::Take { taken, .. } => {
            if is_apart(address, taken.at, taken.bytes) {
                return None;
            }
            Some(taken.part)
        }
        Piece::Store { .. } | Piece::Join { .. } => None,
    }
}

/// The part whose memory the first marked piece that may read one reads at an address.
pub fn first_part(pieces: &[Piece], marks: &[bool], address: Split) -> Option<u32>
    requires { length marks.now ≤ length pieces.now }
    ensures some { IfSome result (λ p. (q : ℕ) × (q < length marks.now) × (part_read address (piece_at pieces.now q) ≡ Some p)) }
    ensures none { IfNone result ((q p : ℕ) → q < length marks.now → bool_at marks.now q ≡ true → part_read address (piece_at pieces.now q) ≡ Some p → ⊥) }
{
    for q in 0..marks.len() {
        if marks[q] {
            if let Some(part) = part_read(pieces[q], address) {
                return Some(part);
            }
        }
    }
    None
}

/// Marks the memories that the byte at an address of a memory needs.
fn mark(marks: &mut Vec<bool>, piece: Piece, address: Split)
    requires { IsRising (length marks.old.items) piece }
    ensures count { length marks.new.items ≡ length marks.old.items }
    ensures needs { Needs marks.new.items address piece }
    ensures more { (j : ℕ) → bool_at marks.old.items j ≡ true → bool_at marks.new.items j ≡ true }
    ensures below { (q j : ℕ) → IsRising q piece → q ≤ j → bool_at marks.new.items j ≡ bool_at marks.old.items j }
{
    match piece {
        Piece::Entry(_) => {}
        Piece::Store {
            memory,
            at,
            bytes,
            ..
        } => {
            if !is_within(address, at, bytes as u32) {
                marks[memory] = true;
            }
        }
        Piece::Take { memory, taken } => {
            if !is_within(address, taken.at, taken.bytes) {
                marks[memory] = true;
            }
        }
        Piece::Join {
            when_true,
            when_false,
            ..
        } => {
            marks[when_true] = true;
            marks[when_false] = true;
        }
    }
}

/// Which memories the byte at an address of the memory `top` needs.
pub fn marked(
    alloc: Global,
    pieces: &[Piece],
    top: usize,
    address: Split,
) -> Result<Vec<bool>, AllocError>
    requires rising { AreRising pieces.now }
    requires top { top < length pieces.now }
    ensures count { IfOk result (λ m. length m.items ≡ top + 1) }
    ensures top { IfOk result (λ m. bool_at m.items top ≡ true) }
    ensures closed { IfOk result (λ m. AreClosed m.items pieces.now address 0) }
{
    let mut marks = vec![in alloc; false; top + 1]?;
    marks[top] = true;
    let mut left = top + 1;
    while left > 0 {
        left -= 1;
        if marks[left] {
            mark(&mut marks, pieces[left], address);
        }
    }
    Ok(marks)
}
