//! Stores of several bytes.

ghost use Rattle.std.specs.Prelude.{◌≡◌, ℕ, ◌+◌, ◌*◌, ◌<◌, ◌≤◌, List, ◌++◌, length, IfOk, OnOk};
ghost use Rattle.word_spec.specs.Words.{add};
ghost use Rattle.word_spec.specs.Memory.{byte_of, endian};
ghost use Rattle.term_spec.specs.Terms.{TermReading, InRange, HasWidth, IsBytes, term_word};
ghost use Rattle.mem_cells.specs.Pieces.{IsZero};
ghost use Rattle.mem_cells.specs.Building.{IsBuilt, Grown, IsWord, IsStore};

use crate::building::Build;
use crate::loads::raised;
use crate::pieces::{Memories, Piece, StoredByte, sum_of};
use std::alloc::{AllocError, Global};
use term_dag::{Node, Term};

/// A byte of a word of some bytes, as it is stored.
fn stored_byte(
    build: &mut Build,
    value: Term,
    bytes: u8,
    big: bool,
    place: u8,
) -> Result<Term, AllocError>
    requires built { IsBuilt build.old }
    requires value { HasWidth build.old.dag (8 * bytes) value.0 }
    requires few { bytes ≤ 8 }
    requires place { place < bytes }
    ensures grown { OnOk result (Grown build.old build.new 0 0) }
    ensures byte { IfOk result (λ t. IsWord build.new.dag 8 t.0 (λ x. byte_of (endian big) bytes (term_word x build.old.dag value.0) place)) }
{
    let from_lowest = if big { bytes - 1 - place } else { place };
    let term = build.make(Node::Extract {
        hi: 8 * from_lowest + 7,
        lo: 8 * from_lowest,
        term: value,
    })?;
    Ok(term)
}

/// Stores some bytes of a word at an address: what is stored, and where it begins in the list.
pub fn store(
    build: &mut Build,
    memories: &mut Memories,
    memory: usize,
    address: Term,
    value: Term,
    bytes: u8,
    big: bool,
) -> Result<Piece, AllocError>
    requires built { IsBuilt build.old }
    requires address { HasWidth build.old.dag 32 address.0 }
    requires value { HasWidth build.old.dag (8 * bytes) value.0 }
    requires bytes { IsBytes bytes }
    ensures grown { OnOk result (Grown build.old build.new (bytes * 64) 0) }
    ensures pieces { OnOk result (memories.new.pieces.items ≡ memories.old.pieces.items) }
    ensures stored { OnOk result ((more : List StoredByte) × (memories.new.stored.items ≡ memories.old.stored.items ++ more)) }
    ensures piece { IfOk result (λ p. IsStore build.old build.new memories.new.stored.items memory address.0 value.0 bytes (endian big) p) }
{
    let first = memories.stored.len();
    for place in 0..bytes {
        let at = raised(build, address, place)?;
        let byte = stored_byte(build, value, bytes, big, place)?;
        memories.stored.push(StoredByte {
            address: at,
            value: byte,
        })?;
    }
    let zero = build.make(Node::Constant {
        width: 32,
        value: 0,
    })?;
    let at = sum_of(&build.dag, zero, address);
    Ok(Piece::Store {
        memory,
        at,
        first,
        bytes,
    })
}
