//! Loads and stores of several bytes.

ghost use Rattle.std.specs.Prelude.{◌≡◌, ℕ, ◌+◌, ◌*◌, ◌<◌, ◌≤◌, length, sum_by, IfOk, OnOk};
ghost use Rattle.word_spec.specs.Words.{add};
ghost use Rattle.word_spec.specs.Memory.{endian, load};
ghost use Rattle.term_spec.specs.Terms.{HasWidth, IsBytes, term_word};
ghost use Rattle.mem_cells.specs.Pieces.{ArePieces, piece_gates};
ghost use Rattle.mem_cells.specs.Building.{with_byte, IsBuilt, Grown, IsWord, IsOfMemory};

use crate::building::Build;
use crate::pieces::Memories;
use bil_ast::BinaryOp;
use std::alloc::{AllocError, Global};
use term_dag::{Node, Term};

/// The address some bytes behind another.
pub fn raised(build: &mut Build, address: Term, bytes: u8) -> Result<Term, AllocError>
    requires built { IsBuilt build.old }
    requires address { HasWidth build.old.dag 32 address.0 }
    ensures grown { OnOk result (Grown build.old build.new 64 0) }
    ensures word { IfOk result (λ t. IsWord build.new.dag 32 t.0 (λ x. add 32 (term_word x build.old.dag address.0) bytes)) }
{
    let right = build.make(Node::Constant {
        width: 32,
        value: bytes as u64,
    })?;
    let term = build.make(Node::Binary {
        op: BinaryOp::Plus,
        width: 32,
        left: address,
        right,
    })?;
    Ok(term)
}

/// The byte of a memory some bytes behind an address.
fn byte_behind(
    build: &mut Build,
    alloc: Global,
    memories: &Memories,
    memory: usize,
    address: Term,
    bytes: u8,
) -> Result<Term, AllocError>
    requires built { IsBuilt build.old }
    requires pieces { ArePieces build.old memories.now.stored.items memories.now.pieces.items }
    requires memory { memory < length memories.now.pieces.items }
    requires address { HasWidth build.old.dag 32 address.0 }
    ensures grown { OnOk result (Grown build.old build.new (64 + sum_by piece_gates memories.now.pieces.items) 1) }
    ensures byte { IfOk result (λ t. IsOfMemory build.old build.new memories.now.stored.items memories.now.pieces.items memory 8 t.0
        (λ x m. m (add 32 (term_word x build.old.dag address.0) bytes))) }
{
    let at = raised(build, address, bytes)?;
    let byte = build.byte_at(alloc, memories, memory, at)?;
    Ok(byte)
}

/// A word of some bytes with one more.
fn joined(
    build: &mut Build,
    big: bool,
    bytes: u8,
    word: Term,
    byte: Term,
) -> Result<Term, AllocError>
    requires built { IsBuilt build.old }
    requires some { 1 ≤ bytes }
    requires few { bytes ≤ 7 }
    requires word { HasWidth build.old.dag (8 * bytes) word.0 }
    requires byte { HasWidth build.old.dag 8 byte.0 }
    ensures grown { OnOk result (Grown build.old build.new 0 0) }
    ensures word { IfOk result (λ t. IsWord build.new.dag (8 * (bytes + 1)) t.0
        (λ x. with_byte (endian big) bytes (term_word x build.old.dag word.0) (term_word x build.old.dag byte.0))) }
{
    let node = if big {
        Node::Concat {
            high: 8 * bytes,
            low: 8,
            upper: word,
            lower: byte,
        }
    } else {
        Node::Concat {
            high: 8,
            low: 8 * bytes,
            upper: byte,
            lower: word,
        }
    };
    let term = build.make(node)?;
    Ok(term)
}

/// The bytes of a memory at an address, as a word.
pub fn load(
    build: &mut Build,
    alloc: Global,
    memories: &Memories,
    memory: usize,
    address: Term,
    bytes: u8,
    big: bool,
) -> Result<Term, AllocError>
    requires built { IsBuilt build.old }
    requires pieces { ArePieces build.old memories.now.stored.items memories.now.pieces.items }
    requires memory { memory < length memories.now.pieces.items }
    requires address { HasWidth build.old.dag 32 address.0 }
    requires bytes { IsBytes bytes }
    ensures grown { OnOk result (Grown build.old build.new (bytes * (64 + sum_by piece_gates memories.now.pieces.items)) bytes) }
    ensures word { IfOk result (λ t. IsOfMemory build.old build.new memories.now.stored.items memories.now.pieces.items memory (8 * bytes) t.0
        (λ x m. load (endian big) bytes m (term_word x build.old.dag address.0))) }
{
    let mut word = byte_behind(build, alloc, memories, memory, address, 0)?;
    for i in 1..bytes {
        let byte = byte_behind(build, alloc, memories, memory, address, i)?;
        word = joined(build, big, i, word, byte)?;
    }
    Ok(word)
}
