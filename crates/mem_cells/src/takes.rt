//! Bytes that are taken from the memory of a part.

ghost use Rattle.std.specs.Prelude.{◌≡◌, ◌≤◌, IfOk, OnOk};
ghost use Rattle.word_spec.specs.Words.{add};
ghost use Rattle.term_spec.specs.Terms.{HasWidth, term_word};
ghost use Rattle.mem_cells.specs.Parts.{HasPart};
ghost use Rattle.mem_cells.specs.Building.{IsBuilt, Grown, IsTake, IsWord};
ghost use Rattle.mem_cells.specs.Pieces.{IsZero};

use crate::building::Build;
use crate::loads::raised;
use crate::pieces::{Piece, Taken, sum_of};
use std::alloc::AllocError;
use term_dag::{Node, Term};

/// The address behind the first, if there are two bytes; else any.
fn second_of(build: &mut Build, first: Term, bytes: u32) -> Result<Term, AllocError>
    requires built { IsBuilt build.old }
    requires first { HasWidth build.old.dag 32 first.0 }
    ensures grown { OnOk result (Grown build.old build.new 64 0) }
    ensures second { IfOk result (λ t. bytes ≡ 2 → IsWord build.new.dag 32 t.0 (λ x. add 32 (term_word x build.old.dag first.0) 1)) }
{
    if bytes == 2 {
        let second = raised(build, first, 1)?;
        return Ok(second);
    }
    Ok(first)
}

/// A memory with so many bytes of a part's at the addresses from one on.
pub fn take(
    build: &mut Build,
    memory: usize,
    first: Term,
    bytes: u32,
    part: u32,
) -> Result<Piece, AllocError>
    requires built { IsBuilt build.old }
    requires part { HasPart build.old part }
    requires first { HasWidth build.old.dag 32 first.0 }
    requires some { 1 ≤ bytes }
    ensures grown { OnOk result (Grown build.old build.new 64 0) }
    ensures piece { IfOk result (λ p. IsTake build.old build.new memory first.0 bytes part p) }
{
    let second = second_of(build, first, bytes)?;
    let zero = build.make(Node::Constant {
        width: 32,
        value: 0,
    })?;
    let at = sum_of(&build.dag, zero, first);
    let taken = Taken {
        part,
        bytes,
        first,
        second,
        at,
    };
    Ok(Piece::Take { memory, taken })
}
