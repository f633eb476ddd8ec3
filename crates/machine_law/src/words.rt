//! The lifted list of a word.

ghost use Rattle.std.specs.Prelude.{IfOk};
ghost use Rattle.machine_law.specs.Facts.{IsLiftedWord};

use crate::Machine;
use bil_ast::Stmt;
use std::alloc::{AllocError, Global};

/// The statements that do what the row of a word does where it stands at an address; none exactly where the table has no row for the word. The error is want of
/// memory.
pub fn lift_word<M: Machine>(
    alloc: Global,
    word: u32,
    at: u32,
) -> Result<Option<Vec<Stmt>>, AllocError>
    ensures { IfOk result (λ o. IsLiftedWord M.machine M.bank (M.machine.row word) at o) }
{
    match M::decode(word) {
        None => Ok(None),
        Some(insn) => {
            let list = M::lift(alloc, &insn, at)?;
            Ok(Some(list))
        }
    }
}
