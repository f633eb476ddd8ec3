//! The text of a file's lifted words: those at addresses at which a row can stand whose bytes are executable and given by the file itself, by rising addresses.
//! Where some rows have 2 bytes, words may overlap: one stands at each even address, whatever the rows before it are.
//!
//! Each word has a line, its address and its bytes in the file's order. Its statements follow, two blanks deep; a word without a row says ` none` on its line.
#![tactic(auto)]

ghost use Rattle.std.specs.Prelude.{◌≡◌, IfOk};
ghost use Rattle.bilv_spec.specs.Files.{order_of};
ghost use Rattle.bilv_spec.specs.LiftText.{IsLiftTextBy};

mod candidates;
mod lines;
mod words;

use elf32_reader::Image;
use machine_law::Machine;
use std::alloc::{AllocError, Global};
use words::text_by;

/// The text of a file's words, each lifted by its row of the machine. Each takes about one search among the segments; a part without bytes of the file
/// takes one, however long it is. The error is want of memory.
pub fn lift_text<M: Machine>(alloc: Global, image: &Image) -> Result<Vec<u8>, AllocError>
    requires { order_of image.now ≡ M.machine.endian }
    ensures { IfOk result (λ v. IsLiftTextBy M.machine M.bank image.now v.items) }
{
    let text = text_by::<M>(alloc, image)?;
    Ok(text)
}
