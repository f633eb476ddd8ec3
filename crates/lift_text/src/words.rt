//! The words of a file, one behind the other.

ghost use Rattle.std.specs.Prelude.{ℕ, ◌≡◌, ◌++◌, List, IfOk, OnOk};
ghost use Rattle.machine_spec.specs.Machine.{IsAtPlace};
ghost use Rattle.bilv_spec.specs.Files.{order_of};
ghost use Rattle.bilv_spec.specs.LiftText.{IsLiftTextBy};
ghost use Rattle.lift_text.specs.Found.{IsWordFound};
ghost use Rattle.lift_text.specs.Rest.{rest_text};
ghost use Rattle.lift_text.specs.Progress.{IsAppended, IsAdvance};

use crate::candidates::{Candidate, END, RowBytes, look_at, place_from};
use crate::lines::push_word_line;
use bil_ast::Stmt;
use bil_print::append_stmts;
use elf32_reader::Image;
use machine_law::{Machine, is_narrow, lift_word};
use state_text::push_text;
use std::alloc::{AllocError, Global};

/// Appends what stands behind a word's bytes: ` none`, or its statements on lines of their own.
fn push_rest(alloc: Global, out: &mut Vec<u8>, lifted: Option<Vec<Stmt>>) -> Result<(), AllocError>
    ensures { OnOk result (out.new.items ≡ out.old.items ++ rest_text lifted) }
{
    match lifted {
        None => {
            push_text(out, b" none\n")?;
            Ok(())
        }
        Some(list) => {
            let mut text = String::new(alloc);
            append_stmts(alloc, &mut text, &list, 1)?;
            push_text(out, b"\n")?;
            push_text(out, text.as_bytes())?;
            Ok(())
        }
    }
}

/// Appends the lines of a word.
fn push_word<M: Machine>(
    alloc: Global,
    image: &Image,
    out: &mut Vec<u8>,
    at: u32,
    row: RowBytes,
) -> Result<(), AllocError>
    requires order { order_of image.now ≡ M.machine.endian }
    requires found { IsWordFound M.machine image.now at row }
    ensures { OnOk result (IsAppended M.machine M.bank image.now at out.old.items out.new.items) }
{
    let word = row.number(image.is_big_machine());
    let lifted = lift_word::<M>(alloc, word, at)?;
    push_word_line(alloc, out, at, row.bytes())?;
    push_rest(alloc, out, lifted)?;
    Ok(())
}

/// Appends the lines of the word at an address at which a row can stand, if one stands there. The result is the address to look at next, 2^32 behind the last.
fn push_next<M: Machine>(
    alloc: Global,
    image: &Image,
    out: &mut Vec<u8>,
    at: u32,
) -> Result<u64, AllocError>
    requires order { order_of image.now ≡ M.machine.endian }
    requires aligned { IsAtPlace M.machine.narrow at }
    ensures { IfOk result (λ next. IsAdvance M.machine M.bank image.now at out.old.items next out.new.items) }
{
    match look_at::<M>(image, at) {
        Candidate::Next(next) => Ok(next),
        Candidate::Word(row) => {
            push_word::<M>(alloc, image, out, at, row)?;
            Ok(place_from(is_narrow::<M>(), at as u64 + 1))
        }
    }
}

/// The text of all words.
pub(crate) fn text_by<M: Machine>(alloc: Global, image: &Image) -> Result<Vec<u8>, AllocError>
    requires { order_of image.now ≡ M.machine.endian }
    ensures { IfOk result (λ v. IsLiftTextBy M.machine M.bank image.now v.items) }
{
    let mut out = Vec::new(alloc);
    let mut at: u64 = 0;
    while at < END {
        at = push_next::<M>(alloc, image, &mut out, at as u32)?;
    }
    Ok(out)
}
