//! What stands at the address of a step.
ghost use Rattle.std.specs.Prelude.{◌≡◌, ◌++◌, ◌∷◌, OnOk};
ghost use Rattle.word_spec.specs.Words.{add};
ghost use Rattle.word_spec.specs.Texts.{hex_digits};
ghost use Rattle.machine_spec.specs.Machine.{offsets};
ghost use Rattle.bilv_spec.specs.Elf.{loaded};
ghost use Rattle.bilv_spec.specs.Points.{byte_of_cell};
ghost use Rattle.bilv_spec.specs.Files.{order_of};
ghost use Rattle.trace_texts_spec.specs.StepLines.{IsMeaning, IsRowText, bytes_in_line};
ghost use Rattle.trace_text.specs.Appending.{IsAppended};

use crate::changes::push_two_digits;
use crate::meanings::push_statements;
use elf32_reader::Image;
use file_words::file_word;
use machine_law::{Machine, length, lift_word, taken};
use state_text::push_text;
use std::alloc::{AllocError, Global};

/// The byte that a file has so many addresses behind one, 0 where none is loaded.
fn byte_behind(image: &Image, a: u32, i: u32) -> u8
    ensures { result ≡ byte_of_cell (loaded image.now (add 32 a i)) }
{
    image.byte(a.wrapping_add(i)).unwrap_or(0)
}

/// Appends the byte that a file has so many addresses behind one, with a blank in front.
fn push_byte(out: &mut Vec<u8>, image: &Image, a: u32, i: u32) -> Result<(), AllocError>
    ensures { OnOk result (out.new.items ≡ out.old.items ++ 32 ∷ hex_digits 2 (byte_of_cell (loaded image.now (add 32 a i)))) }
{
    out.push(b' ')?;
    push_two_digits(out, byte_behind(image, a, i) as u32)?;
    Ok(())
}

/// Appends the bytes of a row of 2 or 4 bytes at an address.
fn push_row_bytes(out: &mut Vec<u8>, image: &Image, a: u32, count: u8) -> Result<(), AllocError>
    ensures { OnOk result (out.new.items ≡ out.old.items ++ bytes_in_line image.now a (offsets count)) }
{
    push_byte(out, image, a, 0)?;
    push_byte(out, image, a, 1)?;
    if count == 2 {
        return Ok(());
    }
    push_byte(out, image, a, 2)?;
    push_byte(out, image, a, 3)?;
    Ok(())
}

/// Appends what the row of a word does where it stands at an address.
fn push_meaning<M: Machine>(
    alloc: Global,
    out: &mut Vec<u8>,
    word: u32,
    at: u32,
) -> Result<(), AllocError>
    ensures { OnOk result (IsAppended (IsMeaning M.machine M.bank (M.machine.row word) at) out.old.items out.new.items) }
{
    match lift_word::<M>(alloc, word, at)? {
        None => {
            push_text(out, b" none")?;
            Ok(())
        }
        Some(list) => {
            push_statements(alloc, out, &list)?;
            Ok(())
        }
    }
}

/// Appends the bytes of the row at an address, and what it does. What an `Err` leaves is open.
pub(crate) fn push_row<M: Machine>(
    alloc: Global,
    out: &mut Vec<u8>,
    image: &Image,
    at: u32,
) -> Result<(), AllocError>
    requires order { order_of image.now ≡ M.machine.endian }
    ensures { OnOk result (IsAppended (IsRowText M.machine M.bank image.now at) out.old.items out.new.items) }
{
    let word = taken::<M>(file_word(image, at));
    out.push(b' ')?;
    push_row_bytes(out, image, at, length::<M>(word))?;
    out.push(b' ')?;
    push_meaning::<M>(alloc, out, word, at)?;
    Ok(())
}
