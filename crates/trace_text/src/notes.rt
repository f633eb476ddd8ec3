//! The line of the notes that a report names.
ghost use Rattle.std.specs.Prelude.{◌≡◌, ◌++◌, [], OnOk, slice_index_or};
ghost use Rattle.word_spec.specs.Texts.{split_lines};
ghost use Rattle.trace_texts_spec.specs.HeadLines.{note_line};

use line_tokens::first_line;
use state_text::{push_number, push_text};
use std::alloc::{AllocError, Global};

/// The line behind so many others, or an empty one.
fn line_behind<'a>(text: &'a [u8], count: u64) -> &'a [u8]
    ensures { result.now ≡ slice_index_or (split_lines text.now) count [] }
{
    let mut rest = text;
    let mut left = count;
    while !rest.is_empty() {
        let (line, others) = first_line(rest);
        if left == 0 {
            return line;
        }
        left -= 1;
        rest = others;
    }
    b""
}

/// Appends the line of a number, from 1 on, of notes, as it is written, behind its number: `line 3: ensure a0 <u 4`. Where there is no such line it is empty. What
/// an `Err` leaves is open.
pub fn push_note_line(
    alloc: Global,
    out: &mut Vec<u8>,
    notes: &[u8],
    number: u64,
) -> Result<(), AllocError>
    ensures { OnOk result (out.new.items ≡ out.old.items ++ note_line notes.now number) }
{
    push_text(out, b"line ")?;
    push_number(alloc, out, number)?;
    push_text(out, b": ")?;
    push_text(out, line_behind(notes, number.saturating_sub(1)))?;
    push_text(out, b"\n")?;
    Ok(())
}
