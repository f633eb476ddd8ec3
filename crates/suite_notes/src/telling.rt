//! What is told of a template that is refused.
ghost use Rattle.std.specs.Prelude.{◌≡◌, ◌++◌, IfOk, OnOk};
ghost use Rattle.std.specs.Option.{option_map};
ghost use Rattle.std.specs.String.{string_bytes};
ghost use Rattle.note_template.specs.Views.{refusal_of};
ghost use Rattle.suite_notes.specs.Refusals.{nearest_text, refusal_text, refused_at};

use note_template::Refusal;
use state_text::{push_number, push_text};
use std::alloc::{AllocError, Global};

/// Appends the nearest name, if there is one. What an `Err` leaves is open.
fn push_nearest(out: &mut Vec<u8>, nearest: &Option<String>) -> Result<(), AllocError>
    ensures { OnOk result (out.new.items ≡ out.old.items ++ nearest_text (option_map string_bytes nearest.now)) }
{
    match nearest {
        None => Ok(()),
        Some(name) => {
            push_text(out, b", the nearest is ")?;
            push_text(out, name.as_bytes())?;
            Ok(())
        }
    }
}

/// Appends why a line is refused. What an `Err` leaves is open.
fn push_refusal(out: &mut Vec<u8>, refusal: &Refusal) -> Result<(), AllocError>
    ensures { OnOk result (out.new.items ≡ out.old.items ++ refusal_text (refusal_of refusal.now)) }
{
    match refusal {
        Refusal::UnknownSymbol { nearest } => {
            push_text(out, b"no such symbol")?;
            push_nearest(out, nearest)?;
            Ok(())
        }
        Refusal::AmbiguousSymbol => {
            push_text(out, b"symbols of this name differ")?;
            Ok(())
        }
        Refusal::WrongForm => {
            push_text(out, b"not in form")?;
            Ok(())
        }
        Refusal::LongLine => {
            push_text(out, b"longer than 1024 bytes")?;
            Ok(())
        }
    }
}

/// The line that says where and why a template is refused. The error is out of memory.
pub(crate) fn refused_text(
    alloc: Global,
    line: usize,
    column: usize,
    refusal: &Refusal,
) -> Result<Vec<u8>, AllocError>
    ensures { IfOk result (λ v. v.items ≡ refused_at line column (refusal_of refusal.now)) }
{
    let mut text = b"notes: line ".to_vec(alloc)?;
    push_number(alloc, &mut text, line as u64)?;
    push_text(&mut text, b" column ")?;
    push_number(alloc, &mut text, column as u64)?;
    push_text(&mut text, b": ")?;
    push_refusal(&mut text, refusal)?;
    push_text(&mut text, b"\n")?;
    Ok(text)
}
