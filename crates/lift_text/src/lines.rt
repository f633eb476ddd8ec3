//! The line of a word.

ghost use Rattle.std.specs.Prelude.{◌≡◌, ◌++◌, ◌∷◌, OnOk};
ghost use Rattle.word_spec.specs.Texts.{word_text};
ghost use Rattle.lift_text.specs.Found.{bytes_text};

use state_text::{push_text, push_word};
use std::alloc::{AllocError, Global};

/// Appends two hexadecimal digits for each byte.
fn push_bytes(alloc: Global, out: &mut Vec<u8>, bytes: &[u8]) -> Result<(), AllocError>
    ensures { OnOk result (out.new.items ≡ out.old.items ++ bytes_text bytes.now) }
{
    let digits = hex::encode(alloc, bytes)?;
    push_text(out, digits.as_bytes())?;
    Ok(())
}

/// Appends the address of a word, and the bytes of its row in the file's order.
pub(crate) fn push_word_line(
    alloc: Global,
    out: &mut Vec<u8>,
    at: u32,
    bytes: &[u8],
) -> Result<(), AllocError>
    ensures { OnOk result (out.new.items ≡ out.old.items ++ (word_text at ++ 32 ∷ bytes_text bytes.now)) }
{
    push_word(out, at)?;
    push_text(out, b" ")?;
    push_bytes(alloc, out, bytes)?;
    Ok(())
}
