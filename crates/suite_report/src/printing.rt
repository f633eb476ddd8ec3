//! The lines of checks, and the summary.
ghost use Rattle.std.specs.Prelude.{◌≡◌, ◌≤◌, ◌++◌, IfOk, OnOk};
ghost use Rattle.word_spec.specs.Texts.{number_text};
ghost use Rattle.suite_report.specs.Reports as spec;
ghost use Rattle.suite_report.specs.Views.{told_of};

use crate::judging::is_expected;
use crate::told::Told;
use itoa::Buffer;
use note_check::{Warning, push_warning};
use std::alloc::{AllocError, Global};

/// Appends a decimal number. What an `Err` leaves is open.
pub(crate) fn push_number(out: &mut Vec<u8>, number: usize) -> Result<(), AllocError>
    ensures { OnOk result (out.new.items ≡ out.old.items ++ number_text number) }
{
    let mut buffer = Buffer::new();
    out.extend_from_slice(buffer.format(number).as_bytes())?;
    Ok(())
}

/// A text up to its first line feed, or to its end where there is none.
pub fn first_line(text: &[u8]) -> &[u8]
    ensures { result.now ≡ spec.first_line text.now }
{
    for (i, byte) in text.iter().enumerate() {
        if *byte == b'\n' {
            return &text[..i];
        }
    }
    text
}

/// Appends warnings, behind a report. What an `Err` leaves is open.
fn push_warnings(out: &mut Vec<u8>, alloc: Global, warnings: &[Warning]) -> Result<(), AllocError>
    ensures { OnOk result (out.new.items ≡ out.old.items ++ spec.warnings_text warnings.now) }
{
    for warning in warnings {
        out.extend_from_slice(b"; warning: ")?;
        push_warning(alloc, out, *warning)?;
    }
    Ok(())
}

/// The line of a check: whether it came to what is expected, its name, the first line of its report, its warnings. The error is out of memory.
pub(crate) fn told_line(alloc: Global, told: &Told<'_>) -> Result<Vec<u8>, AllocError>
    ensures { IfOk result (λ v. v.items ≡ spec.told_line (told_of told.now)) }
{
    let word: &[u8] = if is_expected(told) {
        b"ok "
    } else {
        b"FAILED "
    };
    let mut text = word.to_vec(alloc)?;
    text.extend_from_slice(told.name.as_bytes())?;
    text.extend_from_slice(b": ")?;
    text.extend_from_slice(first_line(told.report))?;
    push_warnings(&mut text, alloc, told.warnings)?;
    text.extend_from_slice(b"\n")?;
    Ok(text)
}

/// The summary of so many checks, of which some came to what is expected. The error is out of memory.
pub(crate) fn summary(alloc: Global, all: usize, expected: usize) -> Result<Vec<u8>, AllocError>
    requires { expected ≤ all }
    ensures { IfOk result (λ v. v.items ≡ spec.summary all expected) }
{
    let mut text = Vec::new(alloc);
    push_number(&mut text, all)?;
    text.extend_from_slice(b" checks, ")?;
    push_number(&mut text, expected)?;
    text.extend_from_slice(b" ok, ")?;
    push_number(&mut text, all - expected)?;
    text.extend_from_slice(b" FAILED\n")?;
    Ok(text)
}
