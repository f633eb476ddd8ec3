//! The lines of checks as JSON objects. What an `Err` of a function that appends leaves is open.
ghost use Rattle.std.specs.Prelude.{◌≡◌, ◌≤◌, ◌++◌, IfOk, OnOk};
ghost use Rattle.std.specs.List.{list_all};
ghost use Rattle.word_spec.specs.Texts.{hex_digit};
ghost use Rattle.word_spec.specs.Tokens.{is_digit};
ghost use Rattle.note_check.specs.Warnings.{warning_text};
ghost use Rattle.suite_report.specs.Objects as spec;
ghost use Rattle.suite_report.specs.Views.{told_of};

use crate::judging::{begins_with, is_expected};
use crate::printing::{first_line, push_number};
use crate::told::Told;
use note_check::{Warning, push_warning};
use std::alloc::{AllocError, Global};

/// A hexadecimal digit in lower case.
fn hex_digit(d: u8) -> u8
    requires { d ≤ 15 }
    ensures { result ≡ hex_digit d }
{
    if d < 10 { 48 + d } else { 87 + d }
}

/// Appends a byte of a string.
fn push_byte(out: &mut Vec<u8>, byte: u8) -> Result<(), AllocError>
    ensures { OnOk result (out.new.items ≡ out.old.items ++ spec.json_byte byte) }
{
    if byte == b'"' {
        out.extend_from_slice(b"\\\"")?;
        return Ok(());
    }
    if byte == b'\\' {
        out.extend_from_slice(b"\\\\")?;
        return Ok(());
    }
    if byte < 32 {
        out.extend_from_slice(b"\\u00")?;
        out.push(hex_digit(byte / 16))?;
        out.push(hex_digit(byte % 16))?;
        return Ok(());
    }
    out.push(byte)?;
    Ok(())
}

/// Appends the bytes of a string.
fn push_bytes(out: &mut Vec<u8>, text: &[u8]) -> Result<(), AllocError>
    ensures { OnOk result (out.new.items ≡ out.old.items ++ spec.json_bytes text.now) }
{
    for byte in text {
        push_byte(out, *byte)?;
    }
    Ok(())
}

/// Appends a string.
fn push_json(out: &mut Vec<u8>, text: &[u8]) -> Result<(), AllocError>
    ensures { OnOk result (out.new.items ≡ out.old.items ++ spec.json_text text.now) }
{
    out.extend_from_slice(b"\"")?;
    push_bytes(out, text)?;
    out.extend_from_slice(b"\"")?;
    Ok(())
}

/// The word in front of a text.
fn first_word(text: &[u8]) -> &[u8]
    ensures { result.now ≡ spec.first_word text.now }
{
    for (i, byte) in text.iter().enumerate() {
        if *byte == b' ' {
            return &text[..i];
        }
    }
    text
}

/// What stands behind the first blank of a text.
fn behind_word(text: &[u8]) -> &[u8]
    ensures { result.now ≡ spec.behind_word text.now }
{
    for (i, byte) in text.iter().enumerate() {
        if *byte == b' ' {
            return &text[i + 1..];
        }
    }
    b""
}

/// The word behind the first ` at `, or none.
fn place_word(text: &[u8]) -> &[u8]
    ensures { result.now ≡ spec.place_word text.now }
{
    for i in 0..text.len() {
        let rest = &text[i..];
        if rest.starts_with(b" at ") {
            return first_word(&rest[4..]);
        }
    }
    b""
}

/// The event of a report that says that a function fails, or none.
fn event_word(report: &[u8]) -> &[u8]
    ensures { result.now ≡ spec.event_word report.now }
{
    if begins_with(b"fails", report) {
        return first_word(behind_word(report));
    }
    b""
}

/// The word behind that event, which may be the number of a line, or none.
fn line_word(report: &[u8]) -> &[u8]
    ensures { result.now ≡ spec.line_word report.now }
{
    if begins_with(b"fails", report) {
        return first_word(behind_word(behind_word(report)));
    }
    b""
}

/// Appends a word as a string, or null where there is none.
fn push_word(out: &mut Vec<u8>, word: &[u8]) -> Result<(), AllocError>
    ensures { OnOk result (out.new.items ≡ out.old.items ++ spec.word_or_null word.now) }
{
    if word.is_empty() {
        out.extend_from_slice(b"null")?;
        return Ok(());
    }
    push_json(out, word)?;
    Ok(())
}

/// Whether a text has digits alone.
fn are_digits(text: &[u8]) -> bool
    ensures { result ≡ list_all is_digit text.now }
{
    for byte in text {
        if *byte < b'0' || *byte > b'9' {
            return false;
        }
    }
    true
}

/// Appends a word of digits as a number, or null where there is none.
fn push_digits(out: &mut Vec<u8>, word: &[u8]) -> Result<(), AllocError>
    ensures { OnOk result (out.new.items ≡ out.old.items ++ spec.number_or_null word.now) }
{
    if word.is_empty() || !are_digits(word) {
        out.extend_from_slice(b"null")?;
        return Ok(());
    }
    out.extend_from_slice(word)?;
    Ok(())
}

/// Appends a truth.
fn push_truth(out: &mut Vec<u8>, truth: bool) -> Result<(), AllocError>
    ensures { OnOk result (out.new.items ≡ out.old.items ++ spec.truth_text truth) }
{
    if truth {
        out.extend_from_slice(b"true")?;
        return Ok(());
    }
    out.extend_from_slice(b"false")?;
    Ok(())
}

/// Appends what a warning says as a string.
fn push_said(out: &mut Vec<u8>, alloc: Global, warning: Warning) -> Result<(), AllocError>
    ensures { OnOk result (out.new.items ≡ out.old.items ++ spec.json_text (warning_text warning)) }
{
    let mut text = Vec::new(alloc);
    push_warning(alloc, &mut text, warning)?;
    push_json(out, &text)?;
    Ok(())
}

/// Appends warnings as strings, each behind a comma.
fn push_more(out: &mut Vec<u8>, alloc: Global, warnings: &[Warning]) -> Result<(), AllocError>
    ensures { OnOk result (out.new.items ≡ out.old.items ++ spec.json_more warnings.now) }
{
    for warning in warnings {
        out.extend_from_slice(b",")?;
        push_said(out, alloc, *warning)?;
    }
    Ok(())
}

/// Appends warnings as strings, with a comma between two.
fn push_list(out: &mut Vec<u8>, alloc: Global, warnings: &[Warning]) -> Result<(), AllocError>
    ensures { OnOk result (out.new.items ≡ out.old.items ++ spec.json_warnings warnings.now) }
{
    let Some((first, rest)) = warnings.split_first() else {
        return Ok(());
    };
    push_said(out, alloc, *first)?;
    push_more(out, alloc, rest)?;
    Ok(())
}

/// Appends the verdict and the event of a report.
fn push_verdict(out: &mut Vec<u8>, report: &[u8]) -> Result<(), AllocError>
    ensures { OnOk result (out.new.items ≡ out.old.items ++ spec.json_verdict report.now) }
{
    out.extend_from_slice(b",\"verdict\":")?;
    push_word(out, first_word(report))?;
    out.extend_from_slice(b",\"event\":")?;
    push_word(out, event_word(report))?;
    Ok(())
}

/// Appends the line and the address of a report.
fn push_place(out: &mut Vec<u8>, report: &[u8]) -> Result<(), AllocError>
    ensures { OnOk result (out.new.items ≡ out.old.items ++ spec.json_place report.now) }
{
    out.extend_from_slice(b",\"line\":")?;
    push_digits(out, line_word(report))?;
    out.extend_from_slice(b",\"address\":")?;
    push_word(out, place_word(report))?;
    Ok(())
}

/// Appends what the first line of a report says.
fn push_report(out: &mut Vec<u8>, report: &[u8]) -> Result<(), AllocError>
    ensures { OnOk result (out.new.items ≡ out.old.items ++ spec.json_report report.now) }
{
    push_verdict(out, report)?;
    push_place(out, report)?;
    out.extend_from_slice(b",\"report\":")?;
    push_json(out, report)?;
    Ok(())
}

/// Appends the name of a check, what is expected of it, and whether it came to that with which status.
fn push_head(out: &mut Vec<u8>, told: &Told<'_>) -> Result<(), AllocError>
    ensures { OnOk result (out.new.items ≡ out.old.items ++ spec.json_head (told_of told.now)) }
{
    out.extend_from_slice(b"{\"name\":")?;
    push_json(out, told.name.as_bytes())?;
    out.extend_from_slice(b",\"expect\":")?;
    push_json(out, told.expect.as_bytes())?;
    out.extend_from_slice(b",\"ok\":")?;
    push_truth(out, is_expected(told))?;
    out.extend_from_slice(b",\"status\":")?;
    push_number(out, told.status as usize)?;
    Ok(())
}

/// The line of a check as a JSON object. The error is out of memory.
pub(crate) fn json_line(alloc: Global, told: &Told<'_>) -> Result<Vec<u8>, AllocError>
    ensures { IfOk result (λ v. v.items ≡ spec.json_line (told_of told.now)) }
{
    let mut text = Vec::new(alloc);
    push_head(&mut text, told)?;
    push_report(&mut text, first_line(told.report))?;
    text.extend_from_slice(b",\"warnings\":[")?;
    push_list(&mut text, alloc, told.warnings)?;
    text.extend_from_slice(b"]}\n")?;
    Ok(text)
}
