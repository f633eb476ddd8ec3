//! A line whose forms are spelled as numbers.
ghost use Rattle.std.specs.Prelude.{ℕ, ◌≡◌, ◌≤◌, ◌<◌, ◌+◌, Err, IfOk, IfErr, drop, false, true, length, slice_index};
ghost use Rattle.note_template.specs.Templates.{behind, is_joining, spelled};
ghost use Rattle.note_template.specs.Views.{refusal_of};
ghost use Rattle.note_template.specs.Forms.{told_of};

use crate::bytes::goes_on_name;
use crate::fault::Refusal;
use crate::forms::spelled_form;
use crate::line_fault::LineFault;
use crate::printing::push_word;
use std::alloc::{AllocError, Global};
use symbol_table::SymbolTable;

/// Whether no form may begin behind a byte.
fn is_joining(byte: u8) -> bool
    ensures { result ≡ is_joining byte }
{
    byte == b'@' || goes_on_name(byte)
}

/// Appends the number of the form in front of a text, which stands behind its `@`, and says how many bytes the form has with the `@`.
fn push_form(
    alloc: Global,
    out: &mut Vec<u8>,
    symbols: &SymbolTable,
    joined: bool,
    text: &[u8],
) -> Result<Result<usize, Refusal>, AllocError>
    requires some { 0 < length text.now }
    requires form { slice_index text.now 0 ≡ 64 }
    ensures pushed { (column : ℕ) → IfOk result (λ r. IfOk r (λ n.
        behind out.old.items (spelled symbols.now joined 0 column text.now) ≡ behind out.new.items (spelled symbols.now true 0 (column + n) (drop n text.now)))) }
    ensures within { IfOk result (λ r. IfOk r (λ n. (1 ≤ n) × (n ≤ length text.now))) }
    ensures refused { (column : ℕ) → IfOk result (λ r. IfErr r (λ e.
        spelled symbols.now joined 0 column text.now ≡ Err (record { column = column; refusal = refusal_of e }))) }
{
    if joined {
        return Ok(Err(Refusal::WrongForm));
    }
    match spelled_form(alloc, symbols, &text[1..])? {
        Err(refusal) => Ok(Err(refusal)),
        Ok(form) => {
            push_word(out, form.number)?;
            Ok(Ok(form.count + 1))
        }
    }
}

/// Appends what stands for the front of a text, a form or a byte, and says how many bytes it has.
fn push_next(
    alloc: Global,
    out: &mut Vec<u8>,
    symbols: &SymbolTable,
    joined: bool,
    text: &[u8],
) -> Result<Result<usize, Refusal>, AllocError>
    requires { 0 < length text.now }
    ensures pushed { (column : ℕ) → IfOk result (λ r. IfOk r (λ n.
        behind out.old.items (spelled symbols.now joined 0 column text.now)
        ≡ behind out.new.items (spelled symbols.now (is_joining (slice_index text.now 0)) 0 (column + n) (drop n text.now)))) }
    ensures within { IfOk result (λ r. IfOk r (λ n. (1 ≤ n) × (n ≤ length text.now))) }
    ensures refused { (column : ℕ) → IfOk result (λ r. IfErr r (λ e.
        spelled symbols.now joined 0 column text.now ≡ Err (record { column = column; refusal = refusal_of e }))) }
{
    let first = text[0];
    if first == b'@' {
        let count = push_form(alloc, out, symbols, joined, text)?;
        return Ok(count);
    }
    out.push(first)?;
    Ok(Ok(1))
}

/// A text with a number in place of each form.
pub(crate) fn spell(
    alloc: Global,
    symbols: &SymbolTable,
    text: &[u8],
) -> Result<Result<Vec<u8>, LineFault>, AllocError>
    ensures { IfOk result (λ r. told_of r ≡ spelled symbols.now false 0 1 text.now) }
{
    let mut out = Vec::new(alloc);
    let mut joined = false;
    let mut at = 0;
    while at < text.len() {
        match push_next(alloc, &mut out, symbols, joined, &text[at..])? {
            Err(refusal) => {
                return Ok(Err(LineFault {
                    column: at + 1,
                    refusal,
                }));
            }
            Ok(count) => {
                joined = is_joining(text[at]);
                at += count;
            }
        }
    }
    Ok(Ok(out))
}
