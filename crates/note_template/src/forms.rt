//! The forms of a template that stand for numbers.
ghost use Rattle.std.specs.Prelude.{ℕ, ◌≡◌, ◌≤◌, ◌<◌, ◌+◌, ◌^◌, ◌&&◌, List, Result, Err, IfOk, IfErr, IfSome, IfNone, drop, length, true, false};
ghost use Rattle.std.specs.Option.{option_map};
ghost use Rattle.std.specs.Str.Lossy.{utf8_lossy};
ghost use Rattle.word_spec.specs.Texts.{word_text};
ghost use Rattle.word_spec.specs.Tokens.{name_at};
ghost use Rattle.symbol_table.specs.Founds.{found_of};
ghost use Rattle.note_template.specs.Templates.{Fault, begins, begins_number, behind, form_at, form_with, number_of, replaced, size_form, sole_number, sum_form, tokens_in};
ghost use Rattle.note_template.specs.Templates as templates;
ghost use Rattle.note_template.specs.Views.{refusal_of};
ghost use Rattle.note_template.specs.Forms.{form_of, number_told};

use crate::bytes::{begins_number, behind_byte, is_text, split_name, stops};
use crate::fault::Refusal;
use crate::form::Form;
use line_tokens::{Token, tokens};
use std::alloc::{AllocError, Global};
use symbol_table::{Found, SymbolTable};

/// The number that is the one token of a text.
fn sole_number(alloc: Global, text: &[u8]) -> Result<Option<u32>, AllocError>
    ensures { IfOk result (λ o. o ≡ sole_number (tokens_in text.now)) }
{
    let found = tokens(alloc, text)?;
    let Some((Token::Number(number), rest)) = found.split_first() else {
        return Ok(None);
    };
    if !rest.is_empty() {
        return Ok(None);
    }
    Ok(Some(*number))
}

/// The form of a name and a number, by the word behind the sign.
fn sum_form<'a>(
    alloc: Global,
    name: &'a [u8],
    is_plus: bool,
    word: &[u8],
) -> Result<Option<Form<'a>>, AllocError>
    requires { length name.now + 1 + length word.now < 2 ^ 64 }
    ensures form { IfOk result (λ o. option_map form_of o ≡ sum_form name.now is_plus word.now) }
    ensures count { IfOk result (λ o. IfSome o (λ f. f.count ≡ length name.now + 1 + length word.now)) }
{
    let Some(number) = sole_number(alloc, word)? else {
        return Ok(None);
    };
    let added = if is_plus {
        number as u64
    } else {
        0x1_0000_0000 - number as u64
    };
    Ok(Some(Form {
        name,
        is_size: false,
        added,
        count: name.len() + 1 + word.len(),
    }))
}

/// The form of a size, by what stands behind its bracket.
fn size_form<'a>(text: &'a [u8]) -> Option<Form<'a>>
    ensures form { option_map form_of result ≡ size_form (name_at text.now) (drop (length (name_at text.now)) text.now) }
    ensures within { IfSome result (λ f. f.count ≤ length text.now + 5) }
{
    let (name, rest) = split_name(text);
    if name.is_empty() {
        return None;
    }
    let after = behind_byte(b')', rest)?;
    if !stops(after) {
        return None;
    }
    Some(Form {
        name,
        is_size: true,
        added: 0,
        count: name.len() + 6,
    })
}

/// The name behind a sign's byte, where a digit follows the sign.
fn number_behind<'a>(sign: u8, text: &'a [u8]) -> Option<&'a [u8]>
    ensures some { IfSome result (λ word. (begins sign text.now && begins_number (drop 1 text.now) ≡ true) × (word.now ≡ name_at (drop 1 text.now))) }
    ensures shorter { IfSome result (λ word. length word.now + 1 ≤ length text.now) }
    ensures none { IfNone result (begins sign text.now && begins_number (drop 1 text.now) ≡ false) }
{
    let rest = behind_byte(sign, text)?;
    if !begins_number(rest) {
        return None;
    }
    let (word, _) = split_name(rest);
    Some(word)
}

/// The form of a name, by what stands behind it.
fn form_with<'a>(
    alloc: Global,
    name: &'a [u8],
    rest: &'a [u8],
) -> Result<Option<Form<'a>>, AllocError>
    requires { length name.now + length rest.now < 2 ^ 63 }
    ensures form { IfOk result (λ o. option_map form_of o ≡ form_with name.now rest.now) }
    ensures within { IfOk result (λ o. IfSome o (λ f. (1 ≤ f.count) × (f.count ≤ length name.now + length rest.now))) }
{
    if name.is_empty() {
        return Ok(None);
    }
    if is_text(name, b"size") {
        if let Some(behind) = behind_byte(b'(', rest) {
            return Ok(size_form(behind));
        }
    }
    if let Some(word) = number_behind(b'+', rest) {
        let form = sum_form(alloc, name, true, word)?;
        return Ok(form);
    }
    if let Some(word) = number_behind(b'-', rest) {
        let form = sum_form(alloc, name, false, word)?;
        return Ok(form);
    }
    Ok(Some(Form {
        name,
        is_size: false,
        added: 0,
        count: name.len(),
    }))
}

/// The form in front of a text.
fn form_at<'a>(alloc: Global, text: &'a [u8]) -> Result<Option<Form<'a>>, AllocError>
    requires { length text.now < 2 ^ 63 }
    ensures form { IfOk result (λ o. option_map form_of o ≡ form_at text.now) }
    ensures within { IfOk result (λ o. IfSome o (λ f. (1 ≤ f.count) × (f.count ≤ length text.now))) }
{
    let (name, rest) = split_name(text);
    let form = form_with(alloc, name, rest)?;
    Ok(form)
}

/// That no symbol has a name, with the nearest name.
pub(crate) fn unknown_symbol(alloc: Global, nearest: Option<&[u8]>) -> Result<Refusal, AllocError>
    ensures { IfOk result (λ r. refusal_of r ≡ templates.UnknownSymbol (option_map utf8_lossy (option_map (λ n. n.now) nearest.entry))) }
{
    match nearest {
        None => Ok(Refusal::UnknownSymbol { nearest: None }),
        Some(name) => {
            let text = String::from_utf8_lossy(alloc, name)?;
            Ok(Refusal::UnknownSymbol {
                nearest: Some(text),
            })
        }
    }
}

/// The number of a form, by what its symbol is.
fn number_of(alloc: Global, form: Form, found: Found) -> Result<Result<u32, Refusal>, AllocError>
    ensures { IfOk result (λ r. number_told r ≡ number_of (form_of form.entry) (found_of found.entry)) }
{
    match found {
        Found::Missing(nearest) => {
            let refusal = unknown_symbol(alloc, nearest)?;
            Ok(Err(refusal))
        }
        Found::Ambiguous => Ok(Err(Refusal::AmbiguousSymbol)),
        Found::One { value, size } => {
            if form.is_size {
                return Ok(Ok(size));
            }
            let sum = (value as u64 + form.added) % 0x1_0000_0000;
            Ok(Ok(sum as u32))
        }
    }
}

/// A form's number, and how many bytes the form has.
#[derive(Clone, Copy)]
pub(crate) struct Spelled {
    pub(crate) number: u32,
    pub(crate) count: usize,
}

/// The number of the form in front of a text, or why there is none.
pub(crate) fn spelled_form(
    alloc: Global,
    symbols: &SymbolTable,
    text: &[u8],
) -> Result<Result<Spelled, Refusal>, AllocError>
    requires { length text.now < 2 ^ 63 }
    ensures some { (column : ℕ) (rest : ℕ → Result (List ℕ) Fault) → IfOk result (λ r. IfOk r (λ s.
        replaced symbols.now false column (form_at text.now) rest ≡ behind (word_text s.number) (rest s.count))) }
    ensures within { IfOk result (λ r. IfOk r (λ s. (1 ≤ s.count) × (s.count ≤ length text.now))) }
    ensures none { (column : ℕ) (rest : ℕ → Result (List ℕ) Fault) → IfOk result (λ r. IfErr r (λ e.
        replaced symbols.now false column (form_at text.now) rest ≡ Err (record { column = column; refusal = refusal_of e }))) }
{
    let Some(form) = form_at(alloc, text)? else {
        return Ok(Err(Refusal::WrongForm));
    };
    match number_of(alloc, form, symbols.find(form.name))? {
        Err(refusal) => Ok(Err(refusal)),
        Ok(number) => Ok(Ok(Spelled {
            number,
            count: form.count,
        })),
    }
}
