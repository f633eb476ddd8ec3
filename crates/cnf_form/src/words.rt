//! The lines of a text, the words of a line, and the numbers that words are.
ghost use Rattle.std.specs.Prelude.{◌≡◌, ◌<◌, ◌≤◌, ◌-◌, [], ◌∷◌, ℕ, List, map, length, drop, slice_index, true, false, IfOk, IfSome, MatchOption, option_map};
ghost use Rattle.word_spec.specs.Texts.{is_blank, split_lines};
ghost use Rattle.clause_spec.specs.CertificateGrammar.{Integer, words_of, numbers_of};
ghost use Rattle.cnf_form.specs.Numbers.{capped};

use crate::number::{Number, integer};
use std::alloc::{AllocError, Global};

/// The first line of a text, and the text behind it, if there is a line.
pub fn next_line(text: &[u8]) -> Option<(&[u8], &[u8])>
    ensures lines { MatchOption result (split_lines text.now ≡ [])
        (λ parts. split_lines text.now ≡ parts.0.now ∷ split_lines parts.1.now) }
    ensures shorter { IfSome result (λ parts. length parts.1.now < length text.now) }
    ensures behind { IfSome result (λ parts. parts.1.now ≡ drop (length text.now - length parts.1.now) text.now) }
{
    for (i, byte) in text.iter().enumerate() {
        if *byte == b'\n' {
            return Some((&text[..i], &text[i + 1..]));
        }
    }
    if text.is_empty() {
        None
    } else {
        Some((text, &text[text.len()..]))
    }
}

/// Whether the byte is a space or a tab.
fn is_blank_byte(byte: u8) -> bool
    ensures { result ≡ is_blank byte }
{
    byte == b' ' || byte == b'\t'
}

/// The line from its first word on.
fn from_word(line: &[u8]) -> &[u8]
    ensures words { words_of result.now ≡ words_of line.now }
    ensures start { 0 < length result.now → is_blank (slice_index result.now 0) ≡ false }
    ensures shorter { length result.now ≤ length line.now }
{
    for (i, byte) in line.iter().enumerate() {
        if !is_blank_byte(*byte) {
            return &line[i..];
        }
    }
    &line[line.len()..]
}

/// The first word of a line, and the line behind it, if there is a word.
pub fn next_word(line: &[u8]) -> Option<(&[u8], &[u8])>
    ensures words { MatchOption result (words_of line.now ≡ []) (λ parts. words_of line.now ≡ parts.0.now ∷ words_of parts.1.now) }
    ensures shorter { IfSome result (λ parts. length parts.1.now < length line.now) }
{
    let rest = from_word(line);
    if rest.is_empty() {
        return None;
    }
    for (i, byte) in rest.iter().enumerate() {
        if is_blank_byte(*byte) {
            return Some((&rest[..i], &rest[i..]));
        }
    }
    Some((rest, &rest[rest.len()..]))
}

/// The numbers that the words of a line are, if each is one. A number above 2^62 is seen as 2^62 + 1.
pub fn numbers(alloc: Global, line: &[u8]) -> Result<Option<Vec<Number>>, AllocError>
    ensures { IfOk result (λ o. option_map (λ v. v.items) o ≡ option_map (map capped) (numbers_of (words_of line.now))) }
{
    let mut out = Vec::new(alloc);
    let mut rest = line;
    while let Some((word, behind)) = next_word(rest) {
        match integer(word) {
            None => return Ok(None),
            Some(number) => out.push(number)?,
        }
        rest = behind;
    }
    Ok(Some(out))
}
