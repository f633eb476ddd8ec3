//! The lines of a text, the words of a line, and the numbers that words say.
ghost use Rattle.std.specs.Prelude.{◌≡◌, ℕ, ◌+◌, ◌^◌, ◌≤◌, ◌<◌, List, [], ◌∷◌, length, map, take, IfOk, IfSome, IfNone};
ghost use Rattle.std.specs.List.{list_all, prefix_len};
ghost use Rattle.line_tokens.specs.Words.{is_other, hex_value};
ghost use Rattle.word_spec.specs.Texts.{split_lines, words_in, is_decimal, is_decimal_digit, is_hex_digit, decimal_word, hex_word, at_most};

use crate::bytes::{capped_value, digit_value, is_digit};
use std::alloc::{AllocError, Global};

/// How many bytes at the front of a text are before a byte.
fn count_before(end: u8, text: &[u8]) -> usize
    ensures count { result ≡ prefix_len (is_other end) text.now }
    ensures within { result ≤ length text.now }
{
    text.iter().take_while(|b| **b != end).count()
}

/// The first line of a text that isn't empty, without its line feed, and what stands behind the line feed; where the text has none, all of
/// it is the line and nothing stands behind.
pub fn first_line<'a>(text: &'a [u8]) -> (&'a [u8], &'a [u8])
    requires { 0 < length text.now }
    ensures line { split_lines text.now ≡ result.0.now ∷ split_lines result.1.now }
    ensures shorter { length result.1.now < length text.now }
{
    let count = count_before(b'\n', text);
    let end = text.len().min(count + 1);
    (&text[..count], &text[end..])
}

/// The first word of a line, and what stands behind the blank that ends it, if one does.
fn first_word<'a>(line: &'a [u8]) -> (&'a [u8], Option<&'a [u8]>)
    ensures last { IfNone result.1 (words_in line.now ≡ result.0.now ∷ []) }
    ensures more { IfSome result.1 (λ rest. words_in line.now ≡ result.0.now ∷ words_in rest.now) }
    ensures shorter { IfSome result.1 (λ rest. length rest.now < length line.now) }
{
    let count = count_before(b' ', line);
    if count == line.len() {
        return (&line[..count], None);
    }
    (&line[..count], Some(&line[count + 1..]))
}

/// The first eight words of a line, which one blank parts, and all of them where it has fewer: an empty line has one empty word. No line of
/// a state text has eight.
///
/// # Errors
///
/// Where memory runs out.
pub fn first_words<'a>(alloc: Global, line: &'a [u8]) -> Result<Vec<&'a [u8]>, AllocError>
    ensures { IfOk result (λ v. map (λ word. word.now) v.items ≡ take 8 (words_in line.now)) }
{
    let mut out = Vec::new(alloc);
    let mut rest = Some(line);
    while let Some(text) = rest {
        if out.len() == 8 {
            return Ok(out);
        }
        let (word, others) = first_word(text);
        out.push(word)?;
        rest = others;
    }
    Ok(out)
}

/// Whether a word is a decimal number: one or more digits, with no zero before another digit.
pub fn is_decimal(word: &[u8]) -> bool
    ensures { result ≡ is_decimal word.now }
{
    match word {
        [] => false,
        [b] => is_digit(*b),
        [b, ..] => *b > b'0' && are_digits(word),
    }
}

/// Whether all bytes are decimal digits.
fn are_digits(word: &[u8]) -> bool
    ensures { result ≡ list_all is_decimal_digit word.now }
{
    word.iter().all(|b| is_digit(*b))
}

/// The decimal number that a word says, if it is one and is not above a bound.
pub fn decimal_at_most(bound: u64, word: &[u8]) -> Option<u64>
    ensures value { result ≡ at_most bound (decimal_word word.now) }
    ensures within { IfSome result (λ v. v ≤ bound) }
{
    if !is_decimal(word) {
        return None;
    }
    let mut value = 0u64;
    for b in word {
        let more = value as u128 * 10 + digit_value(*b) as u128;
        if more > bound as u128 {
            return None;
        }
        value = more as u64;
    }
    Some(value)
}

/// Whether it is a hexadecimal digit in lower case.
fn is_hex_digit(b: u8) -> bool
    ensures { result ≡ is_hex_digit b }
{
    is_digit(b) || (b'a' <= b && b <= b'f')
}

/// The number that `0x` and exactly so many hexadecimal digits in lower case say, if the word is that; of at most eight digits.
pub fn hex_word(count: usize, word: &[u8]) -> Option<u32>
    requires { count ≤ 8 }
    ensures value { result ≡ hex_word count word.now }
    ensures below { IfSome result (λ v. v < 16 ^ count) }
{
    match word {
        [b'0', b'x', digits @ ..] => hex_digits(count, digits),
        _ => None,
    }
}

/// Whether all bytes are hexadecimal digits in lower case.
fn are_hex_digits(word: &[u8]) -> bool
    ensures { result ≡ list_all is_hex_digit word.now }
{
    word.iter().all(|b| is_hex_digit(*b))
}

/// The number that so many hexadecimal digits say.
fn hex_digits(count: usize, digits: &[u8]) -> Option<u32>
    requires { count ≤ 8 }
    ensures value { result ≡ hex_value count digits.now }
    ensures below { IfSome result (λ v. v < 16 ^ count) }
{
    if digits.len() != count || !are_hex_digits(digits) {
        return None;
    }
    Some(capped_value(16, digits) as u32)
}
