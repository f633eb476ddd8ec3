//! The tokens of a line.
ghost use Rattle.std.specs.Prelude.{◌≡◌, ℕ, ◌≤◌, ◌<◌, false, List, [], ◌∷◌, length, map, take, drop, IfOk, IfSome, IfNone, min, ◌^◌};
ghost use Rattle.std.specs.List.{prefix_len};
ghost use Rattle.std.specs.Option.{option_map};
ghost use Rattle.word_spec.specs.Tokens.{tokens_of, token_at, token_length, number_token, number_length, name_at};
ghost use Rattle.word_spec.specs.Texts.{is_blank};
ghost use Rattle.word_spec.specs.Tokens as grammar;
ghost use Rattle.line_tokens.specs.Tokens.{token_of, sign_text, capped, number_before};

use crate::bytes::{
    begins_name, begins_with_letter, capped_value, goes_on_name, is_blank, is_digit,
    is_hexadecimal, is_plain, run_length,
};
use crate::sign::{Sign, sign_at};
use std::alloc::{AllocError, Global};

/// A token of a line, whose bytes it borrows.
#[derive(Clone, Copy)]
pub enum Token<'a> {
    /// A number below 2^32.
    Number(u32),
    /// A number of 2^32 or more.
    TooLarge,
    /// A name or a word.
    Name(&'a [u8]),
    /// An operator or a bracket.
    Sign(Sign),
    /// A byte that may stand only in a comment.
    BadByte,
    /// Characters that begin no token, or a number with a letter on its end.
    BadText,
}

/// A number, which is 2^32 where it is that or more.
fn token_of_value<'a>(value: u64) -> Token<'a>
    requires { value ≤ 2 ^ 32 }
    ensures { token_of result ≡ grammar.NumberToken value }
{
    if value == 0x1_0000_0000 {
        return Token::TooLarge;
    }
    Token::Number(value as u32)
}

/// The number with which a text begins, and how many bytes it has.
fn number_at<'a>(text: &'a [u8]) -> (Token<'a>, usize)
    ensures token { token_of result.0 ≡ capped (number_token text.now) }
    ensures count { result.1 ≡ number_length text.now }
    ensures within { result.1 ≤ length text.now }
{
    if is_hexadecimal(text) {
        let digits = &text[2..];
        let count = run_length(16, digits);
        return (digits_token(16, digits, count), 2 + count);
    }
    let count = run_length(10, text);
    (digits_token(10, text, count), count)
}

/// The number of so many digits at the front of a text, which ends badly where a letter follows.
fn digits_token<'a>(base: u8, text: &[u8], count: usize) -> Token<'a>
    requires some { 1 ≤ base }
    requires few { base ≤ 16 }
    requires within { count ≤ length text.now }
    ensures { token_of result ≡ number_before base (take count text.now) (drop count text.now) }
{
    if begins_with_letter(&text[count..]) {
        return Token::BadText;
    }
    token_of_value(capped_value(base, &text[..count]))
}

/// The token at the front of a text whose first byte is given, and how many bytes it has.
fn token_at<'a>(first: u8, text: &'a [u8]) -> (Token<'a>, usize)
    requires { take 1 text.now ≡ first ∷ [] }
    ensures token { token_of result.0 ≡ capped (token_at first text.now) }
    ensures count { result.1 ≡ token_length first text.now }
    ensures some { 1 ≤ result.1 }
    ensures within { result.1 ≤ length text.now }
{
    if is_digit(first) {
        return number_at(text);
    }
    if begins_name(first) {
        let count = name_length(text);
        return (Token::Name(&text[..count]), count);
    }
    let sign = sign_at(text);
    let count = sign_length(sign);
    if !is_plain(first) {
        return (Token::BadByte, count);
    }
    (sign_token(sign), count)
}

/// The sign with which a text begins, if any.
fn sign_token<'a>(sign: Option<Sign>) -> Token<'a>
    ensures { token_of result ≡ grammar.sign_token (option_map sign_text sign) }
{
    match sign {
        None => Token::BadText,
        Some(sign) => Token::Sign(sign),
    }
}

/// How many bytes the sign has with which a text begins; where it begins with none, one byte is passed over.
fn sign_length(sign: Option<Sign>) -> usize
    ensures count { result ≡ grammar.sign_length (option_map sign_text sign) }
    ensures some { 1 ≤ result }
    ensures three { result ≤ 3 }
{
    match sign {
        None => 1,
        Some(sign) => sign.text().len(),
    }
}

/// How many bytes the name has with which a text begins.
fn name_length(text: &[u8]) -> usize
    ensures count { result ≡ length (name_at text.now) }
    ensures prefix { result ≡ prefix_len grammar.goes_on_name text.now }
    ensures within { result ≤ length text.now }
{
    text.iter().take_while(|b| goes_on_name(**b)).count()
}

/// The text behind the blanks and tabs at its front.
fn behind_blanks<'a>(text: &'a [u8]) -> &'a [u8]
    ensures same { tokens_of result.now ≡ tokens_of text.now }
    ensures within { length result.now ≤ length text.now }
    ensures none_blank { (b : ℕ) (rest : List ℕ) → result.now ≡ b ∷ rest → is_blank b ≡ false }
{
    let count = blanks(text);
    &text[count..]
}

/// How many blanks and tabs stand at the front of a text.
fn blanks(text: &[u8]) -> usize
    ensures count { result ≡ prefix_len is_blank text.now }
    ensures within { result ≤ length text.now }
{
    text.iter().take_while(|b| is_blank(**b)).count()
}

/// The next token of a line, and what stands behind it.
fn next_token<'a>(text: &'a [u8]) -> Option<(Token<'a>, &'a [u8])>
    ensures some { IfSome result (λ p. map capped (tokens_of text.now) ≡ token_of p.0 ∷ map capped (tokens_of p.1.now)) }
    ensures shorter { IfSome result (λ p. length p.1.now < length text.now) }
    ensures none { IfNone result (map capped (tokens_of text.now) ≡ []) }
{
    let text = behind_blanks(text);
    let Some((first, _)) = text.split_first() else {
        return None;
    };
    if *first == b'#' {
        return None;
    }
    let (token, count) = token_at(*first, text);
    Some((token, &text[count..]))
}

/// The tokens of a line, in order, up to its comment.
///
/// # Errors
///
/// Where memory runs out.
pub fn tokens<'a>(alloc: Global, line: &'a [u8]) -> Result<Vec<Token<'a>>, AllocError>
    ensures { IfOk result (λ v. map token_of v.items ≡ map capped (tokens_of line.now)) }
{
    let mut out = Vec::new(alloc);
    let mut rest = line;
    while let Some((token, others)) = next_token(rest) {
        out.push(token)?;
        rest = others;
    }
    Ok(out)
}
