//! Cuts the text of an answer into tokens.
ghost use Rattle.std.specs.Prelude.{◌≡◌, ◌==◌, ◌<◌, ◌≤◌, ◌+◌, ◌^◌, ◌∷◌, ℕ, List, [], length, slice_index, true, false, MatchOption};
ghost use Rattle.model_spec.specs.ModelText.{Between, is_space, is_of_word, line_behind, tokens_from};
ghost use Rattle.model_text.specs.Scans.{blank_mode, is_apart, IsFirst};

use crate::token::{Placed, Token};

/// What stands behind a token, and the number of the line on which that begins.
#[derive(Clone, Copy)]
pub(crate) struct Tail<'a> {
    pub(crate) text: &'a [u8],
    pub(crate) line: u64,
}

/// Whether a byte is a blank, a tab, a carriage return or a line feed.
fn is_space(byte: u8) -> bool
    ensures { result ≡ is_space byte }
{
    byte == b' ' || byte == b'\t' || byte == b'\r' || byte == b'\n'
}

/// Whether a byte that can be printed is none of a word.
fn is_apart(byte: u8) -> bool
    ensures { result ≡ is_apart byte }
{
    matches!(
        byte,
        b'"' | b'\'' | b'(' | b')' | b',' | b';' | b'[' | b'\\' | b']' | b'`' | b'{' | b'|' | b'}'
    )
}

/// Whether a byte is one of a word.
fn is_of_word(byte: u8) -> bool
    ensures { result ≡ is_of_word byte }
{
    b'!' <= byte && byte <= b'~' && !is_apart(byte)
}

/// The number of the line behind a byte.
fn line_behind(line: u64, byte: u8) -> u64
    requires { line + 1 < 2 ^ 64 }
    ensures { result ≡ line_behind line byte }
{
    if byte == b'\n' { line + 1 } else { line }
}

/// Whether a comment goes on behind a byte that stands between tokens or in a comment; nothing where the byte begins a token or is one.
fn behind_blank(comment: bool, byte: u8) -> Option<bool>
    ensures { MatchOption result ((comment ≡ false) × (is_space byte ≡ false) × ((byte == 59) ≡ false))
        (λ after. (n : ℕ) (rest : List ℕ) →
        tokens_from n (blank_mode comment) (byte ∷ rest) ≡ tokens_from (line_behind n byte) (blank_mode after) rest) }
{
    if comment {
        return Some(byte != b'\n');
    }
    if byte == b';' {
        return Some(true);
    }
    if is_space(byte) { Some(false) } else { None }
}

/// The text from its first token on: what stands behind blanks and comments.
fn from_token<'a>(text: &'a [u8], line: u64) -> Tail<'a>
    requires { line + length text.now < 2 ^ 64 }
    ensures tokens { tokens_from result.line Between result.text.now ≡ tokens_from line Between text.now }
    ensures start { 0 < length result.text.now → (is_space (slice_index result.text.now 0) ≡ false) × ((slice_index result.text.now 0 == 59) ≡ false) }
    ensures room { result.line + length result.text.now ≤ line + length text.now }
    ensures shorter { length result.text.now ≤ length text.now }
{
    let mut at = line;
    let mut comment = false;
    for (i, byte) in text.iter().enumerate() {
        match behind_blank(comment, *byte) {
            None => {
                return Tail {
                    text: &text[i..],
                    line: at,
                };
            }
            Some(after) => comment = after,
        }
        at = line_behind(at, *byte);
    }
    Tail {
        text: &text[text.len()..],
        line: at,
    }
}

/// The word that stands first in a text.
fn word<'a>(text: &'a [u8], line: u64) -> (Placed<'a>, Tail<'a>)
    requires some { 0 < length text.now }
    requires first { is_of_word (slice_index text.now 0) ≡ true }
    ensures { IsFirst line text.now result.0 result.1 }
{
    for (i, byte) in text.iter().enumerate() {
        if !is_of_word(*byte) {
            let token = Token::Word(&text[..i]);
            let tail = Tail {
                text: &text[i..],
                line,
            };
            return (Placed { line, token }, tail);
        }
    }
    let token = Token::Word(text);
    let tail = Tail {
        text: &text[text.len()..],
        line,
    };
    (Placed { line, token }, tail)
}

/// The quoted symbol of which this text stands behind the first bar; it is no token where the second bar lacks.
fn quoted<'a>(text: &'a [u8], line: u64) -> (Placed<'a>, Tail<'a>)
    requires { line + length text.now < 2 ^ 64 }
    ensures { IsFirst line (124 ∷ text.now) result.0 result.1 }
{
    let mut at = line;
    for (i, byte) in text.iter().enumerate() {
        if *byte == b'|' {
            let token = Token::Quoted(&text[..i]);
            let tail = Tail {
                text: &text[i + 1..],
                line: at,
            };
            return (Placed { line, token }, tail);
        }
        at = line_behind(at, *byte);
    }
    let tail = Tail {
        text: &text[text.len()..],
        line: at,
    };
    let token = Token::Bad;
    (Placed { line, token }, tail)
}

/// The string of which this text stands behind the first quotation mark; it is no token where the last mark lacks. Two marks stand for one.
fn string<'a>(text: &'a [u8], line: u64) -> (Placed<'a>, Tail<'a>)
    requires { line + length text.now < 2 ^ 64 }
    ensures { IsFirst line (34 ∷ text.now) result.0 result.1 }
{
    let mut at = line;
    let mut marked = false;
    for (i, byte) in text.iter().enumerate() {
        if marked && *byte != b'"' {
            let tail = Tail {
                text: &text[i..],
                line: at,
            };
            let token = Token::Text;
            return (Placed { line, token }, tail);
        }
        marked = !marked && *byte == b'"';
        at = line_behind(at, *byte);
    }
    let tail = Tail {
        text: &text[text.len()..],
        line: at,
    };
    let token = if marked { Token::Text } else { Token::Bad };
    (Placed { line, token }, tail)
}

/// The token that the first byte of a text is by itself, or begins.
fn first<'a>(text: &'a [u8], line: u64) -> (Placed<'a>, Tail<'a>)
    requires room { line + length text.now < 2 ^ 64 }
    requires some { 0 < length text.now }
    requires start { (is_space (slice_index text.now 0) ≡ false) × ((slice_index text.now 0 == 59) ≡ false) }
    ensures { IsFirst line text.now result.0 result.1 }
{
    let byte = text[0];
    if is_of_word(byte) {
        return word(text, line);
    }
    let rest = &text[1..];
    if byte == b'|' {
        return quoted(rest, line);
    }
    if byte == b'"' {
        return string(rest, line);
    }
    let token = if byte == b'(' {
        Token::Open
    } else if byte == b')' {
        Token::Close
    } else {
        Token::Bad
    };
    (Placed { line, token }, Tail { text: rest, line })
}

/// The first token of a text that begins on a line, and what stands behind it, if there is a token. It takes no longer than the bytes that are passed.
pub(crate) fn next_token<'a>(text: &'a [u8], line: u64) -> Option<(Placed<'a>, Tail<'a>)>
    requires { line + length text.now < 2 ^ 64 }
    ensures { MatchOption result (tokens_from line Between text.now ≡ []) (λ r. IsFirst line text.now r.0 r.1) }
{
    let tail = from_token(text, line);
    if tail.text.is_empty() {
        return None;
    }
    let (placed, behind) = first(tail.text, tail.line);
    Some((placed, behind))
}
