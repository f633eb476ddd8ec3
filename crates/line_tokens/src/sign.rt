//! Operators and brackets.
ghost use Rattle.std.specs.Prelude.{◌≡◌, ◌≤◌, true, find, map, length, IfSome};
ghost use Rattle.std.specs.Option.{option_map};
ghost use Rattle.word_spec.specs.Tokens.{signs, begins_sign, ends_in_letter};
ghost use Rattle.line_tokens.specs.Tokens.{sign_text};

use crate::bytes::stops;

/// An operator or a bracket.
#[derive(Clone, Copy)]
pub enum Sign {
    /// `>>>`
    ShiftSigned,
    /// `<=u`
    AtMost,
    /// `>=u`
    AtLeast,
    /// `<=s`
    SignedAtMost,
    /// `>=s`
    SignedAtLeast,
    /// `<u`
    Below,
    /// `>u`
    Above,
    /// `<s`
    SignedBelow,
    /// `>s`
    SignedAbove,
    /// `<<`
    ShiftLeft,
    /// `>>`
    ShiftRight,
    /// `!=`
    NotEqual,
    /// `=`
    Equal,
    /// `|`
    BitOr,
    /// `^`
    BitXor,
    /// `&`
    BitAnd,
    /// `+`
    Plus,
    /// `-`
    Minus,
    /// `*`
    Times,
    /// `(`
    OpenRound,
    /// `)`
    CloseRound,
    /// `[`
    OpenSquare,
    /// `]`
    CloseSquare,
}

/// The signs, each before those that begin it.
const SIGNS: [Sign; 23] = [
    Sign::ShiftSigned,
    Sign::AtMost,
    Sign::AtLeast,
    Sign::SignedAtMost,
    Sign::SignedAtLeast,
    Sign::Below,
    Sign::Above,
    Sign::SignedBelow,
    Sign::SignedAbove,
    Sign::ShiftLeft,
    Sign::ShiftRight,
    Sign::NotEqual,
    Sign::Equal,
    Sign::BitOr,
    Sign::BitXor,
    Sign::BitAnd,
    Sign::Plus,
    Sign::Minus,
    Sign::Times,
    Sign::OpenRound,
    Sign::CloseRound,
    Sign::OpenSquare,
    Sign::CloseSquare,
];

impl Sign {
    /// Its text.
    pub fn text(self) -> &'static [u8]
        ensures { result.now ≡ sign_text self }
    {
        match self {
            Sign::ShiftSigned => b">>>",
            Sign::AtMost => b"<=u",
            Sign::AtLeast => b">=u",
            Sign::SignedAtMost => b"<=s",
            Sign::SignedAtLeast => b">=s",
            Sign::Below => b"<u",
            Sign::Above => b">u",
            Sign::SignedBelow => b"<s",
            Sign::SignedAbove => b">s",
            Sign::ShiftLeft => b"<<",
            Sign::ShiftRight => b">>",
            Sign::NotEqual => b"!=",
            Sign::Equal => b"=",
            Sign::BitOr => b"|",
            Sign::BitXor => b"^",
            Sign::BitAnd => b"&",
            Sign::Plus => b"+",
            Sign::Minus => b"-",
            Sign::Times => b"*",
            Sign::OpenRound => b"(",
            Sign::CloseRound => b")",
            Sign::OpenSquare => b"[",
            Sign::CloseSquare => b"]",
        }
    }
}

/// Whether a text ends in the letter of a comparison.
fn ends_in_letter(op: &[u8]) -> bool
    ensures { result ≡ ends_in_letter op.now }
{
    op.iter().any(|b| *b == b'u' || *b == b's')
}

/// Whether a text begins with a sign.
fn begins_sign(text: &[u8], sign: Sign) -> bool
    ensures test { result ≡ begins_sign text.now (sign_text sign) }
    ensures within { result ≡ true → length (sign_text sign) ≤ length text.now }
{
    let op = sign.text();
    if !text.starts_with(op) {
        return false;
    }
    !ends_in_letter(op) || stops(&text[op.len()..])
}

/// The first of some signs with which a text begins.
fn first_sign(signs: &[Sign], text: &[u8]) -> Option<Sign>
    ensures first { option_map sign_text result ≡ find (begins_sign text.now) (map sign_text signs.now) }
    ensures within { IfSome result (λ s. length (sign_text s) ≤ length text.now) }
{
    for sign in signs {
        if begins_sign(text, *sign) {
            return Some(*sign);
        }
    }
    None
}

/// The sign with which a text begins.
pub(crate) fn sign_at(text: &[u8]) -> Option<Sign>
    ensures sign { option_map sign_text result ≡ find (begins_sign text.now) signs }
    ensures within { IfSome result (λ s. length (sign_text s) ≤ length text.now) }
{
    first_sign(&SIGNS, text)
}
