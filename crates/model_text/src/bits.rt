//! Words of bits: `#x` and digits, `#b` and digits, or `(_ bvN width)`.
ghost use Rattle.std.specs.Prelude.{◌≡◌, is_some};
ghost use Rattle.std.specs.Option.{option_map};
ghost use Rattle.word_spec.specs.Texts.{decimal_word};
ghost use Rattle.model_text.specs.declared.bits.Bits.{Bits as BitsRead};
ghost use Rattle.model_text.specs.Bits.{capped, capped_bits, literal, literal_of, bv_number, numeral, bits_next, bits_traced, is_whole};
ghost use Rattle.model_text.specs.Tokens.{token_of};

use crate::digits::{binary_digits, hex_digits};
use crate::token::Token;
use line_tokens::{decimal_at_most, is_decimal};

/// The number that stands for all that have more than 32 bits.
pub(crate) const CAP: u64 = 1 << 32;

/// How many bits a word has, and its value; each is seen as 2^32 where it is as large or larger.
#[derive(Clone, Copy)]
pub(crate) struct Bits {
    pub(crate) width: u64,
    pub(crate) number: u64,
}

/// Where the reading of a word stands.
#[derive(Clone, Copy)]
pub(crate) enum BitsPlace {
    /// Before its first token.
    Wanted,
    /// Behind `(`.
    Opened,
    /// Behind `(_`.
    Number,
    /// Behind `(_ bvN`.
    Width,
    /// Before the closing bracket.
    Close,
    /// Behind its last token.
    Whole,
}

/// The word that a token is by itself.
pub(crate) fn literal(token: Token<'_>) -> Option<Bits>
    ensures { result ≡ option_map capped_bits (literal (token_of token.entry)) }
{
    match token {
        Token::Word(word) => literal_of(word),
        _ => None,
    }
}

/// Whether a token is a word by itself.
pub(crate) fn is_literal(token: Token<'_>) -> bool
    ensures { result ≡ is_some (literal (token_of token.entry)) }
{
    literal(token).is_some()
}

/// The word of `#x` or `#b` and digits.
fn literal_of(word: &[u8]) -> Option<Bits>
    ensures { result ≡ option_map capped_bits (literal_of word.now) }
{
    match word {
        [b'#', b'x', digits @ ..] => {
            if digits.is_empty() {
                return None;
            }
            let number = hex_digits(digits)?;
            let width = ((digits.len() as u64).min(CAP) * 4).min(CAP);
            Some(Bits { width, number })
        }
        [b'#', b'b', digits @ ..] => {
            if digits.is_empty() {
                return None;
            }
            let number = binary_digits(digits)?;
            let width = (digits.len() as u64).min(CAP);
            Some(Bits { width, number })
        }
        _ => None,
    }
}

/// The number that decimal digits say.
fn decimal(digits: &[u8]) -> Option<u64>
    ensures { result ≡ option_map capped (decimal_word digits.now) }
{
    if !is_decimal(digits) {
        return None;
    }
    match decimal_at_most(CAP - 1, digits) {
        Some(number) => Some(number),
        None => Some(CAP),
    }
}

/// The number of a token `bvN`.
fn bv_number(token: Token<'_>) -> Option<u64>
    ensures { result ≡ option_map capped (bv_number (token_of token.entry)) }
{
    match token {
        Token::Word([b'b', b'v', digits @ ..]) => decimal(digits),
        _ => None,
    }
}

/// The number that a token says.
fn numeral(token: Token<'_>) -> Option<u64>
    ensures { result ≡ option_map capped (numeral (token_of token.entry)) }
{
    match token {
        Token::Word(digits) => decimal(digits),
        _ => None,
    }
}

impl BitsPlace {
    /// Whether a token is the last of a word.
    pub(crate) fn is_last(self, token: Token<'_>) -> bool
        ensures { result ≡ is_whole (bits_next self (token_of token.entry)) }
    {
        matches!(self.next(token), Some(BitsPlace::Whole))
    }

    /// Where the reading stands behind one more token; nothing where the token can't stand there.
    pub(crate) fn next(self, token: Token<'_>) -> Option<BitsPlace>
        ensures { result ≡ bits_next self (token_of token.entry) }
    {
        match self {
            BitsPlace::Wanted => {
                if token.is_open() {
                    return Some(BitsPlace::Opened);
                }
                is_literal(token).then_some(BitsPlace::Whole)
            }
            BitsPlace::Opened => token.is_word(b"_").then_some(BitsPlace::Number),
            BitsPlace::Number => bv_number(token).is_some().then_some(BitsPlace::Width),
            BitsPlace::Width => numeral(token).is_some().then_some(BitsPlace::Close),
            BitsPlace::Close => token.is_close().then_some(BitsPlace::Whole),
            BitsPlace::Whole => None,
        }
    }
}

impl Bits {
    /// What is known of a word behind one more token, which can stand there.
    pub(crate) fn behind(self, at: BitsPlace, token: Token<'_>) -> Bits
        ensures { (b : BitsRead) → self ≡ capped_bits b → result ≡ capped_bits (bits_traced at (token_of token.entry) b) }
    {
        match at {
            BitsPlace::Wanted => literal(token).unwrap_or(self),
            BitsPlace::Number => Bits {
                number: bv_number(token).unwrap_or(self.number),
                width: self.width,
            },
            BitsPlace::Width => Bits {
                number: self.number,
                width: numeral(token).unwrap_or(self.width),
            },
            _ => self,
        }
    }
}
