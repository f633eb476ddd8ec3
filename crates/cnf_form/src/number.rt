//! Whole numbers of a text.
ghost use Rattle.std.specs.Prelude.{◌≡◌, ◌<◌, ◌≤◌, ◌+◌, ◌^◌, ℕ, true, false, min, IfOk, MatchOption, option_map};
ghost use Rattle.std.specs.Char.{digit_value};
ghost use Rattle.std.specs.Str.Parse.{digits_value};
ghost use Rattle.word_spec.specs.Texts.{are_digits, is_digit_of};
ghost use Rattle.clause_spec.specs.CertificateGrammar.{integer_of, is_zero};
ghost use Rattle.cnf_form.specs.Numbers.{capped};

use std::marker::Model;

/// One more than the greatest number that a log has. It stands for each number that is as large.
const CAP: u64 = (1 << 62) + 1;

/// A whole number: its absolute value, and whether it is below 0. Contracts see it as the integer.
#[derive(Clone, Copy)]
pub struct Number {
    negative: bool,
    size: u64,
}

impl Model for Number {
    ghost use Rattle.clause_spec.specs.CertificateGrammar.{Integer};

    ghost Value = { Integer };

    ghost view = { λ n. record { negative = n.negative; size = n.size } };

    ghost inverse = { λ n. record { negative = n.negative; size = n.size } };
}

impl Number {
    /// Whether it is below 0.
    pub fn is_negative(self) -> bool
        ensures { result ≡ self.negative }
    {
        self.negative
    }

    /// Its absolute value.
    pub fn size(self) -> u64
        ensures value { result ≡ self.size }
        ensures range { result < 2 ^ 64 }
    {
        self.size
    }

    /// Whether it is 0, which ends a list.
    pub fn is_zero(self) -> bool
        ensures { result ≡ is_zero self }
    {
        self.size == 0
    }
}

/// The value of a decimal digit.
fn digit(byte: u8) -> Option<u64>
    ensures { MatchOption result (is_digit_of 10 byte ≡ false) (λ d. (is_digit_of 10 byte ≡ true) × (digit_value byte ≡ d) × (d < 10)) }
{
    if b'0' <= byte && byte <= b'9' {
        Some((byte - b'0') as u64)
    } else {
        None
    }
}

/// The number of decimal digits, of which there is at least one; `CAP` where it is as large or larger.
pub(crate) fn digits_size(digits: &[u8]) -> Option<u64>
    ensures { MatchOption result (are_digits 10 digits.now ≡ false)
        (λ n. (are_digits 10 digits.now ≡ true) × (n ≡ min (digits_value 10 digits.now) (2 ^ 62 + 1))) }
{
    if digits.is_empty() {
        return None;
    }
    let mut size: u64 = 0;
    for byte in digits {
        let Some(next) = digit(*byte) else {
            return None;
        };
        size = size.saturating_mul(10).saturating_add(next).min(CAP);
    }
    Some(size)
}

/// The number that a word is, if it is one: digits, which may stand behind a minus sign. A number above 2^62 is seen as 2^62 + 1.
pub fn integer(word: &[u8]) -> Option<Number>
    ensures { result ≡ option_map capped (integer_of word.now) }
{
    let minus = match word.first() {
        Some(byte) => *byte == b'-',
        None => false,
    };
    let digits = if minus { &word[1..] } else { word };
    match digits_size(digits) {
        None => None,
        Some(size) => Some(Number {
            negative: minus && size > 0,
            size,
        }),
    }
}
