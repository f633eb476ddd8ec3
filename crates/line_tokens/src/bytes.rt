//! Kinds of bytes, and numbers by their digits.
ghost use Rattle.std.specs.Prelude.{◌≡◌, ◌≤◌, ◌<◌, ◌^◌, min, length, slice_index};
ghost use Rattle.std.specs.Char.{digit_value};
ghost use Rattle.std.specs.Str.Parse.{digits_value};
ghost use Rattle.word_spec.specs.Texts.{is_blank};
ghost use Rattle.word_spec.specs.Tokens.{is_digit, begins_name, goes_on_name, is_plain, is_letter, stops, begins_with_letter, run_of, is_hexadecimal};

/// Whether it is a blank or a tab.
pub(crate) fn is_blank(b: u8) -> bool
    ensures { result ≡ is_blank b }
{
    b == b' ' || b == b'\t'
}

/// Whether it is a decimal digit.
pub(crate) fn is_digit(b: u8) -> bool
    ensures { result ≡ is_digit b }
{
    48 <= b && b <= 57
}

/// Whether a name may begin with it.
pub(crate) fn begins_name(b: u8) -> bool
    ensures { result ≡ begins_name b }
{
    is_letter(b) || b == b'_' || b == b'.' || b == b'$'
}

/// Whether a name may go on with it.
pub(crate) fn goes_on_name(b: u8) -> bool
    ensures { result ≡ goes_on_name b }
{
    is_digit(b) || begins_name(b)
}

/// Whether it may stand outside a comment.
pub(crate) fn is_plain(b: u8) -> bool
    ensures { result ≡ is_plain b }
{
    (32 <= b && b <= 126) || b == b'\t'
}

/// Whether it is a letter.
pub(crate) fn is_letter(b: u8) -> bool
    ensures { result ≡ is_letter b }
{
    (65 <= b && b <= 90) || (97 <= b && b <= 122)
}

/// Whether no name goes on in a text.
pub(crate) fn stops(text: &[u8]) -> bool
    ensures { result ≡ stops text.now }
{
    match text.first() {
        None => true,
        Some(b) => !goes_on_name(*b),
    }
}

/// Whether a text begins with a letter.
pub(crate) fn begins_with_letter(text: &[u8]) -> bool
    ensures { result ≡ begins_with_letter text.now }
{
    match text.first() {
        None => false,
        Some(b) => is_letter(*b),
    }
}

/// The value of a digit or a letter, from 0 for `0` to 35 for `z`, and 36 of any other byte.
pub(crate) fn digit_value(b: u8) -> u8
    ensures { result ≡ digit_value b }
{
    if b < 48 {
        36
    } else if b < 58 {
        b - 48
    } else if b < 65 {
        36
    } else if b < 91 {
        b - 55
    } else if b < 97 {
        36
    } else if b < 123 {
        b - 87
    } else {
        36
    }
}

/// How many bytes at the front of a text are digits of a base.
pub(crate) fn run_length(base: u8, text: &[u8]) -> usize
    ensures count { result ≡ length (run_of base text.now) }
    ensures within { result ≤ length text.now }
{
    text.iter().take_while(|b| digit_value(**b) < base).count()
}

/// Whether a text begins with `0x` and a hexadecimal digit.
pub(crate) fn is_hexadecimal(text: &[u8]) -> bool
    ensures { result ≡ is_hexadecimal text.now }
{
    text.starts_with(b"0x") && run_length(16, &text[2..]) > 0
}

/// The number that digits of a base say, or 2^32 where it is larger.
#[tactic(auto, using(crate::proofs::Numbers::capped_more, std::proofs::lemmas::Int::Digits::digits_value_more))]
pub(crate) fn capped_value(base: u8, digits: &[u8]) -> u64
    requires some { 1 ≤ base }
    requires few { base ≤ 16 }
    ensures { result ≡ min (digits_value base digits.now) (2 ^ 32) }
{
    let mut value = 0u64;
    for b in digits {
        let more = value * base as u64 + digit_value(*b) as u64;
        value = more.min(0x1_0000_0000);
    }
    value
}
