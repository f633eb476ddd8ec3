//! The values of digits.
ghost use Rattle.std.specs.Prelude.{◌≡◌, ◌<◌, ℕ, true, false, MatchOption};
ghost use Rattle.std.specs.Char.{digit_value};
ghost use Rattle.std.specs.List.{list_all};
ghost use Rattle.std.specs.Str.Parse.{digits_value};
ghost use Rattle.bilv_spec.specs.SmtLib.{is_binary_digit};
ghost use Rattle.model_spec.specs.ModelText.{is_hex};
ghost use Rattle.model_text.specs.Bits.{capped};

/// The number that stands for all that have more than 32 bits.
const CAP: u64 = 1 << 32;

/// The value of a hexadecimal digit of either case.
fn hex_digit(byte: u8) -> Option<u64>
    ensures { MatchOption result (is_hex byte ≡ false) (λ d. (is_hex byte ≡ true) × (digit_value byte ≡ d) × (d < 16)) }
{
    if b'0' <= byte && byte <= b'9' {
        return Some((byte - b'0') as u64);
    }
    if b'A' <= byte && byte <= b'F' {
        return Some((byte - b'A') as u64 + 10);
    }
    if b'a' <= byte && byte <= b'f' {
        return Some((byte - b'a') as u64 + 10);
    }
    None
}

/// The value of a binary digit.
fn binary_digit(byte: u8) -> Option<u64>
    ensures { MatchOption result (is_binary_digit byte ≡ false) (λ d. (is_binary_digit byte ≡ true) × (digit_value byte ≡ d) × (d < 2)) }
{
    if byte == b'0' {
        return Some(0);
    }
    if byte == b'1' { Some(1) } else { None }
}

/// The number of hexadecimal digits, 2^32 where it is as large or larger; nothing where a byte is none.
pub(crate) fn hex_digits(digits: &[u8]) -> Option<u64>
    ensures { MatchOption result (list_all is_hex digits.now ≡ false)
        (λ n. (list_all is_hex digits.now ≡ true) × (n ≡ capped (digits_value 16 digits.now))) }
{
    let mut number: u64 = 0;
    for byte in digits {
        let Some(digit) = hex_digit(*byte) else {
            return None;
        };
        number = (number * 16 + digit).min(CAP);
    }
    Some(number)
}

/// The number of binary digits, 2^32 where it is as large or larger; nothing where a byte is none.
pub(crate) fn binary_digits(digits: &[u8]) -> Option<u64>
    ensures { MatchOption result (list_all is_binary_digit digits.now ≡ false)
        (λ n. (list_all is_binary_digit digits.now ≡ true) × (n ≡ capped (digits_value 2 digits.now))) }
{
    let mut number: u64 = 0;
    for byte in digits {
        let Some(digit) = binary_digit(*byte) else {
            return None;
        };
        number = (number * 2 + digit).min(CAP);
    }
    Some(number)
}
