//! Appends texts, words and tokens. What an `Err` leaves is open.
ghost use Rattle.std.specs.Prelude.{◌≡◌, ◌≤◌, ◌++◌, map, OnOk};
ghost use Rattle.word_spec.specs.Texts.{hex_digit, hex_digits, joined, spaced, word_text};
ghost use Rattle.line_tokens.specs.Tokens.{token_of};
ghost use Rattle.note_template.specs.TemplateLines.{token_text};

use line_tokens::Token;
use std::alloc::AllocError;

/// A hexadecimal digit in lower case.
fn hex_digit(d: u8) -> u8
    requires { d ≤ 15 }
    ensures { result ≡ hex_digit d }
{
    if d < 10 { 48 + d } else { 87 + d }
}

/// Appends a text.
pub(crate) fn push_text(out: &mut Vec<u8>, text: &[u8]) -> Result<(), AllocError>
    ensures { OnOk result (out.new.items ≡ out.old.items ++ text.now) }
{
    out.extend_from_slice(text)?;
    Ok(())
}

/// Appends the `count` lowest hexadecimal digits of a number, the highest first.
fn push_hex(out: &mut Vec<u8>, count: u8, v: u32) -> Result<(), AllocError>
    ensures { OnOk result (out.new.items ≡ out.old.items ++ hex_digits count v) }
{
    if count == 0 {
        return Ok(());
    }
    push_hex(out, count - 1, v / 16)?;
    out.push(hex_digit((v % 16) as u8))?;
    Ok(())
}

/// Appends a number: 0x and eight digits.
pub(crate) fn push_word(out: &mut Vec<u8>, v: u32) -> Result<(), AllocError>
    ensures { OnOk result (out.new.items ≡ out.old.items ++ word_text v) }
{
    push_text(out, b"0x")?;
    push_hex(out, 8, v)?;
    Ok(())
}

/// Appends the text of a token. A number that is too large has none, and lines with such a number are refused.
pub(crate) fn push_token(out: &mut Vec<u8>, token: Token) -> Result<(), AllocError>
    ensures { OnOk result (out.new.items ≡ out.old.items ++ token_text (token_of token.entry)) }
{
    match token {
        Token::Number(v) => push_word(out, v)?,
        Token::Name(word) => push_text(out, word)?,
        Token::Sign(sign) => push_text(out, sign.text())?,
        Token::TooLarge => push_word(out, 0)?,
        Token::BadByte => {}
        Token::BadText => {}
    }
    Ok(())
}
