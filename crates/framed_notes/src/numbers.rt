//! Words that are numbers as notes have them.
ghost use Rattle.std.specs.Prelude.{◌≡◌, ◌≤◌, ◌<◌, ◌^◌, ℕ, IfOk, MatchOption, Some};
ghost use Rattle.std.specs.List.{list_all};
ghost use Rattle.answer_spec.specs.FrameAnswers as answers;
ghost use Rattle.line_tokens.specs.Tokens.{token_of};
ghost use Rattle.word_spec.specs.Tokens.{NumberToken};
ghost use Rattle.framed_notes.specs.Words.{is_letter_or_digit};

use line_tokens::{Token, tokens};
use std::alloc::{AllocError, Global};

/// The byte is a letter or a digit.
fn is_letter_or_digit(b: u8) -> bool
    ensures { result ≡ is_letter_or_digit b }
{
    (48 <= b && b <= 57) || (65 <= b && b <= 90) || (97 <= b && b <= 122)
}

/// The word begins with a digit.
fn begins_with_digit(word: &[u8]) -> bool
    ensures { result ≡ answers.begins_with_digit word.now }
{
    match word.first() {
        None => false,
        Some(b) => 48 <= *b && *b <= 57,
    }
}

/// Each byte of a word is a letter or a digit, so that none of them ends a token before a comment or a blank.
fn is_closed(word: &[u8]) -> bool
    ensures { result ≡ list_all is_letter_or_digit word.now }
{
    word.iter().all(|b| is_letter_or_digit(*b))
}

/// The number below 2^32 that a token is.
fn number_of(token: Token) -> Option<u32>
    ensures { MatchOption result ((n : ℕ) → token_of token.entry ≡ NumberToken n → 2 ^ 32 ≤ n) (λ n. (token_of token.entry ≡ NumberToken n) × (n < 2 ^ 32)) }
{
    match token {
        Token::Number(number) => Some(number),
        Token::TooLarge => None,
        Token::Name(_) => None,
        Token::Sign(_) => None,
        Token::BadByte => None,
        Token::BadText => None,
    }
}

/// The number below 2^32 that a word is as a whole, in the form of notes. There is none where the word is no number, or a larger one. The error is want of memory.
pub fn number_word(alloc: Global, word: &[u8]) -> Result<Option<u32>, AllocError>
    ensures { IfOk result (λ o. MatchOption o ((n : ℕ) → answers.number_word word.now ≡ Some n → 2 ^ 32 ≤ n) (λ n. answers.number_word word.now ≡ Some n)) }
{
    if !begins_with_digit(word) {
        return Ok(None);
    }
    if !is_closed(word) {
        return Ok(None);
    }
    let tokens = tokens(alloc, word)?;
    if tokens.len() != 1 {
        return Ok(None);
    }
    Ok(number_of(tokens[0]))
}
