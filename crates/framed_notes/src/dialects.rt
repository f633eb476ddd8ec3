//! The dialect in which a text is read.
ghost use Rattle.std.specs.Prelude.{◌≡◌, IfOk};
ghost use Rattle.std.specs.List.{list_any};
ghost use Rattle.std.specs.Str.{bytes_eq};
ghost use Rattle.answer_spec.specs.FrameAnswers.{begins_line, contract_words, invariant_words};
ghost use Rattle.answer_spec.specs.FrameAnswers as answers;
ghost use Rattle.notes_lang.specs.Named.{dialect_of};
ghost use Rattle.notes_lang.specs.Reading.{tokens_view};
ghost use Rattle.framed_notes.specs.Kinds.{words_of};

use crate::lines::first_line;
use line_tokens::{Token, tokens};
use notes_lang::Dialect;
use std::alloc::{AllocError, Global};

/// Lines that not every text may have.
#[derive(Clone, Copy)]
pub(crate) enum LineKind {
    Invariant,
    Contract,
}

/// The word begins lines of invariants.
fn is_invariant(word: &[u8]) -> bool
    ensures { result ≡ list_any (bytes_eq word.now) invariant_words }
{
    word == b"invariant".as_slice()
}

/// The word begins lines of contracts.
fn is_of_contract(word: &[u8]) -> bool
    ensures { result ≡ list_any (bytes_eq word.now) contract_words }
{
    if word == b"needs".as_slice() {
        return true;
    }
    if word == b"gives".as_slice() {
        return true;
    }
    if word == b"modifies".as_slice() {
        return true;
    }
    word == b"writes".as_slice()
}

/// A line of these tokens is of a kind.
fn is_of(kind: LineKind, tokens: &[Token]) -> bool
    ensures { result ≡ begins_line (words_of kind) (tokens_view tokens.now) }
{
    match tokens.first() {
        Some(Token::Name(word)) => match kind {
            LineKind::Invariant => is_invariant(word),
            LineKind::Contract => is_of_contract(word),
        },
        _ => false,
    }
}

/// Some line of a text is of a kind. The error is want of memory.
fn has_line(alloc: Global, text: &[u8], kind: LineKind) -> Result<bool, AllocError>
    ensures { IfOk result (λ b. b ≡ answers.has_line (words_of kind) text.now) }
{
    let mut rest = text;
    while !rest.is_empty() {
        let (line, others) = first_line(rest);
        let tokens = tokens(alloc, line)?;
        if is_of(kind, &tokens) {
            return Ok(true);
        }
        rest = others;
    }
    Ok(false)
}

/// The dialect in which a text is read: with lines of invariants and of contracts where it has one of either. The error is want of memory.
pub(crate) fn dialect_for(alloc: Global, text: &[u8]) -> Result<Dialect, AllocError>
    ensures { IfOk result (λ d. dialect_of d ≡ answers.dialect_for text.now) }
{
    if has_line(alloc, text, LineKind::Invariant)? {
        return Ok(Dialect::Framed);
    }
    if has_line(alloc, text, LineKind::Contract)? {
        return Ok(Dialect::Framed);
    }
    Ok(Dialect::Plain)
}
