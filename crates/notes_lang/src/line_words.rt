//! The words that begin lines.
ghost use Rattle.std.specs.Prelude.{◌≡◌, Contains, false, true, IfNone, IfSome};
ghost use Rattle.word_spec.specs.Tokens.{NameToken};
ghost use Rattle.notes_spec.specs.NotesFaults.{frame_words, line_words};
ghost use Rattle.line_tokens.specs.Tokens.{token_of};
ghost use Rattle.notes_lang.specs.Wording.{IsSomeWord, frame_word_text, word_text};

use line_tokens::Token;

/// The words that begin lines of invariants and contracts.
#[derive(Clone, Copy)]
pub(crate) enum FrameWord {
    Invariant,
    Needs,
    Gives,
    Modifies,
    Writes,
}

/// The words that begin lines.
#[derive(Clone, Copy)]
pub(crate) enum LineWord {
    Entry,
    Function,
    Require,
    Ensure,
    Assert,
    Targets,
    Fixed,
    Notes,
    Const,
    Loaded,
    Frame(FrameWord),
}

/// The word of this text that begins lines of invariants and contracts.
fn frame_word_named(text: &[u8]) -> Option<FrameWord>
    ensures word { IfSome result (λ word. text.now ≡ frame_word_text word) }
    ensures none { IfNone result (Contains frame_words text.now → ⊥) }
{
    if text == b"invariant".as_slice() {
        return Some(FrameWord::Invariant);
    }
    if text == b"needs".as_slice() {
        return Some(FrameWord::Needs);
    }
    if text == b"gives".as_slice() {
        return Some(FrameWord::Gives);
    }
    if text == b"modifies".as_slice() {
        return Some(FrameWord::Modifies);
    }
    if text == b"writes".as_slice() {
        return Some(FrameWord::Writes);
    }
    None
}

/// The word of this text that begins lines of all other kinds.
fn plain_word_named(text: &[u8]) -> Option<LineWord>
    ensures word { IfSome result (λ word. text.now ≡ word_text word) }
    ensures none { IfNone result (Contains (line_words true false) text.now → ⊥) }
{
    if text == b"entry".as_slice() {
        return Some(LineWord::Entry);
    }
    if text == b"function".as_slice() {
        return Some(LineWord::Function);
    }
    if text == b"require".as_slice() {
        return Some(LineWord::Require);
    }
    if text == b"ensure".as_slice() {
        return Some(LineWord::Ensure);
    }
    if text == b"assert".as_slice() {
        return Some(LineWord::Assert);
    }
    if text == b"targets".as_slice() {
        return Some(LineWord::Targets);
    }
    if text == b"fixed".as_slice() {
        return Some(LineWord::Fixed);
    }
    if text == b"notes".as_slice() {
        return Some(LineWord::Notes);
    }
    if text == b"const".as_slice() {
        return Some(LineWord::Const);
    }
    if text == b"loaded".as_slice() {
        return Some(LineWord::Loaded);
    }
    None
}

/// The word of this text that begins lines.
fn word_named(text: &[u8]) -> Option<LineWord>
    ensures word { IfSome result (λ word. text.now ≡ word_text word) }
    ensures none { IfNone result (Contains (line_words true true) text.now → ⊥) }
{
    if let Some(word) = plain_word_named(text) {
        return Some(word);
    }
    match frame_word_named(text) {
        Some(word) => Some(LineWord::Frame(word)),
        None => None,
    }
}

/// The word with which a line of some text begins.
pub(crate) fn line_word(token: &Token) -> Option<LineWord>
    ensures word { IfSome result (λ word. token_of token.now ≡ NameToken (word_text word)) }
    ensures none { IfNone result (IsSomeWord (token_of token.now) → ⊥) }
{
    match token {
        Token::Name(word) => word_named(word),
        _ => None,
    }
}
