//! The tokens of a template's own lines.
ghost use Rattle.std.specs.Prelude.{ℕ, ◌≡◌, ◌≤◌, ◌<◌, ◌+◌, ◌^◌, ◌∷◌, List, false, IfSome, IfNone};
ghost use Rattle.std.specs.List.{list_all};
ghost use Rattle.std.specs.Option.{option_map};
ghost use Rattle.word_spec.specs.Tokens as grammar;
ghost use Rattle.line_tokens.specs.Tokens.{sign_text, token_of};
ghost use Rattle.note_template.specs.TemplateLines.{is_closed, is_closing, is_expression, is_opening, is_operand, is_range, is_spare, is_word, front_of, last_of, pair, sole};
ghost use Rattle.note_template.specs.Views.{machine_of};
ghost use Rattle.note_template.specs.Forms.{pair_of, tokens_view};

use crate::bytes::is_text;
use crate::machine::TemplateMachine;
use line_tokens::{Sign, Token};

/// The one token that there is.
pub(crate) fn sole<'a>(tokens: &[Token<'a>]) -> Option<Token<'a>>
    ensures { option_map token_of result ≡ sole (tokens_view tokens.now) }
{
    let (first, rest) = tokens.split_first()?;
    if !rest.is_empty() {
        return None;
    }
    Some(*first)
}

/// The two tokens that there are.
pub(crate) fn pair<'a>(tokens: &[Token<'a>]) -> Option<(Token<'a>, Token<'a>)>
    ensures { option_map pair_of result ≡ pair (tokens_view tokens.now) }
{
    let (first, rest) = tokens.split_first()?;
    let second = sole(rest)?;
    Some((*first, second))
}

/// Whether a name is the register that stands for any address.
fn is_spare(machine: TemplateMachine, name: &[u8]) -> bool
    ensures { result ≡ is_spare (machine_of machine) name.now }
{
    match machine {
        TemplateMachine::RiscV => is_text(name, b"t6") || is_text(name, b"x31"),
        TemplateMachine::Arm => is_text(name, b"r12") || is_text(name, b"ip"),
    }
}

/// Whether an expression may have a token.
fn is_word(machine: TemplateMachine, token: Token) -> bool
    ensures { result ≡ is_word (machine_of machine) (token_of token.entry) }
{
    match token {
        Token::Number(_) => true,
        Token::Name(name) => !is_spare(machine, name),
        Token::Sign(_) => true,
        Token::TooLarge => false,
        Token::BadByte => false,
        Token::BadText => false,
    }
}

/// Whether a token is a number or a name.
pub(crate) fn is_operand(machine: TemplateMachine, token: Token) -> bool
    ensures { result ≡ is_operand (machine_of machine) (token_of token.entry) }
{
    match token {
        Token::Number(_) => true,
        Token::Name(name) => !is_spare(machine, name),
        Token::Sign(_) => false,
        Token::TooLarge => false,
        Token::BadByte => false,
        Token::BadText => false,
    }
}

/// Whether a sign opens a bracket.
fn is_opening(sign: Sign) -> bool
    ensures { result ≡ is_opening (sign_text sign) }
{
    is_text(sign.text(), b"(") || is_text(sign.text(), b"[")
}

/// Whether a sign closes a bracket.
fn is_closing(sign: Sign) -> bool
    ensures { result ≡ is_closing (sign_text sign) }
{
    is_text(sign.text(), b")") || is_text(sign.text(), b"]")
}

/// How many brackets stand open behind a token, if none is closed that did not stand open.
fn depth_behind(depth: usize, token: Token) -> Option<usize>
    requires { depth + 1 < 2 ^ 64 }
    ensures some { (rest : List grammar.Token) → IfSome result (λ d. is_closed depth (token_of token.entry ∷ rest) ≡ is_closed d rest) }
    ensures within { IfSome result (λ d. d ≤ depth + 1) }
    ensures none { (rest : List grammar.Token) → IfNone result (is_closed depth (token_of token.entry ∷ rest) ≡ false) }
{
    let Token::Sign(sign) = token else {
        return Some(depth);
    };
    if is_opening(sign) {
        return Some(depth + 1);
    }
    if !is_closing(sign) {
        return Some(depth);
    }
    if depth == 0 {
        return None;
    }
    Some(depth - 1)
}

/// Whether each bracket is closed and none is closed twice.
fn is_closed(tokens: &[Token]) -> bool
    ensures { result ≡ is_closed 0 (tokens_view tokens.now) }
{
    let mut depth = 0;
    for token in tokens {
        let Some(behind) = depth_behind(depth, *token) else {
            return false;
        };
        depth = behind;
    }
    depth == 0
}

/// Whether an expression may have each of some tokens.
fn are_words(machine: TemplateMachine, tokens: &[Token]) -> bool
    ensures { result ≡ list_all (is_word (machine_of machine)) (tokens_view tokens.now) }
{
    for token in tokens {
        if !is_word(machine, *token) {
            return false;
        }
    }
    true
}

/// Whether tokens are an expression, as far as it matters here.
fn is_expression(machine: TemplateMachine, tokens: &[Token]) -> bool
    ensures { result ≡ is_expression (machine_of machine) (tokens_view tokens.now) }
{
    if tokens.is_empty() {
        return false;
    }
    are_words(machine, tokens) && is_closed(tokens)
}

/// The tokens but the last, and the last.
pub(crate) fn split_last<'a, 'b>(tokens: &'b [Token<'a>]) -> (&'b [Token<'a>], &'b [Token<'a>])
    ensures front { tokens_view result.0.now ≡ front_of (tokens_view tokens.now) }
    ensures last { tokens_view result.1.now ≡ last_of (tokens_view tokens.now) }
{
    let count = tokens.len().saturating_sub(1);
    (&tokens[..count], &tokens[count..])
}

/// Whether each of some tokens is a number or a name.
fn are_operands(machine: TemplateMachine, tokens: &[Token]) -> bool
    ensures { result ≡ list_all (is_operand (machine_of machine)) (tokens_view tokens.now) }
{
    for token in tokens {
        if !is_operand(machine, *token) {
            return false;
        }
    }
    true
}

/// Whether tokens are an expression and behind it a number of bytes.
pub(crate) fn is_range(machine: TemplateMachine, tokens: &[Token]) -> bool
    ensures { result ≡ is_range (machine_of machine) (tokens_view tokens.now) }
{
    let (front, last) = split_last(tokens);
    is_expression(machine, front) && are_operands(machine, last)
}
