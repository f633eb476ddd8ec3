//! The expressions of notes, read from tokens from the left to the right.
ghost use Rattle.std.specs.Prelude.{◌≡◌, ◌≢◌, ◌≤◌, ◌<◌, option_map, drop, length, IfOk, IfSome, is_some, codes};
ghost use Rattle.std.specs.Str.{bytes_eq};
ghost use Rattle.notes_spec.specs.NotesGrammar.{operators};
ghost use Rattle.word_spec.specs.Tokens.{SignToken, NameToken};
ghost use Rattle.notes_spec.proofs.NotesTables.{line_of, same_token, size_of};
ghost use Rattle.notes_spec.proofs.NotesParser.{Ends, Level, all_at, atom_at, negated_at, of_level, word_at, work};
ghost use Rattle.line_tokens.specs.Tokens.{token_of, sign_text};
ghost use Rattle.bilv_spec.specs.Notes as meaning;
ghost use Rattle.notes_value.specs.Views.{expr_of, op_of};
ghost use Rattle.notes_lang.specs.Reading.{AreGood, IsEnclosed, IsHead, IsLeft, IsRest, Settles, begins, is_all_word, operator_at, read_of, size_or_zero, tokens_view, within};
ghost use Rattle.notes_lang.specs.Scoping.{scope_of};

use crate::scopes::{Scope, may_bind, named, number};
use line_tokens::{Sign, Token};
use notes_value::{Expr, Operator, Size};
use std::alloc::{AllocError, Global};

/// An expression, and the tokens behind it.
#[derive(Drop)]
pub(crate) struct Reading<'t, 'a> {
    pub(crate) expr: Expr,
    pub(crate) rest: &'t [Token<'a>],
}

/// Whether a token is this sign.
pub(crate) fn is_sign(token: &Token, sign: Sign) -> bool
    ensures { result ≡ same_token (token_of token.now) (SignToken (sign_text sign)) }
{
    match token {
        Token::Sign(other) => other.text() == sign.text(),
        _ => false,
    }
}

/// Whether a token is this word.
pub(crate) fn is_word(token: &Token, word: &[u8]) -> bool
    ensures { result ≡ same_token (token_of token.now) (NameToken word.now) }
{
    match token {
        Token::Name(other) => *other == word,
        _ => false,
    }
}

/// The level and the meaning of an operator that is a sign.
fn operator_of_sign(sign: Sign) -> Option<(u8, Operator)>
    ensures { option_map (λ o. (o.0, op_of o.1)) result ≡ line_of operators (SignToken (sign_text sign)) }
{
    match sign {
        Sign::Equal => Some((4, Operator::Equal)),
        Sign::NotEqual => Some((4, Operator::NotEqual)),
        Sign::Below => Some((4, Operator::Below)),
        Sign::AtMost => Some((4, Operator::AtMost)),
        Sign::Above => Some((4, Operator::Above)),
        Sign::AtLeast => Some((4, Operator::AtLeast)),
        Sign::SignedBelow => Some((4, Operator::SignedBelow)),
        Sign::SignedAtMost => Some((4, Operator::SignedAtMost)),
        Sign::SignedAbove => Some((4, Operator::SignedAbove)),
        Sign::SignedAtLeast => Some((4, Operator::SignedAtLeast)),
        Sign::BitOr => Some((5, Operator::BitOr)),
        Sign::BitXor => Some((6, Operator::BitXor)),
        Sign::BitAnd => Some((7, Operator::BitAnd)),
        Sign::ShiftLeft => Some((8, Operator::ShiftLeft)),
        Sign::ShiftRight => Some((8, Operator::ShiftRight)),
        Sign::ShiftSigned => Some((8, Operator::ShiftSigned)),
        Sign::Plus => Some((9, Operator::Plus)),
        Sign::Minus => Some((9, Operator::Minus)),
        Sign::Times => Some((10, Operator::Times)),
        Sign::OpenRound => None,
        Sign::CloseRound => None,
        Sign::OpenSquare => None,
        Sign::CloseSquare => None,
    }
}

/// The level and the meaning of an operator that is a word.
fn operator_of_word(word: &[u8]) -> Option<(u8, Operator)>
    ensures { option_map (λ o. (o.0, op_of o.1)) result ≡ line_of operators (NameToken word.now) }
{
    if word == b"or".as_slice() {
        return Some((1, Operator::Or));
    }
    if word == b"and".as_slice() {
        return Some((2, Operator::And));
    }
    None
}

/// The level and the meaning of an operator.
fn operator_of(token: &Token) -> Option<(u8, Operator)>
    ensures { option_map (λ o. (o.0, op_of o.1)) result ≡ line_of operators (token_of token.now) }
{
    match token {
        Token::Sign(sign) => operator_of_sign(*sign),
        Token::Name(word) => operator_of_word(word),
        _ => None,
    }
}

/// The operator of a level, if it is this one's.
fn of_this_level(operator: Option<(u8, Operator)>, level: u8) -> Option<Operator>
    ensures { option_map op_of result ≡ of_level (option_map (λ o. (o.0, op_of o.1)) operator) level }
{
    match operator {
        Some((of, op)) => if of == level { Some(op) } else { None },
        None => None,
    }
}

/// The operator of a level with which tokens begin, and the tokens behind it.
fn operator<'t, 'a>(level: u8, tokens: &'t [Token<'a>]) -> Option<(Operator, &'t [Token<'a>])>
    ensures operator { option_map (λ o. op_of o.0) result ≡ operator_at level (tokens_view tokens.now) }
    ensures rest { IfSome result (λ o. o.1.now ≡ drop 1 tokens.now) }
{
    let (first, rest) = tokens.split_first()?;
    let op = of_this_level(operator_of(first), level)?;
    Some((op, rest))
}

/// The tokens behind a sign, if they begin with it.
fn behind_sign<'t, 'a>(sign: Sign, tokens: &'t [Token<'a>]) -> Option<&'t [Token<'a>]>
    ensures found { is_some result ≡ begins (SignToken (sign_text sign)) (tokens_view tokens.now) }
    ensures rest { IfSome result (λ rest. rest.now ≡ drop 1 tokens.now) }
{
    let (first, rest) = tokens.split_first()?;
    if is_sign(first, sign) {
        Some(rest)
    } else {
        None
    }
}

/// How many bytes a word loads.
fn load_size(word: &[u8]) -> Option<Size>
    ensures { size_or_zero result ≡ size_of word.now }
{
    if word == b"mem8".as_slice() {
        return Some(Size::Byte);
    }
    if word == b"mem16".as_slice() {
        return Some(Size::Half);
    }
    if word == b"mem32".as_slice() {
        return Some(Size::Word);
    }
    None
}

/// Whether a word asks for the value at entry.
fn is_old(word: &[u8]) -> bool
    ensures { result ≡ bytes_eq word.now (codes "old") }
{
    word == b"old".as_slice()
}

/// Whether a word begins an `all`, in version 2.
fn is_all(is_second: bool, word: &[u8]) -> bool
    ensures { result ≡ is_all_word is_second word.now }
{
    is_second && word == b"all".as_slice()
}

/// How an `all` begins: the name that it binds, the first and the last number, and the tokens behind the bracket.
#[derive(Clone, Copy)]
struct AllHead<'t, 'a> {
    word: &'a [u8],
    low: u32,
    high: u32,
    rest: &'t [Token<'a>],
}

/// How an `all` begins, by the tokens behind that word.
fn all_head<'t, 'a>(scope: Scope<'a, '_>, tokens: &'t [Token<'a>]) -> Option<AllHead<'t, 'a>>
    requires { AreGood tokens.now }
    ensures head { IsHead (scope_of scope.entry) (tokens_view tokens.now) result }
    ensures rest { IfSome result (λ h. (length h.rest.now < length tokens.now) × AreGood h.rest.now) }
{
    let (first, behind) = tokens.split_first()?;
    let Token::Name(word) = first else {
        return None;
    };
    let (second, behind) = behind.split_first()?;
    let low = number(scope, second)?;
    let (third, behind) = behind.split_first()?;
    let high = number(scope, third)?;
    if !may_bind(scope, word, low, high) {
        return None;
    }
    match behind_sign(Sign::OpenRound, behind) {
        Some(rest) => Some(AllHead {
            word: *word,
            low,
            high,
            rest,
        }),
        None => None,
    }
}

/// Two expressions under an operator. The error is want of memory.
fn binary(alloc: Global, op: Operator, left: Expr, right: Expr) -> Result<Expr, AllocError>
    ensures { IfOk result (λ e. expr_of e ≡ meaning.Binary (op_of op) (expr_of left) (expr_of right)) }
{
    Ok(Expr::Binary(op, Box::new(alloc, left)?, Box::new(alloc, right)?))
}

/// An expression of a level, from the front of tokens.
#[cycle(parser)]
pub(crate) fn read<'t, 'a>(
    alloc: Global,
    scope: Scope<'a, '_>,
    level: u8,
    tokens: &'t [Token<'a>],
) -> Result<Option<Reading<'t, 'a>>, AllocError>
    requires level { level ≤ 11 }
    requires good { AreGood tokens.now }
    ensures read { IfOk result (λ o. Ends (scope_of scope.entry) (Level level) (tokens_view tokens.now) (read_of o)) }
    ensures left { IfOk result (λ o. IsLeft tokens.now o) }
{
    if level == 3 {
        let read = negation(alloc, scope, tokens)?;
        return Ok(read);
    }
    if level == 11 {
        let read = atom(alloc, scope, tokens)?;
        return Ok(read);
    }
    let read = chain(alloc, scope, level, tokens)?;
    Ok(read)
}

/// An expression that `not` may begin.
#[cycle(parser)]
fn negation<'t, 'a>(
    alloc: Global,
    scope: Scope<'a, '_>,
    tokens: &'t [Token<'a>],
) -> Result<Option<Reading<'t, 'a>>, AllocError>
    requires { AreGood tokens.now }
    ensures read { IfOk result (λ o. Settles (λ m. negated_at (work (scope_of scope.entry) m) (tokens_view tokens.now)) (read_of o)) }
    ensures left { IfOk result (λ o. IsLeft tokens.now o) }
{
    let Some((first, rest)) = tokens.split_first() else {
        return Ok(None);
    };
    if !is_word(first, b"not") {
        let read = read(alloc, scope, 4, tokens)?;
        return Ok(read);
    }
    let Some(inner) = read(alloc, scope, 3, rest)? else {
        return Ok(None);
    };
    let negated = Expr::Not(Box::new(alloc, inner.expr)?);
    Ok(Some(Reading {
        expr: negated,
        rest: inner.rest,
    }))
}

/// Operators of one level, which group to the left; comparisons are not chained.
#[cycle(parser)]
fn chain<'t, 'a>(
    alloc: Global,
    scope: Scope<'a, '_>,
    level: u8,
    tokens: &'t [Token<'a>],
) -> Result<Option<Reading<'t, 'a>>, AllocError>
    requires level { level < 11 }
    requires not_three { level ≢ 3 }
    requires good { AreGood tokens.now }
    ensures read { IfOk result (λ o. Ends (scope_of scope.entry) (Level level) (tokens_view tokens.now) (read_of o)) }
    ensures left { IfOk result (λ o. IsLeft tokens.now o) }
{
    let Some(first) = read(alloc, scope, level + 1, tokens)? else {
        return Ok(None);
    };
    let mut expr = first.expr;
    let mut rest = first.rest;
    while let Some((op, behind)) = operator(level, rest) {
        let Some(right) = read(alloc, scope, level + 1, behind)? else {
            return Ok(None);
        };
        let joined = binary(alloc, op, expr, right.expr)?;
        expr = joined;
        rest = right.rest;
        if level == 4 {
            return Ok(Some(Reading { expr, rest }));
        }
    }
    Ok(Some(Reading { expr, rest }))
}

/// What stands alone or in brackets.
#[cycle(parser)]
fn atom<'t, 'a>(
    alloc: Global,
    scope: Scope<'a, '_>,
    tokens: &'t [Token<'a>],
) -> Result<Option<Reading<'t, 'a>>, AllocError>
    requires { AreGood tokens.now }
    ensures read { IfOk result (λ o. Settles (λ m. atom_at (scope_of scope.entry) (work (scope_of scope.entry) m) (within (scope_of scope.entry) m)
        (tokens_view tokens.now)) (read_of o)) }
    ensures left { IfOk result (λ o. IsLeft tokens.now o) }
{
    let Some((first, rest)) = tokens.split_first() else {
        return Ok(None);
    };
    match first {
        Token::Number(n) => Ok(Some(Reading {
            expr: Expr::Number(*n),
            rest,
        })),
        Token::Name(word) => {
            let read = word_atom(alloc, scope, *word, rest)?;
            Ok(read)
        }
        Token::Sign(_) => {
            if !is_sign(first, Sign::OpenRound) {
                return Ok(None);
            }
            let read = enclosed(alloc, scope, Sign::CloseRound, rest)?;
            Ok(read)
        }
        _ => Ok(None),
    }
}

/// A load, `old`, `all` or a name, by its word and the tokens behind it.
#[cycle(parser)]
fn word_atom<'t, 'a>(
    alloc: Global,
    scope: Scope<'a, '_>,
    word: &'a [u8],
    tokens: &'t [Token<'a>],
) -> Result<Option<Reading<'t, 'a>>, AllocError>
    requires { AreGood tokens.now }
    ensures read { IfOk result (λ o. Settles (λ m. word_at (scope_of scope.entry) (work (scope_of scope.entry) m) (within (scope_of scope.entry) m)
        (size_of word.now) (bytes_eq word.now (codes "old")) (is_all_word scope.entry.is_second word.now) word.now (tokens_view tokens.now)) (read_of o)) }
    ensures left { IfOk result (λ o. IsRest tokens.now o) }
{
    if let Some(size) = load_size(word) {
        let Some(behind) = behind_sign(Sign::OpenSquare, tokens) else {
            return Ok(None);
        };
        let Some(inner) = enclosed(alloc, scope, Sign::CloseSquare, behind)? else {
            return Ok(None);
        };
        let load = Expr::Memory(size, Box::new(alloc, inner.expr)?);
        return Ok(Some(Reading {
            expr: load,
            rest: inner.rest,
        }));
    }
    if is_old(word) {
        let Some(behind) = behind_sign(Sign::OpenRound, tokens) else {
            return Ok(None);
        };
        let Some(inner) = enclosed(alloc, scope, Sign::CloseRound, behind)? else {
            return Ok(None);
        };
        let old = Expr::Old(Box::new(alloc, inner.expr)?);
        return Ok(Some(Reading {
            expr: old,
            rest: inner.rest,
        }));
    }
    if is_all(scope.is_second, word) {
        let read = all_values(alloc, scope, tokens)?;
        return Ok(read);
    }
    match named(scope, word) {
        Some(expr) => Ok(Some(Reading { expr, rest: tokens })),
        None => Ok(None),
    }
}

/// An `all`, by the tokens behind that word.
#[cycle(parser)]
fn all_values<'t, 'a>(
    alloc: Global,
    scope: Scope<'a, '_>,
    tokens: &'t [Token<'a>],
) -> Result<Option<Reading<'t, 'a>>, AllocError>
    requires { AreGood tokens.now }
    ensures read { IfOk result (λ o. Settles (λ m. all_at (scope_of scope.entry) (within (scope_of scope.entry) m) (tokens_view tokens.now)) (read_of o)) }
    ensures left { IfOk result (λ o. IsRest tokens.now o) }
{
    let Some(head) = all_head(scope, tokens) else {
        return Ok(None);
    };
    let mut bound = Vec::with_capacity(alloc, scope.bound.len() + 1)?;
    bound.extend_from_slice(scope.bound)?;
    bound.push(head.word)?;
    let inside = Scope {
        bound: &bound,
        ..scope
    };
    let Some(inner) = enclosed(alloc, inside, Sign::CloseRound, head.rest)? else {
        return Ok(None);
    };
    let all = Expr::All(head.low, head.high, Box::new(alloc, inner.expr)?);
    Ok(Some(Reading {
        expr: all,
        rest: inner.rest,
    }))
}

/// An expression behind a bracket, and the sign that closes it.
#[cycle(parser)]
fn enclosed<'t, 'a>(
    alloc: Global,
    scope: Scope<'a, '_>,
    close: Sign,
    tokens: &'t [Token<'a>],
) -> Result<Option<Reading<'t, 'a>>, AllocError>
    requires { AreGood tokens.now }
    ensures read { IfOk result (λ o. IsEnclosed (scope_of scope.entry) (SignToken (sign_text close)) (tokens_view tokens.now) o) }
    ensures left { IfOk result (λ o. IsLeft tokens.now o) }
{
    let Some(inner) = read(alloc, scope, 1, tokens)? else {
        return Ok(None);
    };
    let Some(rest) = behind_sign(close, inner.rest) else {
        return Ok(None);
    };
    Ok(Some(Reading {
        expr: inner.expr,
        rest,
    }))
}
