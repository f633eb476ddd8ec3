//! What words mean at a place of notes.
ghost use Rattle.std.specs.Prelude.{◌≡◌, ◌&&◌, map, option_map};
ghost use Rattle.std.specs.List.{list_any};
ghost use Rattle.std.specs.Str.{bytes_eq};
ghost use Rattle.notes_spec.specs.Scopes as scopes;
ghost use Rattle.notes_spec.specs.NotesGrammar.{IsGood, number_at};
ghost use Rattle.line_tokens.specs.Tokens.{token_of};
ghost use Rattle.notes_value.specs.Views.{expr_of};
ghost use Rattle.notes_lang.specs.Named.{dialect_of, meaning_of};
ghost use Rattle.notes_lang.specs.Scoping.{changed_at, changed_of, constant_of, scope_of, text_of};

use crate::names::{Meaning, Vocabulary, expression, find_meaning, is_among, is_reserved_first};
use crate::notes::Dialect;
use line_tokens::Token;
use notes_value::Expr;

/// How a line is read: as it must be; with any name and any bounds of an `all`; or as if every word had a meaning, for its form alone.
#[derive(Clone, Copy)]
pub(crate) enum Mode {
    Strict,
    Lenient,
    Loose,
}

/// A constant that was declared.
#[derive(Clone, Copy)]
pub(crate) struct Constant<'a> {
    pub(crate) word: &'a [u8],
    pub(crate) number: u32,
}

/// What a function may change by a line of its contract: a register or a flag, by its number.
#[derive(Clone, Copy)]
pub(crate) enum Changed {
    Register(u8),
    Flag(u8),
}

/// What words mean: the vocabulary of the machine, the constants so far, and the names that the `all`s around the place bind, the outermost first. The text is
/// of version 2 or of version 1, and no line before this one says something, or one does.
#[derive(Clone, Copy)]
pub(crate) struct Scope<'a, 's> {
    pub(crate) words: Vocabulary,
    pub(crate) consts: &'s [Constant<'a>],
    pub(crate) bound: &'s [&'a [u8]],
    pub(crate) is_second: bool,
    pub(crate) is_first: bool,
    pub(crate) mode: Mode,
}

/// An `all` may have any name and bounds.
pub(crate) fn lenient<'a, 's>(scope: Scope<'a, 's>) -> Scope<'a, 's>
    ensures { scope_of result ≡ scopes.lenient (scope_of scope.entry) }
{
    Scope {
        mode: Mode::Lenient,
        ..scope
    }
}

/// Every word has a meaning.
pub(crate) fn loose<'a, 's>(scope: Scope<'a, 's>) -> Scope<'a, 's>
    ensures { scope_of result ≡ scopes.loose (scope_of scope.entry) }
{
    Scope {
        mode: Mode::Loose,
        ..scope
    }
}

/// The number of a constant.
#[tactic(auto, using(crate::proofs::Constants::const_at, crate::proofs::Constants::no_const))]
fn const_number(consts: &[Constant], word: &[u8]) -> Option<u32>
    ensures { result ≡ scopes.const_of (map constant_of consts.now) word.now }
{
    for constant in consts {
        if word == constant.word {
            return Some(constant.number);
        }
    }
    None
}

/// Whether a word is reserved.
#[tactic(auto, using(crate::proofs::Constants::reserved_is))]
fn is_reserved(scope: Scope, word: &[u8]) -> bool
    ensures { result ≡ scopes.is_reserved (scope_of scope.entry) word.now }
{
    is_reserved_first(word) || (scope.is_second && word == b"all".as_slice())
}

/// Whether an `all` around binds a word.
#[tactic(auto, using(crate::proofs::Constants::any_text))]
fn is_bound(scope: Scope, word: &[u8]) -> bool
    ensures { result ≡ list_any (bytes_eq word.now) (map text_of scope.entry.bound.now) }
{
    is_among(scope.bound, word)
}

/// What a word means that is not reserved: a bound name, a constant, or what the machine has.
fn meaning(scope: Scope, word: &[u8]) -> Option<Meaning>
    ensures { option_map meaning_of result ≡ scopes.meaning (scope_of scope.entry) word.now }
{
    if is_bound(scope, word) {
        return Some(Meaning::Bound);
    }
    match const_number(scope.consts, word) {
        Some(number) => Some(Meaning::Number(number)),
        None => find_meaning(scope.words.names, word),
    }
}

/// What a word means, by how the line is read.
fn meaning_by(scope: Scope, word: &[u8]) -> Option<Meaning>
    ensures { option_map meaning_of result ≡ scopes.name_by (scope_of scope.entry).mode (scope_of scope.entry) word.now }
{
    match scope.mode {
        Mode::Loose => Some(Meaning::Number(0)),
        Mode::Strict => meaning(scope, word),
        Mode::Lenient => meaning(scope, word),
    }
}

/// The expression that a word is.
pub(crate) fn named(scope: Scope, word: &[u8]) -> Option<Expr>
    ensures { option_map expr_of result ≡ scopes.named (scope_of scope.entry) word.now }
{
    if is_reserved(scope, word) {
        return None;
    }
    match meaning_by(scope, word) {
        Some(meaning) => Some(expression(meaning)),
        None => None,
    }
}

/// The register or the flag that a word is, where words have meanings.
fn changed_named(scope: Scope, word: &[u8]) -> Option<Changed>
    ensures { option_map changed_of result ≡ scopes.changed_of (scopes.named (scope_of scope.entry) word.now) }
{
    match named(scope, word)? {
        Expr::Register(r) => Some(Changed::Register(r)),
        Expr::Flag(f) => Some(Changed::Flag(f)),
        _ => None,
    }
}

/// The register or the flag that a word is, by how the line is read.
fn changed_by(scope: Scope, word: &[u8]) -> Option<Changed>
    ensures { option_map changed_of result ≡ scopes.changed_by (scope_of scope.entry).mode (scope_of scope.entry) word.now }
{
    match scope.mode {
        Mode::Loose => Some(Changed::Register(0)),
        Mode::Strict => changed_named(scope, word),
        Mode::Lenient => changed_named(scope, word),
    }
}

/// The register or the flag that a token is.
pub(crate) fn change(scope: Scope, token: &Token) -> Option<Changed>
    ensures { option_map changed_of result ≡ changed_at (scope_of scope.entry) (token_of token.now) }
{
    match token {
        Token::Name(word) => changed_by(scope, word),
        _ => None,
    }
}

/// The number of a constant, by how the line is read.
fn number_by(scope: Scope, word: &[u8]) -> Option<u32>
    ensures { result ≡ scopes.number_by (scope_of scope.entry).mode (scope_of scope.entry) word.now }
{
    match scope.mode {
        Mode::Loose => Some(0),
        Mode::Strict => const_number(scope.consts, word),
        Mode::Lenient => const_number(scope.consts, word),
    }
}

/// The number that a token is: a number, or in version 2 a constant.
pub(crate) fn number(scope: Scope, token: &Token) -> Option<u32>
    requires { IsGood (token_of token.now) }
    ensures { result ≡ number_at (scope_of scope.entry) (token_of token.now) }
{
    match token {
        Token::Number(n) => Some(*n),
        Token::Name(word) => if scope.is_second {
            number_by(scope, word)
        } else {
            None
        },
        _ => None,
    }
}

/// Whether lines of invariants and contracts are read in a dialect.
fn are_read(dialect: Dialect) -> bool
    ensures { result ≡ scopes.reads_frames (dialect_of dialect) }
{
    match dialect {
        Dialect::Plain => false,
        Dialect::Framed => true,
        Dialect::Paired => true,
    }
}

/// Whether a text may have lines of invariants and contracts.
pub(crate) fn may_frame(scope: Scope) -> bool
    ensures { result ≡ (scope.entry.is_second && scopes.reads_frames (dialect_of scope.entry.words.dialect)) }
{
    scope.is_second && are_read(scope.words.dialect)
}

/// Whether a word is neither a register nor a flag, a constant or reserved: it may be declared, or bound.
pub(crate) fn is_free(scope: Scope, word: &[u8]) -> bool
    ensures { result ≡ scopes.is_free (scope_of scope.entry) word.now }
{
    !meaning(scope, word).is_some() && !is_reserved(scope, word)
}

/// Whether an `all` may have this name and these bounds: it is within no other, the name is free, and 1 to 64 values are bound.
fn may_strictly(scope: Scope, word: &[u8], low: u32, high: u32) -> bool
    ensures { result ≡ scopes.may_by scopes.Strict (scope_of scope.entry) word.now low high }
{
    scope.bound.is_empty() && is_free(scope, word) && low <= high && (high as u64) < low as u64 + 64
}

/// Whether an `all` may have this name and these bounds, by how the line is read.
pub(crate) fn may_bind(scope: Scope, word: &[u8], low: u32, high: u32) -> bool
    ensures { result ≡ scopes.may_bind (scope_of scope.entry) word.now low high }
{
    match scope.mode {
        Mode::Strict => may_strictly(scope, word, low, high),
        Mode::Lenient => true,
        Mode::Loose => true,
    }
}
