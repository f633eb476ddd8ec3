//! Faults of lines.
ghost use Rattle.std.specs.Prelude.{◌≡◌, ◌≤◌, ◌↔◌, ◌||◌, ℕ, List, map, count_by, length, All, IfOk, IsTrue};
ghost use Rattle.std.specs.List.{list_any};
ghost use Rattle.machine_spec.specs.Machine.{IsAtPlace};
ghost use Rattle.notes_spec.specs.Scopes as scopes;
ghost use Rattle.notes_spec.specs.NotesGrammar.{AreAligned, IsAlone, IsNew, IsRange, IsVersion, is_depth, is_invariant, is_of_contract, line_limit};
ghost use Rattle.word_spec.specs.Tokens.{tokens_of};
ghost use Rattle.line_tokens.specs.Tokens.{capped, token_of};
ghost use Rattle.notes_lang.specs.Reading.{AreGood, tokens_view};
ghost use Rattle.notes_lang.specs.Saying.{says_of};
ghost use Rattle.notes_lang.specs.Judging.{IsJudged, IsOwnFault, IsRefusal, IsTokenFault, is_bad_byte, is_bad_text, is_large};
ghost use Rattle.notes_lang.specs.Named.{dialect_of};
ghost use Rattle.notes_lang.specs.Scoping.{scope_of};
ghost use Rattle.notes_lang.specs.Wording.{begins_lines};
ghost use Rattle.notes_spec.specs.NotesFaults.{BeginsBadly};

use crate::line_words::{LineWord, line_word};
use crate::notes::{Dialect, Function};
use crate::parser::{is_sign, is_word};
use crate::sayings::{ContractLine, Says, said};
use crate::scopes::{Scope, is_free, lenient, loose, may_frame};
use line_tokens::{Sign, Token, tokens};
use std::alloc::{AllocError, Global};
use thiserror::Error;

/// Why a line is refused. Of several faults of a line the first in this order counts.
#[derive(Clone, Copy, PartialEq, Eq, Debug, Error)]
pub enum FaultKind {
    /// There are more than 4096 lines, or 4097 in version 2; or the line has more than 1024 bytes.
    #[error("N1 Limit")]
    Limit,
    /// A byte that may stand only in a comment.
    #[error("N2 Byte")]
    Byte,
    /// Characters that begin no token, or a number with a letter on its end.
    #[error("N3 Token")]
    Token,
    /// A number of 2^32 or more.
    #[error("N4 Number")]
    Number,
    /// More than 64 open brackets, `not`s and, in version 2, `all`s.
    #[error("N5 Depth")]
    Depth,
    /// The line begins with none of the words that begin lines.
    #[error("N6 Word")]
    Word,
    /// The line has no form that the grammar allows.
    #[error("N7 Syntax")]
    Syntax,
    /// A name of no register, no flag and no constant.
    #[error("N8 Name")]
    Name,
    /// An address at which no row can stand: no multiple of 4, or of 2 with the compressed instructions of RISC-V.
    #[error("N9 Align")]
    Align,
    /// A range whose low end is above its high end; or a count of bytes of 0, or above 256.
    #[error("N10 Range")]
    Range,
    /// A second line that names the function, a second `targets` line of one address, or no line that names the function.
    #[error("N11 Entry")]
    Entry,
    /// A line of the version that is not the first that says something, or that does not name version 2.
    #[error("N12 Version")]
    Version,
    /// A constant whose name is a register, a flag or reserved, or is declared already.
    #[error("N13 Const")]
    Const,
    /// An `all` whose first number is above its last, that binds more than 64 numbers, that stands within another, or whose name is a register, a flag,
    /// reserved or a constant.
    #[error("N14 All")]
    All,
    /// A line of a contract beside an invariant or an `assert` line with a value at entry.
    #[error("N15 Mixed")]
    Mixed,
    /// An invariant or a line of a contract in the notes of a function that is compared.
    #[error("N16 Pair")]
    Pair,
}

/// Whether a token is a byte that may stand only in a comment.
fn is_byte_fault(token: &Token) -> bool
    ensures { result ≡ is_bad_byte (token_of token.now) }
{
    match token {
        Token::BadByte => true,
        _ => false,
    }
}

/// Whether a token is characters that begin none.
fn is_text_fault(token: &Token) -> bool
    ensures { result ≡ is_bad_text (token_of token.now) }
{
    match token {
        Token::BadText => true,
        _ => false,
    }
}

/// Whether a token is a number of 2^32 or more.
fn is_number_fault(token: &Token) -> bool
    ensures { result ≡ is_large (token_of token.now) }
{
    match token {
        Token::TooLarge => true,
        Token::Number(n) => {
            let _below = *n;
            false
        }
        _ => false,
    }
}

/// Whether a token is an open bracket, `not`, or in version 2 `all`.
fn is_deep(is_second: bool, token: &Token) -> bool
    ensures { result ≡ is_depth is_second (token_of token.now) }
{
    match token {
        Token::Name(_) => is_word(token, b"not") || (is_second && is_word(token, b"all")),
        Token::Sign(_) => is_sign(token, Sign::OpenRound) || is_sign(token, Sign::OpenSquare),
        _ => false,
    }
}

/// Whether some token is a byte that may stand only in a comment.
fn has_byte_fault(tokens: &[Token]) -> bool
    ensures { result ≡ list_any (λ t. is_bad_byte (token_of t)) tokens.now }
{
    tokens.iter().any(|token| is_byte_fault(token))
}

/// Whether some token is characters that begin none.
fn has_text_fault(tokens: &[Token]) -> bool
    ensures { result ≡ list_any (λ t. is_bad_text (token_of t)) tokens.now }
{
    tokens.iter().any(|token| is_text_fault(token))
}

/// Whether some token is a number of 2^32 or more.
fn has_number_fault(tokens: &[Token]) -> bool
    ensures { result ≡ list_any (λ t. is_large (token_of t)) tokens.now }
{
    tokens.iter().any(|token| is_number_fault(token))
}

/// How many tokens are open brackets, `not`s or, in version 2, `all`s.
fn depth(is_second: bool, tokens: &[Token]) -> usize
    ensures { result ≡ count_by (λ t. is_depth is_second (token_of t)) tokens.now }
{
    tokens
        .iter()
        .filter(|token| is_deep(is_second, token))
        .count()
}

/// Whether a row can stand at an address.
fn is_place(narrow: bool, address: u32) -> bool
    ensures { IsTrue result ↔ IsAtPlace narrow address }
{
    if narrow {
        address % 2 == 0
    } else {
        address % 4 == 0
    }
}

/// Whether rows can stand at all of these addresses.
fn are_places(narrow: bool, addresses: &[u32]) -> bool
    ensures { IsTrue result ↔ All (IsAtPlace narrow) addresses.now }
{
    addresses.iter().all(|address| is_place(narrow, *address))
}

/// Whether rows can stand at the addresses that a line names.
fn is_aligned(narrow: bool, says: &Says) -> bool
    ensures { IsTrue result ↔ AreAligned narrow (says_of says.now) }
{
    match says {
        Says::Entry(Function::At(at)) => is_place(narrow, *at),
        Says::Assert(at, _) => is_place(narrow, *at),
        Says::Targets(at, to) => is_place(narrow, *at) && are_places(narrow, to),
        Says::Invariant(at, _) => is_place(narrow, *at),
        Says::Contract(at, _) => is_place(narrow, *at),
        _ => true,
    }
}

/// Whether the range of a line is not empty, and a contract writes at most 256 bytes from an address on.
fn is_range(says: &Says) -> bool
    ensures { IsTrue result ↔ IsRange (says_of says.now) }
{
    match says {
        Says::Fixed(low, high) => low <= high,
        Says::Contract(_, ContractLine::Writes(_, count)) => 1 <= *count && *count <= 256,
        _ => true,
    }
}

/// Whether a line of the version is the first that says something, and names version 2.
fn is_version(scope: Scope, says: &Says) -> bool
    ensures { IsTrue result ↔ IsVersion (scope_of scope.entry) (says_of says.now) }
{
    match says {
        Says::Version(is_two) => scope.is_first && *is_two,
        _ => true,
    }
}

/// Whether a line is an invariant or of a contract.
fn is_framed(says: &Says) -> bool
    ensures { result ≡ (is_invariant (says_of says.now) || is_of_contract (says_of says.now)) }
{
    match says {
        Says::Invariant(_, _) => true,
        Says::Contract(_, _) => true,
        _ => false,
    }
}

/// Whether a name that is declared is free.
fn is_new(scope: Scope, says: &Says) -> bool
    ensures { IsTrue result ↔ IsNew (scope_of scope.entry) (says_of says.now) }
{
    match says {
        Says::Const(word, _) => is_free(scope, word),
        _ => true,
    }
}

/// The least fault of what a line says by itself.
fn own_fault(scope: Scope, says: &Says) -> Option<FaultKind>
    ensures { IsOwnFault (scope_of scope.entry) (says_of says.now) result }
{
    if !is_aligned(scope.words.narrow, says) {
        return Some(FaultKind::Align);
    }
    if !is_range(says) {
        return Some(FaultKind::Range);
    }
    if !is_version(scope, says) {
        return Some(FaultKind::Version);
    }
    if !is_new(scope, says) {
        return Some(FaultKind::Const);
    }
    None
}

/// The least fault of tokens alone.
fn token_fault(is_second: bool, tokens: &[Token]) -> Option<FaultKind>
    ensures { IsTokenFault is_second tokens.now result }
{
    if has_byte_fault(tokens) {
        return Some(FaultKind::Byte);
    }
    if has_text_fault(tokens) {
        return Some(FaultKind::Token);
    }
    if has_number_fault(tokens) {
        return Some(FaultKind::Number);
    }
    if depth(is_second, tokens) > 64 {
        return Some(FaultKind::Depth);
    }
    None
}

/// Whether a word begins lines of this text.
fn begins(scope: Scope, word: LineWord) -> bool
    ensures { result ≡ begins_lines scope.entry.is_second (scopes.reads_frames (dialect_of scope.entry.words.dialect)) word }
{
    match word {
        LineWord::Const => scope.is_second,
        LineWord::Loaded => scope.is_second,
        LineWord::Frame(_) => may_frame(scope),
        _ => true,
    }
}

/// Whether tokens begin with none of the words that begin lines.
fn begins_badly(scope: Scope, tokens: &[Token]) -> bool
    ensures { IsTrue result ↔ BeginsBadly (scope_of scope.entry) (tokens_view tokens.now) }
{
    let Some((first, _)) = tokens.split_first() else {
        return false;
    };
    match line_word(first) {
        Some(word) => !begins(scope, word),
        None => true,
    }
}

/// Why tokens say nothing as they must be read: of the grammar, of the names, of what they say but for the names and numbers of an `all`, or of an `all`.
fn refusal<'a>(
    alloc: Global,
    scope: Scope<'a, '_>,
    tokens: &[Token<'a>],
) -> Result<FaultKind, AllocError>
    requires { AreGood tokens.now }
    ensures { IfOk result (λ k. IsRefusal (scope_of scope.entry) (tokens_view tokens.now) k) }
{
    if begins_badly(scope, tokens) {
        return Ok(FaultKind::Word);
    }
    let Some(_says) = said(alloc, loose(scope), tokens)? else {
        return Ok(FaultKind::Syntax);
    };
    let Some(says) = said(alloc, lenient(scope), tokens)? else {
        return Ok(FaultKind::Name);
    };
    match own_fault(scope, &says) {
        Some(fault) => Ok(fault),
        None => Ok(FaultKind::All),
    }
}

/// What a line says by its tokens, or its least fault but for its length.
fn judge_tokens<'a>(
    alloc: Global,
    scope: Scope<'a, '_>,
    tokens: &[Token<'a>],
) -> Result<Result<Says<'a>, FaultKind>, AllocError>
    requires { (scope_of scope).mode ≡ scopes.Strict }
    ensures { IfOk result (λ r. (number : ℕ) (text : List ℕ) → number ≤ line_limit scope.entry.is_second → length text ≤ 1024 →
        tokens_view tokens.now ≡ map capped (tokens_of text) → IsJudged (scope_of scope.entry) number text r) }
{
    if let Some(fault) = token_fault(scope.is_second, tokens) {
        return Ok(Err(fault));
    }
    let Some(says) = said(alloc, scope, tokens)? else {
        let fault = refusal(alloc, scope, tokens)?;
        return Ok(Err(fault));
    };
    match own_fault(scope, &says) {
        Some(fault) => Ok(Err(fault)),
        None => Ok(Ok(says)),
    }
}

/// How many lines a text may have.
fn limit(is_second: bool) -> u32
    ensures { result ≡ line_limit is_second }
{
    if is_second { 4097 } else { 4096 }
}

/// Whether a line may stand in its text: no invariant and no line of a contract, where the function is compared.
pub(crate) fn is_alone(scope: Scope, says: &Says) -> bool
    ensures { IsTrue result ↔ IsAlone (scope_of scope.entry) (says_of says.now) }
{
    match scope.words.dialect {
        Dialect::Paired => !is_framed(says),
        Dialect::Plain => true,
        Dialect::Framed => true,
    }
}

/// What a line says, or its least fault but for those that are told by lines before it or that it has in the notes of a pair alone; `number` counts lines from
/// 1.
pub(crate) fn judge<'a>(
    alloc: Global,
    scope: Scope<'a, '_>,
    number: u32,
    text: &'a [u8],
) -> Result<Result<Says<'a>, FaultKind>, AllocError>
    requires { (scope_of scope).mode ≡ scopes.Strict }
    ensures { IfOk result (λ r. IsJudged (scope_of scope.entry) number text.now r) }
{
    if number > limit(scope.is_second) {
        return Ok(Err(FaultKind::Limit));
    }
    if text.len() > 1024 {
        return Ok(Err(FaultKind::Limit));
    }
    let tokens = tokens(alloc, text)?;
    let judged = judge_tokens(alloc, scope, &tokens)?;
    Ok(judged)
}
