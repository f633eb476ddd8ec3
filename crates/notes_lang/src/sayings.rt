//! What one line of notes says.
ghost use Rattle.std.specs.Prelude.{◌≡◌, ◌∷◌, [], ℕ, List, codes, map, IfOk, IfSome};
ghost use Rattle.notes_spec.specs.Scopes as scopes;
ghost use Rattle.notes_spec.specs.NotesGrammar as grammar;
ghost use Rattle.notes_spec.specs.NotesGrammar.{AreChanged, AreNumbers, IsSaid, MayFrame, Parses};
ghost use Rattle.word_spec.specs.Tokens.{NameToken, NumberToken};
ghost use Rattle.notes_value.specs.Views.{expr_of};
ghost use Rattle.notes_lang.specs.Reading.{AreGood, tokens_view};
ghost use Rattle.notes_lang.specs.Saying.{BeginsWith, IsAddressed, IsCounted, IsOne, Tells, says_of};
ghost use Rattle.notes_lang.specs.Scoping.{changed_of, scope_of};
ghost use Rattle.notes_lang.specs.Wording.{frame_word_text, word_text};

use crate::line_words::{FrameWord, LineWord, line_word};
use crate::notes::Function;
use crate::parser::read;
use crate::scopes::{Changed, Scope, change, may_frame, number};
use line_tokens::Token;
use notes_value::Expr;
use std::alloc::{AllocError, Global};

/// What a line says.
#[derive(Drop)]
pub(crate) enum Says<'a> {
    Nothing,
    Entry(Function),
    Require(Expr),
    Ensure(Expr),
    Assert(u32, Expr),
    Targets(u32, Vec<u32>),
    Fixed(u32, u32),
    /// The line of a version, which names version 2 or does not.
    Version(bool),
    Const(&'a [u8], u32),
    Loaded,
    Invariant(u32, Expr),
    /// A line of the contract of an address.
    Contract(u32, ContractLine),
}

/// What a line says of the contract of an address.
#[derive(Drop)]
pub(crate) enum ContractLine {
    Needs(Expr),
    Gives(Expr),
    Modifies(Vec<Changed>),
    /// So many bytes from the value on may be written.
    Writes(Expr, u32),
}

/// The expression that all of the tokens are.
fn expression<'a>(
    alloc: Global,
    scope: Scope<'a, '_>,
    tokens: &[Token<'a>],
) -> Result<Option<Expr>, AllocError>
    requires { AreGood tokens.now }
    ensures { IfOk result (λ o. Tells expr_of (λ e. Parses (scope_of scope.entry) 1 (tokens_view tokens.now) e) o) }
{
    let Some(all) = read(alloc, scope, 1, tokens)? else {
        return Ok(None);
    };
    if !all.rest.is_empty() {
        return Ok(None);
    }
    Ok(Some(all.expr))
}

/// The number with which tokens begin, and the tokens after it.
fn number_first<'t, 'a>(scope: Scope, tokens: &'t [Token<'a>]) -> Option<(u32, &'t [Token<'a>])>
    requires { AreGood tokens.now }
    ensures tells { Tells (λ p. (p.0, tokens_view p.1.now)) (BeginsWith (scope_of scope.entry) (tokens_view tokens.now)) result }
    ensures good { IfSome result (λ p. AreGood p.1.now) }
{
    let (first, rest) = tokens.split_first()?;
    let n = number(scope, first)?;
    Some((n, rest))
}

/// The number that all of the tokens are.
fn one_number(scope: Scope, tokens: &[Token]) -> Option<u32>
    requires { AreGood tokens.now }
    ensures { Tells (λ n. n) (IsOne (scope_of scope.entry) (tokens_view tokens.now)) result }
{
    match number_first(scope, tokens) {
        Some((n, rest)) => if rest.is_empty() { Some(n) } else { None },
        None => None,
    }
}

/// The name that all of the tokens are.
fn one_name<'a>(tokens: &[Token<'a>]) -> Option<&'a [u8]>
    ensures { Tells (λ w. w.now) (λ w. tokens_view tokens.now ≡ NameToken w ∷ []) result }
{
    match tokens.split_first()? {
        (Token::Name(word), rest) => if rest.is_empty() { Some(*word) } else { None },
        _ => None,
    }
}

/// The numbers that all of the tokens are.
fn numbers(alloc: Global, scope: Scope, tokens: &[Token]) -> Result<Option<Vec<u32>>, AllocError>
    requires { AreGood tokens.now }
    ensures { IfOk result (λ o. Tells (λ v. v.items) (AreNumbers (scope_of scope.entry) (tokens_view tokens.now)) o) }
{
    let mut numbers = Vec::new(alloc);
    for token in tokens {
        let Some(n) = number(scope, token) else {
            return Ok(None);
        };
        numbers.push(n)?;
    }
    Ok(Some(numbers))
}

/// An `entry` line, by the tokens after that word.
fn entry<'a>(scope: Scope, rest: &[Token<'a>]) -> Option<Says<'a>>
    requires { AreGood rest.now }
    ensures { Tells says_of (IsSaid (scope_of scope.entry) (NameToken (codes "entry") ∷ tokens_view rest.now)) result }
{
    match one_number(scope, rest) {
        Some(at) => Some(Says::Entry(Function::At(at))),
        None => None,
    }
}

/// A `function` line, by the tokens after that word.
fn function<'a>(alloc: Global, rest: &[Token<'a>]) -> Result<Option<Says<'a>>, AllocError>
    ensures { (s : scopes.Scope) → IfOk result (λ o. Tells says_of (IsSaid s (NameToken (codes "function") ∷ tokens_view rest.now)) o) }
{
    let Some(name) = one_name(rest) else {
        return Ok(None);
    };
    let mut owned = Vec::with_capacity(alloc, name.len())?;
    owned.extend_from_slice(name)?;
    Ok(Some(Says::Entry(Function::Named(owned))))
}

/// A `require` line, by the tokens after that word.
fn require<'a>(
    alloc: Global,
    scope: Scope<'a, '_>,
    rest: &[Token<'a>],
) -> Result<Option<Says<'a>>, AllocError>
    requires { AreGood rest.now }
    ensures { IfOk result (λ o. Tells says_of (IsSaid (scope_of scope.entry) (NameToken (codes "require") ∷ tokens_view rest.now)) o) }
{
    let Some(says) = expression(alloc, scope, rest)? else {
        return Ok(None);
    };
    Ok(Some(Says::Require(says)))
}

/// An `ensure` line, by the tokens after that word.
fn ensure<'a>(
    alloc: Global,
    scope: Scope<'a, '_>,
    rest: &[Token<'a>],
) -> Result<Option<Says<'a>>, AllocError>
    requires { AreGood rest.now }
    ensures { IfOk result (λ o. Tells says_of (IsSaid (scope_of scope.entry) (NameToken (codes "ensure") ∷ tokens_view rest.now)) o) }
{
    let Some(says) = expression(alloc, scope, rest)? else {
        return Ok(None);
    };
    Ok(Some(Says::Ensure(says)))
}

/// An address, and the expression that the tokens after it are.
fn address_and_expression<'a>(
    alloc: Global,
    scope: Scope<'a, '_>,
    tokens: &[Token<'a>],
) -> Result<Option<(u32, Expr)>, AllocError>
    requires { AreGood tokens.now }
    ensures { IfOk result (λ o. Tells (λ p. (p.0, expr_of p.1)) (IsAddressed (scope_of scope.entry) (tokens_view tokens.now)) o) }
{
    let Some((at, behind)) = number_first(scope, tokens) else {
        return Ok(None);
    };
    let Some(says) = expression(alloc, scope, behind)? else {
        return Ok(None);
    };
    Ok(Some((at, says)))
}

/// An `assert` line, by the tokens after that word.
fn assert<'a>(
    alloc: Global,
    scope: Scope<'a, '_>,
    rest: &[Token<'a>],
) -> Result<Option<Says<'a>>, AllocError>
    requires { AreGood rest.now }
    ensures { IfOk result (λ o. Tells says_of (IsSaid (scope_of scope.entry) (NameToken (codes "assert") ∷ tokens_view rest.now)) o) }
{
    let Some(told) = address_and_expression(alloc, scope, rest)? else {
        return Ok(None);
    };
    let (at, says) = told;
    Ok(Some(Says::Assert(at, says)))
}

/// A `targets` line, by the tokens after that word.
fn targets<'a>(
    alloc: Global,
    scope: Scope,
    rest: &[Token<'a>],
) -> Result<Option<Says<'a>>, AllocError>
    requires { AreGood rest.now }
    ensures { IfOk result (λ o. Tells says_of (IsSaid (scope_of scope.entry) (NameToken (codes "targets") ∷ tokens_view rest.now)) o) }
{
    let Some((at, behind)) = number_first(scope, rest) else {
        return Ok(None);
    };
    let Some(to) = numbers(alloc, scope, behind)? else {
        return Ok(None);
    };
    if to.is_empty() {
        return Ok(None);
    }
    Ok(Some(Says::Targets(at, to)))
}

/// A `fixed` line, by the tokens after that word.
fn fixed<'a>(scope: Scope, rest: &[Token<'a>]) -> Option<Says<'a>>
    requires { AreGood rest.now }
    ensures { Tells says_of (IsSaid (scope_of scope.entry) (NameToken (codes "fixed") ∷ tokens_view rest.now)) result }
{
    let Some((low, behind)) = number_first(scope, rest) else {
        return None;
    };
    match one_number(scope, behind) {
        Some(high) => Some(Says::Fixed(low, high)),
        None => None,
    }
}

/// Whether the number 2 is all of the tokens.
pub(crate) fn is_two(rest: &[Token]) -> bool
    ensures { result ≡ grammar.is_two (tokens_view rest.now) }
{
    let Some((first, others)) = rest.split_first() else {
        return false;
    };
    match first {
        Token::Number(n) => *n == 2 && others.is_empty(),
        _ => false,
    }
}

/// A name and a number that are all of the tokens.
fn name_and_number<'a>(tokens: &[Token<'a>]) -> Option<(&'a [u8], u32)>
    requires { AreGood tokens.now }
    ensures { Tells (λ p. (p.0.now, p.1)) (λ (p : List ℕ × ℕ). tokens_view tokens.now ≡ NameToken p.0 ∷ NumberToken p.1 ∷ []) result }
{
    let (first, behind) = tokens.split_first()?;
    let Token::Name(word) = first else {
        return None;
    };
    let (second, rest) = behind.split_first()?;
    let Token::Number(n) = second else {
        return None;
    };
    if rest.is_empty() {
        Some((*word, *n))
    } else {
        None
    }
}

/// A `const` line, by the tokens after that word.
fn constant<'a>(scope: Scope, rest: &[Token<'a>]) -> Option<Says<'a>>
    requires { AreGood rest.now }
    ensures { Tells says_of (IsSaid (scope_of scope.entry) (NameToken (codes "const") ∷ tokens_view rest.now)) result }
{
    if !scope.is_second {
        return None;
    }
    match name_and_number(rest) {
        Some((word, n)) => Some(Says::Const(word, n)),
        None => None,
    }
}

/// A `loaded` line, by the tokens after that word.
fn loaded<'a>(scope: Scope, rest: &[Token<'a>]) -> Option<Says<'a>>
    ensures { Tells says_of (IsSaid (scope_of scope.entry) (NameToken (codes "loaded") ∷ tokens_view rest.now)) result }
{
    if scope.is_second && rest.is_empty() {
        Some(Says::Loaded)
    } else {
        None
    }
}

/// An `invariant` line, by the tokens after that word.
fn invariant<'a>(
    alloc: Global,
    scope: Scope<'a, '_>,
    rest: &[Token<'a>],
) -> Result<Option<Says<'a>>, AllocError>
    requires good { AreGood rest.now }
    requires framed { MayFrame (scope_of scope) }
    ensures { IfOk result (λ o. Tells says_of (IsSaid (scope_of scope.entry) (NameToken (codes "invariant") ∷ tokens_view rest.now)) o) }
{
    let Some(told) = address_and_expression(alloc, scope, rest)? else {
        return Ok(None);
    };
    let (at, says) = told;
    Ok(Some(Says::Invariant(at, says)))
}

/// A `needs` line, by the tokens after that word.
fn needs<'a>(
    alloc: Global,
    scope: Scope<'a, '_>,
    rest: &[Token<'a>],
) -> Result<Option<Says<'a>>, AllocError>
    requires good { AreGood rest.now }
    requires framed { MayFrame (scope_of scope) }
    ensures { IfOk result (λ o. Tells says_of (IsSaid (scope_of scope.entry) (NameToken (codes "needs") ∷ tokens_view rest.now)) o) }
{
    let Some(told) = address_and_expression(alloc, scope, rest)? else {
        return Ok(None);
    };
    let (at, says) = told;
    Ok(Some(Says::Contract(at, ContractLine::Needs(says))))
}

/// A `gives` line, by the tokens after that word.
fn gives<'a>(
    alloc: Global,
    scope: Scope<'a, '_>,
    rest: &[Token<'a>],
) -> Result<Option<Says<'a>>, AllocError>
    requires good { AreGood rest.now }
    requires framed { MayFrame (scope_of scope) }
    ensures { IfOk result (λ o. Tells says_of (IsSaid (scope_of scope.entry) (NameToken (codes "gives") ∷ tokens_view rest.now)) o) }
{
    let Some(told) = address_and_expression(alloc, scope, rest)? else {
        return Ok(None);
    };
    let (at, says) = told;
    Ok(Some(Says::Contract(at, ContractLine::Gives(says))))
}

/// The registers and flags that all of the tokens are.
fn changes(
    alloc: Global,
    scope: Scope,
    tokens: &[Token],
) -> Result<Option<Vec<Changed>>, AllocError>
    ensures { IfOk result (λ o. Tells (λ v. map changed_of v.items) (AreChanged (scope_of scope.entry) (tokens_view tokens.now)) o) }
{
    let mut changes = Vec::new(alloc);
    for token in tokens {
        let Some(changed) = change(scope, token) else {
            return Ok(None);
        };
        changes.push(changed)?;
    }
    Ok(Some(changes))
}

/// A `modifies` line, by the tokens after that word.
fn modifies<'a>(
    alloc: Global,
    scope: Scope,
    rest: &[Token<'a>],
) -> Result<Option<Says<'a>>, AllocError>
    requires good { AreGood rest.now }
    requires framed { MayFrame (scope_of scope) }
    ensures { IfOk result (λ o. Tells says_of (IsSaid (scope_of scope.entry) (NameToken (codes "modifies") ∷ tokens_view rest.now)) o) }
{
    let Some((at, behind)) = number_first(scope, rest) else {
        return Ok(None);
    };
    let Some(changes) = changes(alloc, scope, behind)? else {
        return Ok(None);
    };
    if changes.is_empty() {
        return Ok(None);
    }
    Ok(Some(Says::Contract(at, ContractLine::Modifies(changes))))
}

/// The number with which tokens end, and the expression that the tokens before it are.
fn expression_and_number<'a>(
    alloc: Global,
    scope: Scope<'a, '_>,
    tokens: &[Token<'a>],
) -> Result<Option<(Expr, u32)>, AllocError>
    requires { AreGood tokens.now }
    ensures { IfOk result (λ o. Tells (λ p. (expr_of p.0, p.1)) (IsCounted (scope_of scope.entry) (tokens_view tokens.now)) o) }
{
    let Some((last, before)) = tokens.split_last() else {
        return Ok(None);
    };
    let Some(count) = number(scope, last) else {
        return Ok(None);
    };
    let Some(says) = expression(alloc, scope, before)? else {
        return Ok(None);
    };
    Ok(Some((says, count)))
}

/// A `writes` line, by the tokens after that word.
fn writes<'a>(
    alloc: Global,
    scope: Scope<'a, '_>,
    rest: &[Token<'a>],
) -> Result<Option<Says<'a>>, AllocError>
    requires good { AreGood rest.now }
    requires framed { MayFrame (scope_of scope) }
    ensures { IfOk result (λ o. Tells says_of (IsSaid (scope_of scope.entry) (NameToken (codes "writes") ∷ tokens_view rest.now)) o) }
{
    let Some((at, behind)) = number_first(scope, rest) else {
        return Ok(None);
    };
    let Some(told) = expression_and_number(alloc, scope, behind)? else {
        return Ok(None);
    };
    let (says, count) = told;
    Ok(Some(Says::Contract(at, ContractLine::Writes(says, count))))
}

/// What a line of an invariant or a contract says, by its word and the tokens after it.
fn behind_frame_word<'a>(
    alloc: Global,
    scope: Scope<'a, '_>,
    word: FrameWord,
    rest: &[Token<'a>],
) -> Result<Option<Says<'a>>, AllocError>
    requires { AreGood rest.now }
    ensures { IfOk result (λ o. Tells says_of (IsSaid (scope_of scope.entry) (NameToken (frame_word_text word) ∷ tokens_view rest.now)) o) }
{
    if !may_frame(scope) {
        return Ok(None);
    }
    match word {
        FrameWord::Invariant => invariant(alloc, scope, rest),
        FrameWord::Needs => needs(alloc, scope, rest),
        FrameWord::Gives => gives(alloc, scope, rest),
        FrameWord::Modifies => modifies(alloc, scope, rest),
        FrameWord::Writes => writes(alloc, scope, rest),
    }
}

/// What a line says, by its word and the tokens after it.
fn behind_word<'a>(
    alloc: Global,
    scope: Scope<'a, '_>,
    word: LineWord,
    rest: &[Token<'a>],
) -> Result<Option<Says<'a>>, AllocError>
    requires { AreGood rest.now }
    ensures { IfOk result (λ o. Tells says_of (IsSaid (scope_of scope.entry) (NameToken (word_text word) ∷ tokens_view rest.now)) o) }
{
    match word {
        LineWord::Entry => Ok(entry(scope, rest)),
        LineWord::Function => function(alloc, rest),
        LineWord::Require => require(alloc, scope, rest),
        LineWord::Ensure => ensure(alloc, scope, rest),
        LineWord::Assert => assert(alloc, scope, rest),
        LineWord::Targets => targets(alloc, scope, rest),
        LineWord::Fixed => Ok(fixed(scope, rest)),
        LineWord::Notes => Ok(Some(Says::Version(is_two(rest)))),
        LineWord::Const => Ok(constant(scope, rest)),
        LineWord::Loaded => Ok(loaded(scope, rest)),
        LineWord::Frame(word) => behind_frame_word(alloc, scope, word, rest),
    }
}

/// What a line says, or `None` where it says nothing that the grammar and the names allow.
pub(crate) fn said<'a>(
    alloc: Global,
    scope: Scope<'a, '_>,
    tokens: &[Token<'a>],
) -> Result<Option<Says<'a>>, AllocError>
    requires { AreGood tokens.now }
    ensures { IfOk result (λ o. Tells says_of (IsSaid (scope_of scope.entry) (tokens_view tokens.now)) o) }
{
    let Some((first, rest)) = tokens.split_first() else {
        return Ok(Some(Says::Nothing));
    };
    let Some(word) = line_word(first) else {
        return Ok(None);
    };
    let says = behind_word(alloc, scope, word, rest)?;
    Ok(says)
}
