//! What one line says.
ghost use Rattle.std.specs.Prelude.{◌≡◌, ◌≤◌, ◌<◌, ◌+◌, ◌↔◌, ℕ, List, All, IfOk, IfSome, IfNone, IsTrue};
ghost use Rattle.bilv_spec.specs.Notes.{Expr};
ghost use Rattle.notes_spec.specs.NotesGrammar.{IsGood};
ghost use Rattle.pair_spec.specs.Links.{AreNamed, HasForm, two_names, two_numbers};
ghost use Rattle.line_tokens.specs.Tokens.{token_of};
ghost use Rattle.notes_lang.specs.Parsing.{layout_names};
ghost use Rattle.notes_lang.specs.Reading.{tokens_view};
ghost use Rattle.links_lang.specs.Views.{AreOfForms, IsLinkOf, named_of};
ghost use Rattle.links_lang.specs.Naming.{is_flag};
ghost use Rattle.links_lang.specs.Telling.{IsJudged, IsTold, names_word, range_word, three_tokens};

use crate::faults::LinkFault;
use crate::links::{Link, Named};
use crate::names::named;
use line_tokens::{Token, tokens};
use start_value::Layout;
use std::alloc::{AllocError, Global};

/// Whether it is a flag.
fn is_flag(named: Named) -> bool
    ensures { result ≡ is_flag named }
{
    match named {
        Named::Flag(_) => true,
        _ => false,
    }
}

/// What two words name on two machines, both registers or both flags.
fn pair(first: Layout, second: Layout, left: &[u8], right: &[u8]) -> Option<(Named, Named)>
    ensures some { IfSome result (λ p. AreNamed (layout_names first) (layout_names second) left.now right.now (named_of p.0) (named_of p.1)) }
    ensures none { IfNone result ((x y : Expr) → ¬ AreNamed (layout_names first) (layout_names second) left.now right.now x y) }
    ensures forms { IfSome result (λ p. AreOfForms first second p.0 p.1) }
{
    let x = named(first, left)?;
    let y = named(second, right)?;
    if is_flag(x) != is_flag(y) {
        return None;
    }
    Some((x, y))
}

/// When the states stand that a line speaks of.
#[derive(Clone, Copy)]
enum Moment {
    Entry,
    Exit,
}

/// The moment of a word that two names follow.
fn names_moment(word: &[u8]) -> Option<Moment>
    ensures some { IfSome result (λ m. word.now ≡ names_word m) }
    ensures none { IfNone result ((v w : List ℕ) → ¬ HasForm (two_names word.now v w)) }
{
    if word == b"in".as_slice() {
        return Some(Moment::Entry);
    }
    if word == b"out".as_slice() {
        return Some(Moment::Exit);
    }
    None
}

/// The moment of a word that two numbers follow.
fn range_moment(word: &[u8]) -> Option<Moment>
    ensures some { IfSome result (λ m. word.now ≡ range_word m) }
    ensures none { IfNone result ((a b : ℕ) → ¬ HasForm (two_numbers word.now a b)) }
{
    if word == b"share".as_slice() {
        return Some(Moment::Entry);
    }
    if word == b"same".as_slice() {
        return Some(Moment::Exit);
    }
    None
}

/// What a word and two names say.
fn names_said(
    first: Layout,
    second: Layout,
    line: u32,
    word: &[u8],
    left: &[u8],
    right: &[u8],
) -> Result<Option<Link>, LinkFault>
    ensures told { IsTold first second line (two_names word.now left.now right.now) result }
    ensures form { IfOk result (λ o. IfSome o (λ l. IsLinkOf first second l)) }
{
    let Some(moment) = names_moment(word) else {
        return Err(LinkFault::Syntax);
    };
    let Some((first, second)) = pair(first, second, left, right) else {
        return Err(LinkFault::Name);
    };
    match moment {
        Moment::Entry => Ok(Some(Link::Entry {
            line,
            first,
            second,
        })),
        Moment::Exit => Ok(Some(Link::Exit {
            line,
            first,
            second,
        })),
    }
}

/// Whether a range has 1 to 256 bytes.
fn is_range(low: u32, high: u32) -> bool
    ensures { IsTrue result ↔ ((low ≤ high) × (high < low + 256)) }
{
    if low > high {
        return false;
    }
    high - low < 256
}

/// What a word and two numbers say.
fn range_said(line: u32, word: &[u8], low: u32, high: u32) -> Result<Option<Link>, LinkFault>
    ensures told { (first second : Layout) → IsTold first second line (two_numbers word.now low high) result }
    ensures form { (first second : Layout) → IfOk result (λ o. IfSome o (λ l. IsLinkOf first second l)) }
{
    let Some(moment) = range_moment(word) else {
        return Err(LinkFault::Syntax);
    };
    if !is_range(low, high) {
        return Err(LinkFault::Range);
    }
    match moment {
        Moment::Entry => Ok(Some(Link::Share { line, low, high })),
        Moment::Exit => Ok(Some(Link::Same { line, low, high })),
    }
}

/// What three tokens say.
fn three_said(
    first: Layout,
    second: Layout,
    line: u32,
    word: Token,
    left: Token,
    right: Token,
) -> Result<Option<Link>, LinkFault>
    requires left { IsGood (token_of left) }
    requires right { IsGood (token_of right) }
    ensures told { IsTold first second line (three_tokens word.entry left.entry right.entry) result }
    ensures form { IfOk result (λ o. IfSome o (λ l. IsLinkOf first second l)) }
{
    let Token::Name(word) = word else {
        return Err(LinkFault::Syntax);
    };
    match left {
        Token::Name(left) => {
            let Token::Name(right) = right else {
                return Err(LinkFault::Syntax);
            };
            names_said(first, second, line, word, left, right)
        }
        Token::Number(low) => {
            let Token::Number(high) = right else {
                return Err(LinkFault::Syntax);
            };
            range_said(line, word, low, high)
        }
        _ => Err(LinkFault::Syntax),
    }
}

/// What tokens say that a line may have.
fn said(
    first: Layout,
    second: Layout,
    line: u32,
    tokens: &[Token],
) -> Result<Option<Link>, LinkFault>
    requires { All (λ t. IsGood (token_of t)) tokens.now }
    ensures told { IsTold first second line (tokens_view tokens.now) result }
    ensures form { IfOk result (λ o. IfSome o (λ l. IsLinkOf first second l)) }
{
    if tokens.is_empty() {
        return Ok(None);
    }
    if tokens.len() != 3 {
        return Err(LinkFault::Syntax);
    }
    three_said(first, second, line, tokens[0], tokens[1], tokens[2])
}

/// Whether a line may have a token.
fn is_good(token: &Token) -> bool
    ensures { IsTrue result ↔ IsGood (token_of token.now) }
{
    match token {
        Token::Number(n) => {
            let _below = *n;
            true
        }
        Token::Name(_) | Token::Sign(_) => true,
        Token::TooLarge | Token::BadByte | Token::BadText => false,
    }
}

/// Whether a line may have all of these tokens.
fn are_good(tokens: &[Token]) -> bool
    ensures { IsTrue result ↔ All (λ t. IsGood (token_of t)) tokens.now }
{
    tokens.iter().all(|token| is_good(token))
}

/// What the line of a number says, or the least of its faults; lines are counted from 1.
///
/// # Errors
///
/// Where memory runs out.
pub(crate) fn judge(
    alloc: Global,
    first: Layout,
    second: Layout,
    line: u32,
    text: &[u8],
) -> Result<Result<Option<Link>, LinkFault>, AllocError>
    ensures judged { IfOk result (λ r. IsJudged first second line text.now r) }
    ensures form { IfOk result (λ r. IfOk r (λ o. IfSome o (λ l. IsLinkOf first second l))) }
{
    if line > 256 || text.len() > 1024 {
        return Ok(Err(LinkFault::Limit));
    }
    let tokens = tokens(alloc, text)?;
    if !are_good(&tokens) {
        return Ok(Err(LinkFault::Limit));
    }
    let said = said(first, second, line, &tokens);
    Ok(said)
}
