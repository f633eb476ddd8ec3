//! The tokens of an answer (SMT-LIB 2.6, section 3.1).
ghost use Rattle.std.specs.Prelude.{◌≡◌};
ghost use Rattle.model_spec.specs.ModelText.{is_symbol};
ghost use Rattle.model_text.specs.Tokens.{token_of, is_open, is_close, is_bad, is_the_word, is_name, is_index, name_text};

use line_tokens::is_decimal;

/// A token.
#[derive(Clone, Copy)]
pub(crate) enum Token<'a> {
    Open,
    Close,
    /// A symbol, a number, a constant or a keyword.
    Word(&'a [u8]),
    /// A quoted symbol, by what stands between the bars.
    Quoted(&'a [u8]),
    /// A string.
    Text,
    /// A byte that begins no token, or a quoted symbol or a string without its end.
    Bad,
}

/// A token with the number of the line on which it begins.
#[derive(Clone, Copy)]
pub(crate) struct Placed<'a> {
    pub(crate) line: u64,
    pub(crate) token: Token<'a>,
}

/// Whether a word is a symbol: it begins with no digit, `#` or colon, as numbers, constants and keywords do.
fn is_symbol(word: &[u8]) -> bool
    ensures { result ≡ is_symbol word.now }
{
    match word {
        [] => false,
        [first, ..] => !((b'0' <= *first && *first <= b'9') || *first == b'#' || *first == b':'),
    }
}

impl<'a> Token<'a> {
    /// Whether it is an opening bracket.
    pub(crate) fn is_open(self) -> bool
        ensures { result ≡ is_open (token_of self.entry) }
    {
        matches!(self, Token::Open)
    }

    /// Whether it is a closing bracket.
    pub(crate) fn is_close(self) -> bool
        ensures { result ≡ is_close (token_of self.entry) }
    {
        matches!(self, Token::Close)
    }

    /// Whether it is no token.
    pub(crate) fn is_bad(self) -> bool
        ensures { result ≡ is_bad (token_of self.entry) }
    {
        matches!(self, Token::Bad)
    }

    /// Whether it is this word.
    pub(crate) fn is_word(self, wanted: &[u8]) -> bool
        ensures { result ≡ is_the_word wanted.now (token_of self.entry) }
    {
        match self {
            Token::Word(word) => word == wanted,
            _ => false,
        }
    }

    /// Whether it is a name: a symbol, quoted or not.
    pub(crate) fn is_name(self) -> bool
        ensures { result ≡ is_name (token_of self.entry) }
    {
        match self {
            Token::Word(word) => is_symbol(word),
            Token::Quoted(_) => true,
            _ => false,
        }
    }

    /// The text of a name.
    pub(crate) fn name(self) -> &'a [u8]
        ensures { result.now ≡ name_text (token_of self.entry) }
    {
        match self {
            Token::Word(word) => word,
            Token::Quoted(word) => word,
            _ => &[],
        }
    }

    /// Whether it is an index: a number or a name.
    pub(crate) fn is_index(self) -> bool
        ensures { result ≡ is_index (token_of self.entry) }
    {
        match self {
            Token::Word(word) => is_decimal(word) || is_symbol(word),
            Token::Quoted(_) => true,
            _ => false,
        }
    }
}
