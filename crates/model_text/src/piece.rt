//! The tokens of a sort that is looked for.
ghost use Rattle.std.specs.Prelude.{◌≡◌, map};
ghost use Rattle.std.specs.Option.{option_map};
ghost use Rattle.model_text.specs.Symbols.{pattern_of};
ghost use Rattle.model_spec.specs.ModelText.{array_sort};
ghost use Rattle.model_text.specs.Pieces.{piece_of, pieces_of, token_eq, matched, is_done};
ghost use Rattle.model_text.specs.Tokens.{token_of};

use crate::symbol::Symbol;
use crate::token::Token;

/// A token of a sort.
#[derive(Clone, Copy)]
pub(crate) enum Piece {
    Open,
    Close,
    Word(&'static [u8]),
}

const REGISTER: [Piece; 5] = [
    Piece::Open,
    Piece::Word(b"_"),
    Piece::Word(b"BitVec"),
    Piece::Word(b"32"),
    Piece::Close,
];

const FLAG: [Piece; 5] = [
    Piece::Open,
    Piece::Word(b"_"),
    Piece::Word(b"BitVec"),
    Piece::Word(b"1"),
    Piece::Close,
];

const CHOICE: [Piece; 5] = [
    Piece::Open,
    Piece::Word(b"_"),
    Piece::Word(b"BitVec"),
    Piece::Word(b"2"),
    Piece::Close,
];

const MEMORY: [Piece; 13] = [
    Piece::Open,
    Piece::Word(b"Array"),
    Piece::Open,
    Piece::Word(b"_"),
    Piece::Word(b"BitVec"),
    Piece::Word(b"32"),
    Piece::Close,
    Piece::Open,
    Piece::Word(b"_"),
    Piece::Word(b"BitVec"),
    Piece::Word(b"8"),
    Piece::Close,
    Piece::Close,
];

/// The tokens of the sort of memories.
pub(crate) fn memory_pieces() -> &'static [Piece]
    ensures { map piece_of result.now ≡ array_sort }
{
    &MEMORY
}

/// The tokens of the sort of a symbol.
pub(crate) fn pieces(symbol: Symbol) -> &'static [Piece]
    ensures { map piece_of result.now ≡ pattern_of symbol }
{
    match symbol {
        Symbol::Register { .. } => &REGISTER,
        Symbol::Flag { .. } => &FLAG,
        Symbol::Choice { .. } => &CHOICE,
        Symbol::Memory => &MEMORY,
        Symbol::OtherRegister => &REGISTER,
        Symbol::OtherFlag => &FLAG,
        Symbol::OtherMemory => &MEMORY,
    }
}

impl Piece {
    /// Whether it is this token.
    fn is(self, token: Token<'_>) -> bool
        ensures { result ≡ token_eq (piece_of self) (token_of token.entry) }
    {
        match self {
            Piece::Open => token.is_open(),
            Piece::Close => token.is_close(),
            Piece::Word(word) => token.is_word(word),
        }
    }
}

/// What is left of a sort that is looked for behind one more token; nothing where the tokens are others.
pub(crate) fn matched(left: Option<&'static [Piece]>, token: Token<'_>) -> Option<&'static [Piece]>
    ensures { pieces_of result ≡ matched (pieces_of left.entry) (token_of token.entry) }
{
    let (first, rest) = left?.split_first()?;
    if first.is(token) { Some(rest) } else { None }
}

/// Whether the tokens were all of those of the sort.
pub(crate) fn is_done(left: Option<&'static [Piece]>) -> bool
    ensures { result ≡ is_done (pieces_of left.entry) }
{
    match left {
        Some(rest) => rest.is_empty(),
        None => false,
    }
}
