//! The symbol by which an address is told.
ghost use Rattle.std.specs.Prelude.{◌≡◌, slice_index, take_while};
ghost use Rattle.std.specs.Option.{option_map};
ghost use Rattle.symbol_table.specs.Labels.{is_telling, label_at, nearer, reaches};
ghost use Rattle.symbol_table.specs.Symbols.{name_of};
ghost use Rattle.symbol_table.specs.Views.{symbol_of, table_of};

use crate::names::{byte_at, name_of};
use crate::symbol::Symbol;

/// A symbol by which an address is told.
#[derive(Clone, Copy)]
pub struct Label<'a> {
    /// One byte at least, of which none is NUL.
    pub name: &'a [u8],
    /// The address at which it stands; that of a Thumb function is odd.
    pub value: u32,
}

/// Whether the name in front of a text tells a place: it has a byte, and is none of a mapping symbol or of a label within a function.
fn is_telling(text: &[u8]) -> bool
    ensures { result ≡ is_telling (name_of text.now) }
{
    let first = byte_at(text, 0);
    if first == 0 {
        return false;
    }
    first != b'$' && first != b'.'
}

/// Whether a symbol may tell an address.
fn reaches(address: u32, symbol: Symbol) -> bool
    ensures { result ≡ reaches address (symbol_of symbol.entry) }
{
    is_telling(symbol.text) && symbol.value <= address
}

/// The symbol that tells an address so far, and another one.
fn nearer<'a>(address: u32, found: Option<Symbol<'a>>, symbol: Symbol<'a>) -> Option<Symbol<'a>>
    ensures { option_map symbol_of result ≡ nearer address (option_map symbol_of found.entry) (symbol_of symbol.entry) }
{
    if !reaches(address, symbol) {
        return found;
    }
    match found {
        None => Some(symbol),
        Some(other) => {
            if other.value < symbol.value {
                Some(symbol)
            } else {
                Some(other)
            }
        }
    }
}

/// The symbol that tells an address.
pub(crate) fn nearest_below<'a>(symbols: &[Symbol<'a>], address: u32) -> Option<Symbol<'a>>
    ensures { option_map symbol_of result ≡ label_at address (table_of symbols.now) }
{
    let mut found: Option<Symbol<'a>> = None;
    for symbol in symbols {
        found = nearer(address, found, *symbol);
    }
    found
}
