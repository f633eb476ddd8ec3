//! A table of symbols, and what a name finds in it.
ghost use Rattle.std.specs.Prelude.{◌≡◌, ◌==◌, find};
ghost use Rattle.std.specs.Option.{option_map};
ghost use Rattle.symbol_table.specs.Symbols.{agree, lookup, most_shared, nearest, shared};
ghost use Rattle.symbol_table.specs.Views.{symbol_of, table_of};
ghost use Rattle.symbol_table.specs.Founds.{found_of, label_of};
ghost use Rattle.symbol_table.specs.Labels.{label_at};

use crate::labels::{Label, nearest_below};
use crate::names::{is_named, name_of, shared};
use crate::symbol::Symbol;
use std::marker::Model;

/// The symbols of a file, in the file's order. In contracts it is their list.
#[derive(Drop)]
pub struct SymbolTable<'a> {
    pub(crate) symbols: Vec<Symbol<'a>>,
}

impl<'a> Model for SymbolTable<'a> {
    ghost use Rattle.std.specs.Prelude.{List};
    ghost use Rattle.symbol_table.specs.Symbols.{Symbol as AnySymbol};
    ghost use Rattle.symbol_table.specs.Views.{table_of};

    ghost Value = { List AnySymbol };

    ghost view = { λ t. table_of t.symbols.items };
}

/// What a name finds.
#[derive(Clone, Copy)]
pub enum Found<'a> {
    /// No symbol has the name. The name of the first symbol that shares most bytes with it from the front on, where one shares any.
    Missing(Option<&'a [u8]>),
    /// The symbols of the name have this value and this size in bytes.
    One { value: u32, size: u32 },
    /// Two symbols of the name have different values or sizes.
    Ambiguous,
}

/// The most bytes that a symbol's name shares with a name.
fn most_shared(symbols: &[Symbol], name: &[u8]) -> usize
    ensures { result ≡ most_shared name.now (table_of symbols.now) }
{
    let mut most = 0;
    for symbol in symbols {
        most = shared(name, symbol.text).max(most);
    }
    most
}

/// The first name that shares so much with a name.
fn first_sharing<'a>(symbols: &[Symbol<'a>], name: &[u8], most: usize) -> Option<&'a [u8]>
    ensures { option_map (λ n. n.now) result ≡ option_map (λ s. s.name) (find (λ s. shared name.now s.name == most) (table_of symbols.now)) }
{
    for symbol in symbols {
        if shared(name, symbol.text) == most {
            return Some(name_of(symbol.text));
        }
    }
    None
}

/// The first name that shares most with a name, where one shares something.
fn nearest<'a>(symbols: &[Symbol<'a>], name: &[u8]) -> Option<&'a [u8]>
    ensures { option_map (λ n. n.now) result ≡ nearest name.now (table_of symbols.now) }
{
    let most = most_shared(symbols, name);
    if most == 0 {
        return None;
    }
    first_sharing(symbols, name, most)
}

/// Whether two symbols have one value and one size.
fn agree(s: Symbol, t: Symbol) -> bool
    ensures { result ≡ agree (symbol_of s.entry) (symbol_of t.entry) }
{
    s.value == t.value && s.size == t.size
}

/// What a name finds among symbols.
fn look_up<'a>(symbols: &[Symbol<'a>], name: &[u8]) -> Found<'a>
    ensures { found_of result ≡ lookup name.now (table_of symbols.now) }
{
    let mut first: Option<Symbol<'a>> = None;
    for symbol in symbols {
        if is_named(symbol.text, name) {
            match first {
                None => first = Some(*symbol),
                Some(one) => {
                    if !agree(one, *symbol) {
                        return Found::Ambiguous;
                    }
                }
            }
        }
    }
    match first {
        None => Found::Missing(nearest(symbols, name)),
        Some(one) => Found::One {
            value: one.value,
            size: one.size,
        },
    }
}

impl<'a> SymbolTable<'a> {
    /// What a name finds: the value and the size of the symbol of that name. Several symbols of one name count as one where their values and sizes agree.
    /// The value is as it stands in the file, so that of a Thumb function is odd. It takes time by the number of symbols and the length of the name.
    pub fn find(&self, name: &[u8]) -> Found<'a>
        ensures { found_of result ≡ lookup name.now self.now }
    {
        look_up(&self.symbols, name)
    }

    /// The symbol by which an address is told: of those with the greatest value that is not above the address the first, among symbols whose names have a byte
    /// and do not begin with a dollar sign or a dot, as those of mapping symbols and of labels within a function do. It takes time by the number of symbols.
    pub fn label_at(&self, address: u32) -> Option<Label<'a>>
        ensures { option_map label_of result ≡ option_map (λ s. (s.name, s.value)) (label_at address self.now) }
    {
        match nearest_below(&self.symbols, address) {
            None => None,
            Some(symbol) => Some(Label {
                name: name_of(symbol.text),
                value: symbol.value,
            }),
        }
    }
}
