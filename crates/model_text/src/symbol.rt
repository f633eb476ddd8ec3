//! The symbols that a script declares.
ghost use Rattle.std.specs.Prelude.{◌≡◌, ◌≤◌, ◌<◌, ◌+◌, length, map, option_map, Some, IfSome};
ghost use Rattle.word_spec.specs.Texts.{at_most, decimal_word};
ghost use Rattle.machine_spec.specs.StateText.{place_in};
ghost use Rattle.notes_value.specs.FrameViews.{is_in};
ghost use Rattle.start_value.specs.Starts.{layout_of};
ghost use Rattle.model_text.specs.Symbols.{choice_number, choice_symbol, cut, drawn_choice, gift_at, gift_symbol, gift_symbol_if, gift_value, head_symbol, mark_in, other_symbol, step_symbol, symbol_if, symbol_in, is_memory, count_of, IsNamed};

use line_tokens::decimal_at_most;
use start_value::Layout;

/// A symbol that a script declares. The registers, the flags and the choices have places: the registers and the flags as in a state text, and behind them the
/// choices of all points by their numbers.
#[derive(Clone, Copy)]
pub(crate) enum Symbol {
    /// A word of 32 bits.
    Register { place: usize },
    /// A word of one bit.
    Flag { place: usize },
    /// A word of two bits.
    Choice { place: usize },
    /// An array of bytes at words of 32 bits.
    Memory,
    /// A word of 32 bits of a head state, or of what a contract step is given.
    OtherRegister,
    /// A word of one bit of them.
    OtherFlag,
    /// An array of them, as the memory is.
    OtherMemory,
}

/// What of a state a script declares beside the entry's.
#[derive(Clone, Copy)]
pub struct Gift {
    /// The numbers of its registers, a bit for each.
    pub registers: u32,
    /// The numbers of its flags, a bit for each.
    pub flags: u8,
    /// Whether it has the memory.
    pub memory: bool,
}

/// What else the script of a question declares where notes have invariants or contracts.
#[derive(Drop)]
pub struct Others {
    /// What of a head state, if there is one.
    pub head: Option<Gift>,
    /// What the contract steps of points are given, by the points' numbers; none where a point makes none.
    pub given: Vec<Option<Gift>>,
}

/// The place of a name among names.
fn place_in(names: &[&[u8]], word: &[u8]) -> Option<usize>
    ensures { result ≡ place_in (map (λ name. name.now) names.now) word.now }
{
    for (place, name) in names.iter().enumerate() {
        if word == *name {
            return Some(place);
        }
    }
    None
}

/// The choice of a number, if it is that of a point whose row reads the choice.
fn drawn_choice(layout: Layout, drawn: &[bool], number: usize) -> Option<Symbol>
    ensures { result ≡ drawn_choice (layout_of layout) drawn.now number }
{
    if number < drawn.len() && drawn[number] {
        let place = layout.names().len() + number;
        return Some(Symbol::Choice { place });
    }
    None
}

/// The number behind the `c` of a name, if the name is that and a decimal number, and the number is not above a bound.
fn choice_number(bound: u64, name: &[u8]) -> Option<u64>
    ensures value { result ≡ at_most bound (choice_number name.now) }
    ensures within { IfSome result (λ n. n ≤ bound) }
{
    match name {
        [b'c', digits @ ..] => decimal_at_most(bound, digits),
        _ => None,
    }
}

/// The choice that a name says: `c` and a decimal number.
fn choice_of(layout: Layout, drawn: &[bool], name: &[u8]) -> Option<Symbol>
    ensures { result ≡ choice_symbol (layout_of layout) drawn.now (choice_number name.now) }
{
    let number = choice_number(drawn.len() as u64, name)?;
    drawn_choice(layout, drawn, number as usize)
}

/// Whether a number is in a set that has a bit for each.
fn is_in(set: u32, number: u8) -> bool
    requires { number < 32 }
    ensures { result ≡ is_in set number }
{
    (set >> number) % 2 == 1
}

/// A symbol, if a gift has it.
fn symbol_if(has: bool, symbol: Symbol) -> Option<Symbol>
    ensures { result ≡ symbol_if has symbol }
{
    if has { Some(symbol) } else { None }
}

/// What a gift has by a place among the registers and flags.
fn gift_value(layout: Layout, gift: Gift, place: usize) -> Option<Symbol>
    requires { place < length (layout_of layout).registers + length (layout_of layout).flags }
    ensures { result ≡ gift_value (layout_of layout) gift (Some place) }
{
    let count = layout.register_count();
    prove!(count <= 31);
    if place < count {
        let (first, _) = layout.registers();
        return symbol_if(
            is_in(gift.registers, first + place as u8),
            Symbol::OtherRegister,
        );
    }
    let flag = layout.names().len() - 1 - place;
    symbol_if(is_in(u32::from(gift.flags), flag as u8), Symbol::OtherFlag)
}

/// What a gift has by a name.
fn gift_symbol(layout: Layout, gift: Gift, name: &[u8]) -> Option<Symbol>
    ensures { result ≡ gift_symbol (layout_of layout) gift name.now }
{
    if name == b"mem".as_slice() {
        return symbol_if(gift.memory, Symbol::OtherMemory);
    }
    let place = place_in(layout.names(), name)?;
    gift_value(layout, gift, place)
}

/// The same of a gift, if there is one.
fn gift_symbol_if(layout: Layout, gift: Option<Gift>, name: &[u8]) -> Option<Symbol>
    ensures { result ≡ gift_symbol_if (layout_of layout) gift name.now }
{
    match gift {
        None => None,
        Some(gift) => gift_symbol(layout, gift, name),
    }
}

/// The place of the first underscore, or the length.
fn mark_in(name: &[u8]) -> usize
    ensures mark { result ≡ mark_in name.now }
    ensures within { result ≤ length name.now }
{
    let mut place = 0usize;
    while place < name.len() {
        if name[place] == b'_' {
            return place;
        }
        place += 1;
    }
    place
}

/// What stands before the first underscore, and behind it.
fn cut(name: &[u8]) -> Option<(&[u8], &[u8])>
    ensures { option_map (λ p. (p.0.now, p.1.now)) result ≡ cut name.now }
{
    let (digits, rest) = name.split_at(mark_in(name));
    let (_, word) = rest.split_first()?;
    Some((digits, word))
}

/// The gift of a number in decimal digits, if there is one.
fn gift_at(given: &[Option<Gift>], digits: &[u8]) -> Option<Gift>
    ensures { result ≡ gift_at given.now (decimal_word digits.now) }
{
    let number = decimal_at_most(given.len() as u64, digits)? as usize;
    if number < given.len() {
        given[number]
    } else {
        None
    }
}

/// The symbol of what a step is given, by the name behind its letter.
fn step_symbol(layout: Layout, given: &[Option<Gift>], name: &[u8]) -> Option<Symbol>
    ensures { result ≡ step_symbol (layout_of layout) given.now (cut name.now) }
{
    let (digits, word) = cut(name)?;
    gift_symbol_if(layout, gift_at(given, digits), word)
}

/// The symbol of a head state, by the name behind its letter.
fn head_symbol(layout: Layout, head: Option<Gift>, name: &[u8]) -> Option<Symbol>
    ensures { result ≡ head_symbol (layout_of layout) head name.now }
{
    match name {
        [b'_', word @ ..] => gift_symbol_if(layout, head, word),
        _ => None,
    }
}

/// The symbol of a head state or of what a step is given.
fn other_symbol(layout: Layout, others: &Others, name: &[u8]) -> Option<Symbol>
    ensures { result ≡ other_symbol (layout_of layout) others.now name.now }
{
    match name {
        [b'h', rest @ ..] => head_symbol(layout, others.head, rest),
        [b'g', rest @ ..] => step_symbol(layout, &others.given, rest),
        _ => None,
    }
}

/// The symbol of a name, if the script of a question declares it: the registers and flags of a layout, the memory, the choices of those points by their numbers
/// whose rows read the choice, and others.
pub(crate) fn symbol_of(
    layout: Layout,
    drawn: &[bool],
    others: &Others,
    name: &[u8],
) -> Option<Symbol>
    ensures named { IfSome result (λ s. IsNamed (layout_of layout) (count_of (layout_of layout) drawn.now) s name.now) }
    ensures symbol { result ≡ symbol_in (layout_of layout) drawn.now others.now name.now }
{
    if name == b"mem".as_slice() {
        return Some(Symbol::Memory);
    }
    let Some(place) = place_in(layout.names(), name) else {
        if let Some(choice) = choice_of(layout, drawn, name) {
            return Some(choice);
        }
        return other_symbol(layout, others, name);
    };
    if place < layout.register_count() {
        Some(Symbol::Register { place })
    } else {
        Some(Symbol::Flag { place })
    }
}

impl Symbol {
    /// Whether it is the memory.
    pub(crate) fn is_memory(self) -> bool
        ensures { result ≡ is_memory self }
    {
        matches!(self, Symbol::Memory | Symbol::OtherMemory)
    }
}
