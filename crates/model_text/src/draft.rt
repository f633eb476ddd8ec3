//! The definition that is read, as far as it was read.
ghost use Rattle.std.specs.Prelude.{◌≡◌, ◌<◌, ◌≤◌, ◌^◌, ◌==◌, ◌&&◌, nat_lt, true, [], List, ℕ, Some, OnOk};
ghost use Rattle.model_spec.specs.ModelText.{WordIs};
ghost use Rattle.model_text.specs.declared.bits.Bits.{Bits as BitsRead};
ghost use Rattle.model_text.specs.declared.place.Role.TheVariants.{Base, Fill, Byte};
ghost use Rattle.model_text.specs.Bits.{capped_bits};
ghost use Rattle.model_text.specs.Drafts.{IsDraft};
ghost use Rattle.model_text.specs.Symbols.{sort_of};
ghost use Rattle.model_text.specs.Tokens.{token_of};
ghost use Rattle.model_text.specs.Traces.{Trace, empty_trace, named, with_role, with_bits, drafted, is_of_sort};

use crate::bits::{Bits, BitsPlace};
use crate::piece::{Piece, is_done, matched, memory_pieces, pieces};
use crate::place::{Place, Role};
use crate::stores::Stored;
use crate::symbol::Symbol;
use crate::token::Token;
use std::alloc::{AllocError, Global};
use std::mem;

/// The last definition of a declared symbol, as far as it was read.
#[derive(Drop)]
pub(crate) struct Draft {
    pub(crate) symbol: Symbol,
    /// Its name, where it has no place.
    pub(crate) name: Vec<u8>,
    /// What is left of the tokens of the symbol's sort, if those of the definition's are the same so far.
    pub(crate) sort_left: Option<&'static [Piece]>,
    /// The same of the sort of the array with one value, which is that of memories.
    pub(crate) constant_left: Option<&'static [Piece]>,
    /// The last word of bits.
    pub(crate) bits: Bits,
    /// The last index.
    pub(crate) index: Bits,
    /// Whether the value so far is of the symbol's sort. If it is, its word is `number`, or its array is `stored`.
    pub(crate) good: bool,
    pub(crate) number: u32,
    pub(crate) stored: Stored,
}

impl Bits {
    /// Whether it is a word of a width, and below a bound.
    fn fits(self, width: u64, bound: u64) -> bool
        requires width { width < 2 ^ 32 }
        requires bound { bound ≤ 2 ^ 32 }
        ensures plain { result ≡ ((self.width == width) && nat_lt self.number bound) }
        ensures capped { (b : BitsRead) → self ≡ capped_bits b → result ≡ ((b.width == width) && nat_lt b.number bound) }
    {
        self.width == width && self.number < bound
    }

    /// Whether it is a value of a symbol that is no memory.
    fn fits_word(self, symbol: Symbol) -> bool
        ensures small { result ≡ true → self.number < 2 ^ 32 }
        ensures capped { (b : BitsRead) → self ≡ capped_bits b → result ≡ is_of_sort (sort_of symbol) (WordIs b.width b.number) }
    {
        match symbol {
            Symbol::Register { .. } => self.fits(32, 1 << 32),
            Symbol::Flag { .. } => self.fits(1, 2),
            Symbol::Choice { .. } => self.fits(2, 4),
            Symbol::Memory => false,
            Symbol::OtherRegister => self.fits(32, 1 << 32),
            Symbol::OtherFlag => self.fits(1, 2),
            Symbol::OtherMemory => false,
        }
    }
}

impl Draft {
    /// Of no definition.
    pub(crate) fn new(alloc: Global) -> Draft
        ensures { IsDraft result empty_trace }
    {
        let none = Bits {
            width: 0,
            number: 0,
        };
        Draft {
            symbol: Symbol::Memory,
            name: Vec::new(alloc),
            sort_left: Some(memory_pieces()),
            constant_left: Some(memory_pieces()),
            bits: none,
            index: none,
            good: false,
            number: 0,
            stored: Stored {
                fill: 0,
                stores: Vec::new(alloc),
            },
        }
    }

    /// Begins the definition of a symbol of a name. The error is want of memory.
    pub(crate) fn begin(&mut self, symbol: Symbol, name: &[u8]) -> Result<(), AllocError>
        ensures { (tr : Trace) → IsDraft self.old tr → OnOk result (IsDraft self.new (named (Some symbol) name.now tr)) }
    {
        self.symbol = symbol;
        self.name.clear();
        self.name.extend_from_slice(name)?;
        self.sort_left = Some(pieces(symbol));
        self.good = false;
        Ok(())
    }

    /// Takes the last word of bits as a value.
    fn take_base(&mut self)
        ensures { (tr : Trace) → IsDraft self.old tr → IsDraft self.new (with_role Base tr) }
    {
        self.good = self.bits.fits_word(self.symbol);
        if self.good {
            self.number = self.bits.number as u32;
        }
    }

    /// Takes it as the value of an array everywhere.
    fn take_fill(&mut self)
        ensures { (tr : Trace) → IsDraft self.old tr → IsDraft self.new (with_role Fill tr) }
    {
        self.good = self.symbol.is_memory()
            && is_done(self.constant_left)
            && self.bits.fits(8, 256);
        if self.good {
            self.stored.fill = self.bits.number as u8;
            self.stored.stores.clear();
        }
    }

    /// Takes it as the value to which an array is changed.
    fn take_byte(&mut self) -> Result<(), AllocError>
        ensures { (tr : Trace) → IsDraft self.old tr → OnOk result (IsDraft self.new (with_role Byte tr)) }
    {
        self.good = self.good
            && self.symbol.is_memory()
            && self.index.fits(32, 1 << 32)
            && self.bits.fits(8, 256);
        if self.good {
            let change = (self.index.number as u32, self.bits.number as u8);
            self.stored.stores.push(change)?;
        }
        Ok(())
    }

    /// Takes the last word of bits for what it is of a value.
    fn take_role(&mut self, role: Role) -> Result<(), AllocError>
        ensures { (tr : Trace) → IsDraft self.old tr → OnOk result (IsDraft self.new (with_role role tr)) }
    {
        match role {
            Role::Base => self.take_base(),
            Role::Fill => self.take_fill(),
            Role::Index => self.index = self.bits,
            Role::Byte => self.take_byte()?,
        }
        Ok(())
    }

    /// Takes a token of a word of bits, which can stand there or begins something else.
    fn take_bits(&mut self, role: Role, at: BitsPlace, token: Token<'_>) -> Result<(), AllocError>
        ensures { (tr : Trace) → IsDraft self.old tr → OnOk result (IsDraft self.new (with_bits role at (token_of token.entry) tr)) }
    {
        self.bits = self.bits.behind(at, token);
        if !at.is_last(token) {
            return Ok(());
        }
        self.take_role(role)?;
        Ok(())
    }

    /// Takes a token within a sort or a value, which can stand there.
    pub(crate) fn take(&mut self, place: Place, token: Token<'_>) -> Result<(), AllocError>
        ensures { (tr : Trace) → IsDraft self.old tr → OnOk result (IsDraft self.new (drafted place (token_of token.entry) tr)) }
    {
        match place {
            Place::Sort { .. } => self.sort_left = matched(self.sort_left, token),
            Place::Value { .. } => self.take_bits(Role::Base, BitsPlace::Wanted, token)?,
            Place::Const { .. } => self.constant_left = Some(memory_pieces()),
            Place::ConstSort { .. } => self.constant_left = matched(self.constant_left, token),
            Place::Bits { role, at, .. } => self.take_bits(role, at, token)?,
            _ => (),
        }
        Ok(())
    }

    /// The array of the value.
    pub(crate) fn take_stored(&mut self, alloc: Global) -> Stored
        ensures value { result ≡ self.old.stored }
        ensures rest { self.new ≡ record self.old { stored = self.new.stored } }
        ensures none { self.new.stored.stores.items ≡ [] }
    {
        let empty = Stored {
            fill: 0,
            stores: Vec::new(alloc),
        };
        mem::replace(&mut self.stored, empty)
    }
}
