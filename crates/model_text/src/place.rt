//! Where the reading of an answer stands, and which tokens may come next: a place is reached by exactly the fronts of answers that some answer goes on with.
ghost use Rattle.std.specs.Prelude.{◌≡◌, ◌<◌, ◌≤◌, ◌+◌, ◌^◌, ℕ, IfSome};
ghost use Rattle.model_text.specs.Places.{passed, after_value, after_bits, sort_then, const_then, bits_then, next_place, place_depth, next_outside, next_inside, begins, is_closing, is_value};
ghost use Rattle.model_text.specs.Sorts.{sort_depth};
ghost use Rattle.model_text.specs.Tokens.{token_of};

use crate::bits::{BitsPlace, is_literal};
use crate::sort_place::SortPlace;
use crate::token::Token;

/// What a word of bits is of a value.
#[derive(Clone, Copy)]
pub(crate) enum Role {
    /// The value itself.
    Base,
    /// The value of an array at every index.
    Fill,
    /// The index at which an array is changed.
    Index,
    /// The value to which it is changed.
    Byte,
}

/// Where the reading stands. `stores` counts the changed arrays whose brackets are open round the value that is read, or round the one that was read.
#[derive(Clone, Copy)]
pub(crate) enum Place {
    Start,
    /// Behind `sat`.
    Sat,
    /// In the list, behind whole definitions. The first token may be `model`.
    List {
        first: bool,
    },
    /// Behind the bracket of a definition.
    Begun,
    /// Behind `define-fun`.
    Name,
    /// In a definition that is passed over, behind its name.
    Passing {
        depth: u64,
    },
    /// Behind a name that is declared.
    Arguments,
    /// Behind the opening bracket of no arguments.
    NoArguments,
    Sort {
        at: SortPlace,
    },
    /// Before a value.
    Value {
        stores: u64,
    },
    /// Behind the bracket of a value.
    Opened {
        stores: u64,
    },
    /// Behind two brackets, of an array with one value.
    As {
        stores: u64,
    },
    /// Behind `as`.
    Const {
        stores: u64,
    },
    /// In the sort of an array with one value.
    ConstSort {
        stores: u64,
        at: SortPlace,
    },
    ConstClose {
        stores: u64,
    },
    /// In a word of bits.
    Bits {
        role: Role,
        stores: u64,
        at: BitsPlace,
    },
    FillClose {
        stores: u64,
    },
    StoreClose {
        stores: u64,
    },
    /// Behind the value of a definition.
    Closing,
    /// Behind the list.
    Done,
}

/// Behind the closing bracket of something that is passed over.
fn passed(depth: u64) -> Place
    ensures place { result ≡ passed depth }
    ensures depth { place_depth result ≤ depth }
{
    if depth == 0 {
        Place::List { first: false }
    } else {
        Place::Passing { depth: depth - 1 }
    }
}

/// Behind a whole value.
fn after_value(stores: u64) -> Place
    ensures place { result ≡ after_value stores }
    ensures depth { place_depth result ≤ stores }
{
    if stores == 0 {
        return Place::Closing;
    }
    Place::Bits {
        role: Role::Index,
        stores: stores - 1,
        at: BitsPlace::Wanted,
    }
}

/// Behind a whole word of bits.
fn after_bits(role: Role, stores: u64) -> Place
    ensures place { result ≡ after_bits role stores }
    ensures depth { place_depth result ≤ stores }
{
    match role {
        Role::Base => after_value(stores),
        Role::Fill => Place::FillClose { stores },
        Role::Index => Place::Bits {
            role: Role::Byte,
            stores,
            at: BitsPlace::Wanted,
        },
        Role::Byte => Place::StoreClose { stores },
    }
}

/// In the sort of a definition, or behind it.
fn sort_then(at: SortPlace) -> Place
    ensures place { result ≡ sort_then at }
    ensures depth { place_depth result ≤ sort_depth at }
{
    match at {
        SortPlace::Whole => Place::Value { stores: 0 },
        _ => Place::Sort { at },
    }
}

/// In the sort of an array with one value, or behind it.
fn const_then(stores: u64, at: SortPlace) -> Place
    ensures place { result ≡ const_then stores at }
    ensures depth { (n : ℕ) → stores ≤ n → sort_depth at ≤ n → place_depth result ≤ n }
{
    match at {
        SortPlace::Whole => Place::ConstClose { stores },
        _ => Place::ConstSort { stores, at },
    }
}

/// In a word of bits, or behind it.
fn bits_then(role: Role, stores: u64, at: BitsPlace) -> Place
    ensures place { result ≡ bits_then role stores at }
    ensures depth { place_depth result ≤ stores }
{
    match at {
        BitsPlace::Whole => after_bits(role, stores),
        _ => Place::Bits { role, stores, at },
    }
}

impl Place {
    /// Whether a definition's name, its sort or its value begins here.
    pub(crate) fn begins(self) -> bool
        ensures { result ≡ begins self }
    {
        match self {
            Place::Name => true,
            Place::Sort {
                at: SortPlace::Wanted { depth },
            } => depth == 0,
            Place::Value { stores } => stores == 0,
            _ => false,
        }
    }

    /// Whether it is before a value.
    pub(crate) fn is_value(self) -> bool
        ensures { result ≡ is_value self }
    {
        matches!(self, Place::Value { .. })
    }

    /// Whether it is behind the value of a definition.
    pub(crate) fn is_closing(self) -> bool
        ensures { result ≡ is_closing self }
    {
        matches!(self, Place::Closing)
    }

    /// Where the reading stands behind one more token outside of sorts and values; nothing where the token can't stand there. `known` says whether a name is
    /// declared.
    fn next_outside(self, token: Token<'_>, known: bool) -> Option<Place>
        requires { place_depth self < 2 ^ 63 }
        ensures place { result ≡ next_outside known self (token_of token.entry) }
        ensures depth { IfSome result (λ p. place_depth p ≤ place_depth self + 1) }
    {
        match self {
            Place::Start => token.is_word(b"sat").then_some(Place::Sat),
            Place::Sat => token.is_open().then_some(Place::List { first: true }),
            Place::List { first } => {
                if token.is_open() {
                    return Some(Place::Begun);
                }
                if token.is_close() {
                    return Some(Place::Done);
                }
                (first && token.is_word(b"model")).then_some(Place::List { first: false })
            }
            Place::Begun => token.is_word(b"define-fun").then_some(Place::Name),
            Place::Name => {
                if known {
                    return token.is_name().then_some(Place::Arguments);
                }
                token.is_name().then_some(Place::Passing { depth: 0 })
            }
            Place::Passing { depth } => {
                if token.is_open() {
                    return Some(Place::Passing { depth: depth + 1 });
                }
                if token.is_close() {
                    return Some(passed(depth));
                }
                (!token.is_bad()).then_some(self)
            }
            Place::Arguments => token.is_open().then_some(Place::NoArguments),
            Place::NoArguments => {
                let at = SortPlace::Wanted { depth: 0 };
                token.is_close().then_some(Place::Sort { at })
            }
            Place::Closing => token.is_close().then_some(Place::List { first: false }),
            _ => None,
        }
    }

    /// The same within sorts and values.
    fn next_inside(self, token: Token<'_>) -> Option<Place>
        requires { place_depth self < 2 ^ 63 }
        ensures place { result ≡ next_inside self (token_of token.entry) }
        ensures depth { IfSome result (λ p. place_depth p ≤ place_depth self + 1) }
    {
        match self {
            Place::Sort { at } => match at.next(token) {
                Some(next) => Some(sort_then(next)),
                None => None,
            },
            Place::Value { stores } => {
                if token.is_open() {
                    return Some(Place::Opened { stores });
                }
                is_literal(token).then_some(after_value(stores))
            }
            Place::Opened { stores } => {
                if token.is_open() {
                    return Some(Place::As { stores });
                }
                if token.is_word(b"_") {
                    let role = Role::Base;
                    let at = BitsPlace::Number;
                    return Some(Place::Bits { role, stores, at });
                }
                let stores = stores + 1;
                token.is_word(b"store").then_some(Place::Value { stores })
            }
            Place::As { stores } => token.is_word(b"as").then_some(Place::Const { stores }),
            Place::Const { stores } => {
                let at = SortPlace::Wanted { depth: 0 };
                token
                    .is_word(b"const")
                    .then_some(Place::ConstSort { stores, at })
            }
            Place::ConstSort { stores, at } => match at.next(token) {
                Some(next) => Some(const_then(stores, next)),
                None => None,
            },
            Place::ConstClose { stores } => {
                let role = Role::Fill;
                let at = BitsPlace::Wanted;
                token.is_close().then_some(Place::Bits { role, stores, at })
            }
            Place::Bits { role, stores, at } => match at.next(token) {
                Some(next) => Some(bits_then(role, stores, next)),
                None => None,
            },
            Place::FillClose { stores } => token.is_close().then_some(after_value(stores)),
            Place::StoreClose { stores } => token.is_close().then_some(after_value(stores)),
            _ => None,
        }
    }

    /// Where the reading stands behind one more token; nothing where no answer goes on with the token. `known` says whether a name is declared.
    pub(crate) fn next(self, token: Token<'_>, known: bool) -> Option<Place>
        requires { place_depth self < 2 ^ 63 }
        ensures place { result ≡ next_place known self (token_of token.entry) }
        ensures depth { IfSome result (λ p. place_depth p ≤ place_depth self + 1) }
    {
        let outside = self.next_outside(token, known);
        if outside.is_some() {
            return outside;
        }
        self.next_inside(token)
    }
}
