//! The rules of typing, each over the types of a node's operands and the node's number.

ghost use Rattle.std.specs.Prelude.{◌≡◌, ◌<◌, ◌≤◌, ◌+◌, ◌-◌, ◌&&◌, ◌%◌, ◌==◌, ◌^◌, min, nat_lt, nat_le, true, ℕ, IfOk};
ghost use Rattle.machine_spec.specs.Bil as bil;
ghost use Rattle.machine_spec.specs.Bil.{Bits};
ghost use Rattle.machine_spec.specs.BilTyping.{Typed, Has, asks_bits, asks_any, asks_memory, asks_type, asks_fit, cast_fits, is_load_width, is_type, is_width, result_width, unknown_type};
ghost use Rattle.bil_ast.specs.Views.{bil_type_of, binary_of, cast_of, variable_of};
ghost use Rattle.bil_types.specs.Views.{met, met_word, typed_of};

use crate::{Need, TypeFault};
use bil_ast::{BilType, BinaryOp, CastKind, Var, Width};
use bv_word::Word;

/// The type of a variable.
pub(crate) fn variable_type(x: Var) -> BilType
    ensures known { bil_type_of result ≡ bil.type_of (variable_of x) }
    ensures lawful { is_type (bil.type_of (variable_of x)) ≡ true }
{
    match x {
        Var::Register(_, _) => BilType::Bits(Width::new(32)),
        Var::Flag(_) => BilType::Bits(Width::new(1)),
        Var::Memory => BilType::Memory,
        Var::Local(local) => BilType::Bits(local.width),
    }
}

/// The type of a constant.
pub(crate) fn constant_type(word: Word) -> BilType
    ensures known { bil_type_of result ≡ Bits word.width }
    ensures lawful { (is_width word.width && nat_lt word.bits (2 ^ min word.width 64)) ≡ true }
{
    BilType::Bits(Width::new(word.width))
}

/// Asks for a word of a width.
pub(crate) fn ask_bits(place: u64, width: Width, found: BilType) -> Result<(), TypeFault>
    ensures { (rest : Typed) → met result rest ≡ asks_bits place width.bits (bil_type_of found) rest }
{
    match found {
        BilType::Bits(present) if present.bits == width.bits => Ok(()),
        _ => Err(TypeFault {
            place,
            need: Need::Bits(width),
            found,
        }),
    }
}

/// Asks for a word.
pub(crate) fn ask_any(place: u64, found: BilType) -> Result<Width, TypeFault>
    ensures word { IfOk result (λ n. bil_type_of found ≡ Bits n.bits) }
    ensures fault { (rest : ℕ → Typed) → met_word result rest ≡ asks_any place (bil_type_of found) rest }
{
    match found {
        BilType::Bits(width) => Ok(width),
        BilType::Memory => Err(TypeFault {
            place,
            need: Need::AnyBits,
            found,
        }),
    }
}

/// Asks for a memory.
pub(crate) fn ask_memory(place: u64, found: BilType) -> Result<(), TypeFault>
    ensures { (rest : Typed) → met result rest ≡ asks_memory place (bil_type_of found) rest }
{
    match found {
        BilType::Memory => Ok(()),
        BilType::Bits(_) => Err(TypeFault {
            place,
            need: Need::Memory,
            found,
        }),
    }
}

/// Asks for a type.
pub(crate) fn ask_type(place: u64, wanted: BilType, found: BilType) -> Result<(), TypeFault>
    ensures { (rest : Typed) → met result rest ≡ asks_type place (bil_type_of wanted) (bil_type_of found) rest }
{
    match wanted {
        BilType::Bits(width) => ask_bits(place, width, found),
        BilType::Memory => ask_memory(place, found),
    }
}

/// Asks that operands and numbers fit, which they do where the test holds.
pub(crate) fn ask_fit(place: u64, fits: bool, found: BilType) -> Result<(), TypeFault>
    ensures { (rest : Typed) → met result rest ≡ asks_fit place fits (bil_type_of found) rest }
{
    if fits {
        Ok(())
    } else {
        Err(TypeFault {
            place,
            need: Need::Fits,
            found,
        })
    }
}

/// Asks for a memory and an address of 32 bits in it.
fn ask_access(place: u64, memory: BilType, address: BilType) -> Result<(), TypeFault>
    ensures { (rest : Typed) → met result rest ≡ asks_memory place (bil_type_of memory) (asks_bits place 32 (bil_type_of address) rest) }
{
    ask_memory(place, memory)?;
    ask_bits(place, Width::new(32), address)?;
    Ok(())
}

/// Whether a word of this width has whole bytes.
fn has_whole_bytes(width: Width) -> bool
    ensures { result ≡ is_load_width width.bits }
{
    width.bits % 8 == 0
}

/// The type of a load.
pub(crate) fn load_type(
    place: u64,
    memory: BilType,
    address: BilType,
    width: Width,
) -> Result<BilType, TypeFault>
    ensures { typed_of result ≡ asks_memory place (bil_type_of memory)
        (asks_bits place 32 (bil_type_of address) (asks_fit place (is_load_width width.bits) (bil_type_of memory) (Has (Bits width.bits)))) }
{
    ask_access(place, memory, address)?;
    ask_fit(place, has_whole_bytes(width), memory)?;
    Ok(BilType::Bits(width))
}

/// The type of a store.
pub(crate) fn store_type(
    place: u64,
    memory: BilType,
    address: BilType,
    width: Width,
    value: BilType,
) -> Result<BilType, TypeFault>
    ensures { typed_of result ≡ asks_memory place (bil_type_of memory)
        (asks_bits place 32 (bil_type_of address) (asks_bits place width.bits (bil_type_of value)
        (asks_fit place (is_load_width width.bits) (bil_type_of memory) (Has bil.Memory)))) }
{
    ask_access(place, memory, address)?;
    ask_bits(place, width, value)?;
    ask_fit(place, has_whole_bytes(width), memory)?;
    Ok(BilType::Memory)
}

/// The width of an operator's word: comparisons give 1 bit.
fn result_bits(op: BinaryOp, width: Width) -> Width
    ensures { result.bits ≡ result_width (binary_of op) width.bits }
{
    match op {
        BinaryOp::Equal
        | BinaryOp::NotEqual
        | BinaryOp::Less
        | BinaryOp::LessEqual
        | BinaryOp::SignedLess
        | BinaryOp::SignedLessEqual => Width::new(1),
        _ => width,
    }
}

/// The type of an operator between two words.
pub(crate) fn binary_type(
    place: u64,
    op: BinaryOp,
    left: BilType,
    right: BilType,
) -> Result<BilType, TypeFault>
    ensures { typed_of result ≡ asks_any place (bil_type_of left) (λ n. asks_bits place n (bil_type_of right) (Has (Bits (result_width (binary_of op) n)))) }
{
    let width = ask_any(place, left)?;
    ask_bits(place, width, right)?;
    Ok(BilType::Bits(result_bits(op, width)))
}

/// The type of an operator on one word.
pub(crate) fn unary_type(place: u64, word: BilType) -> Result<BilType, TypeFault>
    ensures { typed_of result ≡ asks_any place (bil_type_of word) (λ n. Has (Bits n)) }
{
    let width = ask_any(place, word)?;
    Ok(BilType::Bits(width))
}

/// Whether a word of the second width can be cast to the first.
fn can_cast(kind: CastKind, to: Width, from: Width) -> bool
    ensures { result ≡ cast_fits (cast_of kind) to.bits from.bits }
{
    match kind {
        CastKind::Low | CastKind::High => to.bits <= from.bits,
        CastKind::Signed | CastKind::Unsigned => from.bits <= to.bits,
    }
}

/// The type of a cast.
pub(crate) fn cast_type(
    place: u64,
    kind: CastKind,
    to: Width,
    word: BilType,
) -> Result<BilType, TypeFault>
    ensures { typed_of result ≡ asks_any place (bil_type_of word) (λ n. asks_fit place (cast_fits (cast_of kind) to.bits n &&
        is_width to.bits) (bil_type_of word) (Has (Bits to.bits))) }
{
    let from = ask_any(place, word)?;
    ask_fit(place, can_cast(kind, to, from), word)?;
    Ok(BilType::Bits(to))
}

/// The type of a `let`.
pub(crate) fn let_type(
    place: u64,
    width: Width,
    bound: BilType,
    body: BilType,
) -> Result<BilType, TypeFault>
    ensures { typed_of result ≡ asks_bits place width.bits (bil_type_of bound) (Has (bil_type_of body)) }
{
    ask_bits(place, width, bound)?;
    Ok(body)
}

/// The type of unknown bits; unknown memory has none.
pub(crate) fn type_of_unknown(place: u64, found: BilType) -> Result<BilType, TypeFault>
    ensures { typed_of result ≡ unknown_type place (bil_type_of found) }
{
    match found {
        BilType::Bits(_) => Ok(found),
        BilType::Memory => Err(TypeFault {
            place,
            need: Need::Fits,
            found,
        }),
    }
}

/// The type of a choice.
pub(crate) fn choice_type(
    place: u64,
    condition: BilType,
    when_true: BilType,
    when_false: BilType,
) -> Result<BilType, TypeFault>
    ensures { typed_of result ≡ asks_bits place 1 (bil_type_of condition)
        (asks_type place (bil_type_of when_true) (bil_type_of when_false) (Has (bil_type_of when_true))) }
{
    ask_bits(place, Width::new(1), condition)?;
    ask_type(place, when_true, when_false)?;
    Ok(when_true)
}

/// The type of bits from `hi` down to `lo`.
pub(crate) fn extract_type(place: u64, hi: u8, lo: u8, word: BilType) -> Result<BilType, TypeFault>
    ensures { typed_of result ≡ asks_any place (bil_type_of word) (λ n. asks_fit place (nat_le lo hi &&
        nat_lt hi n) (bil_type_of word) (Has (Bits (hi - lo + 1)))) }
{
    let width = ask_any(place, word)?;
    if lo <= hi && hi < width.bits {
        Ok(BilType::Bits(Width::new(hi - lo + 1)))
    } else {
        Err(TypeFault {
            place,
            need: Need::Fits,
            found: word,
        })
    }
}

/// The type of two words, one above the other.
pub(crate) fn concat_type(place: u64, high: BilType, low: BilType) -> Result<BilType, TypeFault>
    ensures { typed_of result ≡ asks_any place (bil_type_of high)
        (λ n. asks_any place (bil_type_of low) (λ m. asks_fit place (nat_le (n + m) 64) (bil_type_of high) (Has (Bits (n + m))))) }
{
    let above = ask_any(place, high)?;
    let below = ask_any(place, low)?;
    if above.bits + below.bits <= 64 {
        Ok(BilType::Bits(Width::new(above.bits + below.bits)))
    } else {
        Err(TypeFault {
            place,
            need: Need::Fits,
            found: high,
        })
    }
}
