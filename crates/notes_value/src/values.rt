//! The value of an expression.
ghost use Rattle.std.specs.Prelude.{◌≡◌};
ghost use Rattle.word_spec.specs.Memory as memory;
ghost use Rattle.bilv_spec.specs.Notes as meaning;
ghost use Rattle.word_spec.specs.Words as words;
ghost use Rattle.byte_mem.specs.Views.{endian_of};
ghost use Rattle.notes_value.specs.Views.{bytes_of, expr_of, op_of};
ghost use Rattle.notes_value.specs.Reads.{IsReadable};

use crate::expressions::{Expr, Operator, Size};
use bv_word::Word;
use byte_mem::{Endian, View};

/// 1 for true, 0 for false.
fn truth(holds: bool) -> u32
    ensures { result ≡ words.bit holds }
{
    if holds { 1 } else { 0 }
}

/// The byte order of a test for the big one.
pub fn order(big: bool) -> Endian
    ensures { endian_of result ≡ memory.endian big }
{
    if big { Endian::Big } else { Endian::Little }
}

/// A number as a word of 32 bits.
fn word(number: u32) -> Word
    ensures width { result.width ≡ 32 }
    ensures bits { result.bits ≡ number }
{
    Word::new(32, number as u64)
}

/// How many bytes a load has.
pub(crate) fn bytes(size: Size) -> u8
    ensures { result ≡ bytes_of size }
{
    match size {
        Size::Byte => 1,
        Size::Half => 2,
        Size::Word => 4,
    }
}

/// A binary operator on two words of 32 bits.
fn apply(op: Operator, a: u32, b: u32) -> u32
    ensures { result ≡ meaning.apply (op_of op) a b }
{
    match op {
        Operator::Or => truth(a != 0 || b != 0),
        Operator::And => truth(a != 0 && b != 0),
        Operator::Equal => truth(a == b),
        Operator::NotEqual => truth(a != b),
        Operator::Below => truth(a < b),
        Operator::AtMost => truth(a <= b),
        Operator::Above => truth(b < a),
        Operator::AtLeast => truth(b <= a),
        Operator::SignedBelow => word(a).slt(word(b)).bits as u32,
        Operator::SignedAtMost => word(a).sle(word(b)).bits as u32,
        Operator::SignedAbove => word(b).slt(word(a)).bits as u32,
        Operator::SignedAtLeast => word(b).sle(word(a)).bits as u32,
        Operator::BitOr => a | b,
        Operator::BitXor => a ^ b,
        Operator::BitAnd => a & b,
        Operator::ShiftLeft => word(a).shl(word(b)).bits as u32,
        Operator::ShiftRight => word(a).shr(word(b)).bits as u32,
        Operator::ShiftSigned => word(a).sar(word(b)).bits as u32,
        Operator::Plus => a.wrapping_add(b),
        Operator::Minus => a.wrapping_sub(b),
        Operator::Times => a.wrapping_mul(b),
    }
}

/// The number of 1, 2 or 4 bytes at an address, which wraps.
fn load<V: View>(state: &V, address: u32, size: Size, big: bool) -> u32
    ensures { result ≡ memory.load (memory.endian big) (bytes_of size) (V.view state.now).mem address }
{
    state.load(address, bytes(size), order(big)).bits as u32
}

/// The value of an expression with a number for its bound name.
#[cycle(values)]
pub(crate) fn value_with<V: View>(expr: &Expr, bound: u32, now: &V, old: &V, big: bool) -> u32
    requires readable { IsReadable V.has_register (expr_of expr.now) }
    ensures { result ≡ meaning.value (memory.endian big) (meaning.put_bound bound (expr_of expr.now)) (V.view now.now) (V.view old.now) }
{
    match expr {
        Expr::Number(n) => *n,
        Expr::Register(r) => now.reg(*r),
        Expr::Flag(f) => truth(now.flag(*f)),
        Expr::Pc => now.pc(),
        Expr::Bound => bound,
        Expr::Memory(size, a) => load(now, value_with(a, bound, now, old, big), *size, big),
        Expr::Old(a) => value_with(a, bound, old, old, big),
        Expr::Not(a) => truth(value_with(a, bound, now, old, big) == 0),
        Expr::Binary(op, a, b) => apply(
            *op,
            value_with(a, bound, now, old, big),
            value_with(b, bound, now, old, big),
        ),
        Expr::All(low, high, a) => truth(all_true(a, *low, *high, now, old, big)),
    }
}

/// Whether an expression is true for each number from `low` to `high`, and for `low` in any case.
#[cycle(values)]
fn all_true<V: View>(expr: &Expr, low: u32, high: u32, now: &V, old: &V, big: bool) -> bool
    requires readable { IsReadable V.has_register (expr_of expr.now) }
    ensures { words.bit result ≡ meaning.value (memory.endian big) (meaning.written_out low high (expr_of expr.now)) (V.view now.now) (V.view old.now) }
{
    if value_with(expr, low, now, old, big) == 0 {
        return false;
    }
    let mut v = low;
    while v < high {
        v += 1;
        if value_with(expr, v, now, old, big) == 0 {
            return false;
        }
    }
    true
}

/// The value of an expression in the state now, for a run that began in the state at entry; `big` is the machine's byte order. The expression may name only
/// registers that the machine has, and flags up to 3, both outside and inside `old`. It takes no memory; its time is that of the expression with each `all`
/// written out.
pub fn value<V: View>(expr: &Expr, now: &V, old: &V, big: bool) -> u32
    requires readable { IsReadable V.has_register (expr_of expr.now) }
    ensures { result ≡ meaning.value (memory.endian big) (expr_of expr.now) (V.view now.now) (V.view old.now) }
{
    value_with(expr, 0, now, old, big)
}
