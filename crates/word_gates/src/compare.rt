//! Comparisons.
ghost use Rattle.std.specs.Prelude.{◌≡◌, ◌==◌, nat_lt, nat_le, ℕ, ◌<◌, Bool, length, IfOk};
ghost use Rattle.word_spec.specs.Words.{signed_lt, signed_le};
ghost use Rattle.gates.specs.Circuits.{next, Holds, IsBit, Within, bit_value};
ghost use Rattle.word_gates.specs.Numbers.{number};

use crate::parts::flipped;
use gates::{Bit, Circuit};
use std::alloc::{AllocError, Global};

/// Whether the words are equal. The highest bits come first, so that words which differ only in low bits share gates.
pub fn equal(circuit: &mut Circuit, a: &[Bit], b: &[Bit]) -> Result<Bit, AllocError>
    requires same { length a.now ≡ length b.now }
    requires a_within { Within (next circuit.old) a.now }
    requires b_within { Within (next circuit.old) b.now }
    ensures made { IfOk result (IsBit circuit.old circuit.new (length a.now)) }
    ensures value { IfOk result (λ l. (v : ℕ → Bool) → Holds v circuit.new → bit_value v l ≡ (number v a.now == number v b.now)) }
{
    let mut same = circuit.constant(true);
    let n = a.len();
    for i in 0..n {
        same = circuit.same(same, a[n - 1 - i], b[n - 1 - i])?;
    }
    Ok(same)
}

/// Whether the first word is the smaller.
pub fn less(circuit: &mut Circuit, a: &[Bit], b: &[Bit]) -> Result<Bit, AllocError>
    requires same { length a.now ≡ length b.now }
    requires a_within { Within (next circuit.old) a.now }
    requires b_within { Within (next circuit.old) b.now }
    ensures made { IfOk result (IsBit circuit.old circuit.new (length a.now)) }
    ensures value { IfOk result (λ l. (v : ℕ → Bool) → Holds v circuit.new → bit_value v l ≡ nat_lt (number v a.now) (number v b.now)) }
{
    let mut less = circuit.constant(false);
    for i in 0..a.len() {
        less = circuit.majority(a[i].negation(), b[i], less)?;
    }
    Ok(less)
}

/// Whether the first word is the smaller, or the words are equal.
pub fn less_or_equal(circuit: &mut Circuit, a: &[Bit], b: &[Bit]) -> Result<Bit, AllocError>
    requires same { length a.now ≡ length b.now }
    requires a_within { Within (next circuit.old) a.now }
    requires b_within { Within (next circuit.old) b.now }
    ensures made { IfOk result (IsBit circuit.old circuit.new (length a.now)) }
    ensures value { IfOk result (λ l. (v : ℕ → Bool) → Holds v circuit.new → bit_value v l ≡ nat_le (number v a.now) (number v b.now)) }
{
    let greater = less(circuit, b, a)?;
    Ok(greater.negation())
}

/// Whether the first word is the smaller in signed order.
pub fn signed_less(
    alloc: Global,
    circuit: &mut Circuit,
    a: &[Bit],
    b: &[Bit],
) -> Result<Bit, AllocError>
    requires some { 0 < length a.now }
    requires same { length a.now ≡ length b.now }
    requires a_within { Within (next circuit.old) a.now }
    requires b_within { Within (next circuit.old) b.now }
    ensures made { IfOk result (IsBit circuit.old circuit.new (length a.now)) }
    ensures value { IfOk result (λ l. (v : ℕ → Bool) → Holds v circuit.new → bit_value v l ≡ signed_lt (length a.now) (number v a.now) (number v b.now)) }
{
    let a = flipped(alloc, a)?;
    let b = flipped(alloc, b)?;
    let bit = less(circuit, &a, &b)?;
    Ok(bit)
}

/// Whether the first word is the smaller in signed order, or the words are equal.
pub fn signed_less_or_equal(
    alloc: Global,
    circuit: &mut Circuit,
    a: &[Bit],
    b: &[Bit],
) -> Result<Bit, AllocError>
    requires some { 0 < length a.now }
    requires same { length a.now ≡ length b.now }
    requires a_within { Within (next circuit.old) a.now }
    requires b_within { Within (next circuit.old) b.now }
    ensures made { IfOk result (IsBit circuit.old circuit.new (length a.now)) }
    ensures value { IfOk result (λ l. (v : ℕ → Bool) → Holds v circuit.new → bit_value v l ≡ signed_le (length a.now) (number v a.now) (number v b.now)) }
{
    let a = flipped(alloc, a)?;
    let b = flipped(alloc, b)?;
    let bit = less_or_equal(circuit, &a, &b)?;
    Ok(bit)
}
