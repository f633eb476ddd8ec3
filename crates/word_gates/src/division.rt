//! Quotients and remainders.
ghost use Rattle.std.specs.Prelude.{◌≡◌, ℕ, ◌+◌, ◌-◌, ◌*◌, ◌<◌, Bool, length, IfOk};
ghost use Rattle.word_spec.specs.Words.{udiv, urem, sdiv, srem};
ghost use Rattle.gates.specs.Circuits.{next, Holds, Within, variable_of, bit_value};
ghost use Rattle.word_gates.specs.Numbers.{number, IsWord, IsQuotient, IsReduced};

use crate::arithmetic::{CarriedSum, negated_if, sum_with};
use crate::bitwise::{any, choice};
use crate::parts::{constant, not};
use gates::{Bit, Circuit};
use std::alloc::{AllocError, Global};

/// What a division gives.
#[derive(Drop)]
struct Parts {
    quotient: Vec<Bit>,
    remainder: Vec<Bit>,
}

/// One step of a division: a remainder with one more bit, less the divisor where that is not above it. `turned` is the divisor's complement, with one more
/// place. The carry says whether the divisor was taken off.
fn reduce(
    alloc: Global,
    circuit: &mut Circuit,
    remainder: &[Bit],
    turned: &[Bit],
) -> Result<CarriedSum, AllocError>
    requires longer { 0 < length remainder.now }
    requires same { length remainder.now ≡ length turned.now }
    requires remainder_within { Within (next circuit.old) remainder.now }
    requires turned_within { Within (next circuit.old) turned.now }
    ensures made { IfOk result (λ s. IsWord circuit.old circuit.new (3 * length remainder.now - 1) (length remainder.now - 1) s.bits.items) }
    ensures carry_made { IfOk result (λ s. variable_of s.carry < next circuit.new) }
    ensures value { IfOk result (λ s. (v : ℕ → Bool) → Holds v circuit.new →
        IsReduced (number v remainder.now) (number v turned.now) (length remainder.now - 1) (bit_value v s.carry) (number v s.bits.items)) }
{
    let n = remainder.len() - 1;
    let one = circuit.constant(true);
    let sum = sum_with(alloc, circuit, remainder, turned, one)?;
    let carry = sum.carry;
    let bits = choice(alloc, circuit, carry, &sum.bits[..n], &remainder[..n])?;
    Ok(CarriedSum { bits, carry })
}

/// The quotient and the remainder of unsigned words.
fn divide(alloc: Global, circuit: &mut Circuit, a: &[Bit], b: &[Bit]) -> Result<Parts, AllocError>
    requires same { length a.now ≡ length b.now }
    requires a_within { Within (next circuit.old) a.now }
    requires b_within { Within (next circuit.old) b.now }
    ensures quotient { IfOk result (λ w. IsWord circuit.old circuit.new (length a.now * (3 * length a.now + 2)) (length a.now) w.quotient.items) }
    ensures remainder { IfOk result (λ w. IsWord circuit.old circuit.new (length a.now * (3 * length a.now + 2)) (length a.now) w.remainder.items) }
    ensures value { IfOk result (λ w. (v : ℕ → Bool) → Holds v circuit.new →
        IsQuotient (number v a.now) (number v b.now) (length a.now) (number v w.quotient.items) (number v w.remainder.items)) }
{
    let n = a.len();
    let mut turned = not(alloc, b)?;
    turned.push(circuit.constant(true))?;
    let mut quotient = Vec::with_capacity(alloc, n)?;
    let mut remainder = constant(alloc, circuit, n, 0)?;
    for i in 0..n {
        remainder.insert(0, a[n - 1 - i])?;
        let sum = reduce(alloc, circuit, &remainder, &turned)?;
        quotient.insert(0, sum.carry)?;
        remainder = sum.bits;
    }
    Ok(Parts {
        quotient,
        remainder,
    })
}

/// The quotient of unsigned words, which by 0 is all ones.
pub fn quotient(
    alloc: Global,
    circuit: &mut Circuit,
    a: &[Bit],
    b: &[Bit],
) -> Result<Vec<Bit>, AllocError>
    requires same { length a.now ≡ length b.now }
    requires a_within { Within (next circuit.old) a.now }
    requires b_within { Within (next circuit.old) b.now }
    ensures made { IfOk result (λ w. IsWord circuit.old circuit.new (length a.now * (3 * length a.now + 2)) (length a.now) w.items) }
    ensures value { IfOk result (λ w. (v : ℕ → Bool) → Holds v circuit.new → number v w.items ≡ udiv (length a.now) (number v a.now) (number v b.now)) }
{
    let parts = divide(alloc, circuit, a, b)?;
    Ok(parts.quotient)
}

/// The remainder of unsigned words, which by 0 is the dividend.
pub fn remainder(
    alloc: Global,
    circuit: &mut Circuit,
    a: &[Bit],
    b: &[Bit],
) -> Result<Vec<Bit>, AllocError>
    requires same { length a.now ≡ length b.now }
    requires a_within { Within (next circuit.old) a.now }
    requires b_within { Within (next circuit.old) b.now }
    ensures made { IfOk result (λ w. IsWord circuit.old circuit.new (length a.now * (3 * length a.now + 2)) (length a.now) w.items) }
    ensures value { IfOk result (λ w. (v : ℕ → Bool) → Holds v circuit.new → number v w.items ≡ urem (length a.now) (number v a.now) (number v b.now)) }
{
    let parts = divide(alloc, circuit, a, b)?;
    Ok(parts.remainder)
}

/// The quotient of signed words, cut toward 0, which by 0 is all ones.
pub fn signed_quotient(
    alloc: Global,
    circuit: &mut Circuit,
    a: &[Bit],
    b: &[Bit],
) -> Result<Vec<Bit>, AllocError>
    requires some { 0 < length a.now }
    requires same { length a.now ≡ length b.now }
    requires a_within { Within (next circuit.old) a.now }
    requires b_within { Within (next circuit.old) b.now }
    ensures made { IfOk result (λ w. IsWord circuit.old circuit.new (length a.now * (3 * length a.now + 13) + 1) (length a.now) w.items) }
    ensures value { IfOk result (λ w. (v : ℕ → Bool) → Holds v circuit.new → number v w.items ≡ sdiv (length a.now) (number v a.now) (number v b.now)) }
{
    let top = a.len() - 1;
    let a_size = negated_if(alloc, circuit, a[top], a)?;
    let b_size = negated_if(alloc, circuit, b[top], b)?;
    let sizes = divide(alloc, circuit, &a_size, &b_size)?;
    let minus = circuit.xor(a[top], b[top])?;
    let signed = negated_if(alloc, circuit, minus, &sizes.quotient)?;
    let some = any(circuit, b)?;
    let zeros = constant(alloc, circuit, a.len(), 0)?;
    let ones = not(alloc, &zeros)?;
    let word = choice(alloc, circuit, some, &signed, &ones)?;
    Ok(word)
}

/// The remainder of signed words, with the dividend's sign, which by 0 is the dividend.
pub fn signed_remainder(
    alloc: Global,
    circuit: &mut Circuit,
    a: &[Bit],
    b: &[Bit],
) -> Result<Vec<Bit>, AllocError>
    requires some { 0 < length a.now }
    requires same { length a.now ≡ length b.now }
    requires a_within { Within (next circuit.old) a.now }
    requires b_within { Within (next circuit.old) b.now }
    ensures made { IfOk result (λ w. IsWord circuit.old circuit.new (length a.now * (3 * length a.now + 11)) (length a.now) w.items) }
    ensures value { IfOk result (λ w. (v : ℕ → Bool) → Holds v circuit.new → number v w.items ≡ srem (length a.now) (number v a.now) (number v b.now)) }
{
    let top = a.len() - 1;
    let a_size = negated_if(alloc, circuit, a[top], a)?;
    let b_size = negated_if(alloc, circuit, b[top], b)?;
    let sizes = divide(alloc, circuit, &a_size, &b_size)?;
    let word = negated_if(alloc, circuit, a[top], &sizes.remainder)?;
    Ok(word)
}
