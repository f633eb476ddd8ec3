//! Sums, differences, negatives and products.
ghost use Rattle.std.specs.Prelude.{◌≡◌, ℕ, ◌+◌, ◌*◌, ◌^◌, ◌<◌, Bool, cond, length, IfOk};
ghost use Rattle.word_spec.specs.Words.{add, sub, neg, mul, with_sign};
ghost use Rattle.gates.specs.Circuits.{next, Holds, Within, variable_of, bit_value};
ghost use Rattle.word_gates.specs.Numbers.{number, digit, IsWord};

use crate::bitwise::{choice, masked};
use crate::parts::{constant, not};
use gates::{Bit, Circuit};
use std::alloc::{AllocError, Global};

/// A sum, and what is carried out of it.
#[derive(Drop)]
pub struct CarriedSum {
    pub bits: Vec<Bit>,
    pub carry: Bit,
}

/// The sum of two words and a carry.
pub fn sum_with(
    alloc: Global,
    circuit: &mut Circuit,
    a: &[Bit],
    b: &[Bit],
    carry: Bit,
) -> Result<CarriedSum, AllocError>
    requires same { length a.now ≡ length b.now }
    requires a_within { Within (next circuit.old) a.now }
    requires b_within { Within (next circuit.old) b.now }
    requires carry_within { variable_of carry < next circuit.old }
    ensures made { IfOk result (λ s. IsWord circuit.old circuit.new (2 * length a.now) (length a.now) s.bits.items) }
    ensures carry_made { IfOk result (λ s. variable_of s.carry < next circuit.new) }
    ensures value { IfOk result (λ s. (v : ℕ → Bool) → Holds v circuit.new →
        number v s.bits.items + 2 ^ length a.now * digit v s.carry ≡ number v a.now + number v b.now + digit v carry) }
{
    let mut carry = carry;
    let mut bits = Vec::with_capacity(alloc, a.len())?;
    for i in 0..a.len() {
        let (x, y) = (a[i], b[i]);
        bits.push(circuit.parity(x, y, carry)?)?;
        carry = circuit.majority(x, y, carry)?;
    }
    Ok(CarriedSum { bits, carry })
}

/// The sum of two words.
pub fn sum(
    alloc: Global,
    circuit: &mut Circuit,
    a: &[Bit],
    b: &[Bit],
) -> Result<Vec<Bit>, AllocError>
    requires same { length a.now ≡ length b.now }
    requires a_within { Within (next circuit.old) a.now }
    requires b_within { Within (next circuit.old) b.now }
    ensures made { IfOk result (λ w. IsWord circuit.old circuit.new (2 * length a.now) (length a.now) w.items) }
    ensures value { IfOk result (λ w. (v : ℕ → Bool) → Holds v circuit.new → number v w.items ≡ add (length a.now) (number v a.now) (number v b.now)) }
{
    let zero = circuit.constant(false);
    let sum = sum_with(alloc, circuit, a, b, zero)?;
    Ok(sum.bits)
}

/// The first word less the second.
pub fn difference(
    alloc: Global,
    circuit: &mut Circuit,
    a: &[Bit],
    b: &[Bit],
) -> Result<Vec<Bit>, AllocError>
    requires same { length a.now ≡ length b.now }
    requires a_within { Within (next circuit.old) a.now }
    requires b_within { Within (next circuit.old) b.now }
    ensures made { IfOk result (λ w. IsWord circuit.old circuit.new (2 * length a.now) (length a.now) w.items) }
    ensures value { IfOk result (λ w. (v : ℕ → Bool) → Holds v circuit.new → number v w.items ≡ sub (length a.now) (number v a.now) (number v b.now)) }
{
    let one = circuit.constant(true);
    let turned = not(alloc, b)?;
    let sum = sum_with(alloc, circuit, a, &turned, one)?;
    Ok(sum.bits)
}

/// The word's negative.
pub fn negative(alloc: Global, circuit: &mut Circuit, a: &[Bit]) -> Result<Vec<Bit>, AllocError>
    requires { Within (next circuit.old) a.now }
    ensures made { IfOk result (λ w. IsWord circuit.old circuit.new (2 * length a.now) (length a.now) w.items) }
    ensures value { IfOk result (λ w. (v : ℕ → Bool) → Holds v circuit.new → number v w.items ≡ neg (length a.now) (number v a.now)) }
{
    let one = circuit.constant(true);
    let zeros = constant(alloc, circuit, a.len(), 0)?;
    let turned = not(alloc, a)?;
    let sum = sum_with(alloc, circuit, &zeros, &turned, one)?;
    Ok(sum.bits)
}

/// The word's negative where the condition is true, else the word.
pub fn negated_if(
    alloc: Global,
    circuit: &mut Circuit,
    minus: Bit,
    a: &[Bit],
) -> Result<Vec<Bit>, AllocError>
    requires minus_within { variable_of minus < next circuit.old }
    requires a_within { Within (next circuit.old) a.now }
    ensures made { IfOk result (λ w. IsWord circuit.old circuit.new (3 * length a.now) (length a.now) w.items) }
    ensures value { IfOk result (λ w. (v : ℕ → Bool) → Holds v circuit.new → number v w.items ≡ with_sign (length a.now) (bit_value v minus) (number v a.now)) }
{
    let opposite = negative(alloc, circuit, a)?;
    let word = choice(alloc, circuit, minus, &opposite, a)?;
    Ok(word)
}

/// Whether each bit of the word is a constant.
fn is_constant(circuit: &Circuit, a: &[Bit]) -> bool {
    let one = circuit.constant(true);
    let zero = circuit.constant(false);
    for bit in a {
        if *bit != one && *bit != zero {
            return false;
        }
    }
    true
}

/// The product of two words. A constant that is a factor gives a row for each of its bits that are 1, and no row for the others.
pub fn product(
    alloc: Global,
    circuit: &mut Circuit,
    a: &[Bit],
    b: &[Bit],
) -> Result<Vec<Bit>, AllocError>
    requires same { length a.now ≡ length b.now }
    requires a_within { Within (next circuit.old) a.now }
    requires b_within { Within (next circuit.old) b.now }
    ensures made { IfOk result (λ w. IsWord circuit.old circuit.new (3 * length a.now * length a.now) (length a.now) w.items) }
    ensures value { IfOk result (λ w. (v : ℕ → Bool) → Holds v circuit.new → number v w.items ≡ mul (length a.now) (number v a.now) (number v b.now)) }
{
    if is_constant(circuit, a) {
        let word = shifted_sums(alloc, circuit, b, a)?;
        return Ok(word);
    }
    let word = shifted_sums(alloc, circuit, a, b)?;
    Ok(word)
}

/// The product, as a sum of the first word shifted to each bit of the second. Bits that are done leave the sum, so that each row is a bit shorter.
fn shifted_sums(
    alloc: Global,
    circuit: &mut Circuit,
    a: &[Bit],
    b: &[Bit],
) -> Result<Vec<Bit>, AllocError>
    requires same { length a.now ≡ length b.now }
    requires a_within { Within (next circuit.old) a.now }
    requires b_within { Within (next circuit.old) b.now }
    ensures made { IfOk result (λ w. IsWord circuit.old circuit.new (3 * length a.now * length a.now) (length a.now) w.items) }
    ensures value { IfOk result (λ w. (v : ℕ → Bool) → Holds v circuit.new → number v w.items ≡ mul (length a.now) (number v a.now) (number v b.now)) }
{
    let n = a.len();
    let zero = circuit.constant(false);
    let mut low = Vec::with_capacity(alloc, n)?;
    let mut rest = constant(alloc, circuit, n, 0)?;
    for i in 0..n {
        let row = masked(alloc, circuit, b[i], &a[..n - i])?;
        let sum = sum_with(alloc, circuit, &rest, &row, zero)?;
        low.push(sum.bits[0])?;
        rest = sum.bits[1..].to_vec(alloc)?;
    }
    Ok(low)
}
