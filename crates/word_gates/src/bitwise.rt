//! Operators on each bit.
ghost use Rattle.std.specs.Prelude.{◌≡◌, ℕ, ◌<◌, Bool, cond, length, bit_and, bit_or, bit_xor, nat_lt, IfOk};
ghost use Rattle.gates.specs.Circuits.{next, Holds, IsBit, Within, variable_of, bit_value};
ghost use Rattle.word_gates.specs.Numbers.{number, IsWord};

use gates::{Bit, Circuit};
use std::alloc::{AllocError, Global};

/// Both words' bits.
pub fn and(
    alloc: Global,
    circuit: &mut Circuit,
    a: &[Bit],
    b: &[Bit],
) -> Result<Vec<Bit>, AllocError>
    requires same { length a.now ≡ length b.now }
    requires a_within { Within (next circuit.old) a.now }
    requires b_within { Within (next circuit.old) b.now }
    ensures made { IfOk result (λ w. IsWord circuit.old circuit.new (length a.now) (length a.now) w.items) }
    ensures value { IfOk result (λ w. (v : ℕ → Bool) → Holds v circuit.new → number v w.items ≡ bit_and (number v a.now) (number v b.now)) }
{
    let mut bits = Vec::with_capacity(alloc, a.len())?;
    for i in 0..a.len() {
        bits.push(circuit.and(a[i], b[i])?)?;
    }
    Ok(bits)
}

/// Either word's bits.
pub fn or(
    alloc: Global,
    circuit: &mut Circuit,
    a: &[Bit],
    b: &[Bit],
) -> Result<Vec<Bit>, AllocError>
    requires same { length a.now ≡ length b.now }
    requires a_within { Within (next circuit.old) a.now }
    requires b_within { Within (next circuit.old) b.now }
    ensures made { IfOk result (λ w. IsWord circuit.old circuit.new (length a.now) (length a.now) w.items) }
    ensures value { IfOk result (λ w. (v : ℕ → Bool) → Holds v circuit.new → number v w.items ≡ bit_or (number v a.now) (number v b.now)) }
{
    let mut bits = Vec::with_capacity(alloc, a.len())?;
    for i in 0..a.len() {
        bits.push(circuit.or(a[i], b[i])?)?;
    }
    Ok(bits)
}

/// The bits in which the words differ.
pub fn xor(
    alloc: Global,
    circuit: &mut Circuit,
    a: &[Bit],
    b: &[Bit],
) -> Result<Vec<Bit>, AllocError>
    requires same { length a.now ≡ length b.now }
    requires a_within { Within (next circuit.old) a.now }
    requires b_within { Within (next circuit.old) b.now }
    ensures made { IfOk result (λ w. IsWord circuit.old circuit.new (length a.now) (length a.now) w.items) }
    ensures value { IfOk result (λ w. (v : ℕ → Bool) → Holds v circuit.new → number v w.items ≡ bit_xor (number v a.now) (number v b.now)) }
{
    let mut bits = Vec::with_capacity(alloc, a.len())?;
    for i in 0..a.len() {
        bits.push(circuit.xor(a[i], b[i])?)?;
    }
    Ok(bits)
}

/// The first word where the condition is true, else the second.
pub fn choice(
    alloc: Global,
    circuit: &mut Circuit,
    c: Bit,
    a: &[Bit],
    b: &[Bit],
) -> Result<Vec<Bit>, AllocError>
    requires same { length a.now ≡ length b.now }
    requires c_within { variable_of c < next circuit.old }
    requires a_within { Within (next circuit.old) a.now }
    requires b_within { Within (next circuit.old) b.now }
    ensures made { IfOk result (λ w. IsWord circuit.old circuit.new (length a.now) (length a.now) w.items) }
    ensures value { IfOk result (λ w. (v : ℕ → Bool) → Holds v circuit.new → number v w.items ≡ cond (bit_value v c) (number v a.now) (number v b.now)) }
{
    let mut bits = Vec::with_capacity(alloc, a.len())?;
    for i in 0..a.len() {
        bits.push(circuit.ite(c, a[i], b[i])?)?;
    }
    Ok(bits)
}

/// The word where the condition is true, else 0.
pub fn masked(
    alloc: Global,
    circuit: &mut Circuit,
    c: Bit,
    a: &[Bit],
) -> Result<Vec<Bit>, AllocError>
    requires c_within { variable_of c < next circuit.old }
    requires a_within { Within (next circuit.old) a.now }
    ensures made { IfOk result (λ w. IsWord circuit.old circuit.new (length a.now) (length a.now) w.items) }
    ensures value { IfOk result (λ w. (v : ℕ → Bool) → Holds v circuit.new → number v w.items ≡ cond (bit_value v c) (number v a.now) 0) }
{
    let mut bits = Vec::with_capacity(alloc, a.len())?;
    for i in 0..a.len() {
        bits.push(circuit.and(c, a[i])?)?;
    }
    Ok(bits)
}

/// Whether the word is not 0.
pub fn any(circuit: &mut Circuit, a: &[Bit]) -> Result<Bit, AllocError>
    requires { Within (next circuit.old) a.now }
    ensures made { IfOk result (IsBit circuit.old circuit.new (length a.now)) }
    ensures value { IfOk result (λ l. (v : ℕ → Bool) → Holds v circuit.new → bit_value v l ≡ nat_lt 0 (number v a.now)) }
{
    let mut some = circuit.constant(false);
    for i in 0..a.len() {
        some = circuit.or(some, a[i])?;
    }
    Ok(some)
}
