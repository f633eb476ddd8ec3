//! Products. One with a constant that stands for the reciprocal of a divisor has its upper bits from the circuit of the quotient, which a search sees through
//! more easily; so it is where a compiler has written a division by a constant.
ghost use Rattle.std.specs.Prelude.{◌≡◌, ℕ, ◌+◌, ◌-◌, ◌*◌, ◌/◌, ◌%◌, ◌^◌, ◌<◌, ◌≤◌, Bool, length, IfOk, IfSome};
ghost use Rattle.word_spec.specs.Words.{mul, magnitude, sign_extend};
ghost use Rattle.gates.specs.Circuits.{next, Holds, Within, variable_of, bit_value};
ghost use Rattle.word_gates.specs.Numbers.{number, digit, turned, IsWord};
ghost use Rattle.bit_blast.specs.Reciprocals.{IsReciprocal};

use crate::reciprocals::{Reciprocal, divided_by};
use gates::{Bit, Circuit};
use std::alloc::{AllocError, Global};
use word_gates::arithmetic::{difference, negated_if, product};
use word_gates::bitwise::choice;
use word_gates::division::quotient;
use word_gates::parts::{concatenation, constant, extension, not};

/// The digit of a bit that is a constant.
fn constant_digit(circuit: &Circuit, bit: Bit) -> Option<u64>
    ensures below { IfSome result (λ d. d < 2) }
    ensures value { IfSome result (λ d. (v : ℕ → Bool) → Holds v circuit.now → digit v bit ≡ d) }
{
    if bit == circuit.constant(true) {
        return Some(1);
    }
    if bit == circuit.constant(false) {
        return Some(0);
    }
    None
}

/// The number of a word of constants.
fn constant_number(circuit: &Circuit, word: &[Bit]) -> Option<u64>
    requires { length word.now ≤ 64 }
    ensures { IfSome result (λ n. (v : ℕ → Bool) → Holds v circuit.now → number v word.now ≡ n) }
{
    let mut number = 0u64;
    for i in 0..word.len() {
        let digit = constant_digit(circuit, word[i])?;
        number += digit << i;
    }
    Some(number)
}

/// How many bits a signed word needs: the fewest of its lowest bits of which it is the signed extension.
fn signed_bits(word: &[Bit]) -> usize
    requires { 1 ≤ length word.now }
    ensures some { 1 ≤ result }
    ensures within { result ≤ length word.now }
    ensures value { (v : ℕ → Bool) → number v word.now ≡ sign_extend result (length word.now) (number v word.now % 2 ^ result) }
{
    let mut bits = 1;
    for i in 1..word.len() {
        if word[i] != word[i - 1] {
            bits = i + 1;
        }
    }
    bits
}

/// The bits of a product with a constant below a place.
fn lower_bits(
    alloc: Global,
    circuit: &mut Circuit,
    a: &[Bit],
    factor: u64,
    place: usize,
) -> Result<Vec<Bit>, AllocError>
    requires within { place ≤ length a.now }
    requires a_within { Within (next circuit.old) a.now }
    ensures made { IfOk result (λ w. IsWord circuit.old circuit.new (3 * place * place) place w.items) }
    ensures value { IfOk result (λ w. (v : ℕ → Bool) → Holds v circuit.new → number v w.items ≡ mul place (number v a.now) factor) }
{
    let factor = constant(alloc, circuit, place, factor)?;
    let word = product(alloc, circuit, &a[..place], &factor)?;
    Ok(word)
}

/// The quotient by a constant of the absolute value of a word's lowest bits, which are a signed word.
fn size_quotient(
    alloc: Global,
    circuit: &mut Circuit,
    a: &[Bit],
    bits: usize,
    divisor: u64,
) -> Result<Vec<Bit>, AllocError>
    requires some { 1 ≤ bits }
    requires within { bits ≤ length a.now }
    requires a_within { Within (next circuit.old) a.now }
    requires divides { 1 ≤ divisor }
    requires divisor_below { divisor < 2 ^ bits }
    ensures made { IfOk result (λ w. IsWord circuit.old circuit.new (bits * (3 * bits + 5)) bits w.items) }
    ensures value { IfOk result (λ w. (v : ℕ → Bool) → Holds v circuit.new → number v w.items ≡ magnitude bits (number v a.now % 2 ^ bits) / divisor) }
{
    let size = negated_if(alloc, circuit, a[bits - 1], &a[..bits])?;
    let divisor = constant(alloc, circuit, bits, divisor)?;
    let word = quotient(alloc, circuit, &size, &divisor)?;
    Ok(word)
}

/// The word with each bit turned where the condition is true.
fn turned_if(
    alloc: Global,
    circuit: &mut Circuit,
    turns: Bit,
    a: &[Bit],
) -> Result<Vec<Bit>, AllocError>
    requires turns_within { variable_of turns < next circuit.old }
    requires a_within { Within (next circuit.old) a.now }
    ensures made { IfOk result (λ w. IsWord circuit.old circuit.new (length a.now) (length a.now) w.items) }
    ensures value { IfOk result (λ w. (v : ℕ → Bool) → Holds v circuit.new → number v w.items ≡ turned (length a.now) (bit_value v turns) (number v a.now)) }
{
    let opposite = not(alloc, a)?;
    let word = choice(alloc, circuit, turns, &opposite, a)?;
    Ok(word)
}

/// The product with a constant that stands for the reciprocal of a divisor, of a word that is the signed extension of so many bits. Below 0 the upper bits are
/// those of the absolute value's quotient, turned, since the product is rounded down and is never whole.
fn product_by_reciprocal(
    alloc: Global,
    circuit: &mut Circuit,
    a: &[Bit],
    bits: usize,
    factor: u64,
    reciprocal: Reciprocal,
) -> Result<Vec<Bit>, AllocError>
    requires some { 1 ≤ bits }
    requires within { bits ≤ length a.now }
    requires a_within { Within (next circuit.old) a.now }
    requires a_signed { (v : ℕ → Bool) → number v a.now ≡ sign_extend bits (length a.now) (number v a.now % 2 ^ bits) }
    requires is { IsReciprocal factor reciprocal.divisor (bits - 1) reciprocal.place }
    requires place { reciprocal.place < length a.now }
    ensures made { IfOk result (λ w.
        IsWord circuit.old circuit.new (bits * (3 * bits + 5) + length a.now + 3 * reciprocal.place * reciprocal.place) (length a.now) w.items) }
    ensures value { IfOk result (λ w. (v : ℕ → Bool) → Holds v circuit.new → number v w.items ≡ mul (length a.now) (number v a.now) factor) }
{
    let place = reciprocal.place;
    let lower = lower_bits(alloc, circuit, a, factor, place)?;
    let quotient = size_quotient(alloc, circuit, a, bits, reciprocal.divisor)?;
    let wide = extension(alloc, circuit, &quotient, a.len())?;
    let upper = turned_if(alloc, circuit, a[bits - 1], &wide[..a.len() - place])?;
    let word = concatenation(alloc, &upper, &lower)?;
    Ok(word)
}

/// The word shifted to the left.
fn shifted(
    alloc: Global,
    circuit: &Circuit,
    a: &[Bit],
    places: usize,
) -> Result<Vec<Bit>, AllocError>
    requires within { places ≤ length a.now }
    requires a_within { Within (next circuit.now) a.now }
    ensures made { IfOk result (λ w. IsWord circuit.now circuit.now 0 (length a.now) w.items) }
    ensures value { IfOk result (λ w. (v : ℕ → Bool) → Holds v circuit.now →
        number v w.items ≡ number v a.now % 2 ^ (length a.now - places) * 2 ^ places) }
{
    let zeros = constant(alloc, circuit, places, 0)?;
    let word = concatenation(alloc, &a[..a.len() - places], &zeros)?;
    Ok(word)
}

/// The product with a constant that with 2^32 more stands for the reciprocal of a divisor: so a reciprocal of 33 bits is written, and a signed one of 32.
fn product_by_raised(
    alloc: Global,
    circuit: &mut Circuit,
    a: &[Bit],
    bits: usize,
    factor: u64,
    reciprocal: Reciprocal,
) -> Result<Vec<Bit>, AllocError>
    requires some { 1 ≤ bits }
    requires within { bits ≤ length a.now }
    requires wide { length a.now ≡ 64 }
    requires a_within { Within (next circuit.old) a.now }
    requires a_signed { (v : ℕ → Bool) → number v a.now ≡ sign_extend bits (length a.now) (number v a.now % 2 ^ bits) }
    requires is { IsReciprocal ((factor + 2 ^ 32) % 2 ^ 64) reciprocal.divisor (bits - 1) reciprocal.place }
    requires place { reciprocal.place < length a.now }
    requires gates { bits * (3 * bits + 5) + 3 * length a.now + 3 * reciprocal.place * reciprocal.place ≤ 3 * length a.now * length a.now }
    ensures made { IfOk result (λ w. IsWord circuit.old circuit.new (3 * length a.now * length a.now) (length a.now) w.items) }
    ensures value { IfOk result (λ w. (v : ℕ → Bool) → Holds v circuit.new → number v w.items ≡ mul (length a.now) (number v a.now) factor) }
{
    let raised = factor.wrapping_add(1 << 32);
    let more = product_by_reciprocal(alloc, circuit, a, bits, raised, reciprocal)?;
    let surplus = shifted(alloc, circuit, a, 32)?;
    let word = difference(alloc, circuit, &more, &surplus)?;
    Ok(word)
}

/// Whether the second word is the one to be shifted: it is no constant, and its first bit comes first.
fn is_turned(circuit: &Circuit, a: &[Bit], b: &[Bit]) -> bool
    requires a_some { 1 ≤ length a.now }
    requires b_some { 1 ≤ length b.now }
    requires few { length b.now ≤ 64 }
{
    constant_number(circuit, b).is_none() && b[0].code() < a[0].code()
}

/// The product of two words, whose order makes no other gates.
fn product_in_order(
    alloc: Global,
    circuit: &mut Circuit,
    a: &[Bit],
    b: &[Bit],
) -> Result<Vec<Bit>, AllocError>
    requires some { 1 ≤ length a.now }
    requires few { length a.now ≤ 64 }
    requires same { length a.now ≡ length b.now }
    requires a_within { Within (next circuit.old) a.now }
    requires b_within { Within (next circuit.old) b.now }
    ensures made { IfOk result (λ w. IsWord circuit.old circuit.new (3 * length a.now * length a.now) (length a.now) w.items) }
    ensures value { IfOk result (λ w. (v : ℕ → Bool) → Holds v circuit.new → number v w.items ≡ mul (length a.now) (number v a.now) (number v b.now)) }
{
    if is_turned(circuit, a, b) {
        let word = product(alloc, circuit, b, a)?;
        return Ok(word);
    }
    let word = product(alloc, circuit, a, b)?;
    Ok(word)
}

/// The product of two words of at most 64 bits.
pub fn product_of(
    alloc: Global,
    circuit: &mut Circuit,
    a: &[Bit],
    b: &[Bit],
) -> Result<Vec<Bit>, AllocError>
    requires some { 1 ≤ length a.now }
    requires few { length a.now ≤ 64 }
    requires same { length a.now ≡ length b.now }
    requires a_within { Within (next circuit.old) a.now }
    requires b_within { Within (next circuit.old) b.now }
    ensures made { IfOk result (λ w. IsWord circuit.old circuit.new (3 * length a.now * length a.now) (length a.now) w.items) }
    ensures value { IfOk result (λ w. (v : ℕ → Bool) → Holds v circuit.new → number v w.items ≡ mul (length a.now) (number v a.now) (number v b.now)) }
{
    let bits = signed_bits(a);
    if let Some(factor) = constant_number(circuit, b) {
        if let Some(reciprocal) = divided_by(factor, bits, a.len()) {
            let word = product_by_reciprocal(alloc, circuit, a, bits, factor, reciprocal)?;
            return Ok(word);
        }
        if a.len() == 64 {
            if let Some(reciprocal) = divided_by(factor.wrapping_add(1 << 32), bits, 64) {
                let word = product_by_raised(alloc, circuit, a, bits, factor, reciprocal)?;
                return Ok(word);
            }
        }
    }
    let word = product_in_order(alloc, circuit, a, b)?;
    Ok(word)
}
