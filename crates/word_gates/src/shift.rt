//! Shifts by words, as a barrel: a choice for each low bit of the amount, and one for the others, which shift all bits out.
ghost use Rattle.std.specs.Prelude.{◌≡◌, ℕ, ◌+◌, ◌-◌, ◌*◌, ◌/◌, ◌^◌, ◌<◌, ◌≤◌, ◌++◌, Bool, length, take, drop, replicate, IfOk};
ghost use Rattle.word_spec.specs.Words.{shl, shr, sar};
ghost use Rattle.gates.specs.Circuits.{next, Holds, Within, variable_of, bit_value};
ghost use Rattle.word_gates.specs.Numbers.{number, turned, IsWord};

use crate::bitwise::{any, choice, masked};
use gates::{Bit, Circuit};
use std::alloc::{AllocError, Global};

/// How many low bits of an amount are below the width.
fn stages(width: usize) -> usize
    requires { width ≤ 64 }
    ensures enough { width ≤ 2 ^ result }
    ensures few { result ≤ 6 }
{
    match width {
        0..=1 => 0,
        2 => 1,
        3..=4 => 2,
        5..=8 => 3,
        9..=16 => 4,
        17..=32 => 5,
        _ => 6,
    }
}

/// The word moved down by a number of places.
fn moved_right(alloc: Global, a: &[Bit], places: usize, fill: Bit) -> Result<Vec<Bit>, AllocError>
    requires { places ≤ length a.now }
    ensures { IfOk result (λ w. w.items ≡ drop places a.now ++ replicate places fill) }
{
    let mut bits = a[places..].to_vec(alloc)?;
    bits.resize(a.len(), fill)?;
    Ok(bits)
}

/// The word moved up by a number of places.
fn moved_left(alloc: Global, a: &[Bit], places: usize, fill: Bit) -> Result<Vec<Bit>, AllocError>
    requires { places ≤ length a.now }
    ensures { IfOk result (λ w. w.items ≡ replicate places fill ++ take (length a.now - places) a.now) }
{
    let mut bits = Vec::new(alloc);
    bits.resize(places, fill)?;
    bits.extend_from_slice(&a[..a.len() - places])?;
    Ok(bits)
}

/// The word of one bit, over and over.
fn filled(alloc: Global, width: usize, fill: Bit) -> Result<Vec<Bit>, AllocError>
    ensures { IfOk result (λ w. w.items ≡ replicate width fill) }
{
    let mut bits = Vec::new(alloc);
    bits.resize(width, fill)?;
    Ok(bits)
}

/// The first word shifted to the right by the second, filled up with a bit.
fn filled_right(
    alloc: Global,
    circuit: &mut Circuit,
    a: &[Bit],
    s: &[Bit],
    fill: Bit,
) -> Result<Vec<Bit>, AllocError>
    requires small { length a.now ≤ 64 }
    requires a_within { Within (next circuit.old) a.now }
    requires s_within { Within (next circuit.old) s.now }
    requires fill_within { variable_of fill < next circuit.old }
    ensures made { IfOk result (λ w. IsWord circuit.old circuit.new (7 * length a.now + length s.now) (length a.now) w.items) }
    ensures value { IfOk result (λ w. (v : ℕ → Bool) → Holds v circuit.new →
        turned (length a.now) (bit_value v fill) (number v w.items) ≡ turned (length a.now) (bit_value v fill) (number v a.now) / 2 ^ number v s.now) }
{
    let stages = stages(a.len()).min(s.len());
    let mut word = a.to_vec(alloc)?;
    for j in 0..stages {
        let places = (1usize << j).min(a.len());
        let moved = moved_right(alloc, &word, places, fill)?;
        word = choice(alloc, circuit, s[j], &moved, &word)?;
    }
    let far = any(circuit, &s[stages..])?;
    let empty = filled(alloc, a.len(), fill)?;
    let word = choice(alloc, circuit, far, &empty, &word)?;
    Ok(word)
}

/// The first word shifted to the right by the second, filled up with zeros.
pub fn shift_right(
    alloc: Global,
    circuit: &mut Circuit,
    a: &[Bit],
    s: &[Bit],
) -> Result<Vec<Bit>, AllocError>
    requires small { length a.now ≤ 64 }
    requires a_within { Within (next circuit.old) a.now }
    requires s_within { Within (next circuit.old) s.now }
    ensures made { IfOk result (λ w. IsWord circuit.old circuit.new (7 * length a.now + length s.now) (length a.now) w.items) }
    ensures value { IfOk result (λ w. (v : ℕ → Bool) → Holds v circuit.new → number v w.items ≡ shr (length a.now) (number v a.now) (number v s.now)) }
{
    let zero = circuit.constant(false);
    let word = filled_right(alloc, circuit, a, s, zero)?;
    Ok(word)
}

/// The first word shifted to the right by the second, filled up with its sign.
pub fn shift_signed(
    alloc: Global,
    circuit: &mut Circuit,
    a: &[Bit],
    s: &[Bit],
) -> Result<Vec<Bit>, AllocError>
    requires some { 0 < length a.now }
    requires small { length a.now ≤ 64 }
    requires a_within { Within (next circuit.old) a.now }
    requires s_within { Within (next circuit.old) s.now }
    ensures made { IfOk result (λ w. IsWord circuit.old circuit.new (7 * length a.now + length s.now) (length a.now) w.items) }
    ensures value { IfOk result (λ w. (v : ℕ → Bool) → Holds v circuit.new → number v w.items ≡ sar (length a.now) (number v a.now) (number v s.now)) }
{
    let word = filled_right(alloc, circuit, a, s, a[a.len() - 1])?;
    Ok(word)
}

/// The first word shifted to the left by the second.
pub fn shift_left(
    alloc: Global,
    circuit: &mut Circuit,
    a: &[Bit],
    s: &[Bit],
) -> Result<Vec<Bit>, AllocError>
    requires small { length a.now ≤ 64 }
    requires a_within { Within (next circuit.old) a.now }
    requires s_within { Within (next circuit.old) s.now }
    ensures made { IfOk result (λ w. IsWord circuit.old circuit.new (7 * length a.now + length s.now) (length a.now) w.items) }
    ensures value { IfOk result (λ w. (v : ℕ → Bool) → Holds v circuit.new → number v w.items ≡ shl (length a.now) (number v a.now) (number v s.now)) }
{
    let zero = circuit.constant(false);
    let stages = stages(a.len()).min(s.len());
    let mut word = a.to_vec(alloc)?;
    for j in 0..stages {
        let places = (1usize << j).min(a.len());
        let moved = moved_left(alloc, &word, places, zero)?;
        word = choice(alloc, circuit, s[j], &moved, &word)?;
    }
    let far = any(circuit, &s[stages..])?;
    let word = masked(alloc, circuit, far.negation(), &word)?;
    Ok(word)
}
