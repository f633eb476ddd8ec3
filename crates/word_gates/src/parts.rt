//! Words that take no gates: constants, inputs, and bits of other words.
ghost use Rattle.std.specs.Prelude.{◌≡◌, ℕ, ◌+◌, ◌-◌, ◌<◌, ◌≤◌, ◌^◌, Bool, length, take, drop, replicate, ◌++◌, ◌∷◌, IfOk};
ghost use Rattle.word_spec.specs.Words.{word, complement, flip, bits, concat, sign_extend};
ghost use Rattle.gates.specs.declared.bit.Bit.{Bit};
ghost use Rattle.gates.specs.Circuits.{next, Holds, Within, variable_of};
ghost use Rattle.word_gates.specs.Numbers.{number, input_number, IsWord};

use gates::{Bit, Circuit};
use std::alloc::{AllocError, Global};

/// The word of a number.
pub fn constant(
    alloc: Global,
    circuit: &Circuit,
    width: usize,
    value: u64,
) -> Result<Vec<Bit>, AllocError>
    ensures made { IfOk result (λ w. IsWord circuit.now circuit.now 0 width w.items) }
    ensures value { IfOk result (λ w. (v : ℕ → Bool) → Holds v circuit.now → number v w.items ≡ word width value) }
{
    let mut bits = Vec::with_capacity(alloc, width)?;
    let mut rest = value;
    for _i in 0..width {
        bits.push(circuit.constant(rest % 2 == 1))?;
        rest /= 2;
    }
    Ok(bits)
}

/// The word of inputs from the one at `first` on.
pub fn inputs(
    alloc: Global,
    circuit: &Circuit,
    first: u32,
    width: u32,
) -> Result<Vec<Bit>, AllocError>
    requires { first + width ≤ circuit.now.inputs }
    ensures made { IfOk result (λ w. IsWord circuit.now circuit.now 0 width w.items) }
    ensures value { IfOk result (λ w. (v : ℕ → Bool) → number v w.items ≡ input_number v first width) }
{
    let _fits_as_the_number_of_inputs = circuit.inputs();
    let mut bits = Vec::with_capacity(alloc, width as usize)?;
    for i in 0..width {
        bits.push(circuit.input(first + i))?;
    }
    Ok(bits)
}

/// The word with each bit turned.
pub fn not(alloc: Global, a: &[Bit]) -> Result<Vec<Bit>, AllocError>
    ensures len { IfOk result (λ w. length w.items ≡ length a.now) }
    ensures within { IfOk result (λ w. (n : ℕ) → Within n a.now → Within n w.items) }
    ensures value { IfOk result (λ w. (v : ℕ → Bool) → number v w.items ≡ complement (length a.now) (number v a.now)) }
{
    let mut bits = Vec::with_capacity(alloc, a.len())?;
    for i in 0..a.len() {
        bits.push(a[i].negation())?;
    }
    Ok(bits)
}

/// The word with its highest bit turned, which makes signed order unsigned order.
pub fn flipped(alloc: Global, a: &[Bit]) -> Result<Vec<Bit>, AllocError>
    requires { 0 < length a.now }
    ensures len { IfOk result (λ w. length w.items ≡ length a.now) }
    ensures within { IfOk result (λ w. (n : ℕ) → Within n a.now → Within n w.items) }
    ensures value { IfOk result (λ w. (v : ℕ → Bool) → number v w.items ≡ flip (length a.now) (number v a.now)) }
{
    let top = a.len() - 1;
    let mut bits = a[..top].to_vec(alloc)?;
    bits.push(a[top].negation())?;
    Ok(bits)
}

/// Bits `hi` to `lo` of the word.
pub fn extract(alloc: Global, a: &[Bit], hi: usize, lo: usize) -> Result<Vec<Bit>, AllocError>
    requires order { lo ≤ hi }
    requires within { hi < length a.now }
    ensures len { IfOk result (λ w. length w.items ≡ hi + 1 - lo) }
    ensures within { IfOk result (λ w. (n : ℕ) → Within n a.now → Within n w.items) }
    ensures value { IfOk result (λ w. (v : ℕ → Bool) → number v w.items ≡ bits hi lo (number v a.now)) }
{
    let bits = a[lo..hi + 1].to_vec(alloc)?;
    Ok(bits)
}

/// The first word above the second.
pub fn concatenation(alloc: Global, a: &[Bit], b: &[Bit]) -> Result<Vec<Bit>, AllocError>
    ensures len { IfOk result (λ w. length w.items ≡ length a.now + length b.now) }
    ensures within { IfOk result (λ w. (n : ℕ) → Within n a.now → Within n b.now → Within n w.items) }
    ensures value { IfOk result (λ w. (v : ℕ → Bool) → number v w.items ≡ concat (length b.now) (number v a.now) (number v b.now)) }
{
    let mut bits = b.to_vec(alloc)?;
    bits.extend_from_slice(a)?;
    Ok(bits)
}

/// The word with zeros above it.
pub fn extension(
    alloc: Global,
    circuit: &Circuit,
    a: &[Bit],
    width: usize,
) -> Result<Vec<Bit>, AllocError>
    requires wider { length a.now ≤ width }
    requires within { Within (next circuit.now) a.now }
    ensures made { IfOk result (λ w. IsWord circuit.now circuit.now 0 width w.items) }
    ensures value { IfOk result (λ w. (v : ℕ → Bool) → Holds v circuit.now → number v w.items ≡ number v a.now) }
{
    let mut bits = a.to_vec(alloc)?;
    bits.resize(width, circuit.constant(false))?;
    Ok(bits)
}

/// The word with its sign above it.
pub fn signed_extension(alloc: Global, a: &[Bit], width: usize) -> Result<Vec<Bit>, AllocError>
    requires some { 0 < length a.now }
    requires wider { length a.now ≤ width }
    ensures len { IfOk result (λ w. length w.items ≡ width) }
    ensures within { IfOk result (λ w. (n : ℕ) → Within n a.now → Within n w.items) }
    ensures value { IfOk result (λ w. (v : ℕ → Bool) → number v w.items ≡ sign_extend (length a.now) width (number v a.now)) }
{
    let mut bits = a.to_vec(alloc)?;
    bits.resize(width, a[a.len() - 1])?;
    Ok(bits)
}
