//! The order of operands.
ghost use Rattle.std.specs.Prelude.{◌≡◌, ℕ, ◌<◌, ◌&&◌, Bool};
ghost use Rattle.word_spec.specs.Words.{differ};
ghost use Rattle.gates.specs.Circuits.{variable_of, bit_value, majority, parity};

use crate::bit::Bit;

/// Two bits, the lower code first. What the clauses say of them serves gates that are the same in any order.
pub fn ordered(a: Bit, b: Bit) -> (Bit, Bit)
    ensures within { (n : ℕ) → variable_of a < n → variable_of b < n → (variable_of result.0 < n) × (variable_of result.1 < n) }
    ensures both { (v : ℕ → Bool) → (bit_value v result.0 && bit_value v result.1) ≡ (bit_value v a && bit_value v b) }
    ensures one { (v : ℕ → Bool) → differ (bit_value v result.0) (bit_value v result.1) ≡ differ (bit_value v a) (bit_value v b) }
    ensures most { (v : ℕ → Bool) (x : Bool) → majority (bit_value v result.0) (bit_value v result.1) x ≡ majority (bit_value v a) (bit_value v b) x }
{
    if b.code() < a.code() { (b, a) } else { (a, b) }
}

/// Three bits, in the order of their codes.
pub fn sorted(a: Bit, b: Bit, c: Bit) -> (Bit, Bit, Bit)
    ensures within { (n : ℕ) → variable_of a < n → variable_of b < n → variable_of c < n → (variable_of result.0 < n) × (variable_of result.1 < n) ×
        (variable_of result.2 < n) }
    ensures odd { (v : ℕ → Bool) → parity (bit_value v result.0) (bit_value v result.1) (bit_value v result.2)
        ≡ parity (bit_value v a) (bit_value v b) (bit_value v c) }
    ensures most { (v : ℕ → Bool) → majority (bit_value v result.0) (bit_value v result.1) (bit_value v result.2)
        ≡ majority (bit_value v a) (bit_value v b) (bit_value v c) }
{
    let (low, high) = ordered(a, b);
    let (middle, last) = ordered(high, c);
    let (first, second) = ordered(low, middle);
    (first, second, last)
}
