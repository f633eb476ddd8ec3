//! Clauses that tie words where a bit is true.
ghost use Rattle.std.specs.Prelude.{◌≡◌, ◌==◌, ℕ, ◌<◌, ◌^◌, ◌&&◌, ◌||◌, Bool, not, length, OnOk};
ghost use Rattle.gates.specs.Circuits.{Within, any_of, bit_value, variable_of};
ghost use Rattle.std.specs.Bool.{beq};
ghost use Rattle.gates.specs.Pushes.{satisfied, AreOver};
ghost use Rattle.word_gates.specs.Numbers.{number};

use cnf_form::Clause;
use gates::{Bit, clause_of};
use std::alloc::AllocError;

/// Adds the clause that one of the bits is true.
pub fn push_tie(ties: &mut Vec<Clause>, bits: &[Bit]) -> Result<(), AllocError>
    ensures value { OnOk result ((v : ℕ → Bool) → satisfied v ties.new.items ≡ (satisfied v ties.old.items && any_of v bits.now)) }
    ensures over { OnOk result ((n : ℕ) → Within n bits.now → AreOver n ties.old.items → AreOver n ties.new.items) }
{
    let clause = clause_of(*ties.allocator(), bits)?;
    ties.push(clause)?;
    Ok(())
}

/// Adds the clauses that two words are equal where a bit is true.
pub fn tie_words(
    ties: &mut Vec<Clause>,
    condition: Bit,
    a: &[Bit],
    b: &[Bit],
) -> Result<(), AllocError>
    requires { length a.now ≡ length b.now }
    ensures value { OnOk result ((v : ℕ → Bool) → satisfied v ties.new.items ≡ (satisfied v ties.old.items &&
        (not (bit_value v condition) || (number v a.now == number v b.now)))) }
    ensures over { OnOk result ((n : ℕ) → variable_of condition < n → Within n a.now → Within n b.now → AreOver n ties.old.items → AreOver n ties.new.items) }
{
    let apart = condition.negation();
    for i in 0..a.len() {
        let (x, y) = (a[i], b[i]);
        let not_x = x.negation();
        let not_y = y.negation();
        push_tie(ties, &[apart, not_x, y])?;
        push_tie(ties, &[apart, x, not_y])?;
    }
    Ok(())
}

/// The bit, or its negation where it is to be false.
fn wanted(bit: Bit, value: bool) -> Bit
    ensures variable { variable_of result ≡ variable_of bit }
    ensures value { (v : ℕ → Bool) → bit_value v result ≡ beq (bit_value v bit) value }
{
    if value { bit } else { bit.negation() }
}

/// Adds the clauses that a word is a byte where a bit is true.
pub fn tie_byte(
    ties: &mut Vec<Clause>,
    condition: Bit,
    a: &[Bit],
    byte: u8,
) -> Result<(), AllocError>
    requires { length a.now ≡ 8 }
    ensures value { OnOk result ((v : ℕ → Bool) → satisfied v ties.new.items ≡ (satisfied v ties.old.items &&
        (not (bit_value v condition) || (number v a.now == byte)))) }
    ensures over { OnOk result ((n : ℕ) → variable_of condition < n → Within n a.now → AreOver n ties.old.items → AreOver n ties.new.items) }
{
    let apart = condition.negation();
    let mut rest = byte;
    for i in 0..a.len() {
        let bit = wanted(a[i], rest % 2 == 1);
        push_tie(ties, &[apart, bit])?;
        rest /= 2;
    }
    Ok(())
}
