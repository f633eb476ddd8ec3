//! Clauses that words are equal.
ghost use Rattle.std.specs.Prelude.{◌≡◌, ◌==◌, ℕ, ◌<◌, ◌&&◌, Bool, length, OnOk};
ghost use Rattle.std.specs.Bool.{beq};
ghost use Rattle.gates.specs.Circuits.{Within, bit_value, variable_of};
ghost use Rattle.gates.specs.Pushes.{satisfied, AreOver};
ghost use Rattle.word_gates.specs.Numbers.{number};
ghost use Rattle.pair_spec.specs.PairTerms.{same_words};
ghost use Rattle.bit_blast.specs.BitWords.{AreWithin, shapes};
ghost use Rattle.pair_blast.specs.PairWords.{AreAlike, words_under};

use bit_blast::{operand, push_tie};
use cnf_form::Clause;
use gates::Bit;
use std::alloc::AllocError;
use term_dag::Term;

/// Adds the clauses that two bits are equal; one bit is equal to itself without any.
fn tie_bits(ties: &mut Vec<Clause>, x: Bit, y: Bit) -> Result<(), AllocError>
    ensures value { OnOk result ((v : ℕ → Bool) → satisfied v ties.new.items ≡ (satisfied v ties.old.items && beq (bit_value v x) (bit_value v y))) }
    ensures over { OnOk result ((n : ℕ) → variable_of x < n → variable_of y < n → AreOver n ties.old.items → AreOver n ties.new.items) }
{
    if x == y {
        return Ok(());
    }
    let not_x = x.negation();
    let not_y = y.negation();
    push_tie(ties, &[not_x, y])?;
    push_tie(ties, &[x, not_y])?;
    Ok(())
}

/// Adds the clauses that two words are equal.
pub fn tie_equal(ties: &mut Vec<Clause>, a: &[Bit], b: &[Bit]) -> Result<(), AllocError>
    requires { length a.now ≡ length b.now }
    ensures value { OnOk result ((v : ℕ → Bool) → satisfied v ties.new.items ≡ (satisfied v ties.old.items && (number v a.now == number v b.now))) }
    ensures over { OnOk result ((n : ℕ) → Within n a.now → Within n b.now → AreOver n ties.old.items → AreOver n ties.new.items) }
{
    for i in 0..a.len() {
        tie_bits(ties, a[i], b[i])?;
    }
    Ok(())
}

/// Adds the clauses that the words of terms are equal, one by one.
pub fn tie_entries(
    ties: &mut Vec<Clause>,
    first: &[Vec<Bit>],
    second: &[Vec<Bit>],
    entries: &[Term],
    others: &[Term],
) -> Result<(), AllocError>
    requires { AreAlike (shapes first.now) (shapes second.now) entries.now others.now }
    ensures value { OnOk result ((v : ℕ → Bool) → satisfied v ties.new.items ≡ (satisfied v ties.old.items &&
        same_words (words_under v first.now entries.now) (words_under v second.now others.now))) }
    ensures over { OnOk result ((n : ℕ) → AreWithin n first.now → AreWithin n second.now → AreOver n ties.old.items → AreOver n ties.new.items) }
{
    for i in 0..entries.len() {
        let a = operand(first, entries[i]);
        let b = operand(second, others[i]);
        tie_equal(ties, a, b)?;
    }
    Ok(())
}
