//! What a question asks of the words at the exits.
ghost use Rattle.std.specs.Prelude.{◌≡◌, ℕ, ◌+◌, ◌<◌, ◌↔◌, ◌&&◌, Bool, true, not, All, length, IfOk, OnOk};
ghost use Rattle.call_spec.specs.Calls.{DifferenceOfExits};
ghost use Rattle.gates.specs.Circuits.{next, Grows, Holds, Within, any_of, variable_of, bit_value};
ghost use Rattle.gates.specs.Pushes.{satisfied, AreOver};
ghost use Rattle.pair_spec.specs.PairTerms.{ExitsAs, same_words};
ghost use Rattle.pair_form.specs.Views.{pair_question_of};
ghost use Rattle.bit_blast.specs.BitWords.{AreWithin, shapes};
ghost use Rattle.pair_blast.specs.PairWords.{AreAlike, bits_compared, bits_in, words_under};

use bit_blast::{operand, push_tie};
use cnf_form::Clause;
use gates::{Bit, Circuit};
use pair_form::PairKind;
use std::alloc::{AllocError, Global};
use term_dag::Term;
use word_gates::compare::equal;

/// Bits of which one is true exactly where some of the words of terms differ. The first is false: with it there is always one.
fn differences(
    alloc: Global,
    circuit: &mut Circuit,
    first: &[Vec<Bit>],
    second: &[Vec<Bit>],
    exits: &[Term],
    others: &[Term],
) -> Result<Vec<Bit>, AllocError>
    requires alike { AreAlike (shapes first.now) (shapes second.now) exits.now others.now }
    requires first_within { AreWithin (next circuit.old) first.now }
    requires second_within { AreWithin (next circuit.old) second.now }
    ensures grows { IfOk result (λ bs. Grows circuit.old circuit.new (bits_in (shapes first.now) exits.now)) }
    ensures within { IfOk result (λ bs. Within (next circuit.new) bs.items) }
    ensures value { IfOk result (λ bs. (v : ℕ → Bool) → Holds v circuit.new →
        any_of v bs.items ≡ not (same_words (words_under v first.now exits.now) (words_under v second.now others.now))) }
{
    let mut bits = Vec::with_capacity(alloc, exits.len() + 1)?;
    bits.push(circuit.constant(false))?;
    for i in 0..exits.len() {
        let a = operand(first, exits[i]);
        let b = operand(second, others[i]);
        let same = equal(circuit, a, b)?;
        bits.push(same.negation())?;
    }
    Ok(bits)
}

/// Adds the clause that some of the words of terms differ.
fn tie_difference(
    circuit: &mut Circuit,
    ties: &mut Vec<Clause>,
    first: &[Vec<Bit>],
    second: &[Vec<Bit>],
    exits: &[Term],
    others: &[Term],
) -> Result<(), AllocError>
    requires alike { AreAlike (shapes first.now) (shapes second.now) exits.now others.now }
    requires first_within { AreWithin (next circuit.old) first.now }
    requires second_within { AreWithin (next circuit.old) second.now }
    ensures grows { OnOk result (Grows circuit.old circuit.new (bits_in (shapes first.now) exits.now)) }
    ensures value { OnOk result ((v : ℕ → Bool) → Holds v circuit.new → satisfied v ties.new.items ≡ (satisfied v ties.old.items &&
        not (same_words (words_under v first.now exits.now) (words_under v second.now others.now)))) }
    ensures over { OnOk result (AreOver (next circuit.old) ties.old.items → AreOver (next circuit.new) ties.new.items) }
{
    let bits = differences(*ties.allocator(), circuit, first, second, exits, others)?;
    push_tie(ties, &bits)?;
    Ok(())
}

/// Adds the clauses of what a question asks of the words at the exits: nothing, or that some of them differ.
pub fn tie_exits(
    circuit: &mut Circuit,
    ties: &mut Vec<Clause>,
    first: &[Vec<Bit>],
    second: &[Vec<Bit>],
    exits: &[Term],
    others: &[Term],
    kind: PairKind,
) -> Result<(), AllocError>
    requires alike { pair_question_of kind ≡ DifferenceOfExits → AreAlike (shapes first.now) (shapes second.now) exits.now others.now }
    requires first_within { AreWithin (next circuit.old) first.now }
    requires second_within { AreWithin (next circuit.old) second.now }
    ensures grows { OnOk result (Grows circuit.old circuit.new (bits_compared (pair_question_of kind) (shapes first.now) exits.now)) }
    ensures value { OnOk result ((v : ℕ → Bool) → Holds v circuit.new → (satisfied v ties.new.items ≡ true) ↔ ((satisfied v ties.old.items ≡ true) ×
        ExitsAs (pair_question_of kind) (words_under v first.now exits.now) (words_under v second.now others.now))) }
    ensures over { OnOk result (AreOver (next circuit.old) ties.old.items → AreOver (next circuit.new) ties.new.items) }
{
    match kind {
        PairKind::Pair => Ok(()),
        PairKind::Difference => {
            tie_difference(circuit, ties, first, second, exits, others)?;
            Ok(())
        }
    }
}
