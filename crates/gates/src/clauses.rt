//! The clauses that define gates.
ghost use Rattle.std.specs.Prelude.{◌≡◌, ℕ, ◌<◌, ◌&&◌, Bool, cond, map, IfOk, OnOk};
ghost use Rattle.std.specs.Bool.{beq};
ghost use Rattle.word_spec.specs.Words.{differ};
ghost use Rattle.gates.specs.Circuits.{variable_of, literal_of, bit_value, any_of, gate_value, majority, parity, same, Within, IsGateBelow};
ghost use Rattle.gates.specs.Pushes.{satisfied, AreOver};

use crate::bit::Bit;
use crate::gate::Gate;
use cnf_form::Clause;
use std::alloc::{AllocError, Global};

/// The clause that one of the bits is true.
pub fn clause_of(alloc: Global, bits: &[Bit]) -> Result<Clause, AllocError>
    ensures { IfOk result (λ c. c ≡ map literal_of bits.now) }
{
    let mut clause = Clause::new(alloc);
    for bit in bits {
        clause.push(bit.lit())?;
    }
    Ok(clause)
}

/// Adds the clause that one of the bits is true.
pub fn push_clause(clauses: &mut Vec<Clause>, bits: &[Bit]) -> Result<(), AllocError>
    ensures value { OnOk result ((v : ℕ → Bool) → satisfied v clauses.new.items ≡ (satisfied v clauses.old.items && any_of v bits.now)) }
    ensures over { OnOk result ((n : ℕ) → Within n bits.now → AreOver n clauses.old.items → AreOver n clauses.new.items) }
{
    let clause = clause_of(*clauses.allocator(), bits)?;
    clauses.push(clause)?;
    Ok(())
}

/// Adds the clauses that a bit is whether both are true.
fn push_and(clauses: &mut Vec<Clause>, g: Bit, a: Bit, b: Bit) -> Result<(), AllocError>
    ensures value { OnOk result ((v : ℕ → Bool) → satisfied v clauses.new.items ≡ (satisfied v clauses.old.items &&
        beq (bit_value v g) (bit_value v a && bit_value v b))) }
    ensures over { OnOk result ((m : ℕ) → variable_of g < m → variable_of a < m → variable_of b < m → AreOver m clauses.old.items →
        AreOver m clauses.new.items) }
{
    let not_g = g.negation();
    let (not_a, not_b) = (a.negation(), b.negation());
    push_clause(clauses, &[not_g, a])?;
    push_clause(clauses, &[not_g, b])?;
    push_clause(clauses, &[g, not_a, not_b])?;
    Ok(())
}

/// Adds the clauses that a bit is whether exactly one of the two is true.
fn push_xor(clauses: &mut Vec<Clause>, g: Bit, a: Bit, b: Bit) -> Result<(), AllocError>
    ensures value { OnOk result ((v : ℕ → Bool) → satisfied v clauses.new.items ≡ (satisfied v clauses.old.items &&
        beq (bit_value v g) (differ (bit_value v a) (bit_value v b)))) }
    ensures over { OnOk result ((m : ℕ) → variable_of g < m → variable_of a < m → variable_of b < m → AreOver m clauses.old.items →
        AreOver m clauses.new.items) }
{
    let not_g = g.negation();
    let (not_a, not_b) = (a.negation(), b.negation());
    push_clause(clauses, &[not_g, a, b])?;
    push_clause(clauses, &[not_g, not_a, not_b])?;
    push_clause(clauses, &[g, not_a, b])?;
    push_clause(clauses, &[g, a, not_b])?;
    Ok(())
}

/// Adds the clauses that a bit is the second where the first is true, else the third. The last two follow from the others: with them equal operands are enough
/// to know the bit.
fn push_ite(clauses: &mut Vec<Clause>, g: Bit, c: Bit, a: Bit, b: Bit) -> Result<(), AllocError>
    ensures value { OnOk result ((v : ℕ → Bool) → satisfied v clauses.new.items ≡ (satisfied v clauses.old.items &&
        beq (bit_value v g) (cond (bit_value v c) (bit_value v a) (bit_value v b)))) }
    ensures over { OnOk result ((m : ℕ) → variable_of g < m → variable_of c < m → variable_of a < m → variable_of b < m → AreOver m clauses.old.items →
        AreOver m clauses.new.items) }
{
    let not_g = g.negation();
    let (not_c, not_a, not_b) = (c.negation(), a.negation(), b.negation());
    push_clause(clauses, &[not_g, not_c, a])?;
    push_clause(clauses, &[not_g, c, b])?;
    push_clause(clauses, &[g, not_c, not_a])?;
    push_clause(clauses, &[g, c, not_b])?;
    push_clause(clauses, &[not_g, a, b])?;
    push_clause(clauses, &[g, not_a, not_b])?;
    Ok(())
}

/// Adds the clauses that a bit is whether one or all of the three are true.
fn push_parity(clauses: &mut Vec<Clause>, g: Bit, a: Bit, b: Bit, c: Bit) -> Result<(), AllocError>
    ensures value { OnOk result ((v : ℕ → Bool) → satisfied v clauses.new.items ≡ (satisfied v clauses.old.items &&
        beq (bit_value v g) (parity (bit_value v a) (bit_value v b) (bit_value v c)))) }
    ensures over { OnOk result ((m : ℕ) → variable_of g < m → variable_of a < m → variable_of b < m → variable_of c < m → AreOver m clauses.old.items →
        AreOver m clauses.new.items) }
{
    let not_g = g.negation();
    let (not_a, not_b, not_c) = (a.negation(), b.negation(), c.negation());
    push_clause(clauses, &[not_g, a, b, c])?;
    push_clause(clauses, &[not_g, a, not_b, not_c])?;
    push_clause(clauses, &[not_g, not_a, b, not_c])?;
    push_clause(clauses, &[not_g, not_a, not_b, c])?;
    push_clause(clauses, &[g, not_a, b, c])?;
    push_clause(clauses, &[g, a, not_b, c])?;
    push_clause(clauses, &[g, a, b, not_c])?;
    push_clause(clauses, &[g, not_a, not_b, not_c])?;
    Ok(())
}

/// Adds the clauses that a bit is whether two or all of the three are true.
fn push_majority(
    clauses: &mut Vec<Clause>,
    g: Bit,
    a: Bit,
    b: Bit,
    c: Bit,
) -> Result<(), AllocError>
    ensures value { OnOk result ((v : ℕ → Bool) → satisfied v clauses.new.items ≡ (satisfied v clauses.old.items &&
        beq (bit_value v g) (majority (bit_value v a) (bit_value v b) (bit_value v c)))) }
    ensures over { OnOk result ((m : ℕ) → variable_of g < m → variable_of a < m → variable_of b < m → variable_of c < m → AreOver m clauses.old.items →
        AreOver m clauses.new.items) }
{
    let not_g = g.negation();
    let (not_a, not_b, not_c) = (a.negation(), b.negation(), c.negation());
    push_clause(clauses, &[not_g, a, b])?;
    push_clause(clauses, &[not_g, a, c])?;
    push_clause(clauses, &[not_g, b, c])?;
    push_clause(clauses, &[g, not_a, not_b])?;
    push_clause(clauses, &[g, not_a, not_c])?;
    push_clause(clauses, &[g, not_b, not_c])?;
    Ok(())
}

/// Adds the clauses that a bit is whether the first is true and the others are equal.
fn push_same(clauses: &mut Vec<Clause>, g: Bit, s: Bit, a: Bit, b: Bit) -> Result<(), AllocError>
    ensures value { OnOk result ((v : ℕ → Bool) → satisfied v clauses.new.items ≡ (satisfied v clauses.old.items &&
        beq (bit_value v g) (same (bit_value v s) (bit_value v a) (bit_value v b)))) }
    ensures over { OnOk result ((m : ℕ) → variable_of g < m → variable_of s < m → variable_of a < m → variable_of b < m → AreOver m clauses.old.items →
        AreOver m clauses.new.items) }
{
    let not_g = g.negation();
    let (not_s, not_a, not_b) = (s.negation(), a.negation(), b.negation());
    push_clause(clauses, &[not_g, s])?;
    push_clause(clauses, &[not_g, not_a, b])?;
    push_clause(clauses, &[not_g, a, not_b])?;
    push_clause(clauses, &[g, not_s, a, b])?;
    push_clause(clauses, &[g, not_s, not_a, not_b])?;
    Ok(())
}

/// Adds the clauses that a bit is what the gate says.
pub fn push_gate(clauses: &mut Vec<Clause>, g: Bit, gate: Gate) -> Result<(), AllocError>
    ensures value { OnOk result ((v : ℕ → Bool) → satisfied v clauses.new.items ≡ (satisfied v clauses.old.items && beq (bit_value v g) (gate_value v gate))) }
    ensures over { OnOk result ((m : ℕ) → variable_of g < m → IsGateBelow m gate → AreOver m clauses.old.items → AreOver m clauses.new.items) }
{
    match gate {
        Gate::And(a, b) => {
            push_and(clauses, g, a, b)?;
            Ok(())
        }
        Gate::Xor(a, b) => {
            push_xor(clauses, g, a, b)?;
            Ok(())
        }
        Gate::Ite(c, a, b) => {
            push_ite(clauses, g, c, a, b)?;
            Ok(())
        }
        Gate::Parity(a, b, c) => {
            push_parity(clauses, g, a, b, c)?;
            Ok(())
        }
        Gate::Majority(a, b, c) => {
            push_majority(clauses, g, a, b, c)?;
            Ok(())
        }
        Gate::Same(s, a, b) => {
            push_same(clauses, g, s, a, b)?;
            Ok(())
        }
    }
}
