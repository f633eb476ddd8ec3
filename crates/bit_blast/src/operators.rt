//! The circuits of operators.
ghost use Rattle.std.specs.Prelude.{◌≡◌, ℕ, ◌<◌, ◌≤◌, ◌∷◌, [], Bool, length, IfOk};
ghost use Rattle.machine_spec.specs.BilCounts.{op_weight};
ghost use Rattle.machine_spec.specs.BilTyping.{result_width};
ghost use Rattle.term_spec.specs.Terms.{operate};
ghost use Rattle.bil_ast.specs.Views.{binary_of};
ghost use Rattle.gates.specs.Circuits.{next, Holds, Within};
ghost use Rattle.word_gates.specs.Numbers.{number, IsWord};

use crate::products::product_of;
use bil_ast::BinaryOp;
use gates::{Bit, Circuit};
use std::alloc::{AllocError, Global};
use word_gates::arithmetic::{difference, sum};
use word_gates::bitwise::{and, or, xor};
use word_gates::compare::{equal, less, less_or_equal, signed_less, signed_less_or_equal};
use word_gates::division::{quotient, remainder, signed_quotient, signed_remainder};
use word_gates::shift::{shift_left, shift_right, shift_signed};

/// The word of one bit.
fn single(alloc: Global, bit: Bit) -> Result<Vec<Bit>, AllocError>
    ensures { IfOk result (λ w. w.items ≡ bit ∷ []) }
{
    let mut word = Vec::with_capacity(alloc, 1)?;
    word.push(bit)?;
    Ok(word)
}

/// The word of an operator on two words of one width. Its gates are at most the operator's weight.
pub fn operator(
    alloc: Global,
    circuit: &mut Circuit,
    op: BinaryOp,
    a: &[Bit],
    b: &[Bit],
) -> Result<Vec<Bit>, AllocError>
    requires some { 1 ≤ length a.now }
    requires few { length a.now ≤ 64 }
    requires same { length a.now ≡ length b.now }
    requires a_within { Within (next circuit.old) a.now }
    requires b_within { Within (next circuit.old) b.now }
    ensures made { IfOk result (λ w. IsWord circuit.old circuit.new (op_weight (binary_of op) (length a.now)) (result_width (binary_of op) (length a.now)) w.items) }
    ensures value { IfOk result (λ w. (v : ℕ → Bool) → Holds v circuit.new →
        number v w.items ≡ operate (binary_of op) (length a.now) (number v a.now) (number v b.now)) }
{
    match op {
        BinaryOp::Plus => Ok(sum(alloc, circuit, a, b)?),
        BinaryOp::Minus => Ok(difference(alloc, circuit, a, b)?),
        BinaryOp::Times => Ok(product_of(alloc, circuit, a, b)?),
        BinaryOp::Divide => Ok(quotient(alloc, circuit, a, b)?),
        BinaryOp::SignedDivide => Ok(signed_quotient(alloc, circuit, a, b)?),
        BinaryOp::Modulo => Ok(remainder(alloc, circuit, a, b)?),
        BinaryOp::SignedModulo => Ok(signed_remainder(alloc, circuit, a, b)?),
        BinaryOp::And => Ok(and(alloc, circuit, a, b)?),
        BinaryOp::Or => Ok(or(alloc, circuit, a, b)?),
        BinaryOp::Xor => Ok(xor(alloc, circuit, a, b)?),
        BinaryOp::ShiftLeft => Ok(shift_left(alloc, circuit, a, b)?),
        BinaryOp::ShiftRight => Ok(shift_right(alloc, circuit, a, b)?),
        BinaryOp::ShiftSigned => Ok(shift_signed(alloc, circuit, a, b)?),
        BinaryOp::Equal => Ok(single(alloc, equal(circuit, a, b)?)?),
        BinaryOp::NotEqual => Ok(single(alloc, equal(circuit, a, b)?.negation())?),
        BinaryOp::Less => Ok(single(alloc, less(circuit, a, b)?)?),
        BinaryOp::LessEqual => Ok(single(alloc, less_or_equal(circuit, a, b)?)?),
        BinaryOp::SignedLess => Ok(single(alloc, signed_less(alloc, circuit, a, b)?)?),
        BinaryOp::SignedLessEqual => Ok(single(
            alloc,
            signed_less_or_equal(alloc, circuit, a, b)?,
        )?),
    }
}
