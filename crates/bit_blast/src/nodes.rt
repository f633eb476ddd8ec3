//! The circuits of nodes, over the words of the nodes before them.
ghost use Rattle.std.specs.Prelude.{◌≡◌, ℕ, ◌<◌, ◌≤◌, ◌+◌, Bool, length, IfOk};
ghost use Rattle.term_spec.specs.Terms.{TermReading, ConstantNode, BinaryNode, NotNode, SelectNode, ExtractNode, ConcatNode, ExtendNode, value_at, node_value, node_at, width_of, own_gates, IsTypedOver};
ghost use Rattle.term_spec.specs.Cells.{IsOfWords};
ghost use Rattle.bil_ast.specs.Views.{binary_of};
ghost use Rattle.term_dag.specs.Nodes.{node_of};
ghost use Rattle.gates.specs.Circuits.{next, Holds, Within};
ghost use Rattle.word_gates.specs.Numbers.{number, IsWord};
ghost use Rattle.bit_blast.specs.Places.{AreInOrder, IsNamed, IsReadingAt, seen};
ghost use Rattle.bit_blast.specs.BitWords.{AreWithin, shapes, values_of};

use crate::input_places::InputPlaces;
use crate::inputs::input;
use crate::operators::operator;
use bil_ast::BinaryOp;
use gates::{Bit, Circuit};
use std::alloc::{AllocError, Global};
use term_dag::{Node, Term};
use word_gates::bitwise::choice;
use word_gates::parts::{concatenation, constant, extension, extract, not, signed_extension};

/// The word of a term.
pub fn operand(words: &[Vec<Bit>], term: Term) -> &[Bit]
    requires { term.0 < length (shapes words.now) }
    ensures len { length result.now ≡ width_of (node_at (shapes words.now) term.0) }
    ensures value { (v : ℕ → Bool) → number v result.now ≡ (value_at (values_of v words.now) term.0).word }
    ensures within { (n : ℕ) → AreWithin n words.now → Within n result.now }
{
    &words[term.0 as usize]
}

/// The word of an operator on terms.
fn binary(
    alloc: Global,
    circuit: &mut Circuit,
    words: &[Vec<Bit>],
    op: BinaryOp,
    width: u8,
    left: Term,
    right: Term,
) -> Result<Vec<Bit>, AllocError>
    requires typed { IsTypedOver (shapes words.now) (BinaryNode (binary_of op) width left.0 right.0) }
    requires within { AreWithin (next circuit.old) words.now }
    ensures made { IfOk result (λ w. IsWord circuit.old circuit.new (own_gates (BinaryNode (binary_of op) width left.0 right.0))
        (width_of (BinaryNode (binary_of op) width left.0 right.0)) w.items) }
    ensures value { IfOk result (λ w. (v : ℕ → Bool) (x : TermReading) → Holds v circuit.new →
        number v w.items ≡ (node_value x (values_of v words.now) (BinaryNode (binary_of op) width left.0 right.0)).word) }
{
    let a = operand(words, left);
    let b = operand(words, right);
    let word = operator(alloc, circuit, op, a, b)?;
    Ok(word)
}

/// The word of a selection between terms.
fn selection(
    alloc: Global,
    circuit: &mut Circuit,
    words: &[Vec<Bit>],
    width: u8,
    condition: Term,
    when_true: Term,
    when_false: Term,
) -> Result<Vec<Bit>, AllocError>
    requires typed { IsTypedOver (shapes words.now) (SelectNode width condition.0 when_true.0 when_false.0) }
    requires within { AreWithin (next circuit.old) words.now }
    ensures made { IfOk result (λ w. IsWord circuit.old circuit.new width width w.items) }
    ensures value { IfOk result (λ w. (v : ℕ → Bool) (x : TermReading) → Holds v circuit.new →
        number v w.items ≡ (node_value x (values_of v words.now) (SelectNode width condition.0 when_true.0 when_false.0)).word) }
{
    let c = operand(words, condition);
    let a = operand(words, when_true);
    let b = operand(words, when_false);
    let word = choice(alloc, circuit, c[0], a, b)?;
    Ok(word)
}

/// The word of bits of a term.
fn bits_of(
    alloc: Global,
    words: &[Vec<Bit>],
    hi: u8,
    lo: u8,
    term: Term,
) -> Result<Vec<Bit>, AllocError>
    requires typed { IsTypedOver (shapes words.now) (ExtractNode hi lo term.0) }
    ensures len { IfOk result (λ w. length w.items ≡ width_of (ExtractNode hi lo term.0)) }
    ensures within { IfOk result (λ w. (n : ℕ) → AreWithin n words.now → Within n w.items) }
    ensures value { IfOk result (λ w. (v : ℕ → Bool) (x : TermReading) →
        number v w.items ≡ (node_value x (values_of v words.now) (ExtractNode hi lo term.0)).word) }
{
    let a = operand(words, term);
    let word = extract(alloc, a, hi as usize, lo as usize)?;
    Ok(word)
}

/// The word of one term above another.
fn joined(
    alloc: Global,
    words: &[Vec<Bit>],
    high: u8,
    low: u8,
    upper: Term,
    lower: Term,
) -> Result<Vec<Bit>, AllocError>
    requires typed { IsTypedOver (shapes words.now) (ConcatNode high low upper.0 lower.0) }
    ensures len { IfOk result (λ w. length w.items ≡ width_of (ConcatNode high low upper.0 lower.0)) }
    ensures within { IfOk result (λ w. (n : ℕ) → AreWithin n words.now → Within n w.items) }
    ensures value { IfOk result (λ w. (v : ℕ → Bool) (x : TermReading) →
        number v w.items ≡ (node_value x (values_of v words.now) (ConcatNode high low upper.0 lower.0)).word) }
{
    let a = operand(words, upper);
    let b = operand(words, lower);
    let word = concatenation(alloc, a, b)?;
    Ok(word)
}

/// The word of a term in more bits.
fn extended(
    alloc: Global,
    circuit: &Circuit,
    words: &[Vec<Bit>],
    signed: bool,
    from: u8,
    to: u8,
    term: Term,
) -> Result<Vec<Bit>, AllocError>
    requires typed { IsTypedOver (shapes words.now) (ExtendNode signed from to term.0) }
    requires within { AreWithin (next circuit.now) words.now }
    ensures made { IfOk result (λ w. IsWord circuit.now circuit.now 0 to w.items) }
    ensures value { IfOk result (λ w. (v : ℕ → Bool) (x : TermReading) → Holds v circuit.now →
        number v w.items ≡ (node_value x (values_of v words.now) (ExtendNode signed from to term.0)).word) }
{
    let a = operand(words, term);
    if signed {
        let word = signed_extension(alloc, a, to as usize)?;
        return Ok(word);
    }
    let word = extension(alloc, circuit, a, to as usize)?;
    Ok(word)
}

/// The word of a node over terms whose words are given, where bits stand for the inputs.
pub fn word_of(
    alloc: Global,
    circuit: &mut Circuit,
    places: &InputPlaces,
    inputs: &[Bit],
    words: &[Vec<Bit>],
    node: Node,
) -> Result<Vec<Bit>, AllocError>
    requires typed { IsTypedOver (shapes words.now) (node_of node) }
    requires of_words { IsOfWords (node_of node) }
    requires named { IsNamed places.now (node_of node) }
    requires order { AreInOrder places.now }
    requires all { length inputs.now ≡ places.now.inputs }
    requires inputs_within { Within (next circuit.old) inputs.now }
    requires within { AreWithin (next circuit.old) words.now }
    ensures made { IfOk result (λ w. IsWord circuit.old circuit.new (own_gates (node_of node)) (width_of (node_of node)) w.items) }
    ensures value { IfOk result (λ w. (v : ℕ → Bool) (x : TermReading) → Holds v circuit.new → IsReadingAt places.now (seen inputs.now v) x →
        number v w.items ≡ (node_value x (values_of v words.now) (node_of node)).word) }
{
    match node {
        Node::Register { .. } => Ok(input(alloc, places, inputs, node)?),
        Node::Flag { .. } => Ok(input(alloc, places, inputs, node)?),
        Node::Choice(_) => Ok(input(alloc, places, inputs, node)?),
        Node::Base { .. } => Ok(input(alloc, places, inputs, node)?),
        Node::Constant { width, value } => Ok(constant(alloc, circuit, width as usize, value)?),
        Node::Binary {
            op,
            width,
            left,
            right,
        } => Ok(binary(alloc, circuit, words, op, width, left, right)?),
        Node::Not { term, .. } => Ok(not(alloc, operand(words, term))?),
        Node::Select {
            width,
            condition,
            when_true,
            when_false,
        } => Ok(selection(
            alloc, circuit, words, width, condition, when_true, when_false,
        )?),
        Node::Extract { hi, lo, term } => Ok(bits_of(alloc, words, hi, lo, term)?),
        Node::Concat {
            high,
            low,
            upper,
            lower,
        } => Ok(joined(alloc, words, high, low, upper, lower)?),
        Node::Extend {
            signed,
            from,
            to,
            term,
        } => Ok(extended(alloc, circuit, words, signed, from, to, term)?),
        Node::Memory(_) => unreachable!(),
        Node::Load { .. } => unreachable!(),
        Node::Store { .. } => unreachable!(),
        Node::Join { .. } => unreachable!(),
        Node::Take { .. } => unreachable!(),
    }
}
