//! The bits that stand for the inputs of the second side.
ghost use Rattle.std.specs.Prelude.{◌≡◌, ℕ, ◌+◌, ◌≤◌, Bool, true, List, length, Contains, [], IfOk};
ghost use Rattle.clause_spec.specs.Clauses.{valuation};
ghost use Rattle.term_spec.specs.Terms.{TermReading, TermNode, node_value, width_of};
ghost use Rattle.term_dag.specs.Nodes.{IsWordInput, node_of};
ghost use Rattle.gates.specs.Circuits.{Within};
ghost use Rattle.word_gates.specs.Numbers.{input_number, number};
ghost use Rattle.pair_spec.specs.PairTerms.{same_words};
ghost use Rattle.bit_blast.specs.Places.{AreInOrder, IsNamed, IsReadingAt, seen, truths};
ghost use Rattle.bit_blast.specs.BitWords.{AreWithin, shapes};
ghost use Rattle.pair_blast.specs.PairWords.{AreAlike, words_read, words_under};

use bit_blast::{InputPlaces, first_input, operand};
use gates::Bit;
use std::alloc::{AllocError, Global};
use term_dag::{Dag, Node, Term};

/// Whether a node is an input.
fn is_input(node: Node) -> bool
    ensures { result ≡ true → IsWordInput (node_of node) }
{
    match node {
        Node::Register { .. } => true,
        Node::Flag { .. } => true,
        Node::Choice(_) => true,
        Node::Base { .. } => true,
        _ => false,
    }
}

/// Puts a word in the place of the bits from one on.
fn put(bits: &mut [Bit], first: usize, word: &[Bit])
    requires { first + length word.now ≤ length bits.old }
    ensures len { length bits.new ≡ length bits.old }
    ensures within { (n : ℕ) → Within n bits.old → Within n word.now → Within n bits.new }
    ensures value { (v : ℕ → Bool) (ts : List Bool) → truths v bits.old ≡ ts → number v word.now ≡ input_number (valuation ts) first (length word.now) →
        truths v bits.new ≡ ts }
{
    for i in 0..word.len() {
        bits[first + i] = word[i];
    }
}

/// Puts a word in the place of the bits of a node that is an input.
fn stand_in(bits: &mut [Bit], places: &InputPlaces, node: Node, word: &[Bit])
    requires named { IsNamed places.now (node_of node) }
    requires order { AreInOrder places.now }
    requires all { length bits.old ≡ places.now.inputs }
    requires width { length word.now ≡ width_of (node_of node) }
    ensures len { length bits.new ≡ length bits.old }
    ensures within { (n : ℕ) → Within n bits.old → Within n word.now → Within n bits.new }
    ensures value { (v : ℕ → Bool) (ts : List Bool) (x : TermReading) → truths v bits.old ≡ ts → IsReadingAt places.now (valuation ts) x →
        (IsWordInput (node_of node) → number v word.now ≡ (node_value x [] (node_of node)).word) → truths v bits.new ≡ ts }
{
    if !is_input(node) {
        return;
    }
    let first = first_input(places, node) as usize;
    put(bits, first, word);
}

/// Puts the words of the first side's terms in the place of the inputs to which they are linked.
fn stand_in_all(
    bits: &mut [Bit],
    places: &InputPlaces,
    words: &[Vec<Bit>],
    entries: &[Term],
    dag: &Dag,
    others: &[Term],
)
    requires named { (n : TermNode) → Contains dag.now n → IsNamed places.now n }
    requires order { AreInOrder places.now }
    requires all { length bits.old ≡ places.now.inputs }
    requires alike { AreAlike (shapes words.now) dag.now entries.now others.now }
    ensures len { length bits.new ≡ length bits.old }
    ensures within { (n : ℕ) → Within n bits.old → AreWithin n words.now → Within n bits.new }
    ensures value { (v : ℕ → Bool) (x : TermReading) → IsReadingAt places.now (seen bits.old v) x →
        same_words (words_under v words.now entries.now) (words_read x dag.now others.now) ≡ true → truths v bits.new ≡ truths v bits.old }
{
    let _typed = dag.nodes();
    for i in 0..entries.len() {
        let word = operand(words, entries[i]);
        let node = dag.node(others[i]);
        stand_in(bits, places, node, word);
    }
}

/// The bits that stand for the inputs of the second side: those of the first side's words where an input is linked to one, and else its own. They are equal to
/// its own bits where the linked words are equal.
pub fn linked_inputs(
    alloc: Global,
    places: &InputPlaces,
    own: &[Bit],
    words: &[Vec<Bit>],
    entries: &[Term],
    dag: &Dag,
    others: &[Term],
) -> Result<Vec<Bit>, AllocError>
    requires named { (n : TermNode) → Contains dag.now n → IsNamed places.now n }
    requires order { AreInOrder places.now }
    requires all { length own.now ≡ places.now.inputs }
    requires alike { AreAlike (shapes words.now) dag.now entries.now others.now }
    ensures len { IfOk result (λ bs. length bs.items ≡ length own.now) }
    ensures within { IfOk result (λ bs. (n : ℕ) → Within n own.now → AreWithin n words.now → Within n bs.items) }
    ensures value { IfOk result (λ bs. (v : ℕ → Bool) (x : TermReading) → IsReadingAt places.now (seen own.now v) x →
        same_words (words_under v words.now entries.now) (words_read x dag.now others.now) ≡ true → truths v bs.items ≡ truths v own.now) }
{
    let mut bits = own.to_vec(alloc)?;
    stand_in_all(&mut bits, places, words, entries, dag, others);
    Ok(bits)
}
