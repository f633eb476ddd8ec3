//! The words of inputs: which inputs a node is, and the bits that stand for them.
ghost use Rattle.std.specs.Prelude.{◌≡◌, ℕ, ◌+◌, ◌<◌, ◌≤◌, Bool, length, [], IfOk};
ghost use Rattle.term_spec.specs.Terms.{TermReading, node_value, own_gates, width_of};
ghost use Rattle.term_dag.specs.Nodes.{IsWordInput, node_of};
ghost use Rattle.gates.specs.Circuits.{Netlist, next, Within};
ghost use Rattle.word_gates.specs.Numbers.{input_number, number, IsWord};
ghost use Rattle.bit_blast.specs.Places.{AreInOrder, HasFlag, HasPart, HasRegister, IsNamed, IsReadingAt, first_of, seen};

use crate::input_places::InputPlaces;
use gates::Bit;
use std::alloc::{AllocError, Global};
use term_dag::Node;

/// How many inputs a node is.
fn input_width(node: Node) -> usize
    requires { IsWordInput (node_of node) }
    ensures { result ≡ width_of (node_of node) }
{
    match node {
        Node::Register { .. } => 32,
        Node::Flag { .. } => 1,
        Node::Choice(_) => 2,
        Node::Base { .. } => 8,
        _ => unreachable!(),
    }
}

/// The first of the inputs of a part's state.
fn first_of(places: &InputPlaces, part: u32) -> u32
    requires part { HasPart places.now part }
    requires order { AreInOrder places.now }
    ensures is { result ≡ first_of places.now part }
    ensures within { result + places.now.first_head ≤ places.now.first_choice }
{
    if part == 0 { 0 } else { places.first_head }
}

/// The first of the inputs of a register of a part.
fn register_input(places: &InputPlaces, part: u32, number: u8) -> u32
    requires named { HasRegister places.now part number }
    requires order { AreInOrder places.now }
    ensures within { result + 32 ≤ places.now.inputs }
    ensures value { (v : ℕ → Bool) (x : TermReading) → IsReadingAt places.now v x → input_number v result 32 ≡ x.regs part number }
{
    let _all = places.inputs;
    if part < 2 {
        return first_of(places, part) + 32 * (number - places.first_register) as u32;
    }
    match places.gift_register(part - 2, number) {
        Some(first) => first,
        None => unreachable!(),
    }
}

/// The input of a flag of a part.
fn flag_input(places: &InputPlaces, part: u32, number: u8) -> u32
    requires named { HasFlag places.now part number }
    requires order { AreInOrder places.now }
    ensures within { result + 1 ≤ places.now.inputs }
    ensures value { (v : ℕ → Bool) (x : TermReading) → IsReadingAt places.now v x → input_number v result 1 ≡ x.flags part number }
{
    let _all = places.inputs;
    if part < 2 {
        return first_of(places, part) + places.first_flag + number as u32;
    }
    match places.gift_flag(part - 2, number) {
        Some(input) => input,
        None => unreachable!(),
    }
}

/// The first of the inputs that a node is.
pub fn first_input(places: &InputPlaces, node: Node) -> u32
    requires input { IsWordInput (node_of node) }
    requires named { IsNamed places.now (node_of node) }
    requires order { AreInOrder places.now }
    ensures within { result + width_of (node_of node) ≤ places.now.inputs }
    ensures value { (v : ℕ → Bool) (x : TermReading) → IsReadingAt places.now v x →
        input_number v result (width_of (node_of node)) ≡ (node_value x [] (node_of node)).word }
{
    let _all = places.inputs;
    match node {
        Node::Register { part, number } => register_input(places, part, number),
        Node::Flag { part, number } => flag_input(places, part, number),
        Node::Choice(place) => match places.drawn[place as usize] {
            Some(choice) => places.first_choice + 2 * choice,
            None => unreachable!(),
        },
        Node::Base { part, read } => match places.read(part, read) {
            Some(place) => places.first_byte + 8 * place,
            None => unreachable!(),
        },
        _ => unreachable!(),
    }
}

/// The word of an input: the bits that stand for it.
pub fn input(
    alloc: Global,
    places: &InputPlaces,
    inputs: &[Bit],
    node: Node,
) -> Result<Vec<Bit>, AllocError>
    requires input { IsWordInput (node_of node) }
    requires named { IsNamed places.now (node_of node) }
    requires order { AreInOrder places.now }
    requires all { length inputs.now ≡ places.now.inputs }
    ensures made { IfOk result (λ w. (c : Netlist) → Within (next c) inputs.now → IsWord c c (own_gates (node_of node)) (width_of (node_of node)) w.items) }
    ensures value { IfOk result (λ w. (v : ℕ → Bool) (x : TermReading) → IsReadingAt places.now (seen inputs.now v) x →
        number v w.items ≡ (node_value x [] (node_of node)).word) }
{
    let first = first_input(places, node) as usize;
    let word = inputs[first..first + input_width(node)].to_vec(alloc)?;
    Ok(word)
}
