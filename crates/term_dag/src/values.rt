//! Values of terms.

ghost use Rattle.std.specs.Prelude.{ℕ, ◌≡◌, ◌%◌, ◌*◌, ◌+◌, ◌^◌, ◌<◌, ◌≤◌, List, length, slice_index, IfOk};
ghost use Rattle.word_spec.specs.Words.{add};
ghost use Rattle.word_spec.specs.Memory as memory;
ghost use Rattle.word_spec.specs.Memory.{endian};
ghost use Rattle.term_spec.specs.Terms.{TermNode, term_value, term_word, HasWidth, IsBytes, IsTypedOver};
ghost use Rattle.term_dag.specs.Nodes.{IsWordInput, node_of};
ghost use Rattle.term_dag.specs.Lists.{terms};
ghost use Rattle.term_dag.specs.Folds.{value_over};
ghost use Rattle.term_dag.specs.Readings.{AreWords, part_in, reading_of, reading_of_parts};

use crate::folds::{apply, look, width_of_node};
use crate::typed::Nodes;
use crate::{Node, Term};
use bv_word::Word;
use byte_mem::{Bytes32, Endian};
use std::alloc::{AllocError, Global};

/// What terms are read under, each part the same. A register, a flag, a choice or a base byte that is not listed is 0; of a flag the lowest bit counts, of a choice the lowest two.
#[derive(Drop)]
pub struct Reading {
    /// The registers, by number.
    pub registers: Vec<u32>,
    /// The flags, by number.
    pub flags: Vec<u8>,
    /// The memory: the byte at an address is the one here `^ fill`, so one that is `fill` is not kept.
    pub memory: Bytes32,
    /// The byte at each address of which `memory` keeps none.
    pub fill: u8,
    /// The choices, by the place of their point.
    pub choices: Vec<u8>,
    /// The bytes of base reads, by the number of the read.
    pub base: Vec<u8>,
}

/// What terms are read under where their parts differ: the first part, and those from 1 on, in their order. A part that is not listed is as the first; the choices
/// are the first's.
#[derive(Clone, Copy)]
pub struct Parts<'a> {
    pub first: &'a Reading,
    pub others: &'a [Reading],
}

/// A reading whose parts are all the same.
pub fn one_part(reading: &Reading) -> Parts<'_>
    ensures { reading_of_parts result ≡ reading_of reading.now }
{
    Parts {
        first: reading,
        others: &[],
    }
}

/// What a part is read as.
fn part<'a>(parts: &Parts<'a>, number: u32) -> &'a Reading
    ensures { result.now ≡ part_in parts.now.first.now parts.now.others.now number }
{
    if number == 0 {
        return parts.first;
    }
    let place = number as usize - 1;
    if place < parts.others.len() {
        &parts.others[place]
    } else {
        parts.first
    }
}

/// A register of a list, 0 behind it.
fn register(registers: &[u32], number: u8) -> u64
    ensures { result ≡ slice_index registers.now number }
{
    if (number as usize) < registers.len() {
        registers[number as usize] as u64
    } else {
        0
    }
}

/// A byte of a list, 0 behind it.
fn small(bytes: &[u8], place: u32) -> u64
    ensures { result ≡ slice_index bytes.now place }
{
    if (place as usize) < bytes.len() {
        bytes[place as usize] as u64
    } else {
        0
    }
}

/// The byte at an address of a memory.
fn memory_byte(reading: &Reading, address: u32) -> u8
    ensures { result ≡ (reading_of reading.now).mem 0 address }
{
    reading.fill ^ reading.memory.load(address, 1, Endian::Little).bits as u8
}

/// The byte at a place of the bytes of a number.
#[tactic(auto, using(crate::proofs::Joins::power))]
fn stored_byte(number: u64, bytes: u8, big: bool, place: u8) -> u8
    requires few { bytes ≤ 8 }
    requires within { place < bytes }
    ensures { result ≡ memory.byte_of (endian big) bytes number place }
{
    let from_lowest = if big { bytes - 1 - place } else { place };
    ((number >> (8 * from_lowest)) % 256) as u8
}

/// The byte at an address of a memory; 0 of a word.
pub fn byte(nodes: &Nodes, words: &[u64], parts: &Parts, term: Term, address: u32) -> u8
    requires words { AreWords (reading_of_parts parts.now) (terms nodes.now) words.now }
    requires within { term.0 < length (terms nodes.now) }
    ensures { result ≡ (term_value (reading_of_parts parts.now) (terms nodes.now) term.0).bytes address }
{
    let mut at = term;
    loop {
        match look(nodes, at) {
            Node::Memory(of) => return memory_byte(part(parts, of), address),
            Node::Store {
                bytes,
                big,
                memory,
                address: first,
                value,
            } => {
                let place = address.wrapping_sub(words[first.0 as usize] as u32);
                if place < bytes as u32 {
                    return stored_byte(words[value.0 as usize], bytes, big, place as u8);
                }
                at = memory;
            }
            Node::Join {
                condition,
                when_true,
                when_false,
            } => {
                if words[condition.0 as usize] > 0 {
                    at = when_true;
                } else {
                    at = when_false;
                }
            }
            Node::Take {
                bytes,
                memory,
                address: first,
                part: of,
            } => {
                let place = address.wrapping_sub(words[first.0 as usize] as u32);
                if place < bytes {
                    return memory_byte(part(parts, of), address);
                }
                at = memory;
            }
            _ => return 0,
        }
    }
}

/// The number of the bytes of a memory from an address on, the lowest first.
#[tactic(auto, using(byte_mem::proofs::Numbers::next_power, byte_mem::proofs::Numbers::low_power))]
fn lowest_first(
    nodes: &Nodes,
    words: &[u64],
    parts: &Parts,
    term: Term,
    first: u32,
    count: u8,
) -> u64
    requires words { AreWords (reading_of_parts parts.now) (terms nodes.now) words.now }
    requires within { term.0 < length (terms nodes.now) }
    requires few { count ≤ 8 }
    ensures number { result ≡ memory.little count (λ i. (term_value (reading_of_parts parts.now) (terms nodes.now) term.0).bytes (add 32 first i)) }
    ensures below { result < 256 ^ count }
{
    let mut number = 0u64;
    for i in (0..count).rev() {
        number = number * 256
            + byte(nodes, words, parts, term, first.wrapping_add(i as u32)) as u64;
    }
    number
}

/// The number of the bytes of a memory from an address on, the highest first.
#[tactic(auto, using(byte_mem::proofs::Numbers::next_power, byte_mem::proofs::Numbers::low_power))]
fn highest_first(
    nodes: &Nodes,
    words: &[u64],
    parts: &Parts,
    term: Term,
    first: u32,
    count: u8,
) -> u64
    requires words { AreWords (reading_of_parts parts.now) (terms nodes.now) words.now }
    requires within { term.0 < length (terms nodes.now) }
    requires few { count ≤ 8 }
    ensures number { result ≡ memory.big count (λ i. (term_value (reading_of_parts parts.now) (terms nodes.now) term.0).bytes (add 32 first i)) }
    ensures below { result < 256 ^ count }
{
    let mut number = 0u64;
    for i in 0..count {
        number = number * 256
            + byte(nodes, words, parts, term, first.wrapping_add(i as u32)) as u64;
    }
    number
}

/// The word of a term.
fn operand(nodes: &Nodes, words: &[u64], parts: &Parts, width: u8, term: Term) -> u64
    requires words { AreWords (reading_of_parts parts.now) (terms nodes.now) words.now }
    requires place { HasWidth (terms nodes.now) width term.0 }
    ensures value { result ≡ term_word (reading_of_parts parts.now) (terms nodes.now) term.0 }
    ensures below { result < 2 ^ width }
{
    words[term.0 as usize]
}

/// The word of an input.
fn input(parts: &Parts, node: Node) -> u64
    requires { IsWordInput (node_of node) }
    ensures { (nodes : List TermNode) → result ≡ (value_over nodes (node_of node) (reading_of_parts parts.now)).word }
{
    match node {
        Node::Register { part: of, number } => register(&part(parts, of).registers, number)
            % 4294967296,
        Node::Flag { part: of, number } => small(&part(parts, of).flags, number as u32) % 2,
        Node::Choice(place) => small(&parts.first.choices, place) % 4,
        Node::Base { part: of, read } => small(&part(parts, of).base, read) % 256,
        _ => unreachable!(),
    }
}

/// The bytes that a node loads, as a number.
fn loaded(
    nodes: &Nodes,
    words: &[u64],
    parts: &Parts,
    bytes: u8,
    big: bool,
    from: Term,
    address: Term,
) -> u64
    requires words { AreWords (reading_of_parts parts.now) (terms nodes.now) words.now }
    requires some { IsBytes bytes }
    requires from { HasWidth (terms nodes.now) 0 from.0 }
    requires address { HasWidth (terms nodes.now) 32 address.0 }
    ensures { result ≡ memory.load (endian big) bytes (term_value (reading_of_parts parts.now) (terms nodes.now) from.0).bytes
        (term_word (reading_of_parts parts.now) (terms nodes.now) address.0) }
{
    let first = operand(nodes, words, parts, 32, address) as u32;
    if big {
        highest_first(nodes, words, parts, from, first, bytes)
    } else {
        lowest_first(nodes, words, parts, from, first, bytes)
    }
}

/// The word of a node over terms whose words are given; 0 of a memory.
fn word_of(nodes: &Nodes, words: &[u64], parts: &Parts, node: Node) -> u64
    requires words { AreWords (reading_of_parts parts.now) (terms nodes.now) words.now }
    requires over { IsTypedOver (terms nodes.now) (node_of node) }
    ensures { result ≡ (value_over (terms nodes.now) (node_of node) (reading_of_parts parts.now)).word }
{
    match node {
        Node::Register { .. } => input(parts, node),
        Node::Flag { .. } => input(parts, node),
        Node::Choice(_) => input(parts, node),
        Node::Base { .. } => input(parts, node),
        Node::Memory(_) => 0,
        Node::Store { .. } => 0,
        Node::Join { .. } => 0,
        Node::Take { .. } => 0,
        Node::Constant { value, .. } => value,
        Node::Binary {
            op,
            width,
            left,
            right,
        } => {
            let left = operand(nodes, words, parts, width, left);
            let right = operand(nodes, words, parts, width, right);
            apply(op, width, left, right)
        }
        Node::Not { width, term } => {
            let word = operand(nodes, words, parts, width, term);
            Word::new(width, word).not().bits
        }
        Node::Select {
            width,
            condition,
            when_true,
            when_false,
        } => {
            if operand(nodes, words, parts, 1, condition) > 0 {
                operand(nodes, words, parts, width, when_true)
            } else {
                operand(nodes, words, parts, width, when_false)
            }
        }
        Node::Extract { hi, lo, term } => {
            let width = width_of_node(nodes, look(nodes, term));
            let word = operand(nodes, words, parts, width, term);
            Word::new(width, word).extract(hi, lo).bits
        }
        Node::Concat {
            high,
            low,
            upper,
            lower,
        } => {
            let upper = operand(nodes, words, parts, high, upper);
            let lower = operand(nodes, words, parts, low, lower);
            Word::new(high, upper).concat(Word::new(low, lower)).bits
        }
        Node::Extend {
            signed,
            from,
            to,
            term,
        } => {
            let word = operand(nodes, words, parts, from, term);
            if signed {
                Word::new(from, word).signed(to).bits
            } else {
                word
            }
        }
        Node::Load {
            bytes,
            big,
            memory,
            address,
        } => loaded(nodes, words, parts, bytes, big, memory, address),
    }
}

/// The words of nodes. The error is want of memory.
pub fn words_of(alloc: Global, nodes: &Nodes, parts: &Parts) -> Result<Vec<u64>, AllocError>
    ensures { IfOk result (λ ws. AreWords (reading_of_parts parts.now) (terms nodes.now) ws.items) }
{
    let count = nodes.list.len();
    let mut words = Vec::with_capacity(alloc, count)?;
    for i in 0..count {
        let before = Nodes {
            list: &nodes.list[..i],
        };
        let word = word_of(&before, &words, parts, nodes.list[i]);
        words.push(word)?;
    }
    Ok(words)
}
