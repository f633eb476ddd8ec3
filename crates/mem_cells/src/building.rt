//! Cells as they are built.

ghost use Rattle.std.specs.Prelude.{◌≡◌, ℕ, ◌+◌, ◌*◌, ◌-◌, ◌<◌, ◌≤◌, ◌⊎◌, ◌==◌, ◌||◌, ◌^◌, if◌then◌else◌, true, false, [], Some, length, slice_index, slice_index_or, sum_by, Contains, IfOk, IfSome, OnOk};
ghost use Rattle.term_spec.specs.Terms.{TermReading, InRange, TermNode, BaseNode, HasWidth, node_value, own_gates, term_word, values_from, width_of};
ghost use Rattle.term_dag.specs.Nodes.{node_of};
ghost use Rattle.mem_cells.specs.Pieces.{AreBytes, AreClosed, ArePieces, bool_at, ends_in, is_among, lies_apart, part_read, IsPiece, HasLinks, IsSplit, IsTaken, link, piece_at, piece_byte, piece_gates, put_bytes, stored_at, taken_over};
ghost use Rattle.word_spec.specs.Words.{bit};
ghost use Rattle.mem_cells.specs.Parts.{frame_of_build, heads_of_build, HasPart};
ghost use Rattle.mem_cells.specs.Building.{read_places, IsBuilt, GivesAll, Grown, IsNumber, IsNumberFor, IsOwnNode, IsWord, IsByte, IsByteOf};

use crate::pieces::{
    Memories, Piece, Split, StoredByte, Taken, first_part, is_apart, is_within, marked, sum_of,
};
use bil_ast::BinaryOp;
use question_form::Question;
use std::alloc::{AllocError, Global};
use std::collections::BTreeMap;
use term_dag::{Dag, Node, Term};

/// Cells of a question as far as they are built.
#[derive(Drop)]
pub struct Build<'a> {
    pub question: &'a Question<'a>,
    pub dag: Dag,
    /// The addresses of the base reads, by their numbers.
    pub addresses: Vec<Term>,
    /// The number of an address, by the address's place. What it says is looked up before it is used.
    pub seen: BTreeMap<u32, u32>,
}

impl<'a> Build<'a> {
    /// The term of a node over words.
    pub fn make(&mut self, node: Node) -> Result<Term, AllocError>
        requires built { IsBuilt self.old }
        requires own { IsOwnNode (frame_of_build self.old) (heads_of_build self.old) (length (read_places self.old)) self.old.dag (node_of node) }
        ensures grown { OnOk result (Grown self.old self.new (own_gates (node_of node)) 0) }
        ensures word { IfOk result (λ t. IsWord self.new.dag (width_of (node_of node)) t.0
            (λ x. (node_value x (values_from x [] self.old.dag) (node_of node)).word)) }
        ensures parts { OnOk result ((p j : ℕ) → Contains self.new.dag (BaseNode p j) → Contains self.old.dag (BaseNode p j) ⊎ (BaseNode p j ≡ node_of node)) }
    {
        let term = self.dag.mk(node)?;
        Ok(term)
    }

    /// The number of an address that is read.
    fn seen_number(&self, address: Term) -> Option<u32>
        ensures { IfSome result (λ j. IsNumber self.now address.0 j) }
    {
        let number = *self.seen.get(&address.0)?;
        if (number as usize) < self.addresses.len()
            && self.addresses[number as usize].0 == address.0
        {
            return Some(number);
        }
        None
    }

    /// A new number of an address, at which a part is read.
    fn new_number(&mut self, part: u32, address: Term) -> Result<u32, AllocError>
        requires built { IsBuilt self.old }
        requires part { HasPart self.old part }
        requires address { HasWidth self.old.dag 32 address.0 }
        ensures grown { OnOk result (Grown self.old self.new 0 1) }
        ensures number { IfOk result (λ j. IsNumber self.new address.0 j) }
    {
        let number = self.addresses.len();
        if number >= u32::MAX as usize {
            return Err(AllocError);
        }
        let _byte = self.dag.keep(Node::Base {
            part,
            read: number as u32,
        })?;
        self.addresses.push(address)?;
        self.seen.insert(address.0, number as u32)?;
        Ok(number as u32)
    }

    /// The number of an address. One that is new is that of a read of a part.
    fn number(&mut self, part: u32, address: Term) -> Result<u32, AllocError>
        requires built { IsBuilt self.old }
        requires part { HasPart self.old part }
        requires address { HasWidth self.old.dag 32 address.0 }
        ensures grown { OnOk result (Grown self.old self.new 0 1) }
        ensures number { IfOk result (λ j. IsNumber self.new address.0 j) }
    {
        if let Some(number) = self.seen_number(address) {
            return Ok(number);
        }
        let number = self.new_number(part, address)?;
        Ok(number)
    }

    /// The number of an address, if a marked piece may read the memory of a part there; else any.
    fn number_for(
        &mut self,
        memories: &Memories,
        marks: &[bool],
        at: Split,
        address: Term,
    ) -> Result<u32, AllocError>
        requires built { IsBuilt self.old }
        requires pieces { ArePieces self.old memories.now.stored.items memories.now.pieces.items }
        requires few { length marks.now ≤ length memories.now.pieces.items }
        requires address { HasWidth self.old.dag 32 address.0 }
        ensures grown { OnOk result (Grown self.old self.new 0 1) }
        ensures number { IfOk result (λ j. IsNumberFor self.new memories.now.pieces.items marks.now at address.0 j) }
    {
        match first_part(&memories.pieces, marks, at) {
            None => Ok(0),
            Some(part) => {
                let number = self.number(part, address)?;
                Ok(number)
            }
        }
    }

    /// The byte of the memory of a part at the address of a number.
    fn read(&mut self, part: u32, number: u32) -> Result<Term, AllocError>
        requires built { IsBuilt self.old }
        requires part { HasPart self.old part }
        requires number { number < length (read_places self.old) }
        ensures grown { OnOk result (Grown self.old self.new 0 0) }
        ensures byte { IfOk result (λ t. IsByte self.new t.0 (λ x. x.mem part (term_word x self.old.dag (slice_index (read_places self.old) number)))) }
    {
        let byte = self.dag.keep(Node::Base { part, read: number })?;
        Ok(byte)
    }

    /// The byte at an address after one byte was stored.
    fn put_over(&mut self, put: StoredByte, address: Term, below: Term) -> Result<Term, AllocError>
        requires built { IsBuilt self.old }
        requires put { HasWidth self.old.dag 32 put.address.0 }
        requires value { HasWidth self.old.dag 8 put.value.0 }
        requires address { HasWidth self.old.dag 32 address.0 }
        requires below { HasWidth self.old.dag 8 below.0 }
        ensures grown { OnOk result (Grown self.old self.new 40 0) }
        ensures byte { IfOk result (λ t. IsWord self.new.dag 8 t.0
            (λ x. if term_word x self.old.dag address.0 == term_word x self.old.dag put.address.0 then term_word x self.old.dag put.value.0
            else term_word x self.old.dag below.0)) }
    {
        let condition = self.make(Node::Binary {
            op: BinaryOp::Equal,
            width: 32,
            left: address,
            right: put.address,
        })?;
        let byte = self.make(Node::Select {
            width: 8,
            condition,
            when_true: put.value,
            when_false: below,
        })?;
        Ok(byte)
    }

    /// The byte at an address after some bytes were stored.
    fn over_store(
        &mut self,
        stored: &[StoredByte],
        first: usize,
        bytes: u8,
        address: Term,
        below: Term,
    ) -> Result<Term, AllocError>
        requires built { IsBuilt self.old }
        requires bytes { AreBytes self.old.dag stored.now first bytes }
        requires address { HasWidth self.old.dag 32 address.0 }
        requires below { HasWidth self.old.dag 8 below.0 }
        ensures grown { OnOk result (Grown self.old self.new (40 * bytes) 0) }
        ensures byte { IfOk result (λ t. IsWord self.new.dag 8 t.0
            (λ x. put_bytes (term_word x self.old.dag) stored.now first bytes address.0 (term_word x self.old.dag below.0))) }
    {
        let mut byte = below;
        for k in 0..bytes {
            byte = self.put_over(stored[first + k as usize], address, byte)?;
        }
        Ok(byte)
    }

    /// Whether an address is one of two.
    fn is_either(&mut self, address: Term, first: Term, second: Term) -> Result<Term, AllocError>
        requires built { IsBuilt self.old }
        requires address { HasWidth self.old.dag 32 address.0 }
        requires first { HasWidth self.old.dag 32 first.0 }
        requires second { HasWidth self.old.dag 32 second.0 }
        ensures grown { OnOk result (Grown self.old self.new 65 0) }
        ensures bit { IfOk result (λ t. IsWord self.new.dag 1 t.0 (λ x. bit ((term_word x self.old.dag address.0 == term_word x self.old.dag first.0) ||
            (term_word x self.old.dag address.0 == term_word x self.old.dag second.0)))) }
    {
        let is_first = self.make(Node::Binary {
            op: BinaryOp::Equal,
            width: 32,
            left: address,
            right: first,
        })?;
        let is_second = self.make(Node::Binary {
            op: BinaryOp::Equal,
            width: 32,
            left: address,
            right: second,
        })?;
        let either = self.make(Node::Binary {
            op: BinaryOp::Or,
            width: 1,
            left: is_first,
            right: is_second,
        })?;
        Ok(either)
    }

    /// Whether an address is one of so many from one on.
    fn is_from(&mut self, address: Term, first: Term, bytes: u32) -> Result<Term, AllocError>
        requires built { IsBuilt self.old }
        requires address { HasWidth self.old.dag 32 address.0 }
        requires first { HasWidth self.old.dag 32 first.0 }
        requires bytes { bytes < 2 ^ 32 }
        ensures grown { OnOk result (Grown self.old self.new 96 0) }
        ensures bit { IfOk result (λ t. IsWord self.new.dag 1 t.0
            (λ x. bit (is_among (term_word x self.old.dag first.0) bytes (term_word x self.old.dag address.0)))) }
    {
        let distance = self.make(Node::Binary {
            op: BinaryOp::Minus,
            width: 32,
            left: address,
            right: first,
        })?;
        let count = self.make(Node::Constant {
            width: 32,
            value: bytes as u64,
        })?;
        let below = self.make(Node::Binary {
            op: BinaryOp::Less,
            width: 32,
            left: distance,
            right: count,
        })?;
        Ok(below)
    }

    /// Whether an address is one of those of bytes that are taken: by an equality for each, and from three on by its distance from the first.
    fn is_taken(&mut self, taken: Taken, address: Term) -> Result<Term, AllocError>
        requires built { IsBuilt self.old }
        requires taken { IsTaken self.old taken }
        requires address { HasWidth self.old.dag 32 address.0 }
        ensures grown { OnOk result (Grown self.old self.new (40 * taken.bytes - 8) 0) }
        ensures bit { IfOk result (λ t. IsWord self.new.dag 1 t.0
            (λ x. bit (is_among (term_word x self.old.dag taken.first.0) taken.bytes (term_word x self.old.dag address.0)))) }
    {
        if taken.bytes == 1 {
            let is_first = self.make(Node::Binary {
                op: BinaryOp::Equal,
                width: 32,
                left: address,
                right: taken.first,
            })?;
            return Ok(is_first);
        }
        if taken.bytes == 2 {
            let either = self.is_either(address, taken.first, taken.second)?;
            return Ok(either);
        }
        let among = self.is_from(address, taken.first, taken.bytes)?;
        Ok(among)
    }

    /// The byte at an address where some bytes of a part's memory stand over one. The number is that of the address, if it may be one of those.
    fn over_take(
        &mut self,
        taken: Taken,
        below: Term,
        at: Split,
        address: Term,
        number: u32,
    ) -> Result<Term, AllocError>
        requires built { IsBuilt self.old }
        requires taken { IsTaken self.old taken }
        requires below { ends_in at taken.at taken.bytes ≡ false → HasWidth self.old.dag 8 below.0 }
        requires split { IsSplit self.old.dag address.0 at.base.0 at.offset }
        requires address { HasWidth self.old.dag 32 address.0 }
        requires number { lies_apart at taken.at taken.bytes ≡ false → IsNumber self.old address.0 number }
        ensures grown { OnOk result (Grown self.old self.new (40 * taken.bytes) 0) }
        ensures byte { IfOk result (λ t. IsByte self.new t.0 (λ x. taken_over (term_word x self.old.dag) x.mem taken
            (term_word x self.old.dag below.0) (term_word x self.old.dag address.0))) }
    {
        if is_apart(at, taken.at, taken.bytes) {
            return Ok(below);
        }
        let own = self.read(taken.part, number)?;
        if is_within(at, taken.at, taken.bytes) {
            return Ok(own);
        }
        let condition = self.is_taken(taken, address)?;
        let over = self.make(Node::Select {
            width: 8,
            condition,
            when_true: own,
            when_false: below,
        })?;
        Ok(over)
    }

    /// The byte at an address of a piece, over those of the pieces before it.
    fn step(
        &mut self,
        stored: &[StoredByte],
        piece: Piece,
        chain: &[Term],
        at: Split,
        address: Term,
        number: u32,
    ) -> Result<Term, AllocError>
        requires built { IsBuilt self.old }
        requires piece { IsPiece self.old stored.now (length chain.now) piece }
        requires number { (p : ℕ) → part_read at piece ≡ Some p → IsNumber self.old address.0 number }
        requires links { HasLinks self.old.dag chain.now at piece }
        requires split { IsSplit self.old.dag address.0 at.base.0 at.offset }
        requires address { HasWidth self.old.dag 32 address.0 }
        ensures grown { OnOk result (Grown self.old self.new (piece_gates piece) 0) }
        ensures byte { IfOk result (λ t. IsByte self.new t.0 (λ x. piece_byte (term_word x self.old.dag) x.mem
            (λ q. term_word x self.old.dag (link chain.now q)) stored.now piece (term_word x self.old.dag address.0))) }
    {
        match piece {
            Piece::Entry(part) => {
                let byte = self.read(part, number)?;
                Ok(byte)
            }
            Piece::Store {
                memory,
                at: to,
                first,
                bytes,
            } => {
                if is_within(at, to, bytes as u32) {
                    return Ok(stored[first + at.offset.wrapping_sub(to.offset) as usize].value);
                }
                if is_apart(at, to, bytes as u32) {
                    return Ok(chain[memory]);
                }
                let byte = self.over_store(stored, first, bytes, address, chain[memory])?;
                Ok(byte)
            }
            Piece::Take { memory, taken } => {
                let byte = self.over_take(taken, chain[memory], at, address, number)?;
                Ok(byte)
            }
            Piece::Join {
                condition,
                when_true,
                when_false,
            } => {
                let byte = self.make(Node::Select {
                    width: 8,
                    condition,
                    when_true: chain[when_true],
                    when_false: chain[when_false],
                })?;
                Ok(byte)
            }
        }
    }

    /// The byte at an address of the last of some memories, those that it needs being marked.
    fn chain(
        &mut self,
        alloc: Global,
        memories: &Memories,
        marks: &[bool],
        at: Split,
        address: Term,
        number: u32,
    ) -> Result<Term, AllocError>
        requires built { IsBuilt self.old }
        requires pieces { ArePieces self.old memories.now.stored.items memories.now.pieces.items }
        requires number { IsNumberFor self.old memories.now.pieces.items marks.now at address.0 number }
        requires some { 1 ≤ length marks.now }
        requires few { length marks.now ≤ length memories.now.pieces.items }
        requires last { bool_at marks.now (length marks.now - 1) ≡ true }
        requires closed { AreClosed marks.now memories.now.pieces.items at 0 }
        requires split { IsSplit self.old.dag address.0 at.base.0 at.offset }
        requires address { HasWidth self.old.dag 32 address.0 }
        ensures grown { OnOk result (Grown self.old self.new (sum_by piece_gates memories.now.pieces.items) 0) }
        ensures byte { IfOk result (λ t. IsByteOf self.old self.new memories.now.stored.items memories.now.pieces.items (length marks.now - 1) address.0 t.0) }
    {
        let mut chain = Vec::with_capacity(alloc, marks.len())?;
        for q in 0..marks.len() {
            let byte = if marks[q] {
                self.step(
                    &memories.stored,
                    memories.pieces[q],
                    &chain,
                    at,
                    address,
                    number,
                )?
            } else {
                address
            };
            chain.push(byte)?;
        }
        Ok(chain[marks.len() - 1])
    }

    /// The byte at an address of a memory.
    pub fn byte_at(
        &mut self,
        alloc: Global,
        memories: &Memories,
        memory: usize,
        address: Term,
    ) -> Result<Term, AllocError>
        requires built { IsBuilt self.old }
        requires pieces { ArePieces self.old memories.now.stored.items memories.now.pieces.items }
        requires memory { memory < length memories.now.pieces.items }
        requires address { HasWidth self.old.dag 32 address.0 }
        ensures grown { OnOk result (Grown self.old self.new (sum_by piece_gates memories.now.pieces.items) 1) }
        ensures byte { IfOk result (λ t. IsByteOf self.old self.new memories.now.stored.items memories.now.pieces.items memory address.0 t.0) }
    {
        let zero = self.make(Node::Constant {
            width: 32,
            value: 0,
        })?;
        let at = sum_of(&self.dag, zero, address);
        let marks = marked(alloc, &memories.pieces, memory, at)?;
        let number = self.number_for(memories, &marks, at, address)?;
        let byte = self.chain(alloc, memories, &marks, at, address, number)?;
        Ok(byte)
    }
}
