//! The terms of a question as cells.

ghost use Rattle.std.specs.Prelude.{◌≡◌, ◌+◌, ◌<◌, [], length, map, slice_index, Contains, IfOk, OnOk};
ghost use Rattle.std.specs.List.{AllByRecursion};
ghost use Rattle.term_spec.specs.Cells.{IsOfWords};
ghost use Rattle.term_spec.specs.Terms.{LoadNode, StoreNode, JoinNode, MemoryNode, TakeNode};
ghost use Rattle.frame_terms.specs.PassiveFrames.{AreNamedBelow};
ghost use Rattle.word_spec.specs.Memory.{endian};
ghost use Rattle.term_dag.specs.Nodes.{node_of};
ghost use Rattle.term_dag.specs.Made.{moved, operands};
ghost use Rattle.mem_cells.specs.Pieces.{link};
ghost use Rattle.mem_cells.specs.Building.{read_places, IsBuilt};
ghost use Rattle.mem_cells.specs.Parts.{frame_of_build, heads_of_build};
ghost use Rattle.mem_cells.specs.Lowering.{source_of, Lowers, IsNextOf};
ghost use Rattle.mem_cells.specs.Words.{places_of};
ghost use Rattle.term_dag.specs.declared.nodes.Term.{Term};

use crate::building::Build;
use crate::loads::load;
use crate::pieces::{Memories, Piece};
use crate::stores::store;
use crate::takes::take;
use std::alloc::{AllocError, Global};
use term_dag::{Node, Term};

/// What stands for the first terms of a question: for a word a word, for a memory its number. The other one is any.
#[derive(Drop)]
pub struct Lowered {
    pub words: Vec<Term>,
    pub numbers: Vec<usize>,
    pub memories: Memories,
}

impl Lowered {
    /// The word that stands for a term.
    pub fn word(&self, term: Term) -> Term
        requires { term.0 < length self.now.words.items }
        ensures { result.0 ≡ link self.now.words.items term.0 }
    {
        self.words[term.0 as usize]
    }

    /// The words that stand for some terms. The error is out of memory.
    pub fn words_for(&self, alloc: Global, terms: &[Term]) -> Result<Vec<Term>, AllocError>
        requires { (t : Term) → Contains terms.now t → t.0 < length self.now.words.items }
        ensures { IfOk result (λ v. places_of v.items ≡ map (link self.now.words.items) (places_of terms.now)) }
    {
        let mut words = Vec::with_capacity(alloc, terms.len())?;
        for term in terms {
            words.push(self.word(*term))?;
        }
        Ok(words)
    }

    /// The number that stands for a term.
    fn number(&self, term: Term) -> usize
        requires { term.0 < length self.now.numbers.items }
        ensures { result ≡ slice_index self.now.numbers.items term.0 }
    {
        self.numbers[term.0 as usize]
    }

    /// The node over the words that stand for the terms that it is over.
    fn moved(&self, node: Node) -> Node
        requires { AllByRecursion (λ a. a < length self.now.words.items) (operands (node_of node)) }
        ensures { node_of result ≡ moved (link self.now.words.items) (node_of node) }
    {
        node.moved(&self.words)
    }
}

/// The next term, a word that is no load.
fn lower_word(build: &mut Build, lowered: &mut Lowered, node: Node) -> Result<(), AllocError>
    requires lowered { Lowers (length lowered.old.words.items) build.old lowered.old }
    requires next { IsNextOf (length lowered.old.words.items) build.old (node_of node) }
    requires word { IsOfWords (node_of node) }
    ensures question { OnOk result (build.new.question ≡ build.old.question) }
    ensures lowered { OnOk result (Lowers (length lowered.old.words.items + 1) build.new lowered.new) }
{
    let term = build.make(lowered.moved(node))?;
    lowered.words.push(term)?;
    lowered.numbers.push(0)?;
    Ok(())
}

/// The next term, a load.
fn lower_load(
    build: &mut Build,
    alloc: Global,
    lowered: &mut Lowered,
    bytes: u8,
    big: bool,
    memory: Term,
    address: Term,
) -> Result<(), AllocError>
    requires lowered { Lowers (length lowered.old.words.items) build.old lowered.old }
    requires next { IsNextOf (length lowered.old.words.items) build.old (LoadNode bytes (endian big) memory.0 address.0) }
    ensures question { OnOk result (build.new.question ≡ build.old.question) }
    ensures lowered { OnOk result (Lowers (length lowered.old.words.items + 1) build.new lowered.new) }
{
    let number = lowered.number(memory);
    let at = lowered.word(address);
    let word = load(build, alloc, &lowered.memories, number, at, bytes, big)?;
    lowered.words.push(word)?;
    lowered.numbers.push(0)?;
    Ok(())
}

/// The next term, a store.
fn lower_store(
    build: &mut Build,
    lowered: &mut Lowered,
    bytes: u8,
    big: bool,
    memory: Term,
    address: Term,
    value: Term,
) -> Result<(), AllocError>
    requires lowered { Lowers (length lowered.old.words.items) build.old lowered.old }
    requires next { IsNextOf (length lowered.old.words.items) build.old (StoreNode bytes (endian big) memory.0 address.0 value.0) }
    ensures question { OnOk result (build.new.question ≡ build.old.question) }
    ensures lowered { OnOk result (Lowers (length lowered.old.words.items + 1) build.new lowered.new) }
{
    let number = lowered.number(memory);
    let at = lowered.word(address);
    let word = lowered.word(value);
    let piece = store(build, &mut lowered.memories, number, at, word, bytes, big)?;
    let count = lowered.memories.pieces.len();
    lowered.memories.pieces.push(piece)?;
    lowered.words.push(Term(0))?;
    lowered.numbers.push(count)?;
    Ok(())
}

/// The next term, one of two memories.
fn lower_join(
    build: &Build,
    lowered: &mut Lowered,
    condition: Term,
    when_true: Term,
    when_false: Term,
) -> Result<(), AllocError>
    requires lowered { Lowers (length lowered.old.words.items) build.now lowered.old }
    requires next { IsNextOf (length lowered.old.words.items) build.now (JoinNode condition.0 when_true.0 when_false.0) }
    ensures { OnOk result (Lowers (length lowered.old.words.items + 1) build.now lowered.new) }
{
    let _ = build;
    let bit = lowered.word(condition);
    let one = lowered.number(when_true);
    let other = lowered.number(when_false);
    let count = lowered.memories.pieces.len();
    lowered.memories.pieces.push(Piece::Join {
        condition: bit,
        when_true: one,
        when_false: other,
    })?;
    lowered.words.push(Term(0))?;
    lowered.numbers.push(count)?;
    Ok(())
}

/// The next term, the memory of a part.
fn lower_entry(build: &Build, lowered: &mut Lowered, part: u32) -> Result<(), AllocError>
    requires lowered { Lowers (length lowered.old.words.items) build.now lowered.old }
    requires next { IsNextOf (length lowered.old.words.items) build.now (MemoryNode part) }
    ensures { OnOk result (Lowers (length lowered.old.words.items + 1) build.now lowered.new) }
{
    let _ = build;
    let count = lowered.memories.pieces.len();
    lowered.memories.pieces.push(Piece::Entry(part))?;
    lowered.words.push(Term(0))?;
    lowered.numbers.push(count)?;
    Ok(())
}

/// The next term, a memory with some bytes of a part's.
fn lower_take(
    build: &mut Build,
    lowered: &mut Lowered,
    bytes: u32,
    memory: Term,
    address: Term,
    part: u32,
) -> Result<(), AllocError>
    requires lowered { Lowers (length lowered.old.words.items) build.old lowered.old }
    requires next { IsNextOf (length lowered.old.words.items) build.old (TakeNode bytes memory.0 address.0 part) }
    ensures question { OnOk result (build.new.question ≡ build.old.question) }
    ensures lowered { OnOk result (Lowers (length lowered.old.words.items + 1) build.new lowered.new) }
{
    let number = lowered.number(memory);
    let first = lowered.word(address);
    let piece = take(build, number, first, bytes, part)?;
    let count = lowered.memories.pieces.len();
    lowered.memories.pieces.push(piece)?;
    lowered.words.push(Term(0))?;
    lowered.numbers.push(count)?;
    Ok(())
}

/// The next term.
fn lower(
    build: &mut Build,
    alloc: Global,
    lowered: &mut Lowered,
    node: Node,
) -> Result<(), AllocError>
    requires lowered { Lowers (length lowered.old.words.items) build.old lowered.old }
    requires next { IsNextOf (length lowered.old.words.items) build.old (node_of node) }
    ensures question { OnOk result (build.new.question ≡ build.old.question) }
    ensures lowered { OnOk result (Lowers (length lowered.old.words.items + 1) build.new lowered.new) }
{
    match node {
        Node::Memory(part) => lower_entry(build, lowered, part)?,
        Node::Load {
            bytes,
            big,
            memory,
            address,
        } => lower_load(build, alloc, lowered, bytes, big, memory, address)?,
        Node::Store {
            bytes,
            big,
            memory,
            address,
            value,
        } => lower_store(build, lowered, bytes, big, memory, address, value)?,
        Node::Join {
            condition,
            when_true,
            when_false,
        } => lower_join(build, lowered, condition, when_true, when_false)?,
        Node::Take {
            bytes,
            memory,
            address,
            part,
        } => lower_take(build, lowered, bytes, memory, address, part)?,
        _ => lower_word(build, lowered, node)?,
    }
    Ok(())
}

/// All terms.
pub fn lower_all(build: &mut Build, alloc: Global) -> Result<Lowered, AllocError>
    requires nodes { build.old.dag ≡ [] }
    requires reads { read_places build.old ≡ [] }
    requires named { AreNamedBelow (frame_of_build build.old) (heads_of_build build.old) 0 (source_of build.old) }
    ensures question { OnOk result (build.new.question ≡ build.old.question) }
    ensures lowered { IfOk result (λ l. Lowers (length (source_of build.old)) build.new l) }
{
    let question = build.question;
    let count = question.dag.nodes();
    if count > u32::MAX as usize {
        return Err(AllocError);
    }
    let mut lowered = Lowered {
        words: Vec::with_capacity(alloc, count)?,
        numbers: Vec::with_capacity(alloc, count)?,
        memories: Memories {
            pieces: Vec::new(alloc),
            stored: Vec::new(alloc),
        },
    };
    for place in 0..count {
        let node = question.dag.node(Term(place as u32));
        lower(build, alloc, &mut lowered, node)?;
    }
    Ok(lowered)
}
