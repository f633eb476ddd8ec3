//! The list of nodes, each kept once.

ghost use Rattle.std.specs.Prelude.{◌≡◌, ℕ, ◌<◌, ◌≤◌, ◌^◌, ◌⊎◌, List, [], length, take, IfNone, IfSome, IfOk, MatchResult};
ghost use Rattle.term_spec.specs.Terms.{ConstantNode, TermNode, TermReading, node_at, term_value, term_word, width_of, HasWidth, IsTypedOver, AreTyped};
ghost use Rattle.term_dag.specs.Nodes.{node_of, nodes_of};
ghost use Rattle.term_dag.specs.Lists.{terms};
ghost use Rattle.term_dag.specs.Readings.{AreWords, reading_of, reading_of_parts};
ghost use Rattle.term_dag.specs.Made.{AreDistinct, IsInterned, IsMade, Separates};

use crate::folds::{Folded, fold, look, width_of_node};
use crate::typed::Nodes;
use crate::values::{byte, one_part, words_of};
use crate::{Node, Parts, Reading, Term, conditions};
use bil_ast::BinaryOp;
use indexmap::IndexSet;
use std::alloc::{AllocError, Global};
use std::marker::Model;

/// The most nodes that a `Dag` has, so that 32 bits name each.
const MOST: usize = 4294967295;

/// Two terms, the one of the earlier node first.
fn by_place(one: Term, other: Term) -> (Term, Term)
    ensures { ((result.0 ≡ one) × (result.1 ≡ other)) ⊎ ((result.0 ≡ other) × (result.1 ≡ one)) }
{
    if one.0 <= other.0 {
        return (one, other);
    }
    (other, one)
}

/// Nodes, each over those before it, and no two of them equal.
#[derive(Drop)]
pub struct Dag {
    nodes: IndexSet<Node>,
}

impl Model for Dag {
    ghost Value = { List TermNode };

    ghost view = { λ d. nodes_of d.nodes.keys };

    ghost invariant = { λ d. AreTyped (nodes_of d.nodes.keys) };
}

impl Dag {
    /// No nodes.
    pub fn new(alloc: Global) -> Dag
        ensures { result ≡ [] }
    {
        Dag {
            nodes: IndexSet::new(alloc),
        }
    }

    /// The number of nodes, no two of which are equal, and each of which is over nodes before it.
    pub fn nodes(&self) -> usize
        ensures count { result ≡ length self.now }
        ensures distinct { AreDistinct self.now }
        ensures typed { AreTyped self.now }
    {
        self.nodes.len()
    }

    /// The nodes as a list.
    fn as_nodes(&self) -> Nodes<'_>
        ensures { terms result ≡ self.now }
    {
        Nodes {
            list: self.nodes.as_slice(),
        }
    }

    /// The node of a term.
    pub fn node(&self, term: Term) -> Node
        requires { term.0 < length self.now }
        ensures { node_of result ≡ node_at self.now term.0 }
    {
        look(&self.as_nodes(), term)
    }

    /// The bits of a constant.
    pub fn constant(&self, term: Term) -> Option<u64>
        requires { term.0 < length self.now }
        ensures some { IfSome result (λ c. (x : TermReading) → term_word x self.now term.0 ≡ c) }
        ensures none { IfNone result ((w v : ℕ) → node_at self.now term.0 ≡ ConstantNode w v → ⊥) }
    {
        let _ = &self.nodes;
        match self.node(term) {
            Node::Constant { value, .. } => Some(value),
            _ => None,
        }
    }

    /// The width of a term in bits, 0 of a memory.
    pub fn width(&self, term: Term) -> u8
        requires { term.0 < length self.now }
        ensures { result ≡ width_of (node_at self.now term.0) }
    {
        let nodes = self.as_nodes();
        width_of_node(&nodes, look(&nodes, term))
    }

    /// A bit that is 1 where the condition is, and 0 where the condition is 0 and `met` is 1.
    pub fn separator(&self, condition: Term, met: Term) -> Term
        requires condition { HasWidth self.now 1 condition.0 }
        requires met { HasWidth self.now 1 met.0 }
        ensures { Separates self.now condition.0 met.0 result.0 }
    {
        conditions::separator(&self.as_nodes(), condition, met)
    }

    /// The words of all terms under a reading, by their places; those of memories are 0. The error is want of memory.
    pub fn values(&self, alloc: Global, reading: &Reading) -> Result<Vec<u64>, AllocError>
        ensures { IfOk result (λ ws. AreWords (reading_of reading.now) self.now ws.items) }
    {
        let words = words_of(alloc, &self.as_nodes(), &one_part(reading))?;
        Ok(words)
    }

    /// The words of all terms under readings of parts, by their places; those of memories are 0. The error is want of memory.
    pub fn values_of_parts(&self, alloc: Global, parts: &Parts) -> Result<Vec<u64>, AllocError>
        ensures { IfOk result (λ ws. AreWords (reading_of_parts parts.now) self.now ws.items) }
    {
        let words = words_of(alloc, &self.as_nodes(), parts)?;
        Ok(words)
    }

    /// The word of a term under a reading, 0 of a memory. The error is want of memory.
    pub fn value(&self, alloc: Global, reading: &Reading, term: Term) -> Result<u64, AllocError>
        requires { term.0 < length self.now }
        ensures { IfOk result (λ n. n ≡ term_word (reading_of reading.now) self.now term.0) }
    {
        let words = words_of(alloc, &self.as_nodes(), &one_part(reading))?;
        Ok(words[term.0 as usize])
    }

    /// The byte at an address of a memory under a reading under which the terms have these words; 0 of a word.
    pub fn byte(&self, words: &[u64], reading: &Reading, term: Term, address: u32) -> u8
        requires words { AreWords (reading_of reading.now) self.now words.now }
        requires within { term.0 < length self.now }
        ensures { result ≡ (term_value (reading_of reading.now) self.now term.0).bytes address }
    {
        byte(&self.as_nodes(), words, &one_part(reading), term, address)
    }

    /// The place of a node as it is, which is added where it is not there: nothing is folded. The error is out of memory, or of numbers for terms; then the
    /// terms are as they were.
    pub fn keep(&mut self, node: Node) -> Result<Term, AllocError>
        requires { IsTypedOver self.old (node_of node) }
        ensures { MatchResult result (λ t. IsInterned self.old self.new (node_of node) t.0) (λ e. self.new ≡ self.old) }
    {
        if self.nodes.len() >= MOST {
            return Err(AllocError);
        }
        let (place, _) = self.nodes.insert_full(node)?;
        Ok(Term(place as u32))
    }

    /// The place of a node as it is, like `keep`; but where it cannot be kept, the first `stood` terms alone are left.
    fn keep_or_leave(&mut self, stood: usize, node: Node) -> Result<Term, AllocError>
        requires { IsTypedOver self.old (node_of node) }
        ensures { MatchResult result (λ t. IsInterned self.old self.new (node_of node) t.0) (λ e. self.new ≡ take stood self.old) }
    {
        match self.keep(node) {
            Ok(term) => Ok(term),
            Err(AllocError) => {
                self.nodes.truncate(stood);
                Err(AllocError)
            }
        }
    }

    /// The term of a node over terms. Equal nodes have one term, and a node of which more is known has that of a smaller one. The error is out of memory; then
    /// the terms are as they were.
    pub fn mk(&mut self, node: Node) -> Result<Term, AllocError>
        requires { IsTypedOver self.old (node_of node) }
        ensures { MatchResult result (λ t. IsMade self.old self.new (node_of node) t.0) (λ e. self.new ≡ self.old) }
    {
        let stood = self.nodes.len();
        match fold(&self.as_nodes(), node) {
            Folded::Old(term) => Ok(term),
            Folded::New(node) => {
                let term = self.keep(node)?;
                Ok(term)
            }
            Folded::Onto(op, width, left, value) => {
                let right = self.keep(Node::Constant { width, value })?;
                let node = Node::Binary {
                    op,
                    width,
                    left,
                    right,
                };
                let term = self.keep_or_leave(stood, node)?;
                Ok(term)
            }
            Folded::Unless(bit, other) => {
                let negation = self.keep(Node::Not {
                    width: 1,
                    term: other,
                })?;
                let (left, right) = by_place(bit, negation);
                let node = Node::Binary {
                    op: BinaryOp::And,
                    width: 1,
                    left,
                    right,
                };
                let term = self.keep_or_leave(stood, node)?;
                Ok(term)
            }
        }
    }
}
