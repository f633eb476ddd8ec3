//! What a node comes to, where something is known of its operands.

ghost use Rattle.std.specs.Prelude.{◌≡◌, ◌<◌, ◌≤◌, ◌^◌, ◌-◌, length, IfSome};
ghost use Rattle.machine_spec.specs.BilTyping.{result_width};
ghost use Rattle.term_spec.specs.Terms.{operate, width_of, node_at, IsTypedOver};
ghost use Rattle.bil_ast.specs.Views.{binary_of};
ghost use Rattle.term_dag.specs.Nodes.{node_of};
ghost use Rattle.term_dag.specs.Lists.{terms};
ghost use Rattle.term_dag.specs.Folds.{IsConstant, IsFold};

use crate::typed::Nodes;
use crate::{Node, Term, memories, operators, selections, slices};
use bil_ast::BinaryOp;
use bv_word::Word;

/// What a node comes to: a term that is there, a node, an operator of a width between a term and a constant, or a bit `and` the negation of another.
#[derive(Clone, Copy)]
pub enum Folded {
    Old(Term),
    New(Node),
    Onto(BinaryOp, u8, Term, u64),
    Unless(Term, Term),
}

/// The node of a term.
pub fn look(nodes: &Nodes, term: Term) -> Node
    requires { term.0 < length (terms nodes.now) }
    ensures { node_of result ≡ node_at (terms nodes.now) term.0 }
{
    nodes.list[term.0 as usize]
}

/// A constant's bits.
pub fn constant(nodes: &Nodes, term: Term) -> Option<u64>
    requires within { term.0 < length (terms nodes.now) }
    ensures { IfSome result (λ c. IsConstant (terms nodes.now) term.0 c) }
{
    match look(nodes, term) {
        Node::Constant { value, .. } => Some(value),
        _ => None,
    }
}

/// All ones.
pub fn ones(width: u8) -> u64
    requires some { 1 ≤ width }
    requires few { width ≤ 64 }
    ensures { result ≡ 2 ^ width - 1 }
{
    Word::new(width, 0).not().bits
}

/// The width of an operator's result.
pub fn result_width(op: BinaryOp, width: u8) -> u8
    ensures { result ≡ result_width (binary_of op) width }
{
    match op {
        BinaryOp::Equal
        | BinaryOp::NotEqual
        | BinaryOp::Less
        | BinaryOp::LessEqual
        | BinaryOp::SignedLess
        | BinaryOp::SignedLessEqual => 1,
        _ => width,
    }
}

/// An operator on two words of a width.
pub fn apply(op: BinaryOp, width: u8, left: u64, right: u64) -> u64
    requires some { 1 ≤ width }
    requires few { width ≤ 64 }
    requires left { left < 2 ^ width }
    requires right { right < 2 ^ width }
    ensures value { result ≡ operate (binary_of op) width left right }
    ensures below { result < 2 ^ result_width (binary_of op) width }
{
    let a = Word::new(width, left);
    let b = Word::new(width, right);
    let word = match op {
        BinaryOp::Plus => a.add(b),
        BinaryOp::Minus => a.sub(b),
        BinaryOp::Times => a.mul(b),
        BinaryOp::Divide => a.udiv(b),
        BinaryOp::SignedDivide => a.sdiv(b),
        BinaryOp::Modulo => a.urem(b),
        BinaryOp::SignedModulo => a.srem(b),
        BinaryOp::And => a.and(b),
        BinaryOp::Or => a.or(b),
        BinaryOp::Xor => a.xor(b),
        BinaryOp::ShiftLeft => a.shl(b),
        BinaryOp::ShiftRight => a.shr(b),
        BinaryOp::ShiftSigned => a.sar(b),
        BinaryOp::Equal => a.eq(b),
        BinaryOp::NotEqual => a.eq(b).not(),
        BinaryOp::Less => a.ult(b),
        BinaryOp::LessEqual => a.ule(b),
        BinaryOp::SignedLess => a.slt(b),
        BinaryOp::SignedLessEqual => a.sle(b),
    };
    word.bits
}

/// The width of a node's word, and 0 for a memory.
pub fn width_of_node(nodes: &Nodes, node: Node) -> u8
    requires over { IsTypedOver (terms nodes.now) (node_of node) }
    ensures { result ≡ width_of (node_of node) }
{
    match node {
        Node::Register { .. } => 32,
        Node::Flag { .. } => 1,
        Node::Choice(_) => 2,
        Node::Base { .. } => 8,
        Node::Memory(_) | Node::Store { .. } | Node::Join { .. } | Node::Take { .. } => 0,
        Node::Constant { width, .. } | Node::Not { width, .. } | Node::Select { width, .. } =>
            width,
        Node::Binary { op, width, .. } => result_width(op, width),
        Node::Extract { hi, lo, .. } => hi + 1 - lo,
        Node::Concat { high, low, .. } => high + low,
        Node::Extend { to, .. } => to,
        Node::Load { bytes, .. } => 8 * bytes,
    }
}

/// What a node comes to.
pub fn fold(nodes: &Nodes, node: Node) -> Folded
    requires over { IsTypedOver (terms nodes.now) (node_of node) }
    ensures { IsFold (terms nodes.now) (node_of node) result }
{
    match node {
        Node::Binary {
            op,
            width,
            left,
            right,
        } => operators::binary(nodes, op, width, left, right),
        Node::Not { width, term } => operators::negation(nodes, width, term),
        Node::Select {
            width,
            condition,
            when_true,
            when_false,
        } => selections::select(nodes, width, condition, when_true, when_false),
        Node::Extract { hi, lo, term } => slices::extract(nodes, hi, lo, term),
        Node::Concat {
            high,
            low,
            upper,
            lower,
        } => slices::concat(nodes, high, low, upper, lower),
        Node::Extend {
            signed,
            from,
            to,
            term,
        } => slices::extend(nodes, signed, from, to, term),
        Node::Load {
            bytes,
            big,
            memory,
            address,
        } => memories::load(nodes, bytes, big, memory, address),
        Node::Join {
            condition,
            when_true,
            when_false,
        } => selections::join(nodes, condition, when_true, when_false),
        _ => Folded::New(node),
    }
}
