//! Operators of notes as those of terms.

ghost use Rattle.std.specs.Prelude.{◌≡◌, ℕ, if◌then◌else◌, not, true, false, IfOk};
ghost use Rattle.machine_spec.specs.Bil as bil;
ghost use Rattle.word_spec.specs.Words.{bit};
ghost use Rattle.bilv_spec.specs.Notes as notes;
ghost use Rattle.bilv_spec.specs.Notes.{apply, is_true};
ghost use Rattle.term_spec.specs.Terms.{TermReading, BinaryNode, HasWidth, term_word};
ghost use Rattle.bil_ast.specs.Views.{binary_of};
ghost use Rattle.term_dag.specs.Nodes.{node_of};
ghost use Rattle.notes_value.specs.Views as views;
ghost use Rattle.note_terms.specs.Steps.{IsApplied, IsConnected, IsNarrow, IsOnWords, IsOperation, IsShown, IsStep, IsValueAt, IsZero, operator_gates};

use bil_ast::BinaryOp;
use notes_value::Operator;
use std::alloc::AllocError;
use term_dag::{Dag, Node, Term};

/// An operator between two words, whose operands may have to change places.
#[derive(Clone, Copy)]
struct Operation {
    op: BinaryOp,
    swapped: bool,
}

/// An operator whose operands stay in their places.
fn plain(op: BinaryOp) -> Operation
    ensures op { result.op ≡ op }
    ensures swapped { result.swapped ≡ false }
{
    Operation { op, swapped: false }
}

/// An operator whose operands change places.
fn swapped(op: BinaryOp) -> Operation
    ensures op { result.op ≡ op }
    ensures swapped { result.swapped ≡ true }
{
    Operation { op, swapped: true }
}

/// A word of at most 32 bits as one of 32.
pub fn widened(dag: &mut Dag, term: Term) -> Result<Term, AllocError>
    requires narrow { IsNarrow dag.old term.0 }
    ensures { IfOk result (λ t. IsStep dag.old dag.new 0 0 1 (λ w. w ≡ 32) (λ x. term_word x dag.old term.0) t.0) }
{
    let _typed = dag.nodes();
    let from = dag.width(term);
    if from == 32 {
        return Ok(term);
    }
    match dag.constant(term) {
        Some(value) => {
            let word = dag.keep(Node::Constant { width: 32, value })?;
            Ok(word)
        }
        None => {
            let word = dag.keep(Node::Extend {
                signed: false,
                from,
                to: 32,
                term,
            })?;
            Ok(word)
        }
    }
}

/// Whether a value counts as true.
pub fn truth(dag: &mut Dag, zero: Term, term: Term) -> Result<Term, AllocError>
    requires zero { IsZero dag.old zero.0 }
    requires term { IsValueAt dag.old term.0 }
    ensures { IfOk result (λ t. IsStep dag.old dag.new 32 0 2 (λ w. w ≡ 1) (λ x. bit (is_true (term_word x dag.old term.0))) t.0) }
{
    let _typed = dag.nodes();
    if dag.width(term) == 1 {
        return Ok(term);
    }
    let bit = dag.mk(Node::Binary {
        op: BinaryOp::NotEqual,
        width: 32,
        left: term,
        right: zero,
    })?;
    Ok(bit)
}

/// Whether a value does not count as true.
pub fn falsity(dag: &mut Dag, zero: Term, term: Term) -> Result<Term, AllocError>
    requires zero { IsZero dag.old zero.0 }
    requires term { IsValueAt dag.old term.0 }
    ensures { IfOk result (λ t. IsStep dag.old dag.new 32 0 2 (λ w. w ≡ 1) (λ x. bit (not (is_true (term_word x dag.old term.0)))) t.0) }
{
    if dag.width(term) == 1 {
        let bit = dag.mk(Node::Not { width: 1, term })?;
        return Ok(bit);
    }
    let bit = dag.mk(Node::Binary {
        op: BinaryOp::Equal,
        width: 32,
        left: term,
        right: zero,
    })?;
    Ok(bit)
}

/// The operator between bits.
fn connective(both: bool) -> BinaryOp
    ensures { binary_of result ≡ (if both then bil.And else bil.Or) }
{
    if both { BinaryOp::And } else { BinaryOp::Or }
}

/// Whether both of two values count as true, or one of them.
pub fn connected(
    dag: &mut Dag,
    zero: Term,
    both: bool,
    left: Term,
    right: Term,
) -> Result<Term, AllocError>
    requires zero { IsZero dag.old zero.0 }
    requires left { IsValueAt dag.old left.0 }
    requires right { IsValueAt dag.old right.0 }
    ensures { IfOk result (λ t. IsConnected dag.old dag.new both left.0 right.0 t.0) }
{
    let left = truth(dag, zero, left)?;
    let right = truth(dag, zero, right)?;
    let bit = dag.mk(Node::Binary {
        op: connective(both),
        width: 1,
        left,
        right,
    })?;
    Ok(bit)
}

/// The operator of terms that one on words is.
fn on_words(op: Operator) -> Operation
    requires { IsOnWords (views.op_of op) }
    ensures { IsOperation (views.op_of op) (binary_of result.op) result.swapped }
{
    match op {
        Operator::Or | Operator::And => unreachable!(),
        Operator::Equal => plain(BinaryOp::Equal),
        Operator::NotEqual => plain(BinaryOp::NotEqual),
        Operator::Below => plain(BinaryOp::Less),
        Operator::AtMost => plain(BinaryOp::LessEqual),
        Operator::Above => swapped(BinaryOp::Less),
        Operator::AtLeast => swapped(BinaryOp::LessEqual),
        Operator::SignedBelow => plain(BinaryOp::SignedLess),
        Operator::SignedAtMost => plain(BinaryOp::SignedLessEqual),
        Operator::SignedAbove => swapped(BinaryOp::SignedLess),
        Operator::SignedAtLeast => swapped(BinaryOp::SignedLessEqual),
        Operator::BitOr => plain(BinaryOp::Or),
        Operator::BitXor => plain(BinaryOp::Xor),
        Operator::BitAnd => plain(BinaryOp::And),
        Operator::ShiftLeft => plain(BinaryOp::ShiftLeft),
        Operator::ShiftRight => plain(BinaryOp::ShiftRight),
        Operator::ShiftSigned => plain(BinaryOp::ShiftSigned),
        Operator::Plus => plain(BinaryOp::Plus),
        Operator::Minus => plain(BinaryOp::Minus),
        Operator::Times => plain(BinaryOp::Times),
    }
}

/// The node of an operator between two words.
fn binary(operation: Operation, left: Term, right: Term) -> Node
    ensures { node_of result ≡ BinaryNode (binary_of operation.op) 32 (if operation.swapped then right.0 else left.0) (if operation.swapped then left.0
        else right.0) }
{
    let op = operation.op;
    let width = 32;
    if operation.swapped {
        return Node::Binary {
            op,
            width,
            left: right,
            right: left,
        };
    }
    Node::Binary {
        op,
        width,
        left,
        right,
    }
}

/// An operator between two values as words.
fn operated(dag: &mut Dag, op: Operator, left: Term, right: Term) -> Result<Term, AllocError>
    requires words { IsOnWords (views.op_of op) }
    requires left { IsValueAt dag.old left.0 }
    requires right { IsValueAt dag.old right.0 }
    ensures { IfOk result (λ t. IsApplied dag.old dag.new (views.op_of op) left.0 right.0 t.0) }
{
    let left = widened(dag, left)?;
    let right = widened(dag, right)?;
    let term = dag.mk(binary(on_words(op), left, right))?;
    Ok(term)
}

/// A binary operator between two values.
pub fn applied(
    dag: &mut Dag,
    zero: Term,
    op: Operator,
    left: Term,
    right: Term,
) -> Result<Term, AllocError>
    requires zero { IsZero dag.old zero.0 }
    requires left { IsValueAt dag.old left.0 }
    requires right { IsValueAt dag.old right.0 }
    ensures { IfOk result (λ t. IsApplied dag.old dag.new (views.op_of op) left.0 right.0 t.0) }
{
    match op {
        Operator::And => {
            let term = connected(dag, zero, true, left, right)?;
            Ok(term)
        }
        Operator::Or => {
            let term = connected(dag, zero, false, left, right)?;
            Ok(term)
        }
        _ => {
            let term = operated(dag, op, left, right)?;
            Ok(term)
        }
    }
}
