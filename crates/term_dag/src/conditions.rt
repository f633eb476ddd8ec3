//! Folds of `and` and `or` between bits, one level deep.

ghost use Rattle.std.specs.Prelude.{◌≡◌, ℕ, ◌+◌, ◌<◌, ◌≤◌, ◌⊎◌, bit_and, bit_or, IsTrue, IfSome};
ghost use Rattle.word_spec.specs.Words as words;
ghost use Rattle.machine_spec.specs.BilTyping.{result_width};
ghost use Rattle.machine_spec.specs.BilCounts.{op_weight};
ghost use Rattle.term_spec.specs.Terms.{TermReading, InRange, operate, term_word, HasWidth};
ghost use Rattle.bil_ast.specs.Views.{binary_of};
ghost use Rattle.term_dag.specs.Lists.{terms};
ghost use Rattle.term_dag.specs.Made.{Separates};
ghost use Rattle.term_dag.specs.Folds.{AreBits, IsCube, IsLiteral, IsPair, IsWordFold, cube_value, literal_value};

use crate::folds::{Folded, look};
use crate::operators::{ordered, truth};
use crate::typed::Nodes;
use crate::{Node, Term};
use bil_ast::BinaryOp;

/// A bit, or its negation.
#[derive(Clone, Copy)]
pub struct Literal {
    pub term: Term,
    pub negated: bool,
}

/// Two bits, as terms and as literals, of which another bit is the conjunction.
#[derive(Clone, Copy)]
pub struct Cube {
    pub left: Term,
    pub right: Term,
    pub first: Literal,
    pub second: Literal,
}

/// Whether two literals are the same.
fn is_same(one: Literal, other: Literal) -> bool
    ensures { IsTrue result → (v : ℕ → ℕ) → literal_value one v ≡ literal_value other v }
{
    one.term.0 == other.term.0 && one.negated == other.negated
}

/// Whether one literal is the other's negation.
fn is_opposite(one: Literal, other: Literal) -> bool
    ensures { IsTrue result → (v : ℕ → ℕ) → v one.term.0 < 2 → literal_value one v + literal_value other v ≡ 1 }
{
    one.term.0 == other.term.0 && one.negated != other.negated
}

/// A bit as a literal.
fn literal_of(nodes: &Nodes, term: Term) -> Literal
    requires place { HasWidth (terms nodes.now) 1 term.0 }
    ensures { IsLiteral (terms nodes.now) term.0 result }
{
    match look(nodes, term) {
        Node::Not { term: inner, .. } => Literal {
            term: inner,
            negated: true,
        },
        _ => Literal {
            term,
            negated: false,
        },
    }
}

/// A conjunction of two bits.
fn cube_of(nodes: &Nodes, left: Term, right: Term) -> Cube
    requires left { HasWidth (terms nodes.now) 1 left.0 }
    requires right { HasWidth (terms nodes.now) 1 right.0 }
    ensures pair { IsPair (terms nodes.now) result }
    ensures left { result.left ≡ left }
    ensures right { result.right ≡ right }
{
    Cube {
        left,
        right,
        first: literal_of(nodes, left),
        second: literal_of(nodes, right),
    }
}

/// A bit as a conjunction: of the operands of an `and`, or of itself with itself.
fn split(nodes: &Nodes, term: Term) -> Cube
    requires place { HasWidth (terms nodes.now) 1 term.0 }
    ensures { IsCube (terms nodes.now) term.0 result }
{
    match look(nodes, term) {
        Node::Binary {
            op: BinaryOp::And,
            left,
            right,
            ..
        } => cube_of(nodes, left, right),
        _ => cube_of(nodes, term, term),
    }
}

/// Whether a conjunction has a literal.
fn has(cube: Cube, literal: Literal) -> bool
    ensures { IsTrue result → (v : ℕ → ℕ) → (literal_value literal v ≡ literal_value cube.first v) ⊎ (literal_value literal v ≡ literal_value cube.second v) }
{
    is_same(literal, cube.first) || is_same(literal, cube.second)
}

/// Whether a conjunction has the literals of another, which then follows from it.
fn implies(cube: Cube, other: Cube) -> bool
    ensures { IsTrue result → (v : ℕ → ℕ) → AreBits v cube → AreBits v other → cube_value cube v ≤ cube_value other v }
{
    has(cube, other.first) && has(cube, other.second)
}

/// Whether a literal of a conjunction is the negation of one of another, so that not both are 1.
fn excludes(cube: Cube, other: Cube) -> bool
    ensures { IsTrue result → (v : ℕ → ℕ) → AreBits v cube → AreBits v other → cube_value cube v + cube_value other v ≤ 1 }
{
    is_opposite(cube.first, other.first)
        || is_opposite(cube.first, other.second)
        || is_opposite(cube.second, other.first)
        || is_opposite(cube.second, other.second)
}

/// Whether two conjunctions, of two literals each, have the same first literal, and else each other's negation.
fn rejoins(first: Literal, second: Literal, other_first: Literal, other_second: Literal) -> bool
    ensures { IsTrue result → (v : ℕ → ℕ) → v first.term.0 < 2 → v second.term.0 < 2 →
        bit_and (literal_value first v) (literal_value second v) + bit_and (literal_value other_first v) (literal_value other_second v)
        ≡ literal_value first v }
{
    is_same(first, other_first) && is_opposite(second, other_second)
}

/// Whether two conjunctions have the first literal of one, and else each other's negation: one of them is 1 exactly where that literal is.
#[tactic(auto, using(std::proofs::lemmas::Nat::and_comm))]
fn shares_first(cube: Cube, other: Cube) -> bool
    ensures { IsTrue result → (v : ℕ → ℕ) → AreBits v cube → AreBits v other → cube_value cube v + cube_value other v ≡ literal_value cube.first v }
{
    if rejoins(cube.first, cube.second, other.first, other.second) {
        return true;
    }
    rejoins(cube.first, cube.second, other.second, other.first)
}

/// Whether two conjunctions have the second literal of one, and else each other's negation.
#[tactic(auto, using(std::proofs::lemmas::Nat::and_comm))]
fn shares_second(cube: Cube, other: Cube) -> bool
    ensures { IsTrue result → (v : ℕ → ℕ) → AreBits v cube → AreBits v other → cube_value cube v + cube_value other v ≡ literal_value cube.second v }
{
    if rejoins(cube.second, cube.first, other.second, other.first) {
        return true;
    }
    rejoins(cube.second, cube.first, other.first, other.second)
}

/// Whether two conjunctions are each of one literal, and each other's negation: exactly one of them is 1.
fn covers(cube: Cube, other: Cube) -> bool
    ensures { IsTrue result → (v : ℕ → ℕ) → AreBits v cube → AreBits v other → cube_value cube v + cube_value other v ≡ 1 }
{
    is_opposite(cube.first, other.first)
        && is_opposite(cube.second, other.second)
        && is_opposite(cube.first, other.second)
}

/// A bit that does for another in an `or`: of a conjunction with the negation of the other side, what stands beside that.
fn without(nodes: &Nodes, side: Term, term: Term) -> Term
    requires side { HasWidth (terms nodes.now) 1 side.0 }
    requires place { HasWidth (terms nodes.now) 1 term.0 }
    ensures place { HasWidth (terms nodes.now) 1 result.0 }
    ensures value { (x : TermReading) → InRange x → bit_or (term_word x (terms nodes.now) side.0) (term_word x (terms nodes.now) result.0)
        ≡ bit_or (term_word x (terms nodes.now) side.0) (term_word x (terms nodes.now) term.0) }
{
    let literal = literal_of(nodes, side);
    let cube = split(nodes, term);
    if is_opposite(literal, cube.first) {
        return cube.right;
    }
    if is_opposite(literal, cube.second) {
        return cube.left;
    }
    term
}

/// A bit that does for another in an `and`: of a disjunction with the other side that side, and with its negation what stands beside that.
fn within(nodes: &Nodes, side: Term, term: Term) -> Term
    requires side { HasWidth (terms nodes.now) 1 side.0 }
    requires place { HasWidth (terms nodes.now) 1 term.0 }
    ensures place { HasWidth (terms nodes.now) 1 result.0 }
    ensures value { (x : TermReading) → InRange x → bit_and (term_word x (terms nodes.now) side.0) (term_word x (terms nodes.now) result.0)
        ≡ bit_and (term_word x (terms nodes.now) side.0) (term_word x (terms nodes.now) term.0) }
{
    let Node::Binary {
        op: BinaryOp::Or,
        left,
        right,
        ..
    } = look(nodes, term)
    else {
        return term;
    };
    let literal = literal_of(nodes, side);
    let either = cube_of(nodes, left, right);
    if has(either, literal) {
        return side;
    }
    if is_opposite(literal, either.first) {
        return right;
    }
    if is_opposite(literal, either.second) {
        return left;
    }
    term
}

/// An `and` or an `or` of two bits, in their order.
fn pair(nodes: &Nodes, op: BinaryOp, left: Term, right: Term) -> Folded
    requires left { HasWidth (terms nodes.now) 1 left.0 }
    requires right { HasWidth (terms nodes.now) 1 right.0 }
    ensures { IsWordFold (terms nodes.now) (result_width (binary_of op) 1)
        (λ x. operate (binary_of op) 1 (term_word x (terms nodes.now) left.0) (term_word x (terms nodes.now) right.0)) (op_weight (binary_of op) 1) result }
{
    let (first, second) = ordered(nodes, op, left, right);
    Folded::New(Node::Binary {
        op,
        width: 1,
        left: first,
        right: second,
    })
}

/// A bit whose negation does for another bit in an `and`: of a negated conjunction with the other side, what stands beside that.
fn denied(nodes: &Nodes, side: Term, term: Term) -> Option<Term>
    requires side { HasWidth (terms nodes.now) 1 side.0 }
    requires place { HasWidth (terms nodes.now) 1 term.0 }
    ensures place { IfSome result (λ r. HasWidth (terms nodes.now) 1 r.0) }
    ensures value { IfSome result (λ r. (x : TermReading) → InRange x →
        bit_and (term_word x (terms nodes.now) side.0) (words.complement 1 (term_word x (terms nodes.now) r.0))
        ≡ bit_and (term_word x (terms nodes.now) side.0) (term_word x (terms nodes.now) term.0)) }
{
    let Node::Not { term: inner, .. } = look(nodes, term) else {
        return None;
    };
    let literal = literal_of(nodes, side);
    let cube = split(nodes, inner);
    if is_same(literal, cube.first) {
        return Some(cube.right);
    }
    if is_same(literal, cube.second) {
        return Some(cube.left);
    }
    None
}

/// A bit `and` the negation of another.
fn unless(nodes: &Nodes, side: Term, term: Term) -> Folded
    requires side { HasWidth (terms nodes.now) 1 side.0 }
    requires place { HasWidth (terms nodes.now) 1 term.0 }
    ensures { IsWordFold (terms nodes.now) 1 (λ x. bit_and (term_word x (terms nodes.now) side.0) (words.complement 1 (term_word x (terms nodes.now) term.0))) 1 result }
{
    match look(nodes, term) {
        Node::Not { term: inner, .. } => pair(nodes, BinaryOp::And, side, inner),
        _ => Folded::Unless(side, term),
    }
}

/// An `and` of two bits, one of which does with less beside the other.
fn narrowed(nodes: &Nodes, left: Term, right: Term) -> Option<Folded>
    requires left { HasWidth (terms nodes.now) 1 left.0 }
    requires right { HasWidth (terms nodes.now) 1 right.0 }
    ensures { IfSome result (λ f. IsWordFold (terms nodes.now) 1 (λ x. bit_and (term_word x (terms nodes.now) left.0) (term_word x (terms nodes.now) right.0)) 1 f) }
{
    let second = within(nodes, left, right);
    if second.0 == left.0 {
        return Some(Folded::Old(left));
    }
    if second.0 != right.0 {
        return Some(pair(nodes, BinaryOp::And, left, second));
    }
    let first = within(nodes, right, left);
    if first.0 == right.0 {
        return Some(Folded::Old(right));
    }
    if first.0 != left.0 {
        return Some(pair(nodes, BinaryOp::And, first, right));
    }
    if let Some(term) = denied(nodes, left, right) {
        return Some(unless(nodes, left, term));
    }
    if let Some(term) = denied(nodes, right, left) {
        return Some(unless(nodes, right, term));
    }
    None
}

/// An `or` of two bits, one of which does with less beside the other.
fn widened(nodes: &Nodes, left: Term, right: Term) -> Option<Folded>
    requires left { HasWidth (terms nodes.now) 1 left.0 }
    requires right { HasWidth (terms nodes.now) 1 right.0 }
    ensures { IfSome result (λ f. IsWordFold (terms nodes.now) 1 (λ x. bit_or (term_word x (terms nodes.now) left.0) (term_word x (terms nodes.now) right.0)) 1 f) }
{
    let second = without(nodes, left, right);
    if second.0 != right.0 {
        return Some(pair(nodes, BinaryOp::Or, left, second));
    }
    let first = without(nodes, right, left);
    if first.0 != left.0 {
        return Some(pair(nodes, BinaryOp::Or, first, right));
    }
    None
}

/// An `and` of two bits.
pub fn conjunction(nodes: &Nodes, left: Term, right: Term) -> Option<Folded>
    requires left { HasWidth (terms nodes.now) 1 left.0 }
    requires right { HasWidth (terms nodes.now) 1 right.0 }
    ensures { IfSome result (λ f. IsWordFold (terms nodes.now) 1 (λ x. bit_and (term_word x (terms nodes.now) left.0) (term_word x (terms nodes.now) right.0)) 1 f) }
{
    let a = split(nodes, left);
    let b = split(nodes, right);
    if excludes(a, b) {
        return Some(truth(false));
    }
    if implies(a, b) {
        return Some(Folded::Old(left));
    }
    if implies(b, a) {
        return Some(Folded::Old(right));
    }
    narrowed(nodes, left, right)
}

/// An `or` of two bits.
pub fn disjunction(nodes: &Nodes, left: Term, right: Term) -> Option<Folded>
    requires left { HasWidth (terms nodes.now) 1 left.0 }
    requires right { HasWidth (terms nodes.now) 1 right.0 }
    ensures { IfSome result (λ f. IsWordFold (terms nodes.now) 1 (λ x. bit_or (term_word x (terms nodes.now) left.0) (term_word x (terms nodes.now) right.0)) 1 f) }
{
    let a = split(nodes, left);
    let b = split(nodes, right);
    if implies(a, b) {
        return Some(Folded::Old(right));
    }
    if implies(b, a) {
        return Some(Folded::Old(left));
    }
    if covers(a, b) {
        return Some(truth(true));
    }
    if shares_first(a, b) {
        return Some(Folded::Old(a.left));
    }
    if shares_second(a, b) {
        return Some(Folded::Old(a.right));
    }
    widened(nodes, left, right)
}

/// A bit that is 1 where the condition is, and 0 where the condition is not and `met` is. Of a conjunction of two bits that is the one of them that `met` has
/// negated beside the other; else it is the condition itself.
pub fn separator(nodes: &Nodes, condition: Term, met: Term) -> Term
    requires condition { HasWidth (terms nodes.now) 1 condition.0 }
    requires met { HasWidth (terms nodes.now) 1 met.0 }
    ensures { Separates (terms nodes.now) condition.0 met.0 result.0 }
{
    let a = split(nodes, condition);
    let b = split(nodes, met);
    if shares_first(a, b) {
        return a.right;
    }
    if shares_second(a, b) {
        return a.left;
    }
    condition
}
