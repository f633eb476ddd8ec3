//! Folds of operators on words.

ghost use Rattle.std.specs.Prelude.{◌≡◌, ℕ, ◌*◌, ◌<◌, ◌≤◌, ◌^◌, ◌==◌, ◌⊎◌, List, length, if◌then◌else◌, nat_lt, IsTrue, IfSome};
ghost use Rattle.word_spec.specs.Words as words;
ghost use Rattle.machine_spec.specs.Bil as bil;
ghost use Rattle.machine_spec.specs.BilTyping.{result_width};
ghost use Rattle.machine_spec.specs.BilCounts.{op_weight};
ghost use Rattle.term_spec.specs.Terms.{TermNode, TermReading, operate, term_word, HasWidth, IsWidth, AreTyped};
ghost use Rattle.bil_ast.specs.Views.{binary_of};
ghost use Rattle.term_dag.specs.Lists.{terms};
ghost use Rattle.term_dag.specs.Folds.{IsConstant, IsSum, IsSymmetric, IsWordFold};

use crate::folds::{Folded, apply, constant, look, ones, result_width};
use crate::typed::Nodes;
use crate::{Node, Term, conditions};
use bil_ast::BinaryOp;

/// A word as the sum of a term and a constant.
#[derive(Clone, Copy)]
struct Sum {
    base: Term,
    offset: u64,
}

/// Whether the operands may change places.
fn is_symmetric(op: BinaryOp) -> bool
    ensures { IsTrue result → IsSymmetric (binary_of op) }
{
    match op {
        BinaryOp::Plus => true,
        BinaryOp::Times => true,
        BinaryOp::And => true,
        BinaryOp::Or => true,
        BinaryOp::Xor => true,
        BinaryOp::Equal => true,
        BinaryOp::NotEqual => true,
        _ => false,
    }
}

/// The operands of a symmetric operator in their order: a constant last, else the later term last.
pub fn ordered(nodes: &Nodes, op: BinaryOp, left: Term, right: Term) -> (Term, Term)
    requires left { left.0 < length (terms nodes.now) }
    requires right { right.0 < length (terms nodes.now) }
    ensures { ((result.0 ≡ left) × (result.1 ≡ right)) ⊎ ((result.0 ≡ right) × (result.1 ≡ left) × IsSymmetric (binary_of op)) }
{
    if !is_symmetric(op) {
        return (left, right);
    }
    if constant(nodes, right).is_some() {
        return (left, right);
    }
    if constant(nodes, left).is_some() {
        return (right, left);
    }
    if left.0 <= right.0 {
        return (left, right);
    }
    (right, left)
}

/// Whether an operator with this right operand gives the left one.
fn is_neutral(op: BinaryOp, width: u8, right: u64) -> bool
    requires { IsWidth width }
    ensures width { IsTrue result → result_width (binary_of op) width ≡ width }
    ensures value { IsTrue result → (a : ℕ) → a < 2 ^ width → operate (binary_of op) width a right ≡ a }
{
    match op {
        BinaryOp::Plus => right == 0,
        BinaryOp::Minus => right == 0,
        BinaryOp::Or => right == 0,
        BinaryOp::Xor => right == 0,
        BinaryOp::ShiftLeft => right == 0,
        BinaryOp::ShiftRight => right == 0,
        BinaryOp::ShiftSigned => right == 0,
        BinaryOp::And => right == ones(width),
        _ => false,
    }
}

/// Whether an operator with this right operand gives it back.
fn is_absorbing(op: BinaryOp, width: u8, right: u64) -> bool
    requires { IsWidth width }
    ensures width { IsTrue result → result_width (binary_of op) width ≡ width }
    ensures value { IsTrue result → (a : ℕ) → a < 2 ^ width → operate (binary_of op) width a right ≡ right }
{
    match op {
        BinaryOp::And | BinaryOp::Times => right == 0,
        BinaryOp::Or => right == ones(width),
        _ => false,
    }
}

/// A word as a sum.
fn parts(nodes: &Nodes, width: u8, term: Term) -> Sum
    requires some { IsWidth width }
    requires place { HasWidth (terms nodes.now) width term.0 }
    ensures { IsSum (terms nodes.now) width term.0 result.base.0 result.offset }
{
    if let Node::Binary {
        op: BinaryOp::Plus,
        left,
        right,
        ..
    } = look(nodes, term)
    {
        if let Some(offset) = constant(nodes, right) {
            return Sum { base: left, offset };
        }
    }
    Sum {
        base: term,
        offset: 0,
    }
}

/// A word and a constant, added.
fn raised(nodes: &Nodes, width: u8, term: Term, addend: u64) -> Folded
    requires some { IsWidth width }
    requires place { HasWidth (terms nodes.now) width term.0 }
    requires below { addend < 2 ^ width }
    ensures { IsWordFold (terms nodes.now) width (λ x. words.add width (term_word x (terms nodes.now) term.0) addend) (2 * width) result }
{
    let sum = parts(nodes, width, term);
    let offset = apply(BinaryOp::Plus, width, sum.offset, addend);
    if offset == 0 {
        return Folded::Old(sum.base);
    }
    Folded::Onto(BinaryOp::Plus, width, sum.base, offset)
}

/// A constant of 1 bit.
pub fn truth(holds: bool) -> Folded
    ensures { (ns : List TermNode) → IsWordFold ns 1 (λ x. words.bit holds) 0 result }
{
    Folded::New(Node::Constant {
        width: 1,
        value: u64::from(holds),
    })
}

/// Each bit of a word turned.
pub fn negation(nodes: &Nodes, width: u8, term: Term) -> Folded
    requires some { IsWidth width }
    requires place { HasWidth (terms nodes.now) width term.0 }
    ensures { IsWordFold (terms nodes.now) width (λ x. words.complement width (term_word x (terms nodes.now) term.0)) 0 result }
{
    match look(nodes, term) {
        Node::Not { term: inner, .. } => Folded::Old(inner),
        Node::Constant { value, .. } => Folded::New(Node::Constant {
            width,
            value: ones(width) - value,
        }),
        _ => Folded::New(Node::Not { width, term }),
    }
}

/// Whether a bit is a constant, or is not.
fn bit_equality(nodes: &Nodes, differs: bool, term: Term, right: u64) -> Folded
    requires place { HasWidth (terms nodes.now) 1 term.0 }
    ensures { IsWordFold (terms nodes.now) 1 (λ x. words.bit (words.differ differs (term_word x (terms nodes.now) term.0 == right))) 0 result }
{
    if right > 1 {
        return truth(differs);
    }
    if (right == 1) != differs {
        return Folded::Old(term);
    }
    negation(nodes, 1, term)
}

/// The bit of which a word is the extension with zeros.
fn bit_below(nodes: &Nodes, term: Term) -> Option<Term>
    requires within { term.0 < length (terms nodes.now) }
    ensures place { IfSome result (λ b. HasWidth (terms nodes.now) 1 b.0) }
    ensures value { IfSome result (λ b. (x : TermReading) → term_word x (terms nodes.now) term.0 ≡ term_word x (terms nodes.now) b.0) }
{
    match look(nodes, term) {
        Node::Extend {
            signed,
            from,
            term: bit,
            ..
        } => {
            if signed {
                return None;
            }
            if from != 1 {
                return None;
            }
            Some(bit)
        }
        _ => None,
    }
}

/// The test for equality, or for its contrary.
fn equality_op(differs: bool) -> BinaryOp
    ensures { binary_of result ≡ (if differs then bil.NotEqual else bil.Equal) }
{
    if differs {
        BinaryOp::NotEqual
    } else {
        BinaryOp::Equal
    }
}

/// Whether a word is a constant, or is not. A word of one bit with zeros above is as its bit, and a sum as its base.
fn equality(nodes: &Nodes, differs: bool, width: u8, left: Term, right: u64) -> Option<Folded>
    requires some { IsWidth width }
    requires place { HasWidth (terms nodes.now) width left.0 }
    requires below { right < 2 ^ width }
    ensures { IfSome result (λ f. IsWordFold (terms nodes.now) 1 (λ x. words.bit (words.differ differs (term_word x (terms nodes.now) left.0 == right))) width f) }
{
    if width == 1 {
        return Some(bit_equality(nodes, differs, left, right));
    }
    if let Some(bit) = bit_below(nodes, left) {
        return Some(bit_equality(nodes, differs, bit, right));
    }
    let sum = parts(nodes, width, left);
    if sum.offset == 0 {
        return None;
    }
    let difference = apply(BinaryOp::Minus, width, right, sum.offset);
    Some(Folded::Onto(equality_op(differs), width, sum.base, difference))
}

/// Whether a word is 0, or is not.
fn zero_test(nodes: &Nodes, differs: bool, width: u8, term: Term) -> Folded
    requires some { IsWidth width }
    requires place { HasWidth (terms nodes.now) width term.0 }
    ensures { IsWordFold (terms nodes.now) 1 (λ x. words.bit (words.differ differs (term_word x (terms nodes.now) term.0 == 0))) width result }
{
    let kept = Folded::Onto(equality_op(differs), width, term, 0);
    equality(nodes, differs, width, term, 0).unwrap_or(kept)
}

/// Whether a word is below a constant: nothing is below 0, only 0 is below 1, and a bit with zeros above is below all others.
fn is_below(nodes: &Nodes, width: u8, left: Term, right: u64) -> Option<Folded>
    requires some { IsWidth width }
    requires left { HasWidth (terms nodes.now) width left.0 }
    ensures { IfSome result (λ f. IsWordFold (terms nodes.now) 1 (λ x. words.bit (nat_lt (term_word x (terms nodes.now) left.0) right)) width f) }
{
    if right == 0 {
        return Some(truth(false));
    }
    if right == 1 {
        return Some(zero_test(nodes, false, width, left));
    }
    let _bit = bit_below(nodes, left)?;
    Some(truth(true))
}

/// Whether a word is above a constant.
fn is_above(nodes: &Nodes, width: u8, left: u64, right: Term) -> Option<Folded>
    requires some { IsWidth width }
    requires right { HasWidth (terms nodes.now) width right.0 }
    ensures { IfSome result (λ f. IsWordFold (terms nodes.now) 1 (λ x. words.bit (nat_lt left (term_word x (terms nodes.now) right.0))) width f) }
{
    if left == 0 {
        return Some(zero_test(nodes, true, width, right));
    }
    if left == ones(width) {
        return Some(truth(false));
    }
    let _bit = bit_below(nodes, right)?;
    Some(truth(false))
}

/// A comparison between a constant and a word.
fn from_constant(nodes: &Nodes, op: BinaryOp, width: u8, left: u64, right: Term) -> Option<Folded>
    requires some { IsWidth width }
    requires right { HasWidth (terms nodes.now) width right.0 }
    ensures { IfSome result (λ f. IsWordFold (terms nodes.now) (result_width (binary_of op) width)
        (λ x. operate (binary_of op) width left (term_word x (terms nodes.now) right.0)) (op_weight (binary_of op) width) f) }
{
    match op {
        BinaryOp::Less => is_above(nodes, width, left, right),
        BinaryOp::LessEqual => {
            if left == 0 {
                return Some(truth(true));
            }
            is_above(nodes, width, left - 1, right)
        }
        _ => None,
    }
}

/// A comparison between a word and a constant.
fn to_constant(nodes: &Nodes, op: BinaryOp, width: u8, left: Term, right: u64) -> Option<Folded>
    requires some { IsWidth width }
    requires left { HasWidth (terms nodes.now) width left.0 }
    requires below { right < 2 ^ width }
    ensures { IfSome result (λ f. IsWordFold (terms nodes.now) (result_width (binary_of op) width)
        (λ x. operate (binary_of op) width (term_word x (terms nodes.now) left.0) right) (op_weight (binary_of op) width) f) }
{
    match op {
        BinaryOp::Less => is_below(nodes, width, left, right),
        BinaryOp::LessEqual => {
            if right == ones(width) {
                return Some(truth(true));
            }
            is_below(nodes, width, left, right + 1)
        }
        _ => None,
    }
}

/// A shift by a constant that is at least the width: no bit is left, but for the sign.
fn shifted_out(op: BinaryOp, width: u8, left: Term, right: u64) -> Option<Folded>
    requires { IsWidth width }
    ensures { IfSome result (λ f. (ns : List TermNode) → AreTyped ns → HasWidth ns width left.0 →
        IsWordFold ns (result_width (binary_of op) width) (λ x. operate (binary_of op) width (term_word x ns left.0) right) (op_weight (binary_of op) width) f) }
{
    if right < width as u64 {
        return None;
    }
    let zero = Folded::New(Node::Constant { width, value: 0 });
    match op {
        BinaryOp::ShiftLeft => Some(zero),
        BinaryOp::ShiftRight => Some(zero),
        BinaryOp::ShiftSigned => Some(Folded::Onto(op, width, left, width as u64 - 1)),
        _ => None,
    }
}

/// An operator between a word and a constant.
fn with_constant(nodes: &Nodes, op: BinaryOp, width: u8, left: Term, right: u64) -> Option<Folded>
    requires some { IsWidth width }
    requires left { HasWidth (terms nodes.now) width left.0 }
    requires below { right < 2 ^ width }
    ensures { IfSome result (λ f. IsWordFold (terms nodes.now) (result_width (binary_of op) width)
        (λ x. operate (binary_of op) width (term_word x (terms nodes.now) left.0) right) (op_weight (binary_of op) width) f) }
{
    match op {
        BinaryOp::Plus => Some(raised(nodes, width, left, right)),
        BinaryOp::Minus => Some(raised(
            nodes,
            width,
            left,
            apply(BinaryOp::Minus, width, 0, right),
        )),
        BinaryOp::Xor => {
            if right != ones(width) {
                return None;
            }
            Some(negation(nodes, width, left))
        }
        BinaryOp::Equal => equality(nodes, false, width, left, right),
        BinaryOp::NotEqual => equality(nodes, true, width, left, right),
        BinaryOp::ShiftLeft | BinaryOp::ShiftRight | BinaryOp::ShiftSigned => shifted_out(
            op, width, left, right,
        ),
        _ => to_constant(nodes, op, width, left, right),
    }
}

/// The bit that an operator gives between each word and itself.
fn bit_of_itself(op: BinaryOp) -> Option<bool>
    ensures { IfSome result (λ b. (w a : ℕ) → a < 2 ^ w → operate (binary_of op) w a a ≡ words.bit b) }
{
    match op {
        BinaryOp::Xor => Some(false),
        BinaryOp::Minus => Some(false),
        BinaryOp::Equal => Some(true),
        BinaryOp::NotEqual => Some(false),
        BinaryOp::Less => Some(false),
        BinaryOp::LessEqual => Some(true),
        BinaryOp::SignedLess => Some(false),
        BinaryOp::SignedLessEqual => Some(true),
        _ => None,
    }
}

/// An operator between a word and itself.
fn with_itself(nodes: &Nodes, op: BinaryOp, width: u8, term: Term) -> Option<Folded>
    requires some { IsWidth width }
    requires place { HasWidth (terms nodes.now) width term.0 }
    ensures { IfSome result (λ f. IsWordFold (terms nodes.now) (result_width (binary_of op) width)
        (λ x. operate (binary_of op) width (term_word x (terms nodes.now) term.0) (term_word x (terms nodes.now) term.0)) 0 f) }
{
    if let BinaryOp::And = op {
        return Some(Folded::Old(term));
    }
    if let BinaryOp::Or = op {
        return Some(Folded::Old(term));
    }
    let bit = bit_of_itself(op)?;
    Some(Folded::New(Node::Constant {
        width: result_width(op, width),
        value: u64::from(bit),
    }))
}

/// Whether two sums with one base are equal, or are not.
fn sums(nodes: &Nodes, differs: bool, width: u8, left: Term, right: Term) -> Option<Folded>
    requires some { IsWidth width }
    requires left { HasWidth (terms nodes.now) width left.0 }
    requires right { HasWidth (terms nodes.now) width right.0 }
    ensures { IfSome result (λ f. IsWordFold (terms nodes.now) 1
        (λ x. words.bit (words.differ differs (term_word x (terms nodes.now) left.0 == term_word x (terms nodes.now) right.0))) 0 f) }
{
    let a = parts(nodes, width, left);
    let b = parts(nodes, width, right);
    if a.base.0 != b.base.0 {
        return None;
    }
    Some(truth((a.offset == b.offset) != differs))
}

/// An operator between two words.
fn between(nodes: &Nodes, op: BinaryOp, width: u8, left: Term, right: Term) -> Option<Folded>
    requires some { IsWidth width }
    requires left { HasWidth (terms nodes.now) width left.0 }
    requires right { HasWidth (terms nodes.now) width right.0 }
    ensures { IfSome result (λ f. IsWordFold (terms nodes.now) (result_width (binary_of op) width)
        (λ x. operate (binary_of op) width (term_word x (terms nodes.now) left.0) (term_word x (terms nodes.now) right.0)) (op_weight (binary_of op) width) f) }
{
    if left.0 == right.0 {
        return with_itself(nodes, op, width, left);
    }
    if let Some(value) = constant(nodes, left) {
        return from_constant(nodes, op, width, value, right);
    }
    match op {
        BinaryOp::Equal => sums(nodes, false, width, left, right),
        BinaryOp::NotEqual => sums(nodes, true, width, left, right),
        BinaryOp::And => {
            if width != 1 {
                return None;
            }
            conditions::conjunction(nodes, left, right)
        }
        BinaryOp::Or => {
            if width != 1 {
                return None;
            }
            conditions::disjunction(nodes, left, right)
        }
        _ => None,
    }
}

/// An operator on two words whose operands stand in their order.
fn in_order(nodes: &Nodes, op: BinaryOp, width: u8, left: Term, right: Term) -> Folded
    requires some { IsWidth width }
    requires left { HasWidth (terms nodes.now) width left.0 }
    requires right { HasWidth (terms nodes.now) width right.0 }
    ensures { IsWordFold (terms nodes.now) (result_width (binary_of op) width)
        (λ x. operate (binary_of op) width (term_word x (terms nodes.now) left.0) (term_word x (terms nodes.now) right.0))
        (op_weight (binary_of op) width) result }
{
    let kept = Folded::New(Node::Binary {
        op,
        width,
        left,
        right,
    });
    let Some(y) = constant(nodes, right) else {
        return between(nodes, op, width, left, right).unwrap_or(kept);
    };
    if let Some(x) = constant(nodes, left) {
        return Folded::New(Node::Constant {
            width: result_width(op, width),
            value: apply(op, width, x, y),
        });
    }
    if is_neutral(op, width, y) {
        return Folded::Old(left);
    }
    if is_absorbing(op, width, y) {
        return Folded::Old(right);
    }
    with_constant(nodes, op, width, left, y).unwrap_or(kept)
}

/// An operator on two words.
pub fn binary(nodes: &Nodes, op: BinaryOp, width: u8, left: Term, right: Term) -> Folded
    requires some { IsWidth width }
    requires left { HasWidth (terms nodes.now) width left.0 }
    requires right { HasWidth (terms nodes.now) width right.0 }
    ensures { IsWordFold (terms nodes.now) (result_width (binary_of op) width)
        (λ x. operate (binary_of op) width (term_word x (terms nodes.now) left.0) (term_word x (terms nodes.now) right.0))
        (op_weight (binary_of op) width) result }
{
    let (first, second) = ordered(nodes, op, left, right);
    in_order(nodes, op, width, first, second)
}
