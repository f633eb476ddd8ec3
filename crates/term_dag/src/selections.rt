//! Folds of selections.

ghost use Rattle.std.specs.Prelude.{◌≡◌, ℕ, ◌<◌, length, if◌then◌else◌};
ghost use Rattle.term_spec.specs.Terms.{TermReading, InRange, term_value, term_word, JoinNode, select, HasWidth, IsWidth};
ghost use Rattle.term_dag.specs.Lists.{terms};
ghost use Rattle.term_dag.specs.Folds.{IsFold, IsSide, IsWordFold};

use crate::folds::{Folded, constant, look};
use crate::typed::Nodes;
use crate::{Node, Term};

/// One of two terms.
fn picked(holds: bool, when_true: Term, when_false: Term) -> Term
    ensures { result ≡ (if holds then when_true else when_false) }
{
    if holds { when_true } else { when_false }
}

/// The term that a side of a selection has where its condition holds, or where it does not: of a selection by the same condition its own side.
fn side(nodes: &Nodes, width: u8, condition: Term, term: Term, holds: bool) -> Term
    requires condition { HasWidth (terms nodes.now) 1 condition.0 }
    requires place { HasWidth (terms nodes.now) width term.0 }
    ensures { IsSide (terms nodes.now) width condition.0 term.0 holds result.0 }
{
    match look(nodes, term) {
        Node::Select {
            condition: inner,
            when_true,
            when_false,
            ..
        } => {
            if inner.0 != condition.0 {
                return term;
            }
            picked(holds, when_true, when_false)
        }
        Node::Join {
            condition: inner,
            when_true,
            when_false,
        } => {
            if inner.0 != condition.0 {
                return term;
            }
            picked(holds, when_true, when_false)
        }
        _ => term,
    }
}

/// A selection between two terms that differ, by a condition that is no constant and no negation.
fn chosen(nodes: &Nodes, width: u8, condition: Term, when_true: Term, when_false: Term) -> Folded
    requires some { IsWidth width }
    requires condition { HasWidth (terms nodes.now) 1 condition.0 }
    requires when_true { HasWidth (terms nodes.now) width when_true.0 }
    requires when_false { HasWidth (terms nodes.now) width when_false.0 }
    ensures { IsWordFold (terms nodes.now) width (λ x. select (term_word x (terms nodes.now) condition.0) (term_word x (terms nodes.now) when_true.0)
        (term_word x (terms nodes.now) when_false.0)) width result }
{
    let kept = Folded::New(Node::Select {
        width,
        condition,
        when_true,
        when_false,
    });
    let Some(first) = constant(nodes, when_true) else {
        return kept;
    };
    let Some(second) = constant(nodes, when_false) else {
        return kept;
    };
    if first == 1 && second == 0 {
        if width == 1 {
            return Folded::Old(condition);
        }
        return Folded::New(Node::Extend {
            signed: false,
            from: 1,
            to: width,
            term: condition,
        });
    }
    if first == 0 && second == 1 && width == 1 {
        return Folded::New(Node::Not {
            width: 1,
            term: condition,
        });
    }
    kept
}

/// A selection by a condition that is no negation.
fn positive(nodes: &Nodes, width: u8, condition: Term, when_true: Term, when_false: Term) -> Folded
    requires some { IsWidth width }
    requires condition { HasWidth (terms nodes.now) 1 condition.0 }
    requires when_true { HasWidth (terms nodes.now) width when_true.0 }
    requires when_false { HasWidth (terms nodes.now) width when_false.0 }
    ensures { IsWordFold (terms nodes.now) width (λ x. select (term_word x (terms nodes.now) condition.0) (term_word x (terms nodes.now) when_true.0)
        (term_word x (terms nodes.now) when_false.0)) width result }
{
    if let Some(bit) = constant(nodes, condition) {
        return Folded::Old(if bit > 0 { when_true } else { when_false });
    }
    let first = side(nodes, width, condition, when_true, true);
    let second = side(nodes, width, condition, when_false, false);
    if first.0 == second.0 {
        return Folded::Old(first);
    }
    chosen(nodes, width, condition, first, second)
}

/// One of two words.
pub fn select(
    nodes: &Nodes,
    width: u8,
    condition: Term,
    when_true: Term,
    when_false: Term,
) -> Folded
    requires some { IsWidth width }
    requires condition { HasWidth (terms nodes.now) 1 condition.0 }
    requires when_true { HasWidth (terms nodes.now) width when_true.0 }
    requires when_false { HasWidth (terms nodes.now) width when_false.0 }
    ensures { IsWordFold (terms nodes.now) width (λ x. select (term_word x (terms nodes.now) condition.0) (term_word x (terms nodes.now) when_true.0)
        (term_word x (terms nodes.now) when_false.0)) width result }
{
    match look(nodes, condition) {
        Node::Not { term, .. } => positive(nodes, width, term, when_false, when_true),
        _ => positive(nodes, width, condition, when_true, when_false),
    }
}

/// A join of two memories by a condition that is no negation.
fn positive_join(nodes: &Nodes, condition: Term, when_true: Term, when_false: Term) -> Folded
    requires condition { HasWidth (terms nodes.now) 1 condition.0 }
    requires when_true { HasWidth (terms nodes.now) 0 when_true.0 }
    requires when_false { HasWidth (terms nodes.now) 0 when_false.0 }
    ensures { IsFold (terms nodes.now) (JoinNode condition.0 when_true.0 when_false.0) result }
{
    if let Some(bit) = constant(nodes, condition) {
        return Folded::Old(if bit > 0 { when_true } else { when_false });
    }
    let first = side(nodes, 0, condition, when_true, true);
    let second = side(nodes, 0, condition, when_false, false);
    if first.0 == second.0 {
        return Folded::Old(first);
    }
    Folded::New(Node::Join {
        condition,
        when_true: first,
        when_false: second,
    })
}

/// One of two memories.
pub fn join(nodes: &Nodes, condition: Term, when_true: Term, when_false: Term) -> Folded
    requires condition { HasWidth (terms nodes.now) 1 condition.0 }
    requires when_true { HasWidth (terms nodes.now) 0 when_true.0 }
    requires when_false { HasWidth (terms nodes.now) 0 when_false.0 }
    ensures { IsFold (terms nodes.now) (JoinNode condition.0 when_true.0 when_false.0) result }
{
    match look(nodes, condition) {
        Node::Not { term, .. } => positive_join(nodes, term, when_false, when_true),
        _ => positive_join(nodes, condition, when_true, when_false),
    }
}
