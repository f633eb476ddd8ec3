//! Folds of what picks bits and puts them together.

ghost use Rattle.std.specs.Prelude.{◌≡◌, ◌+◌, ◌-◌, ◌<◌, ◌≤◌, length, IfSome};
ghost use Rattle.word_spec.specs.Words as words;
ghost use Rattle.term_spec.specs.Terms.{term_word, extend, node_at, width_of, HasWidth, IsWidth};
ghost use Rattle.term_dag.specs.Nodes.{node_of};
ghost use Rattle.term_dag.specs.Lists.{terms};
ghost use Rattle.term_dag.specs.Folds.{AreNeighbours, IsNodeWord, IsSlice, IsWordFold};

use crate::folds::{Folded, constant, look, width_of_node};
use crate::typed::Nodes;
use crate::{Node, Term};
use bil_ast::BinaryOp;
use bv_word::Word;

/// How many operands deep bits are looked for.
const DEEPEST: u32 = 64;

/// The bits of a term from `hi` down to `lo`.
#[derive(Clone, Copy)]
struct Slice {
    hi: u8,
    lo: u8,
    term: Term,
}

/// Bits that are `amount` places higher, where a word of the width has them all.
fn higher(hi: u8, lo: u8, width: u8, amount: u64, term: Term) -> Option<Slice>
    requires order { lo ≤ hi }
    requires fits { hi < width }
    ensures term { IfSome result (λ s. s.term ≡ term) }
    ensures hi { IfSome result (λ s. s.hi ≡ hi + amount) }
    ensures lo { IfSome result (λ s. s.lo ≡ lo + amount) }
    ensures within { IfSome result (λ s. s.hi < width) }
{
    if amount >= (width - hi) as u64 {
        return None;
    }
    let more = amount as u8;
    Some(Slice {
        hi: hi + more,
        lo: lo + more,
        term,
    })
}

/// The same bits of the word that is shifted, where the term is a shift by a constant that moves them all.
fn unshifted(nodes: &Nodes, hi: u8, lo: u8, term: Term) -> Option<Slice>
    requires within { term.0 < length (terms nodes.now) }
    requires order { lo ≤ hi }
    requires fits { hi < width_of (node_at (terms nodes.now) term.0) }
    ensures { IfSome result (λ s. IsSlice (terms nodes.now) hi lo term.0 s.hi s.lo s.term.0) }
{
    let Node::Binary {
        op,
        width,
        left,
        right,
    } = look(nodes, term)
    else {
        return None;
    };
    let amount = constant(nodes, right)?;
    match op {
        BinaryOp::ShiftLeft => {
            if amount > lo as u64 {
                return None;
            }
            Some(Slice {
                hi: hi - amount as u8,
                lo: lo - amount as u8,
                term: left,
            })
        }
        BinaryOp::ShiftRight => higher(hi, lo, width, amount, left),
        BinaryOp::ShiftSigned => higher(hi, lo, width, amount, left),
        _ => None,
    }
}

/// The same bits of an operand, where the term has them from one.
fn inner(nodes: &Nodes, hi: u8, lo: u8, term: Term) -> Option<Slice>
    requires within { term.0 < length (terms nodes.now) }
    requires order { lo ≤ hi }
    requires fits { hi < width_of (node_at (terms nodes.now) term.0) }
    ensures { IfSome result (λ s. IsSlice (terms nodes.now) hi lo term.0 s.hi s.lo s.term.0) }
{
    match look(nodes, term) {
        Node::Extract { lo: from, term, .. } => Some(Slice {
            hi: hi + from,
            lo: lo + from,
            term,
        }),
        Node::Concat {
            low,
            upper,
            lower,
            ..
        } => {
            if hi < low {
                return Some(Slice {
                    hi,
                    lo,
                    term: lower,
                });
            }
            if lo >= low {
                return Some(Slice {
                    hi: hi - low,
                    lo: lo - low,
                    term: upper,
                });
            }
            None
        }
        Node::Extend { from, term, .. } => {
            if hi < from {
                return Some(Slice { hi, lo, term });
            }
            None
        }
        _ => unshifted(nodes, hi, lo, term),
    }
}

/// The same bits of an operand, of its operand, and so on, but no deeper than `DEEPEST`, so that the time of a call is bounded.
fn innermost(nodes: &Nodes, hi: u8, lo: u8, term: Term) -> Slice
    requires within { term.0 < length (terms nodes.now) }
    requires order { lo ≤ hi }
    requires fits { hi < width_of (node_at (terms nodes.now) term.0) }
    ensures { IsSlice (terms nodes.now) hi lo term.0 result.hi result.lo result.term.0 }
{
    let mut slice = Slice { hi, lo, term };
    for _step in 0..DEEPEST {
        let Some(next) = inner(nodes, slice.hi, slice.lo, slice.term) else {
            return slice;
        };
        slice = next;
    }
    slice
}

/// Bits of a term, where no operand is looked at for them.
fn outer(nodes: &Nodes, hi: u8, lo: u8, term: Term) -> Folded
    requires within { term.0 < length (terms nodes.now) }
    requires order { lo ≤ hi }
    requires fits { hi < width_of (node_at (terms nodes.now) term.0) }
    ensures { IsWordFold (terms nodes.now) (hi + 1 - lo) (λ x. words.bits hi lo (term_word x (terms nodes.now) term.0)) 0 result }
{
    let node = look(nodes, term);
    let width = width_of_node(nodes, node);
    if lo == 0 && hi + 1 == width {
        return Folded::Old(term);
    }
    match node {
        Node::Constant { width: full, value } => Folded::New(Node::Constant {
            width: hi + 1 - lo,
            value: Word::new(full, value).extract(hi, lo).bits,
        }),
        Node::Extend { signed, from, .. } => {
            if signed {
                return Folded::New(Node::Extract { hi, lo, term });
            }
            if lo < from {
                return Folded::New(Node::Extract { hi, lo, term });
            }
            Folded::New(Node::Constant {
                width: hi + 1 - lo,
                value: 0,
            })
        }
        _ => Folded::New(Node::Extract { hi, lo, term }),
    }
}

/// The bits of a word from `hi` down to `lo`.
pub fn extract(nodes: &Nodes, hi: u8, lo: u8, term: Term) -> Folded
    requires within { term.0 < length (terms nodes.now) }
    requires order { lo ≤ hi }
    requires fits { hi < width_of (node_at (terms nodes.now) term.0) }
    ensures { IsWordFold (terms nodes.now) (hi + 1 - lo) (λ x. words.bits hi lo (term_word x (terms nodes.now) term.0)) 0 result }
{
    let slice = innermost(nodes, hi, lo, term);
    outer(nodes, slice.hi, slice.lo, slice.term)
}

/// The bits of one term, if two terms are neighbouring bits of it.
fn neighbours(nodes: &Nodes, upper: Term, lower: Term) -> Option<Slice>
    requires upper { upper.0 < length (terms nodes.now) }
    requires lower { lower.0 < length (terms nodes.now) }
    ensures { IfSome result (λ s. AreNeighbours (terms nodes.now) upper.0 lower.0 s.hi s.lo s.term.0) }
{
    let Node::Extract {
        hi,
        lo: middle,
        term,
    } = look(nodes, upper)
    else {
        return None;
    };
    let Node::Extract {
        hi: below,
        lo,
        term: other,
    } = look(nodes, lower)
    else {
        return None;
    };
    if term.0 == other.0 && middle == below + 1 {
        return Some(Slice { hi, lo, term });
    }
    None
}

/// A word above another.
pub fn concat(nodes: &Nodes, high: u8, low: u8, upper: Term, lower: Term) -> Folded
    requires some_high { IsWidth high }
    requires some_low { IsWidth low }
    requires few { high + low ≤ 64 }
    requires upper { HasWidth (terms nodes.now) high upper.0 }
    requires lower { HasWidth (terms nodes.now) low lower.0 }
    ensures { IsWordFold (terms nodes.now) (high + low) (λ x. words.concat low (term_word x (terms nodes.now) upper.0) (term_word x (terms nodes.now) lower.0)) 0 result }
{
    if let Some(slice) = neighbours(nodes, upper, lower) {
        return extract(nodes, slice.hi, slice.lo, slice.term);
    }
    let kept = Folded::New(Node::Concat {
        high,
        low,
        upper,
        lower,
    });
    let Some(above) = constant(nodes, upper) else {
        return kept;
    };
    if above == 0 {
        return extend(nodes, false, low, high + low, lower);
    }
    let Some(below) = constant(nodes, lower) else {
        return kept;
    };
    Folded::New(Node::Constant {
        width: high + low,
        value: Word::new(high, above).concat(Word::new(low, below)).bits,
    })
}

/// An extension of an extension, where one extension does for both: with the sign twice, or with zeros, above which there is no sign.
fn further(nodes: &Nodes, signed: bool, from: u8, to: u8, term: Term) -> Option<Node>
    requires some { IsWidth from }
    requires more { from ≤ to }
    requires few { to ≤ 64 }
    requires place { HasWidth (terms nodes.now) from term.0 }
    ensures { IfSome result (λ m. IsNodeWord (terms nodes.now) to (λ x. extend signed from to (term_word x (terms nodes.now) term.0)) 0 (node_of m)) }
{
    let Node::Extend {
        signed: before,
        from: first,
        term: inner,
        ..
    } = look(nodes, term)
    else {
        return None;
    };
    let whole = Node::Extend {
        signed: before,
        from: first,
        to,
        term: inner,
    };
    if !signed {
        if before {
            return None;
        }
        return Some(whole);
    }
    if before {
        return Some(whole);
    }
    if first < from {
        return Some(whole);
    }
    None
}

/// A word in more bits.
pub fn extend(nodes: &Nodes, signed: bool, from: u8, to: u8, term: Term) -> Folded
    requires some { IsWidth from }
    requires more { from ≤ to }
    requires few { to ≤ 64 }
    requires place { HasWidth (terms nodes.now) from term.0 }
    ensures { IsWordFold (terms nodes.now) to (λ x. extend signed from to (term_word x (terms nodes.now) term.0)) 0 result }
{
    if from == to {
        return Folded::Old(term);
    }
    let Some(bits) = constant(nodes, term) else {
        let kept = Node::Extend {
            signed,
            from,
            to,
            term,
        };
        return Folded::New(further(nodes, signed, from, to, term).unwrap_or(kept));
    };
    let word = Word::new(from, bits);
    let wide = if signed {
        word.signed(to)
    } else {
        word.unsigned(to)
    };
    Folded::New(Node::Constant {
        width: to,
        value: wide.bits,
    })
}
