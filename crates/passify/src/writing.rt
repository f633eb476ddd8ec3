//! Stores of bytes that may not be written.

ghost use Rattle.std.specs.Prelude.{◌≤◌, ◌<◌, ◌+◌, ◌*◌, ◌^◌, ◌&&◌, ◌||◌, Bool, nat_le, IfOk, Contains, length, map};
ghost use Rattle.std.specs.List.{list_any};
ghost use Rattle.word_spec.specs.Memory.{span};
ghost use Rattle.term_spec.specs.Terms.{HasWidth, term_word};
ghost use Rattle.walk_spec.specs.Unrolled.{is_in};
ghost use Rattle.walk_spec.specs.Unrolling.{AreRuns};
ghost use Rattle.term_spec.specs.Passive.{Tells};
ghost use Rattle.question_form.specs.Views.{kept_of};
ghost use Rattle.passify.specs.Bits.{Makes};
ghost use Rattle.question_form.specs.FrameViews.{frame_unrolled_of};
ghost use Rattle.passify.specs.Spans.{EscapesByte, EscapesSome, IsAway, IsRefused, IsSpan, TellsKept, TellsOutside};

use crate::bits::{both, constant, either};
use crate::spans::Span;
use bil_ast::BinaryOp;
use question_form::Unrolled;
use std::alloc::AllocError;
use term_dag::{Dag, Node, Term};

/// Whether some byte of a run, both ends included, is stored by one store: its address is no further from the run's beginning than the store's bytes reach.
fn touches(dag: &mut Dag, stored: Span, low: u32, high: u32) -> Result<Term, AllocError>
    requires store { IsSpan dag.old stored }
    requires run { low ≤ high }
    ensures { IfOk result (λ t. Makes dag.old dag.new 97 8 1 t.0 (λ x. (g : Bool) → Tells dag.old x stored.guard.0 g →
        Tells dag.new x t.0 (g && list_any (λ b. nat_le low b && nat_le b high) (span (term_word x dag.old stored.address.0) stored.bytes)))) }
{
    let _typed = dag.nodes();
    let before = stored.bytes - 1;
    let reach = u64::from(high - low) + u64::from(before);
    if reach >= 4_294_967_295 {
        return Ok(stored.guard);
    }
    let start = dag.keep(Node::Constant {
        width: 32,
        value: u64::from(low.wrapping_sub(before)),
    })?;
    let distance = dag.mk(Node::Binary {
        op: BinaryOp::Minus,
        width: 32,
        left: stored.address,
        right: start,
    })?;
    let reach = dag.keep(Node::Constant {
        width: 32,
        value: reach,
    })?;
    let near = dag.mk(Node::Binary {
        op: BinaryOp::LessEqual,
        width: 32,
        left: distance,
        right: reach,
    })?;
    let bit = both(dag, stored.guard, near)?;
    Ok(bit)
}

/// Whether a bit is 1, or some byte of the runs is stored by one store.
fn touches_some(
    dag: &mut Dag,
    stored: Span,
    kept: &[(u32, u32)],
    before: Term,
) -> Result<Term, AllocError>
    requires store { IsSpan dag.old stored }
    requires runs { AreRuns (map kept_of kept.now) }
    requires before { HasWidth dag.old 1 before.0 }
    ensures { IfOk result (λ t. Makes dag.old dag.new (98 * length kept.now) (10 * length kept.now) 1 t.0 (λ x. (p g : Bool) → Tells dag.old x before.0 p →
        Tells dag.old x stored.guard.0 g →
        Tells dag.new x t.0 (p || (g && list_any (is_in (map kept_of kept.now)) (span (term_word x dag.old stored.address.0) stored.bytes))))) }
{
    let _typed = dag.nodes();
    let mut some = before;
    for i in 0..kept.len() {
        let bit = touches(dag, stored, kept[i].0, kept[i].1)?;
        some = either(dag, some, bit)?;
    }
    Ok(some)
}

/// Whether some kept byte is in a span. The runs of kept bytes have both ends included.
fn writes_kept(dag: &mut Dag, spans: &[Span], kept: &[(u32, u32)]) -> Result<Term, AllocError>
    requires spans { (s : _) → Contains spans.now s → IsSpan dag.old s }
    requires runs { AreRuns (map kept_of kept.now) }
    ensures { IfOk result (λ t. TellsKept dag.old dag.new spans.now (map kept_of kept.now) t.0) }
{
    let _typed = dag.nodes();
    let mut some = constant(dag, false)?;
    for i in 0..spans.len() {
        some = touches_some(dag, spans[i], kept, some)?;
    }
    Ok(some)
}

/// Whether a bit is 1, and an address is in no span of what may be written.
fn away(dag: &mut Dag, at: Term, own: &[Span], rest: Term) -> Result<Term, AllocError>
    requires own { (s : _) → Contains own.now s → IsSpan dag.old s }
    requires at { HasWidth dag.old 32 at.0 }
    requires rest { HasWidth dag.old 1 rest.0 }
    ensures { IfOk result (λ t. Makes dag.old dag.new (97 * length own.now) (7 * length own.now) 1 t.0 (IsAway dag.old dag.new at.0 rest.0 own.now t.0)) }
{
    let _typed = dag.nodes();
    let mut left = rest;
    for i in 0..own.len() {
        let count = dag.keep(Node::Constant {
            width: 32,
            value: u64::from(own[i].bytes),
        })?;
        let distance = dag.mk(Node::Binary {
            op: BinaryOp::Minus,
            width: 32,
            left: at,
            right: own[i].address,
        })?;
        let past = dag.mk(Node::Binary {
            op: BinaryOp::LessEqual,
            width: 32,
            left: count,
            right: distance,
        })?;
        left = both(dag, left, past)?;
    }
    Ok(left)
}

/// Whether a bit is 1, or a byte of a span, by its number, is in no span of what may be written.
fn escapes(
    dag: &mut Dag,
    stored: Span,
    number: u32,
    own: &[Span],
    before: Term,
) -> Result<Term, AllocError>
    requires store { IsSpan dag.old stored }
    requires own { (s : _) → Contains own.now s → IsSpan dag.old s }
    requires before { HasWidth dag.old 1 before.0 }
    ensures { IfOk result (λ t. Makes dag.old dag.new (65 + 97 * length own.now) (5 + 7 * length own.now) 1 t.0
        (EscapesByte dag.old dag.new stored number before.0 own.now t.0)) }
{
    let _typed = dag.nodes();
    let number = dag.keep(Node::Constant {
        width: 32,
        value: u64::from(number),
    })?;
    let at = dag.mk(Node::Binary {
        op: BinaryOp::Plus,
        width: 32,
        left: stored.address,
        right: number,
    })?;
    let bit = away(dag, at, own, stored.guard)?;
    let some = either(dag, before, bit)?;
    Ok(some)
}

/// Whether a bit is 1, or some byte of a span is in no span of what may be written.
fn escapes_some(dag: &mut Dag, stored: Span, own: &[Span], before: Term) -> Result<Term, AllocError>
    requires store { IsSpan dag.old stored }
    requires own { (s : _) → Contains own.now s → IsSpan dag.old s }
    requires before { HasWidth dag.old 1 before.0 }
    ensures { IfOk result (λ t. Makes dag.old dag.new (1 + 162 * (length own.now * stored.bytes)) (2 + 12 * (length own.now * stored.bytes)) 1 t.0
        (EscapesSome dag.old dag.new stored before.0 own.now t.0)) }
{
    let _typed = dag.nodes();
    if own.is_empty() {
        let some = either(dag, before, stored.guard)?;
        return Ok(some);
    }
    let mut some = before;
    for number in 0..stored.bytes {
        some = escapes(dag, stored, number, own, some)?;
    }
    Ok(some)
}

/// Whether a bit is 1, or some byte of spans is in no span of what may be written.
fn outside(dag: &mut Dag, spans: &[Span], own: &[Span], before: Term) -> Result<Term, AllocError>
    requires spans { (s : _) → Contains spans.now s → IsSpan dag.old s }
    requires own { (s : _) → Contains own.now s → IsSpan dag.old s }
    requires before { HasWidth dag.old 1 before.0 }
    ensures { IfOk result (λ t. TellsOutside dag.old dag.new spans.now own.now before.0 t.0) }
{
    let _typed = dag.nodes();
    let mut some = before;
    for i in 0..spans.len() {
        some = escapes_some(dag, spans[i], own, some)?;
    }
    Ok(some)
}

/// Whether some byte of spans is kept, or is none that the frame's own contract may write, if it has one.
pub fn refused(
    dag: &mut Dag,
    unrolled: &Unrolled,
    spans: &[Span],
    own: &[Span],
) -> Result<Term, AllocError>
    requires spans { (s : _) → Contains spans.now s → IsSpan dag.old s }
    requires own { (s : _) → Contains own.now s → IsSpan dag.old s }
    requires runs { AreRuns (frame_unrolled_of unrolled.now).kept }
    ensures { IfOk result (λ t. IsRefused unrolled.now dag.old dag.new spans.now own.now t.0) }
{
    let kept = writes_kept(dag, spans, unrolled.kept)?;
    match unrolled.own {
        None => Ok(kept),
        Some(_) => {
            let some = outside(dag, spans, own, kept)?;
            Ok(some)
        }
    }
}
