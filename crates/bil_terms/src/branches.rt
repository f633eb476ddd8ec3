//! Ifs as terms.

ghost use Rattle.std.specs.Prelude.{IfOk};
ghost use Rattle.term_spec.specs.Terms.{HasWidth};
ghost use Rattle.bil_terms.specs.Merged.{AreSides, IsEitherOf, IsLiveAfter, IsMerged, IsSide, IsSplit, IsTargetAfter};
ghost use Rattle.bil_terms.specs.Runs.{AreBits, IsRun};

use crate::run::{Bits, Run};
use bil_ast::BinaryOp;
use std::alloc::{AllocError, Global};
use term_dag::{Dag, Node, Term};
use term_names::{copied, selected, selected_word};

/// The bits by which a run enters the two sides of an if, by its condition of 1 bit. The error is want of memory.
pub fn split(
    dag: &mut Dag,
    bits: Bits,
    condition: Term,
    live: Term,
) -> Result<(Term, Term), AllocError>
    requires bits { AreBits dag.old bits }
    requires condition { HasWidth dag.old 1 condition.0 }
    requires live { HasWidth dag.old 1 live.0 }
    ensures { IfOk result (λ s. IsSplit dag.old dag.new condition.0 live.0 s.0.0 s.1.0) }
{
    let one = dag.mk(Node::Binary {
        op: BinaryOp::And,
        width: 1,
        left: condition,
        right: live,
    })?;
    let other = dag.mk(Node::Select {
        width: 1,
        condition,
        when_true: bits.zero,
        when_false: live,
    })?;
    Ok((one, other))
}

/// The run with which a side of an if begins, which it enters by a bit. The error is want of memory.
pub fn beginning(alloc: Global, before: &Run, entered: Term) -> Result<Run, AllocError>
    ensures { IfOk result (λ r. IsSide before.now entered.0 r) }
{
    let names = copied(alloc, &before.names)?;
    Ok(Run {
        names,
        jumped: before.jumped,
        target: before.target,
        live: entered,
    })
}

/// Whether the run comes by behind the two sides of an if, which it entered by the bits `one` and `other`. The error is want of memory.
pub fn live_after(
    dag: &mut Dag,
    live: Term,
    one: Term,
    other: Term,
    when_true: Term,
    when_false: Term,
) -> Result<Term, AllocError>
    requires live { HasWidth dag.old 1 live.0 }
    requires when_true { HasWidth dag.old 1 when_true.0 }
    requires when_false { HasWidth dag.old 1 when_false.0 }
    requires either { IsEitherOf dag.old live.0 one.0 other.0 }
    ensures { IfOk result (λ t. IsLiveAfter dag.old dag.new live.0 one.0 other.0 when_true.0 when_false.0 t.0) }
{
    if when_true.0 == one.0 {
        if when_false.0 == other.0 {
            return Ok(live);
        }
    }
    let term = dag.mk(Node::Binary {
        op: BinaryOp::Or,
        width: 1,
        left: when_true,
        right: when_false,
    })?;
    Ok(term)
}

/// Where a jump leads behind the two sides of an if: a side that makes none takes the other's target. The error is want of memory.
pub fn target_after(
    dag: &mut Dag,
    bits: Bits,
    condition: Term,
    when_true: &Run,
    when_false: &Run,
) -> Result<Term, AllocError>
    requires bits { AreBits dag.old bits }
    requires condition { HasWidth dag.old 1 condition.0 }
    requires when_true { IsRun dag.old when_true.now }
    requires when_false { IsRun dag.old when_false.now }
    ensures { IfOk result (λ t. IsTargetAfter dag.old dag.new condition.0 when_true.now when_false.now t.0) }
{
    if when_true.jumped.0 == bits.zero.0 {
        return Ok(when_false.target);
    }
    if when_false.jumped.0 == bits.zero.0 {
        return Ok(when_true.target);
    }
    let term = selected_word(dag, 32, condition, when_true.target, when_false.target)?;
    Ok(term)
}

/// One run of those behind the two sides of an if, which the run before entered by the bits `one` and `other`. The error is want of memory.
pub fn merged(
    alloc: Global,
    dag: &mut Dag,
    bits: Bits,
    condition: Term,
    before: &Run,
    one: Term,
    other: Term,
    when_true: &Run,
    when_false: &Run,
) -> Result<Run, AllocError>
    requires bits { AreBits dag.old bits }
    requires sides { AreSides dag.old condition.0 before.now one.0 other.0 when_true.now when_false.now }
    ensures { IfOk result (λ s. IsMerged dag.old dag.new condition.0 before.now one.0 other.0 when_true.now when_false.now s) }
{
    let target = target_after(dag, bits, condition, when_true, when_false)?;
    let jumped = selected_word(dag, 1, condition, when_true.jumped, when_false.jumped)?;
    let live = live_after(
        dag,
        before.live,
        one,
        other,
        when_true.live,
        when_false.live,
    )?;
    let names = selected(alloc, dag, condition, &when_true.names, &when_false.names)?;
    Ok(Run {
        names,
        jumped,
        target,
        live,
    })
}
