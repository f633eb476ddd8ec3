//! Bits as terms.

ghost use Rattle.std.specs.Prelude.{◌&&◌, ◌||◌, not, IfOk};
ghost use Rattle.term_spec.specs.Terms.{HasWidth};
ghost use Rattle.term_spec.specs.Passive.{Tells};
ghost use Rattle.passify.specs.Bits.{Makes, TellsBy, TellsByBoth};

use bil_ast::BinaryOp;
use std::alloc::AllocError;
use term_dag::{Dag, Node, Term};

/// A bit that is always the same.
pub fn constant(dag: &mut Dag, value: bool) -> Result<Term, AllocError>
    ensures { IfOk result (λ t. Makes dag.old dag.new 0 1 1 t.0 (λ x. Tells dag.new x t.0 value)) }
{
    let bit = dag.keep(Node::Constant {
        width: 1,
        value: u64::from(value),
    })?;
    Ok(bit)
}

/// The bit turned.
pub fn turned(dag: &mut Dag, bit: Term) -> Result<Term, AllocError>
    requires bit { HasWidth dag.old 1 bit.0 }
    ensures { IfOk result (λ t. Makes dag.old dag.new 0 2 1 t.0 (TellsBy (λ p. not p) dag.old dag.new bit.0 t.0)) }
{
    let bit = dag.mk(Node::Not {
        width: 1,
        term: bit,
    })?;
    Ok(bit)
}

/// Whether both bits are 1.
pub fn both(dag: &mut Dag, left: Term, right: Term) -> Result<Term, AllocError>
    requires left { HasWidth dag.old 1 left.0 }
    requires right { HasWidth dag.old 1 right.0 }
    ensures { IfOk result (λ t. Makes dag.old dag.new 1 2 1 t.0 (TellsByBoth (λ p q. p && q) dag.old dag.new left.0 right.0 t.0)) }
{
    let bit = dag.mk(Node::Binary {
        op: BinaryOp::And,
        width: 1,
        left,
        right,
    })?;
    Ok(bit)
}

/// Whether one of the bits is 1.
pub fn either(dag: &mut Dag, left: Term, right: Term) -> Result<Term, AllocError>
    requires left { HasWidth dag.old 1 left.0 }
    requires right { HasWidth dag.old 1 right.0 }
    ensures { IfOk result (λ t. Makes dag.old dag.new 1 2 1 t.0 (TellsByBoth (λ p q. p || q) dag.old dag.new left.0 right.0 t.0)) }
{
    let bit = dag.mk(Node::Binary {
        op: BinaryOp::Or,
        width: 1,
        left,
        right,
    })?;
    Ok(bit)
}
