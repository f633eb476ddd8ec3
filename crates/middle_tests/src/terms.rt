//! Shared terms that are folded.
use bil_ast::BinaryOp;
use byte_mem::Bytes32;
use std::alloc::{AllocError, Global};
use term_dag::{Dag, Node, Reading, Term};

/// The sum of a term and a number. The error is a term that has not 32 bits, or want of memory.
fn plus(dag: &mut Dag, left: Term, value: u32) -> Result<Term, AllocError> {
    let value = u64::from(value);
    let right = dag.mk(Node::Constant { width: 32, value })?;
    if left.0 as usize >= dag.nodes() || dag.width(left) != 32 {
        return Err(AllocError);
    }
    let sum = dag.mk(Node::Binary {
        op: BinaryOp::Plus,
        width: 32,
        left,
        right,
    })?;
    Ok(sum)
}

/// `x + 3 + 4` and `x + 7`.
fn sums(dag: &mut Dag) -> Result<[Term; 2], AllocError> {
    let x = dag.mk(Node::Register { part: 0, number: 0 })?;
    let inner = plus(dag, x, 3)?;
    Ok([plus(dag, inner, 4)?, plus(dag, x, 7)?])
}

/// The word of a term where the register is 0xfffffffc.
fn value(alloc: Global, dag: &Dag, term: Term) -> Result<u64, AllocError> {
    if term.0 as usize >= dag.nodes() {
        return Err(AllocError);
    }
    let reading = Reading {
        registers: vec![in alloc; 0xffff_fffc]?,
        flags: Vec::new(alloc),
        memory: Bytes32::new(alloc),
        fill: 0,
        choices: Vec::new(alloc),
        base: Vec::new(alloc),
    };
    dag.value(alloc, &reading, term)
}

#[test]
fn sums_are_folded(rt: HostRuntime) -> Result<(), AllocError> {
    let mut dag = Dag::new(rt.alloc());
    let [sum, other] = sums(&mut dag)?;
    assert!(rt; sum == other);
    assert!(rt; value(rt.alloc(), &dag, sum)? == 3);
    Ok(())
}
