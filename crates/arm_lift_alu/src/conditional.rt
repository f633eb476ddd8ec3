//! Lists under a condition, which are shared by every class.
ghost use Rattle.std.specs.Prelude.{◌≡◌, IfOk, OnOk};
ghost use Rattle.machine_spec.specs.Bil as bil;
ghost use Rattle.bil_ast.specs.Views.{statement, statements};
ghost use Rattle.arm_lift_alu.specs.Before.{before};
ghost use Rattle.arm_lift_alu.specs.Lifted as lifts;

use crate::expressions::test;
use arm_decode::Condition;
use bil_ast::Stmt;
use std::alloc::{AllocError, Global};

/// A list of one statement. The error is want of memory.
pub fn one(alloc: Global, stmt: Stmt) -> Result<Vec<Stmt>, AllocError>
    ensures { IfOk result (λ list. statements list.items ≡ statement stmt bil.Empty) }
{
    let mut list = Vec::new(alloc);
    list.push(stmt)?;
    Ok(list)
}

/// A list that is done where a condition holds (section A3.2). The error is want of memory.
#[tactic(auto, using(crate::proofs::Tests::may_fail, crate::proofs::Tests::always_done))]
pub fn conditional(
    alloc: Global,
    condition: Condition,
    list: Vec<Stmt>,
) -> Result<Vec<Stmt>, AllocError>
    ensures { IfOk result (λ all. statements all.items ≡ lifts.conditional condition (statements list.items)) }
{
    if condition.is_always() {
        return Ok(list);
    }
    let holds = test(alloc, condition)?;
    one(alloc, Stmt::choose(holds, list, Vec::new(alloc)))
}

/// One more statement at the end of a list. The error is want of memory; the list is then as it was.
#[tactic(auto, using(crate::proofs::Pushed::pushed))]
pub fn add(list: &mut Vec<Stmt>, stmt: Stmt) -> Result<(), AllocError>
    ensures { OnOk result ((rest : bil.Statements) → before list.new.items rest ≡ before list.old.items (statement stmt rest)) }
{
    list.push(stmt)?;
    Ok(())
}
