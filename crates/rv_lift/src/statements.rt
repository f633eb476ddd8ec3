//! The statements of lifted instructions.
ghost use Rattle.std.specs.Prelude.{◌≡◌, [], ◌∷◌, IfOk};
ghost use Rattle.machine_spec.specs.Bil as bil;
ghost use Rattle.bil_ast.specs.Views.{expression, statement, statements};
ghost use Rattle.rv_lift.specs.Lifted as lifts;

use crate::expressions::number;
use bil_ast::{Bank, Exp, Stmt, Var};
use rv_decode::Register;
use std::alloc::{AllocError, Global};

/// A list of one statement.
pub(crate) fn one(alloc: Global, stmt: Stmt) -> Result<Vec<Stmt>, AllocError>
    ensures { IfOk result (λ list. statements list.items ≡ statement stmt bil.Empty) }
{
    let mut list = Vec::new(alloc);
    list.push(stmt)?;
    Ok(list)
}

/// A register takes a value; x0 is never assigned (section 2.1).
#[tactic(auto, using(crate::proofs::Registers::assigned_is))]
pub(crate) fn assigned(alloc: Global, rd: Register, value: Exp) -> Result<Vec<Stmt>, AllocError>
    ensures { IfOk result (λ list. statements list.items ≡ lifts.assigned rd.number (expression value)) }
{
    if rd.number() == 0 {
        return Ok(Vec::new(alloc));
    }
    one(
        alloc,
        Stmt::Assign(Var::Register(Bank::XRegisters, rd.number()), value),
    )
}

/// A jump; then a register takes the address behind it.
#[tactic(auto, using(crate::proofs::Registers::assigned_is))]
pub(crate) fn jump_and_link(
    alloc: Global,
    target: Exp,
    rd: Register,
    behind: u32,
) -> Result<Vec<Stmt>, AllocError>
    ensures { IfOk result (λ list. statements list.items ≡ bil.JumpTo (expression target) (lifts.assigned rd.number (lifts.number behind))) }
{
    let mut list = Vec::new(alloc);
    list.push(Stmt::Jump(target))?;
    if rd.number() == 0 {
        return Ok(list);
    }
    list.push(Stmt::Assign(Var::Register(Bank::XRegisters, rd.number()), number(behind)))?;
    Ok(list)
}

/// A jump where a condition holds.
pub(crate) fn jump_if(alloc: Global, condition: Exp, target: Exp) -> Result<Vec<Stmt>, AllocError>
    ensures { IfOk result (λ list. statements list.items
        ≡ bil.If (expression condition) (bil.JumpTo (expression target) bil.Empty) bil.Empty bil.Empty) }
{
    let jump = one(alloc, Stmt::Jump(target))?;
    let branch = Stmt::choose(condition, jump, Vec::new(alloc));
    one(alloc, branch)
}
