//! Types of lists of statements.

ghost use Rattle.std.specs.Prelude.{◌≡◌, ◌+◌, ◌-◌, ◌^◌, min, IfOk, IfErr, IsOk, Some, ◌↔◌};
ghost use Rattle.machine_spec.specs.Bil.{Empty, While, If, size, list_size};
ghost use Rattle.machine_spec.specs.BilTyping.{IsWellTyped, list_fault, type_or_fault, wants};
ghost use Rattle.bil_ast.specs.Views.{bil_type_of, expression, statement, statements};
ghost use Rattle.bil_types.specs.Views.{fault_in, fault_of};

use crate::TypeFault;
use crate::expressions::type_at;
use crate::rules::{ask_bits, ask_type, variable_type};
use bil_ast::{BilType, Exp, Stmt, Width};

/// Whether a list is well typed; its first fault where it is not. It takes no memory.
pub fn check(list: &[Stmt]) -> Result<(), TypeFault>
    ensures well_typed { IsOk result ↔ IsWellTyped (statements list.now) }
    ensures fault { IfErr result (λ f. list_fault 0 (statements list.now) ≡ Some (fault_of f)) }
{
    check_at(list, 0)?;
    Ok(())
}

/// Checks a list whose first statement has the number `at`, and gives the number after it; a number that is greater than 2^64 - 1 is that.
#[cycle(check)]
fn check_at(list: &[Stmt], at: u64) -> Result<u64, TypeFault>
    ensures fault { fault_in result ≡ list_fault at (statements list.now) }
    ensures next { IfOk result (λ n. n ≡ min (at + list_size (statements list.now)) (2 ^ 64 - 1)) }
{
    let mut next = at;
    for stmt in list {
        next = check_one(stmt, next)?;
    }
    Ok(next)
}

/// Checks the statement of the number `at`, and gives the number after it.
#[cycle(check)]
fn check_one(stmt: &Stmt, at: u64) -> Result<u64, TypeFault>
    ensures fault { fault_in result ≡ list_fault at (statement stmt.now Empty) }
    ensures next { IfOk result (λ n. n ≡ min (at + list_size (statement stmt.now Empty)) (2 ^ 64 - 1)) }
{
    match stmt {
        Stmt::Assign(x, value) => wanted(value, variable_type(*x), at),
        Stmt::Jump(target) => wanted(target, BilType::Bits(Width::new(32)), at),
        Stmt::Raise(_) | Stmt::Special(_) => Ok(at.saturating_add(1)),
        Stmt::While { condition, body } => check_loop(body, condition, at),
        Stmt::If {
            condition,
            when_true,
            when_false,
        } => {
            let (found, next) = type_at(condition, at.saturating_add(1))?;
            let next = check_at(when_true, next)?;
            let next = check_at(when_false, next)?;
            ask_bits(at, Width::new(1), found)?;
            Ok(next)
        }
    }
}

/// Checks that the expression of the statement of the number `at` has a type, and gives the number after it.
#[tactic(auto, using(crate::proofs::Numbers::capped))]
fn wanted(value: &Exp, want: BilType, at: u64) -> Result<u64, TypeFault>
    ensures fault { fault_in result ≡ wants at (bil_type_of want) (type_or_fault (at + 1) (expression value.now)) }
    ensures next { IfOk result (λ n. n ≡ min (at + 1 + size (expression value.now)) (2 ^ 64 - 1)) }
{
    let (found, next) = type_at(value, at.saturating_add(1))?;
    ask_type(at, want, found)?;
    Ok(next)
}

/// Checks the loop of the number `at`, and gives the number after it.
#[tactic(auto, using(crate::proofs::Numbers::capped, crate::proofs::ListFaults::list_second))]
#[cycle(check)]
fn check_loop(body: &[Stmt], condition: &Exp, at: u64) -> Result<u64, TypeFault>
    ensures fault { fault_in result ≡ list_fault at (While (expression condition.now) (statements body.now) Empty) }
    ensures next { IfOk result (λ n. n ≡ min (at + list_size (While (expression condition.now) (statements body.now) Empty)) (2 ^ 64 - 1)) }
{
    let (found, next) = type_at(condition, at.saturating_add(1))?;
    let next = check_at(body, next)?;
    ask_bits(at, Width::new(1), found)?;
    Ok(next)
}
