//! Lists without the assignments of flags that nothing reads.
ghost use Rattle.std.specs.Prelude.{◌≡◌, IfOk};
ghost use Rattle.machine_spec.specs.Bil as bil;
ghost use Rattle.bil_ast.specs.Views.{statement, statements, variable_of};
ghost use Rattle.bil_trim.specs.Before.{maybe_statement};
ghost use Rattle.bil_trim.specs.Flags as flags;
ghost use Rattle.bil_trim.specs.Flags.{kept_in};

use bil_ast::{Stmt, Var};
use graph_nodes::has_flag;
use std::alloc::{AllocError, Global};

/// Whether a variable is no flag, or one of a set.
fn stays(variable: Var, keeps: u8) -> bool
    ensures { result ≡ flags.stays (kept_in keeps) (variable_of variable) }
{
    match variable {
        Var::Flag(flag) => flag < 4 && has_flag(keeps, flag),
        _ => true,
    }
}

/// A statement whose lists are without the assignments of flags that are not in a set; none, where it is such an assignment itself.
#[cycle(flags)]
fn trim(stmt: Stmt, alloc: Global, keeps: u8) -> Result<Option<Stmt>, AllocError>
    ensures { IfOk result (λ o. (rest : bil.Statements) →
        maybe_statement o (flags.with_flags (kept_in keeps) rest) ≡ flags.with_flags (kept_in keeps) (statement stmt rest)) }
{
    match stmt {
        Stmt::Assign(variable, value) => {
            if stays(variable, keeps) {
                return Ok(Some(Stmt::Assign(variable, value)));
            }
            Ok(None)
        }
        Stmt::While { condition, body } => Ok(Some(Stmt::repeat(
            condition,
            with_flags(body, alloc, keeps)?,
        ))),
        Stmt::If {
            condition,
            when_true,
            when_false,
        } => {
            Ok(Some(Stmt::choose(
                condition,
                with_flags(when_true, alloc, keeps)?,
                with_flags(when_false, alloc, keeps)?,
            )))
        }
        other => Ok(Some(other)),
    }
}

/// A list without the assignments of flags that are not in a set, N 8, Z 4, C 2 and V 1. The error is want of memory.
#[cycle(flags)]
pub fn with_flags(list: Vec<Stmt>, alloc: Global, keeps: u8) -> Result<Vec<Stmt>, AllocError>
    ensures { IfOk result (λ v. statements v.items ≡ flags.with_flags (kept_in keeps) (statements list.items)) }
{
    let mut found: Vec<Stmt> = Vec::new(alloc);
    for stmt in list {
        if let Some(stmt) = trim(stmt, alloc, keeps)? {
            found.push(stmt)?;
        }
    }
    Ok(found)
}
