//! Copies of expressions and lists of notes, in memory of their own. Each error is want of memory.
ghost use Rattle.std.specs.Prelude.{◌≡◌, IfOk, map};
ghost use Rattle.notes_value.specs.NoteViews.{assert_of, fixed_of, function_of, note_line_of, targets_of};
ghost use Rattle.notes_value.specs.Views.{expr_of};

use notes_value::{Assert, Expr, FixedRange, Function, NoteLine, Targets};
use std::alloc::{AllocError, Global};

/// An equal expression, in memory of its own. The error is want of memory.
pub(crate) fn copy_expression(alloc: Global, expr: &Expr) -> Result<Expr, AllocError>
    ensures { IfOk result (λ e. expr_of e ≡ expr_of expr.now) }
{
    match expr {
        Expr::Number(number) => Ok(Expr::Number(*number)),
        Expr::Register(register) => Ok(Expr::Register(*register)),
        Expr::Flag(flag) => Ok(Expr::Flag(*flag)),
        Expr::Pc => Ok(Expr::Pc),
        Expr::Bound => Ok(Expr::Bound),
        Expr::Memory(size, address) => {
            let address = copy_expression(alloc, address)?;
            Ok(Expr::Memory(*size, Box::new(alloc, address)?))
        }
        Expr::Old(inner) => {
            let inner = copy_expression(alloc, inner)?;
            Ok(Expr::Old(Box::new(alloc, inner)?))
        }
        Expr::Not(inner) => {
            let inner = copy_expression(alloc, inner)?;
            Ok(Expr::Not(Box::new(alloc, inner)?))
        }
        Expr::Binary(op, left, right) => {
            let left = copy_expression(alloc, left)?;
            let right = copy_expression(alloc, right)?;
            Ok(Expr::Binary(*op, Box::new(alloc, left)?, Box::new(alloc, right)?))
        }
        Expr::All(low, high, inner) => {
            let inner = copy_expression(alloc, inner)?;
            Ok(Expr::All(*low, *high, Box::new(alloc, inner)?))
        }
    }
}

/// Where a function begins, copied.
pub(crate) fn copy_function(alloc: Global, function: &Function) -> Result<Function, AllocError>
    ensures { IfOk result (λ f. function_of f ≡ function_of function.now) }
{
    match function {
        Function::At(address) => Ok(Function::At(*address)),
        Function::Named(name) => {
            let mut copy = Vec::new(alloc);
            copy.extend_from_slice(name)?;
            Ok(Function::Named(copy))
        }
    }
}

/// Lines, copied.
pub(crate) fn copy_lines(alloc: Global, lines: &[NoteLine]) -> Result<Vec<NoteLine>, AllocError>
    ensures { IfOk result (λ v. map note_line_of v.items ≡ map note_line_of lines.now) }
{
    let mut copies = Vec::new(alloc);
    for line in lines {
        copies.push(NoteLine {
            line: line.line,
            says: copy_expression(alloc, &line.says)?,
        })?;
    }
    Ok(copies)
}

/// Assert lines, copied.
pub(crate) fn copy_asserts(alloc: Global, asserts: &[Assert]) -> Result<Vec<Assert>, AllocError>
    ensures { IfOk result (λ v. map assert_of v.items ≡ map assert_of asserts.now) }
{
    let mut copies = Vec::new(alloc);
    for line in asserts {
        copies.push(Assert {
            line: line.line,
            at: line.at,
            says: copy_expression(alloc, &line.says)?,
        })?;
    }
    Ok(copies)
}

/// Targets of indirect jumps, copied.
pub(crate) fn copy_targets(alloc: Global, targets: &[Targets]) -> Result<Vec<Targets>, AllocError>
    ensures { IfOk result (λ v. map targets_of v.items ≡ map targets_of targets.now) }
{
    let mut copies = Vec::new(alloc);
    for line in targets {
        let mut to = Vec::new(alloc);
        to.extend_from_slice(&line.to)?;
        copies.push(Targets { at: line.at, to })?;
    }
    Ok(copies)
}
