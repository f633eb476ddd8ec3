//! Lines of constants alone.
ghost use Rattle.std.specs.Prelude.{◌≡◌, ◌++◌, map, IfOk, OnOk};
ghost use Rattle.notes_value.specs.Views.{expr_of};
ghost use Rattle.notes_value.specs.NoteViews.{note_line_of, notes_of};
ghost use Rattle.note_check.specs.Constants.{AreSteady, constant_among, constant_warnings, is_constant};

use crate::warning::Warning;
use notes_value::{Expr, NoteLine, Notes};
use std::alloc::{AllocError, Global};

/// Whether an expression names no part of a state.
fn is_constant(expr: &Expr) -> bool
    ensures { result ≡ is_constant (expr_of expr.now) }
{
    match expr {
        Expr::Number(_) | Expr::Bound => true,
        Expr::Register(_) | Expr::Flag(_) | Expr::Pc | Expr::Memory(_, _) => false,
        Expr::Old(a) | Expr::Not(a) => is_constant(a),
        Expr::All(_, _, a) => is_constant(a),
        Expr::Binary(_, a, b) => is_constant(a) && is_constant(b),
    }
}

/// Adds a warning of each require line of constants alone. The error is want of memory.
fn add_requires(found: &mut Vec<Warning>, lines: &[NoteLine]) -> Result<(), AllocError>
    ensures { OnOk result (found.new.items ≡ found.old.items
        ++ map (λ l. Warning.ConstantRequire l.line) (constant_among (map note_line_of lines.now))) }
{
    for line in lines {
        if is_constant(&line.says) {
            found.push(Warning::ConstantRequire { line: line.line })?;
        }
    }
    Ok(())
}

/// Adds a warning of each ensure line of constants alone. The error is want of memory.
fn add_ensures(found: &mut Vec<Warning>, lines: &[NoteLine]) -> Result<(), AllocError>
    ensures { OnOk result (found.new.items ≡ found.old.items
        ++ map (λ l. Warning.ConstantEnsure l.line) (constant_among (map note_line_of lines.now))) }
{
    for line in lines {
        if is_constant(&line.says) {
            found.push(Warning::ConstantEnsure { line: line.line })?;
        }
    }
    Ok(())
}

/// Warns of the require lines, and then of the ensure lines, that name no part of a state: such a line says the same of every state.
///
/// # Errors
///
/// Want of memory.
pub fn constant_lines(alloc: Global, notes: &Notes) -> Result<Vec<Warning>, AllocError>
    ensures { IfOk result (λ v. v.items ≡ constant_warnings (notes_of notes.now)) }
{
    let mut found = Vec::new(alloc);
    add_requires(&mut found, &notes.required)?;
    add_ensures(&mut found, &notes.ensured)?;
    Ok(found)
}

/// What names no part of a state has one value in all states.
pub fn constants_are_steady()
    ensures { AreSteady }
{}
