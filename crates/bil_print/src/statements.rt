//! Statements.

ghost use Rattle.std.specs.Prelude.{◌≡◌, ℕ, ◌+◌, ◌++◌, codes, string_bytes, IfOk, OnOk};
ghost use Rattle.machine_spec.specs.Bil.{Statements};
ghost use Rattle.machine_spec.specs.BilText.{indent, line_at, list_text, text_of};
ghost use Rattle.bil_ast.specs.Views.{expression, statement, statements};

use crate::expressions::append_expression;
use crate::names::append_variable;
use bil_ast::{Exp, Stmt};
use std::alloc::{AllocError, Global};

/// The blanks of a depth.
pub fn blanks_of(alloc: Global, depth: u32) -> Result<String, AllocError>
    ensures { IfOk result (λ blanks. string_bytes blanks ≡ indent depth) }
{
    let mut blanks = String::new(alloc);
    for _ in 0..depth {
        blanks.push_str("  ")?;
    }
    Ok(blanks)
}

/// Appends a line.
fn append_line(out: &mut String, blanks: &str, text: &str) -> Result<(), AllocError>
    ensures { OnOk result ((depth : ℕ) → blanks.now ≡ indent depth →
        string_bytes out.new ≡ string_bytes out.old ++ line_at depth text.now) }
{
    writeln!(out, "{blanks}{text}")
}

/// Appends the line that opens a block.
fn append_opening(
    out: &mut String,
    blanks: &str,
    word: &str,
    condition: &Exp,
) -> Result<(), AllocError>
    ensures { OnOk result ((depth : ℕ) → blanks.now ≡ indent depth →
        string_bytes out.new ≡ string_bytes out.old ++ line_at depth (word.now ++ text_of (expression condition.now) ++ codes " {")) }
{
    write!(out, "{blanks}{word}")?;
    append_expression(out, condition)?;
    out.push_str(" {\n")
}

/// Appends the lines of a list behind the blanks of its depth.
#[cycle(statements)]
pub fn append_list(
    list: &[Stmt],
    out: &mut String,
    alloc: Global,
    blanks: &str,
) -> Result<(), AllocError>
    ensures { OnOk result ((depth : ℕ) → blanks.now ≡ indent depth →
        string_bytes out.new ≡ string_bytes out.old ++ list_text depth (statements list.now)) }
{
    for stmt in list {
        append_statement(stmt, out, alloc, blanks)?;
    }
    Ok(())
}

/// Appends the lines of a statement, whatever comes after it.
#[cycle(statements)]
fn append_statement(
    stmt: &Stmt,
    out: &mut String,
    alloc: Global,
    blanks: &str,
) -> Result<(), AllocError>
    ensures { OnOk result ((depth : ℕ) (rest : Statements) → blanks.now ≡ indent depth →
        string_bytes out.new ++ list_text depth rest ≡ string_bytes out.old ++ list_text depth (statement stmt.now rest)) }
{
    match stmt {
        Stmt::Assign(variable, value) => {
            out.push_str(blanks)?;
            append_variable(out, *variable)?;
            out.push_str(" := ")?;
            append_expression(out, value)?;
            out.push_str("\n")
        }
        Stmt::Jump(target) => {
            write!(out, "{blanks}jmp ")?;
            append_expression(out, target)?;
            out.push_str("\n")
        }
        Stmt::Raise(number) => {
            let number = *number;
            writeln!(out, "{blanks}cpuexn ({number})")
        }
        Stmt::Special(remark) => {
            let remark = remark.as_str();
            writeln!(out, "{blanks}special ({remark})")
        }
        Stmt::While { condition, body } => {
            append_opening(out, blanks, "while ", condition)?;
            append_block(body, out, alloc, blanks)?;
            append_line(out, blanks, "}")
        }
        Stmt::If {
            condition,
            when_true,
            when_false,
        } => {
            append_opening(out, blanks, "if ", condition)?;
            append_block(when_true, out, alloc, blanks)?;
            append_line(out, blanks, "} else {")?;
            append_block(when_false, out, alloc, blanks)?;
            append_line(out, blanks, "}")
        }
    }
}

/// Appends the lines of a block, one depth further in.
#[cycle(statements)]
fn append_block(
    block: &[Stmt],
    out: &mut String,
    alloc: Global,
    blanks: &str,
) -> Result<(), AllocError>
    ensures { OnOk result ((depth : ℕ) → blanks.now ≡ indent depth →
        string_bytes out.new ≡ string_bytes out.old ++ list_text (depth + 1) (statements block.now)) }
{
    let deeper = format!(in alloc; "{blanks}  ")?;
    append_list(block, out, alloc, &deeper)?;
    Ok(())
}
