//! The lines of the values of an expression and of its parts.
ghost use Rattle.std.specs.Prelude.{◌≡◌, ◌++◌, OnOk};
ghost use Rattle.word_spec.specs.Memory as memory;
ghost use Rattle.word_spec.specs.Texts.{line};
ghost use Rattle.trace_texts_spec.specs.ValueLines.{part_lines, parts, value_line, value_text, within};
ghost use Rattle.trace_texts_spec.specs.NoteTexts.{text_at};
ghost use Rattle.bilv_spec.specs.Notes.{value};
ghost use Rattle.notes_value.specs.Views.{expr_of};
ghost use Rattle.notes_value.specs.Reads.{IsReadable};
ghost use Rattle.value_steps.specs.Called.{names_of};

use crate::expressions::push_expression;
use crate::instances::instance;
use byte_mem::View;
use notes_value::{Expr, value};
use start_value::Layout;
use state_text::{push_text, push_word};
use std::alloc::{AllocError, Global};

/// The value of a part, which may stand within `old`.
fn value_within<V: View>(in_old: bool, expr: &Expr, now: &V, old: &V, big: bool) -> u32
    requires readable { IsReadable V.has_register (expr_of expr.now) }
    ensures { result ≡ value (memory.endian big) (within in_old (expr_of expr.now)) (V.view now.now) (V.view old.now) }
{
    if in_old {
        value(expr, old, old, big)
    } else {
        value(expr, now, old, big)
    }
}

/// Appends the text of a part, which may stand within `old`.
fn push_within(
    alloc: Global,
    out: &mut Vec<u8>,
    layout: Layout,
    in_old: bool,
    expr: &Expr,
) -> Result<(), AllocError>
    ensures { OnOk result (out.new.items ≡ out.old.items ++ text_at (names_of layout) 1 (within in_old (expr_of expr.now))) }
{
    if !in_old {
        push_expression(alloc, out, layout, expr)?;
        return Ok(());
    }
    push_text(out, b"old(")?;
    push_expression(alloc, out, layout, expr)?;
    push_text(out, b")")?;
    Ok(())
}

/// Appends the line of a part.
fn push_line<V: View>(
    alloc: Global,
    out: &mut Vec<u8>,
    layout: Layout,
    in_old: bool,
    expr: &Expr,
    now: &V,
    old: &V,
    big: bool,
) -> Result<(), AllocError>
    requires readable { IsReadable V.has_register (expr_of expr.now) }
    ensures { OnOk result (out.new.items ≡ out.old.items
        ++ line (value_line (names_of layout) (memory.endian big) (V.view now.now) (V.view old.now) (within in_old (expr_of expr.now)))) }
{
    push_text(out, b"value ")?;
    push_word(out, value_within(in_old, expr, now, old, big))?;
    push_text(out, b" ")?;
    push_within(alloc, out, layout, in_old, expr)?;
    push_text(out, b"\n")?;
    Ok(())
}

/// Appends the lines of an expression and of its parts.
fn push_parts<V: View>(
    alloc: Global,
    out: &mut Vec<u8>,
    layout: Layout,
    in_old: bool,
    expr: &Expr,
    now: &V,
    old: &V,
    big: bool,
) -> Result<(), AllocError>
    requires readable { IsReadable V.has_register (expr_of expr.now) }
    ensures { OnOk result (out.new.items ≡ out.old.items
        ++ part_lines (names_of layout) (memory.endian big) (V.view now.now) (V.view old.now) (parts in_old (expr_of expr.now))) }
{
    match expr {
        Expr::Number(_) | Expr::Bound => Ok(()),
        Expr::Old(a) => {
            push_parts(alloc, out, layout, true, a, now, old, big)?;
            Ok(())
        }
        Expr::Register(_) => {
            push_line(alloc, out, layout, in_old, expr, now, old, big)?;
            Ok(())
        }
        Expr::Flag(_) => {
            push_line(alloc, out, layout, in_old, expr, now, old, big)?;
            Ok(())
        }
        Expr::Pc => {
            push_line(alloc, out, layout, in_old, expr, now, old, big)?;
            Ok(())
        }
        Expr::All(..) => {
            push_line(alloc, out, layout, in_old, expr, now, old, big)?;
            Ok(())
        }
        Expr::Memory(_, a) => {
            push_line(alloc, out, layout, in_old, expr, now, old, big)?;
            push_parts(alloc, out, layout, in_old, a, now, old, big)?;
            Ok(())
        }
        Expr::Not(a) => {
            push_line(alloc, out, layout, in_old, expr, now, old, big)?;
            push_parts(alloc, out, layout, in_old, a, now, old, big)?;
            Ok(())
        }
        Expr::Binary(_, a, b) => {
            push_line(alloc, out, layout, in_old, expr, now, old, big)?;
            push_parts(alloc, out, layout, in_old, a, now, old, big)?;
            push_parts(alloc, out, layout, in_old, b, now, old, big)?;
            Ok(())
        }
    }
}

/// Appends the lines of the values of an expression and of its parts in the state now, for a run that began in the state at entry, each part before its own
/// parts: `value 0x00000007 old(a1)`. In place of an `all` stands its first instance that is false, or 1 where there is none. `big` is the machine's byte order.
/// The expression may name only registers that the machine has, and flags up to 3. What an `Err` leaves is open.
pub fn push_value_lines<V: View>(
    alloc: Global,
    out: &mut Vec<u8>,
    layout: Layout,
    expr: &Expr,
    now: &V,
    old: &V,
    big: bool,
) -> Result<(), AllocError>
    requires readable { IsReadable V.has_register (expr_of expr.now) }
    ensures { OnOk result (out.new.items ≡ out.old.items
        ++ value_text (names_of layout) (memory.endian big) (V.view now.now) (V.view old.now) (expr_of expr.now)) }
{
    let shown = instance(alloc, expr, now, old, big)?;
    push_parts(alloc, out, layout, false, &shown, now, old, big)?;
    Ok(())
}
