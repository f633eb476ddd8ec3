//! The text of an expression of notes.
ghost use Rattle.std.specs.Prelude.{◌≡◌, ◌++◌, OnOk, codes};
ghost use Rattle.bilv_spec.specs.Notes as meaning;
ghost use Rattle.trace_texts_spec.specs.NoteTexts.{left_level, level_of, load_text, op_text, plain_number, text_at};
ghost use Rattle.notes_value.specs.Views.{expr_of, op_of, bytes_of};
ghost use Rattle.value_steps.specs.Called.{names_of};
ghost use Rattle.value_steps.specs.Pieces.{closing, opening};

use crate::names::{flag_name, push_register};
use notes_value::{Expr, Operator, Size};
use start_value::Layout;
use state_text::{push_number, push_text, push_word};
use std::alloc::{AllocError, Global};

/// How tightly an operator binds, from `or` on.
fn level_of(op: Operator) -> u8
    ensures { result ≡ level_of (op_of op) }
{
    match op {
        Operator::Or => 1,
        Operator::And => 2,
        Operator::Equal
        | Operator::NotEqual
        | Operator::Below
        | Operator::AtMost
        | Operator::Above
        | Operator::AtLeast
        | Operator::SignedBelow
        | Operator::SignedAtMost
        | Operator::SignedAbove
        | Operator::SignedAtLeast => 4,
        Operator::BitOr => 5,
        Operator::BitXor => 6,
        Operator::BitAnd => 7,
        Operator::ShiftLeft | Operator::ShiftRight | Operator::ShiftSigned => 8,
        Operator::Plus | Operator::Minus => 9,
        Operator::Times => 10,
    }
}

/// The level that a left operand has at least.
fn left_level(op: Operator) -> u8
    ensures { result ≡ left_level (op_of op) }
{
    let level = level_of(op);
    if level == 4 { 5 } else { level }
}

/// The word or sign of an operator.
fn op_text(op: Operator) -> &'static [u8]
    ensures { result.now ≡ op_text (op_of op) }
{
    match op {
        Operator::Or => b"or",
        Operator::And => b"and",
        Operator::Equal => b"=",
        Operator::NotEqual => b"!=",
        Operator::Below => b"<u",
        Operator::AtMost => b"<=u",
        Operator::Above => b">u",
        Operator::AtLeast => b">=u",
        Operator::SignedBelow => b"<s",
        Operator::SignedAtMost => b"<=s",
        Operator::SignedAbove => b">s",
        Operator::SignedAtLeast => b">=s",
        Operator::BitOr => b"|",
        Operator::BitXor => b"^",
        Operator::BitAnd => b"&",
        Operator::ShiftLeft => b"<<",
        Operator::ShiftRight => b">>",
        Operator::ShiftSigned => b">>>",
        Operator::Plus => b"+",
        Operator::Minus => b"-",
        Operator::Times => b"*",
    }
}

/// The word of a load.
fn load_word(size: Size) -> &'static [u8]
    ensures { result.now ≡ load_text (bytes_of size) }
{
    match size {
        Size::Byte => b"mem8[",
        Size::Half => b"mem16[",
        Size::Word => b"mem32[",
    }
}

/// Appends a number: a small one in decimal digits.
fn push_plain(alloc: Global, out: &mut Vec<u8>, n: u32) -> Result<(), AllocError>
    ensures { OnOk result (out.new.items ≡ out.old.items ++ plain_number n) }
{
    if n < 1024 {
        push_number(alloc, out, n as u64)?;
        return Ok(());
    }
    push_word(out, n)?;
    Ok(())
}

/// Appends a round bracket that opens, unless the text stands bare.
fn push_opening(out: &mut Vec<u8>, bare: bool) -> Result<(), AllocError>
    ensures { OnOk result (out.new.items ≡ out.old.items ++ opening bare) }
{
    if bare {
        return Ok(());
    }
    push_text(out, b"(")?;
    Ok(())
}

/// Appends a round bracket that closes, unless the text stands bare.
fn push_closing(out: &mut Vec<u8>, bare: bool) -> Result<(), AllocError>
    ensures { OnOk result (out.new.items ≡ out.old.items ++ closing bare) }
{
    if bare {
        return Ok(());
    }
    push_text(out, b")")?;
    Ok(())
}

/// Appends an operator between blanks.
fn push_operator(out: &mut Vec<u8>, op: Operator) -> Result<(), AllocError>
    ensures { OnOk result (out.new.items ≡ out.old.items ++ (codes " " ++ op_text (op_of op) ++ codes " ")) }
{
    push_text(out, b" ")?;
    push_text(out, op_text(op))?;
    push_text(out, b" ")?;
    Ok(())
}

/// Appends an expression with a number for its bound name, where an operand of a level is to stand.
fn push_at(
    alloc: Global,
    out: &mut Vec<u8>,
    layout: Layout,
    level: u8,
    bound: u32,
    expr: &Expr,
) -> Result<(), AllocError>
    ensures { OnOk result (out.new.items ≡ out.old.items ++ text_at (names_of layout) level (meaning.put_bound bound (expr_of expr.now))) }
{
    match expr {
        Expr::Number(n) => push_plain(alloc, out, *n),
        Expr::Register(r) => push_register(out, layout, *r as u32),
        Expr::Flag(f) => push_text(out, flag_name(*f as u32)),
        Expr::Pc => push_text(out, b"pc"),
        Expr::Bound => push_plain(alloc, out, bound),
        Expr::Memory(size, a) => {
            push_text(out, load_word(*size))?;
            push_at(alloc, out, layout, 1, bound, a)?;
            push_text(out, b"]")
        }
        Expr::Old(a) => {
            push_text(out, b"old(")?;
            push_at(alloc, out, layout, 1, bound, a)?;
            push_text(out, b")")
        }
        Expr::Not(a) => {
            let bare = level <= 3;
            push_opening(out, bare)?;
            push_text(out, b"not ")?;
            push_at(alloc, out, layout, 3, bound, a)?;
            push_closing(out, bare)
        }
        Expr::Binary(op, a, b) => {
            let bare = level <= level_of(*op);
            push_opening(out, bare)?;
            push_at(alloc, out, layout, left_level(*op), bound, a)?;
            push_operator(out, *op)?;
            push_at(alloc, out, layout, level_of(*op) + 1, bound, b)?;
            push_closing(out, bare)
        }
        Expr::All(low, _, a) => {
            push_text(out, b"all(")?;
            push_at(alloc, out, layout, 1, *low, a)?;
            push_text(out, b", ..)")?;
            Ok(())
        }
    }
}

/// Appends the text of an expression, with no more round brackets than it needs. A number below 1,024 has decimal digits, any other eight hexadecimal ones. An
/// `all` is told by its first instance. What an `Err` leaves is open.
pub fn push_expression(
    alloc: Global,
    out: &mut Vec<u8>,
    layout: Layout,
    expr: &Expr,
) -> Result<(), AllocError>
    ensures { OnOk result (out.new.items ≡ out.old.items ++ text_at (names_of layout) 1 (expr_of expr.now)) }
{
    push_at(alloc, out, layout, 1, 0, expr)?;
    Ok(())
}
