//! Expressions.

ghost use Rattle.std.specs.Prelude.{◌≡◌, ◌++◌, string_bytes, OnOk};
ghost use Rattle.machine_spec.specs.BilText as text;
ghost use Rattle.bil_ast.specs.Views.{expression};

use crate::names::{
    append_constant, append_local, append_unknown, append_variable, binary_name, cast_name,
    order_name, unary_name,
};
use bil_ast::Exp;
use std::alloc::AllocError;

/// Whether an operand takes no round brackets: a variable, a constant, or a form that ends in square brackets.
fn stands_alone(e: &Exp) -> bool
    ensures { result ≡ text.stands_alone (expression e.now) }
{
    match e {
        Exp::Var(_)
        | Exp::Constant(_)
        | Exp::Load { .. }
        | Exp::Cast(..)
        | Exp::Unknown(_)
        | Exp::Extract { .. } => true,
        Exp::Store { .. }
        | Exp::Binary(..)
        | Exp::Unary(..)
        | Exp::Let(..)
        | Exp::Choose { .. }
        | Exp::Concat(..) => false,
    }
}

/// Appends an operand's text, in round brackets unless it stands alone.
#[cycle(expressions)]
fn append_operand(out: &mut String, e: &Exp) -> Result<(), AllocError>
    ensures { OnOk result (string_bytes out.new ≡ string_bytes out.old
        ++ text.bracketed (text.stands_alone (expression e.now)) (text.text_of (expression e.now))) }
{
    if stands_alone(e) {
        return append_expression(out, e);
    }
    out.push_str("(")?;
    append_expression(out, e)?;
    out.push_str(")")
}

/// Appends an expression's text.
#[cycle(expressions)]
pub fn append_expression(out: &mut String, e: &Exp) -> Result<(), AllocError>
    ensures { OnOk result (string_bytes out.new ≡ string_bytes out.old ++ text.text_of (expression e.now)) }
{
    match e {
        Exp::Var(variable) => append_variable(out, *variable),
        Exp::Constant(word) => append_constant(out, *word),
        Exp::Load {
            memory,
            address,
            order,
            width,
        } => {
            append_operand(out, memory)?;
            out.push_str("[")?;
            append_expression(out, address)?;
            let order = order_name(*order);
            let bits = width.bits;
            write!(out, ", {order}]:{bits}")
        }
        Exp::Store {
            memory,
            address,
            order,
            width,
            value,
        } => {
            append_operand(out, memory)?;
            out.push_str(" with [")?;
            append_expression(out, address)?;
            let order = order_name(*order);
            let bits = width.bits;
            write!(out, ", {order}]:{bits} <- ")?;
            append_operand(out, value)
        }
        Exp::Binary(op, first, second) => {
            append_operand(out, first)?;
            let op = binary_name(*op);
            write!(out, " {op} ")?;
            append_operand(out, second)
        }
        Exp::Unary(op, operand) => {
            out.push_str(unary_name(*op))?;
            append_operand(out, operand)
        }
        Exp::Cast(kind, width, operand) => {
            let kind = cast_name(*kind);
            let bits = width.bits;
            write!(out, "{kind}:{bits}[")?;
            append_expression(out, operand)?;
            out.push_str("]")
        }
        Exp::Let(local, value, body) => {
            out.push_str("let ")?;
            append_local(out, *local)?;
            out.push_str(" = ")?;
            append_operand(out, value)?;
            out.push_str(" in ")?;
            append_operand(out, body)
        }
        Exp::Unknown(kind) => append_unknown(out, *kind),
        Exp::Choose {
            condition,
            when_true,
            when_false,
        } => {
            out.push_str("if ")?;
            append_operand(out, condition)?;
            out.push_str(" then ")?;
            append_operand(out, when_true)?;
            out.push_str(" else ")?;
            append_operand(out, when_false)
        }
        Exp::Extract { hi, lo, word } => {
            let hi = *hi;
            let lo = *lo;
            write!(out, "extract:{hi}:{lo}[")?;
            append_expression(out, word)?;
            out.push_str("]")
        }
        Exp::Concat(upper, lower) => {
            append_operand(out, upper)?;
            out.push_str(" @ ")?;
            append_operand(out, lower)
        }
    }
}
