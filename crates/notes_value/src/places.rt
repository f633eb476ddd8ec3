//! The addresses that an expression reads.
ghost use Rattle.std.specs.Prelude.{◌≡◌, ◌++◌, OnOk};
ghost use Rattle.word_spec.specs.Memory as memory;
ghost use Rattle.bilv_spec.specs.Notes as meaning;
ghost use Rattle.model_spec.specs.Reads.{expression_reads};
ghost use Rattle.notes_value.specs.Views.{expr_of};
ghost use Rattle.notes_value.specs.Reads.{IsReadable};

use crate::expressions::Expr;
use crate::values::{bytes, value_with};
use byte_mem::View;
use std::alloc::AllocError;

/// Adds so many addresses from one on to a list. They wrap. The error is want of memory.
pub fn add_span(places: &mut Vec<u32>, first: u32, count: u8) -> Result<(), AllocError>
    ensures { OnOk result (places.new.items ≡ places.old.items ++ memory.span first count) }
{
    let mut at = first;
    for _ in 0..count {
        places.push(at)?;
        at = at.wrapping_add(1);
    }
    Ok(())
}

/// Adds the addresses that an expression with a number for its bound name reads. The error is want of memory.
#[cycle(places)]
fn add_reads_with<V: View>(
    expr: &Expr,
    bound: u32,
    now: &V,
    old: &V,
    big: bool,
    places: &mut Vec<u32>,
) -> Result<(), AllocError>
    requires readable { IsReadable V.has_register (expr_of expr.now) }
    ensures { OnOk result (places.new.items ≡ places.old.items
        ++ expression_reads (memory.endian big) (meaning.put_bound bound (expr_of expr.now)) (V.view now.now) (V.view old.now)) }
{
    match expr {
        Expr::Number(_) => Ok(()),
        Expr::Register(_) => Ok(()),
        Expr::Flag(_) => Ok(()),
        Expr::Pc => Ok(()),
        Expr::Bound => Ok(()),
        Expr::Memory(size, a) => {
            add_reads_with(a, bound, now, old, big, places)?;
            add_span(places, value_with(a, bound, now, old, big), bytes(*size))?;
            Ok(())
        }
        Expr::Old(a) => {
            add_reads_with(a, bound, old, old, big, places)?;
            Ok(())
        }
        Expr::Not(a) => {
            add_reads_with(a, bound, now, old, big, places)?;
            Ok(())
        }
        Expr::Binary(_, a, b) => {
            add_reads_with(a, bound, now, old, big, places)?;
            add_reads_with(b, bound, now, old, big, places)?;
            Ok(())
        }
        Expr::All(low, high, a) => {
            add_all_reads(a, *low, *high, now, old, big, places)?;
            Ok(())
        }
    }
}

/// Adds the addresses that an expression reads for each number from `low` to `high`, and for `low` in any case. The error is want of memory.
#[cycle(places)]
fn add_all_reads<V: View>(
    expr: &Expr,
    low: u32,
    high: u32,
    now: &V,
    old: &V,
    big: bool,
    places: &mut Vec<u32>,
) -> Result<(), AllocError>
    requires readable { IsReadable V.has_register (expr_of expr.now) }
    ensures { OnOk result (places.new.items ≡ places.old.items
        ++ expression_reads (memory.endian big) (meaning.written_out low high (expr_of expr.now)) (V.view now.now) (V.view old.now)) }
{
    add_reads_with(expr, low, now, old, big, places)?;
    let mut v = low;
    while v < high {
        v += 1;
        add_reads_with(expr, v, now, old, big, places)?;
    }
    Ok(())
}

/// Adds the addresses that an expression reads in the state now, for a run that began in the state at entry, to a list: those of inner expressions first, and
/// each as often as it is read; `big` is the machine's byte order. The expression may name only registers that the machine has, and flags up to 3.
///
/// # Errors
///
/// Want of memory.
pub fn add_reads<V: View>(
    expr: &Expr,
    now: &V,
    old: &V,
    big: bool,
    places: &mut Vec<u32>,
) -> Result<(), AllocError>
    requires readable { IsReadable V.has_register (expr_of expr.now) }
    ensures { OnOk result (places.new.items ≡ places.old.items
        ++ expression_reads (memory.endian big) (expr_of expr.now) (V.view now.now) (V.view old.now)) }
{
    add_reads_with(expr, 0, now, old, big, places)?;
    Ok(())
}
