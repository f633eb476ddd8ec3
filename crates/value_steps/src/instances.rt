//! The instances of an `all` that are false.
ghost use Rattle.std.specs.Prelude.{◌≡◌, ℕ, List, ◌∷◌, IfOk, IfSome, IfNone};
ghost use Rattle.word_spec.specs.Memory as memory;
ghost use Rattle.bilv_spec.specs.Notes as meaning;
ghost use Rattle.trace_texts_spec.specs.ValueLines.{shown};
ghost use Rattle.notes_value.specs.Views.{expr_of};
ghost use Rattle.notes_value.specs.Reads.{IsReadable};
ghost use Rattle.value_steps.specs.Pieces.{tried};

use byte_mem::View;
use notes_value::{Expr, value};
use std::alloc::{AllocError, Global};

/// An expression with a number for its bound name, and in place of each `all` its first instance that is false.
#[cycle(instances)]
fn instance_with<V: View>(
    alloc: Global,
    expr: &Expr,
    bound: u32,
    now: &V,
    old: &V,
    big: bool,
) -> Result<Expr, AllocError>
    requires readable { IsReadable V.has_register (expr_of expr.now) }
    ensures shown { IfOk result (λ e. expr_of e
        ≡ shown (memory.endian big) (V.view now.now) (V.view old.now) (meaning.put_bound bound (expr_of expr.now))) }
    ensures readable { IfOk result (λ e. IsReadable V.has_register (expr_of e)) }
{
    match expr {
        Expr::Number(n) => Ok(Expr::Number(*n)),
        Expr::Register(r) => Ok(Expr::Register(*r)),
        Expr::Flag(f) => Ok(Expr::Flag(*f)),
        Expr::Pc => Ok(Expr::Pc),
        Expr::Bound => Ok(Expr::Number(bound)),
        Expr::Memory(size, a) => {
            let inner = instance_with(alloc, a, bound, now, old, big)?;
            Ok(Expr::Memory(*size, Box::new(alloc, inner)?))
        }
        Expr::Old(a) => {
            let inner = instance_with(alloc, a, bound, old, old, big)?;
            Ok(Expr::Old(Box::new(alloc, inner)?))
        }
        Expr::Not(a) => {
            let inner = instance_with(alloc, a, bound, now, old, big)?;
            Ok(Expr::Not(Box::new(alloc, inner)?))
        }
        Expr::Binary(op, a, b) => {
            let left = instance_with(alloc, a, bound, now, old, big)?;
            let right = instance_with(alloc, b, bound, now, old, big)?;
            Ok(Expr::Binary(*op, Box::new(alloc, left)?, Box::new(alloc, right)?))
        }
        Expr::All(low, high, a) => {
            let one = first_false(alloc, a, *low, *high, now, old, big)?;
            Ok(one)
        }
    }
}

/// The instance for a number, where it is false.
#[cycle(instances)]
fn false_instance<V: View>(
    alloc: Global,
    expr: &Expr,
    v: u32,
    now: &V,
    old: &V,
    big: bool,
) -> Result<Option<Expr>, AllocError>
    requires readable { IsReadable V.has_register (expr_of expr.now) }
    ensures found { (vs : List ℕ) → IfOk result (λ o. IfSome o (λ e. expr_of e
        ≡ tried (memory.endian big) (V.view now.now) (V.view old.now) (expr_of expr.now) (v ∷ vs))) }
    ensures none { (vs : List ℕ) → IfOk result (λ o. IfNone o (tried (memory.endian big) (V.view now.now) (V.view old.now) (expr_of expr.now) (v ∷ vs)
        ≡ tried (memory.endian big) (V.view now.now) (V.view old.now) (expr_of expr.now) vs)) }
    ensures readable { IfOk result (λ o. IfSome o (λ e. IsReadable V.has_register (expr_of e))) }
{
    let one = instance_with(alloc, expr, v, now, old, big)?;
    if value(&one, now, old, big) == 0 {
        return Ok(Some(one));
    }
    Ok(None)
}

/// The first instance that is false for a number from `low` to `high`, and for `low` in any case; 1 where there is none.
#[cycle(instances)]
fn first_false<V: View>(
    alloc: Global,
    expr: &Expr,
    low: u32,
    high: u32,
    now: &V,
    old: &V,
    big: bool,
) -> Result<Expr, AllocError>
    requires readable { IsReadable V.has_register (expr_of expr.now) }
    ensures shown { IfOk result (λ e. expr_of e
        ≡ shown (memory.endian big) (V.view now.now) (V.view old.now) (meaning.written_out low high (expr_of expr.now))) }
    ensures readable { IfOk result (λ e. IsReadable V.has_register (expr_of e)) }
{
    match false_instance(alloc, expr, low, now, old, big)? {
        Some(first) => return Ok(first),
        None => {}
    }
    let mut v = low;
    while v < high {
        v += 1;
        match false_instance(alloc, expr, v, now, old, big)? {
            Some(next) => return Ok(next),
            None => {}
        }
    }
    Ok(Expr::Number(1))
}

/// An expression that has the same value in the state now, for a run that began in the state at entry, and no `all`: in place of each stands its first instance
/// that is false, or 1 where there is none. `big` is the machine's byte order. The expression may name only registers that the machine has, and flags up to 3.
pub fn instance<V: View>(
    alloc: Global,
    expr: &Expr,
    now: &V,
    old: &V,
    big: bool,
) -> Result<Expr, AllocError>
    requires readable { IsReadable V.has_register (expr_of expr.now) }
    ensures value { IfOk result (λ e. meaning.value (memory.endian big) (expr_of e) (V.view now.now) (V.view old.now)
        ≡ meaning.value (memory.endian big) (expr_of expr.now) (V.view now.now) (V.view old.now)) }
    ensures shown { IfOk result (λ e. expr_of e ≡ shown (memory.endian big) (V.view now.now) (V.view old.now) (expr_of expr.now)) }
    ensures readable { IfOk result (λ e. IsReadable V.has_register (expr_of e)) }
{
    let shown = instance_with(alloc, expr, 0, now, old, big)?;
    Ok(shown)
}
