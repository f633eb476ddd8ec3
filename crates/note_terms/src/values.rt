//! The values of expressions as terms.

ghost use Rattle.std.specs.Prelude.{◌≡◌, ◌<◌, ◌≤◌, ◌-◌, ◌+◌, true, length, slice_index, IfOk};
ghost use Rattle.word_spec.specs.Memory.{endian, load};
ghost use Rattle.bilv_spec.specs.Notes.{put_bound, written_out};
ghost use Rattle.term_spec.specs.Terms.{TermReading, ConstantNode, HasMemory, HasWidth, term_value, term_word};
ghost use Rattle.walk_spec.specs.Unrolled.{is_flag_of, is_register_of};
ghost use Rattle.walk_spec.specs.Unrolling.{IsReadable};
ghost use Rattle.term_dag.specs.Made.{IsInterned};
ghost use Rattle.notes_value.specs.Views.{bytes_of, expr_of};
ghost use Rattle.term_names.specs.Views.{form_of, names_of};
ghost use Rattle.term_names.specs.Chosen.{HaveSameForm};
ghost use Rattle.note_terms.specs.Steps.{IsLoaded, IsStep, IsValueAt, IsZero};
ghost use Rattle.note_terms.specs.Lines.{AreStateTerms, IsValue};

use crate::Now;
use crate::operators::{applied, connected, falsity, widened};
use notes_value::{Expr, Size};
use std::alloc::AllocError;
use term_dag::{Dag, Node, Term};
use term_names::Names;

/// The term of a register.
fn register(names: &Names, number: u8) -> Term
    requires { is_register_of (form_of names.now) number ≡ true }
    ensures first { names.now.first ≤ number }
    ensures within { number < names.now.first + length names.now.registers.items }
    ensures term { result.0 ≡ slice_index (names_of names.now).registers (number - names.now.first) }
{
    names.registers[(number - names.first) as usize]
}

/// The term of a flag.
fn flag(names: &Names, number: u8) -> Term
    requires { is_flag_of (form_of names.now) number ≡ true }
    ensures { result.0 ≡ slice_index (names_of names.now).flags number }
{
    names.flags[number as usize]
}

/// How many bytes a load has.
fn bytes(size: Size) -> u8
    ensures { result ≡ bytes_of size }
{
    match size {
        Size::Byte => 1,
        Size::Half => 2,
        Size::Word => 4,
    }
}

/// A number of 32 bits.
fn number_term(dag: &mut Dag, number: u32) -> Result<Term, AllocError>
    ensures { IfOk result (λ t. IsInterned dag.old dag.new (ConstantNode 32 number) t.0) }
{
    let term = dag.keep(Node::Constant {
        width: 32,
        value: number as u64,
    })?;
    Ok(term)
}

/// The number of the bytes at an address.
fn loaded(
    dag: &mut Dag,
    memory: Term,
    size: Size,
    big: bool,
    address: Term,
) -> Result<Term, AllocError>
    requires memory { HasMemory dag.old memory.0 }
    requires address { IsValueAt dag.old address.0 }
    ensures { IfOk result (λ t. IsLoaded dag.old dag.new (bytes_of size) (endian big) memory.0 address.0 t.0) }
{
    let address = widened(dag, address)?;
    let found = dag.mk(Node::Load {
        bytes: bytes(size),
        big,
        memory,
        address,
    })?;
    let word = widened(dag, found)?;
    Ok(word)
}

/// The value of an expression in the state now, with a state at entry and a number for its bound name. It is a bit where the expression is a flag, a
/// comparison, `and`, `or`, `not` or an `all`.
#[cycle(values)]
pub fn value<'a>(
    says: &Expr,
    bound: u32,
    dag: &mut Dag,
    now: &Now<'a>,
    entry: &Now<'a>,
    big: bool,
    zero: Term,
) -> Result<Term, AllocError>
    requires reads { IsReadable (form_of now.now.names.now) (expr_of says.now) }
    requires same { HaveSameForm now.now.names.now entry.now.names.now }
    requires now { AreStateTerms dag.old now.now }
    requires entry { AreStateTerms dag.old entry.now }
    requires zero { IsZero dag.old zero.0 }
    ensures { IfOk result (λ t. IsValue dag.old dag.new big (put_bound bound (expr_of says.now)) now.now entry.now t.0) }
{
    let _typed = dag.nodes();
    match says {
        Expr::Number(number) => {
            let term = number_term(dag, *number)?;
            Ok(term)
        }
        Expr::Register(number) => Ok(register(now.names, *number)),
        Expr::Flag(number) => Ok(flag(now.names, *number)),
        Expr::Pc => Ok(now.pc),
        Expr::Bound => {
            let term = number_term(dag, bound)?;
            Ok(term)
        }
        Expr::Memory(size, address) => {
            let address = value(address, bound, dag, now, entry, big, zero)?;
            let term = loaded(dag, now.names.memory, *size, big, address)?;
            Ok(term)
        }
        Expr::Old(inner) => {
            let term = value(inner, bound, dag, entry, entry, big, zero)?;
            Ok(term)
        }
        Expr::Not(inner) => {
            let inner = value(inner, bound, dag, now, entry, big, zero)?;
            let term = falsity(dag, zero, inner)?;
            Ok(term)
        }
        Expr::Binary(op, left, right) => {
            let left = value(left, bound, dag, now, entry, big, zero)?;
            let right = value(right, bound, dag, now, entry, big, zero)?;
            let term = applied(dag, zero, *op, left, right)?;
            Ok(term)
        }
        Expr::All(low, high, inner) => {
            let term = all_true(inner, *low, *high, dag, now, entry, big, zero)?;
            Ok(term)
        }
    }
}

/// Whether an expression is true for each number from `low` to `high`, and for `low` in any case; the last number comes first.
#[cycle(values)]
fn all_true<'a>(
    says: &Expr,
    low: u32,
    high: u32,
    dag: &mut Dag,
    now: &Now<'a>,
    entry: &Now<'a>,
    big: bool,
    zero: Term,
) -> Result<Term, AllocError>
    requires reads { IsReadable (form_of now.now.names.now) (expr_of says.now) }
    requires same { HaveSameForm now.now.names.now entry.now.names.now }
    requires now { AreStateTerms dag.old now.now }
    requires entry { AreStateTerms dag.old entry.now }
    requires zero { IsZero dag.old zero.0 }
    ensures { IfOk result (λ t. IsValue dag.old dag.new big (written_out low high (expr_of says.now)) now.now entry.now t.0) }
{
    let mut all = number_term(dag, 1)?;
    let mut v = high;
    while v > low {
        let one = value(says, v, dag, now, entry, big, zero)?;
        all = connected(dag, zero, true, one, all)?;
        v -= 1;
    }
    let first = value(says, low, dag, now, entry, big, zero)?;
    let term = connected(dag, zero, true, first, all)?;
    Ok(term)
}
