//! Known words in place of their loads.
ghost use Rattle.std.specs.Prelude.{◌≡◌, ◌==◌, IfOk, true, false};
ghost use Rattle.machine_spec.specs.Bil as bil;
ghost use Rattle.machine_spec.specs.BilCounts as counts;
ghost use Rattle.byte_mem.specs.Views.{endian_of};
ghost use Rattle.bil_ast.specs.Views.{expression, statement, statements};
ghost use Rattle.bil_trim.specs.Literals as literals;
ghost use Rattle.bil_trim.specs.Literals.{put_literal};

use bil_ast::{Exp, Stmt, Var, Width};
use bv_word::Word;
use byte_mem::Endian;
use std::alloc::{AllocError, Global};

/// A word of 32 bits that memory is known to have: its byte order, its address and its value.
#[derive(Clone, Copy)]
pub struct Literal {
    pub order: Endian,
    pub at: u32,
    pub value: u32,
}

/// Whether two byte orders are one.
fn same_order(one: Endian, other: Endian) -> bool
    ensures { result ≡ counts.same_order (endian_of one) (endian_of other) }
{
    match one {
        Endian::Little => match other {
            Endian::Little => true,
            Endian::Big => false,
        },
        Endian::Big => match other {
            Endian::Little => false,
            Endian::Big => true,
        },
    }
}

/// Whether an expression is the machine's memory.
fn is_memory(exp: &Exp) -> bool
    ensures { result ≡ literals.is_memory (expression exp.now) }
{
    match exp {
        Exp::Var(Var::Memory) => true,
        _ => false,
    }
}

/// Whether an expression is a constant of 32 bits with a value.
fn is_constant(exp: &Exp, value: u32) -> bool
    ensures { result ≡ literals.is_constant value (expression exp.now) }
{
    match exp {
        Exp::Constant(word) => word.width == 32 && word.bits == value as u64,
        _ => false,
    }
}

/// Whether a load is that of a literal.
#[tactic(auto, using(crate::proofs::Loads::load_is))]
fn is_load_of(memory: &Exp, address: &Exp, order: Endian, width: Width, literal: Literal) -> bool
    ensures { result ≡ literals.is_load_of (endian_of literal.order) literal.at (expression memory.now) (expression address.now) (endian_of order) width.bits }
{
    is_memory(memory)
        && is_constant(address, literal.at)
        && same_order(literal.order, order)
        && width.bits == 32
}

/// An expression with the value of a literal for each of its loads, in memory of its own. The error is want of memory.
fn put(exp: &Exp, alloc: Global, literal: Literal) -> Result<Exp, AllocError>
    ensures { IfOk result (λ e. expression e ≡ put_literal (endian_of literal.order) literal.at literal.value (expression exp.now)) }
{
    match exp {
        Exp::Var(x) => Ok(Exp::Var(*x)),
        Exp::Constant(word) => Ok(Exp::Constant(*word)),
        Exp::Load {
            memory,
            address,
            order,
            width,
        } => {
            if is_load_of(memory, address, *order, *width, literal) {
                return Ok(Exp::Constant(Word::new(32, literal.value as u64)));
            }
            let memory = put(memory, alloc, literal)?;
            let address = put(address, alloc, literal)?;
            Exp::load(alloc, memory, address, *order, *width)
        }
        Exp::Store {
            memory,
            address,
            order,
            width,
            value,
        } => {
            Exp::store(
                alloc,
                put(memory, alloc, literal)?,
                put(address, alloc, literal)?,
                *order,
                *width,
                put(value, alloc, literal)?,
            )
        }
        Exp::Binary(op, left, right) => Exp::binary(
            alloc,
            *op,
            put(left, alloc, literal)?,
            put(right, alloc, literal)?,
        ),
        Exp::Unary(op, word) => Exp::unary(alloc, *op, put(word, alloc, literal)?),
        Exp::Cast(kind, width, word) => Exp::cast(alloc, *kind, *width, put(word, alloc, literal)?),
        Exp::Let(local, value, body) => Exp::bind(
            alloc,
            *local,
            put(value, alloc, literal)?,
            put(body, alloc, literal)?,
        ),
        Exp::Unknown(found) => Ok(Exp::Unknown(*found)),
        Exp::Choose {
            condition,
            when_true,
            when_false,
        } => Exp::choose(
            alloc,
            put(condition, alloc, literal)?,
            put(when_true, alloc, literal)?,
            put(when_false, alloc, literal)?,
        ),
        Exp::Extract { hi, lo, word } => Exp::extract(alloc, *hi, *lo, put(word, alloc, literal)?),
        Exp::Concat(high, low) => Exp::concat(
            alloc,
            put(high, alloc, literal)?,
            put(low, alloc, literal)?,
        ),
    }
}

/// A statement with the value of a literal for each of its loads, in memory of its own.
#[cycle(lists)]
fn put_stmt(stmt: &Stmt, alloc: Global, literal: Literal) -> Result<Stmt, AllocError>
    ensures { IfOk result (λ s. (rest : bil.Statements) →
        statement s (literals.with_literal (endian_of literal.order) literal.at literal.value rest)
        ≡ literals.with_literal (endian_of literal.order) literal.at literal.value (statement stmt.now rest)) }
{
    match stmt {
        Stmt::Assign(x, value) => Ok(Stmt::Assign(*x, put(value, alloc, literal)?)),
        Stmt::Jump(target) => Ok(Stmt::Jump(put(target, alloc, literal)?)),
        Stmt::Raise(n) => Ok(Stmt::Raise(*n)),
        Stmt::Special(text) => Ok(Stmt::Special(text.clone()?)),
        Stmt::While { condition, body } => Ok(Stmt::repeat(
            put(condition, alloc, literal)?,
            with_literal(body, alloc, literal)?,
        )),
        Stmt::If {
            condition,
            when_true,
            when_false,
        } => {
            Ok(Stmt::choose(
                put(condition, alloc, literal)?,
                with_literal(when_true, alloc, literal)?,
                with_literal(when_false, alloc, literal)?,
            ))
        }
    }
}

/// A list with the value of a literal for each of its loads, in memory of its own. The error is want of memory.
#[cycle(lists)]
pub fn with_literal(list: &[Stmt], alloc: Global, literal: Literal) -> Result<Vec<Stmt>, AllocError>
    ensures { IfOk result (λ v. statements v.items
        ≡ literals.with_literal (endian_of literal.order) literal.at literal.value (statements list.now)) }
{
    let mut found: Vec<Stmt> = Vec::new(alloc);
    for stmt in list {
        found.push(put_stmt(stmt, alloc, literal)?)?;
    }
    Ok(found)
}
