//! Expressions as terms.

ghost use Rattle.std.specs.Prelude.{◌≡◌, true, IfOk};
ghost use Rattle.machine_spec.specs.Bil as bil;
ghost use Rattle.word_spec.specs.Memory.{endian};
ghost use Rattle.byte_mem.specs.Views.{endian_of};
ghost use Rattle.bil_ast.specs.Views.{bil_type_of, cast_of, expression, unary_of, variable_of};
ghost use Rattle.machine_spec.specs.BilTyping.{cast_fits};
ghost use Rattle.term_spec.specs.Terms.{HasWidth, IsWidth};
ghost use Rattle.term_dag.specs.Nodes.{node_of};
ghost use Rattle.bil_eval.specs.Checked.{IsMemory, IsWord};
ghost use Rattle.bil_terms.specs.Naming.{IsScope, known};
ghost use Rattle.bil_terms.specs.Lowered.{IsMemoryTerm, IsSteady, IsUnary, IsUnknown, IsWordTerm, cast_node};

use crate::Stored;
use crate::variables::{LocalTerm, variable_term};
use bil_ast::{BilType, BinaryOp, CastKind, Exp, UnaryOp};
use byte_mem::Endian;
use std::alloc::AllocError;
use term_dag::{Dag, Node, Term};
use term_names::Names;

/// The lowest bits of the choice of the point at a place.
fn unknown_term(dag: &mut Dag, place: u32, found: BilType) -> Result<Term, AllocError>
    requires { IsWord (bil.Unknown (bil_type_of found)) (λ y. true) }
    ensures { IfOk result (λ t. IsUnknown dag.old dag.new place (bil_type_of found) t.0) }
{
    let BilType::Bits(width) = found else {
        unreachable!()
    };
    let choice = dag.keep(Node::Choice(place))?;
    if width.bits < 2 {
        let term = dag.keep(Node::Extract {
            hi: 0,
            lo: 0,
            term: choice,
        })?;
        return Ok(term);
    }
    let term = dag.keep(Node::Extend {
        signed: false,
        from: 2,
        to: width.bits,
        term: choice,
    })?;
    Ok(term)
}

/// The negative of a word, or each of its bits turned.
fn unary_term(dag: &mut Dag, op: UnaryOp, width: u8, term: Term) -> Result<Term, AllocError>
    requires wide { IsWidth width }
    requires operand { HasWidth dag.old width term.0 }
    ensures { IfOk result (λ t. IsUnary dag.old dag.new (unary_of op) width term.0 t.0) }
{
    match op {
        UnaryOp::Not => {
            let result = dag.mk(Node::Not { width, term })?;
            Ok(result)
        }
        UnaryOp::Negate => {
            let zero = dag.keep(Node::Constant { width, value: 0 })?;
            let result = dag.mk(Node::Binary {
                op: BinaryOp::Minus,
                width,
                left: zero,
                right: term,
            })?;
            Ok(result)
        }
    }
}

/// The node of a word in another width.
fn cast_node(kind: CastKind, from: u8, to: u8, term: Term) -> Node
    requires from { IsWidth from }
    requires to { IsWidth to }
    requires fits { cast_fits (cast_of kind) to from ≡ true }
    ensures { node_of result ≡ cast_node (cast_of kind) from to term.0 }
{
    match kind {
        CastKind::Low => Node::Extract {
            hi: to - 1,
            lo: 0,
            term,
        },
        CastKind::High => Node::Extract {
            hi: from - 1,
            lo: from - to,
            term,
        },
        CastKind::Signed => Node::Extend {
            signed: true,
            from,
            to,
            term,
        },
        CastKind::Unsigned => Node::Extend {
            signed: false,
            from,
            to,
            term,
        },
    }
}

/// Whether the highest byte stands at the lowest address.
fn is_big(order: Endian) -> bool
    ensures { endian result ≡ endian_of order }
{
    match order {
        Endian::Little => false,
        Endian::Big => true,
    }
}

/// The term of a word, in a state that the names and the locals have terms for; its unknowns are the choice of the point at the place. What it stores is put
/// behind what is stored, under the guard `live`. The error is want of memory.
#[cycle(terms)]
pub fn word_term(
    e: &Exp,
    dag: &mut Dag,
    names: &Names,
    locals: &mut Vec<LocalTerm>,
    place: u32,
    live: Term,
    stored: &mut Vec<Stored>,
) -> Result<Term, AllocError>
    requires checked { IsWord (expression e.now) (known names.now locals.old.items) }
    requires steady { IsSteady (expression e.now) }
    requires scope { IsScope dag.old names.now locals.old.items live.0 }
    ensures term { IfOk result (λ t. IsWordTerm dag.old dag.new names.now locals.old.items place live.0 stored.old.items stored.new.items
        (expression e.now) t.0) }
    ensures locals { IfOk result (λ t. locals.new.items ≡ locals.old.items) }
{
    match e {
        Exp::Var(variable) => Ok(variable_term(*variable, names, locals, dag, live)),
        Exp::Constant(word) => {
            let result = dag.mk(Node::Constant {
                width: word.width,
                value: word.bits,
            })?;
            Ok(result)
        }
        Exp::Load {
            memory,
            address,
            order,
            width,
        } => {
            let memory = memory_term(memory, dag, names, locals, place, live, stored)?;
            let address = word_term(address, dag, names, locals, place, live, stored)?;
            let result = dag.mk(Node::Load {
                bytes: width.bits / 8,
                big: is_big(*order),
                memory,
                address,
            })?;
            Ok(result)
        }
        Exp::Store { .. } => unreachable!(),
        Exp::Binary(op, left, right) => {
            let left = word_term(left, dag, names, locals, place, live, stored)?;
            let right = word_term(right, dag, names, locals, place, live, stored)?;
            let width = dag.width(left);
            let result = dag.mk(Node::Binary {
                op: *op,
                width,
                left,
                right,
            })?;
            Ok(result)
        }
        Exp::Unary(op, word) => {
            let term = word_term(word, dag, names, locals, place, live, stored)?;
            let width = dag.width(term);
            let result = unary_term(dag, *op, width, term)?;
            Ok(result)
        }
        Exp::Cast(kind, width, word) => {
            let term = word_term(word, dag, names, locals, place, live, stored)?;
            let from = dag.width(term);
            let result = dag.mk(cast_node(*kind, from, width.bits, term))?;
            Ok(result)
        }
        Exp::Let(local, value, body) => {
            let term = word_term(value, dag, names, locals, place, live, stored)?;
            locals.push(LocalTerm {
                number: local.number,
                width: local.width.bits,
                term,
            })?;
            let result = word_term(body, dag, names, locals, place, live, stored)?;
            locals.pop();
            Ok(result)
        }
        Exp::Unknown(found) => {
            let result = unknown_term(dag, place, *found)?;
            Ok(result)
        }
        Exp::Choose {
            condition,
            when_true,
            when_false,
        } => {
            let condition = word_term(condition, dag, names, locals, place, live, stored)?;
            let when_true = word_term(when_true, dag, names, locals, place, live, stored)?;
            let when_false = word_term(when_false, dag, names, locals, place, live, stored)?;
            let width = dag.width(when_true);
            let result = dag.mk(Node::Select {
                width,
                condition,
                when_true,
                when_false,
            })?;
            Ok(result)
        }
        Exp::Extract { hi, lo, word } => {
            let term = word_term(word, dag, names, locals, place, live, stored)?;
            let result = dag.mk(Node::Extract {
                hi: *hi,
                lo: *lo,
                term,
            })?;
            Ok(result)
        }
        Exp::Concat(upper, lower) => {
            let upper = word_term(upper, dag, names, locals, place, live, stored)?;
            let lower = word_term(lower, dag, names, locals, place, live, stored)?;
            let high = dag.width(upper);
            let low = dag.width(lower);
            let result = dag.mk(Node::Concat {
                high,
                low,
                upper,
                lower,
            })?;
            Ok(result)
        }
    }
}

/// The same for a memory. Where nothing is stored it is the memory of the names.
#[cycle(terms)]
pub fn memory_term(
    e: &Exp,
    dag: &mut Dag,
    names: &Names,
    locals: &mut Vec<LocalTerm>,
    place: u32,
    live: Term,
    stored: &mut Vec<Stored>,
) -> Result<Term, AllocError>
    requires checked { IsMemory (expression e.now) (known names.now locals.old.items) }
    requires steady { IsSteady (expression e.now) }
    requires scope { IsScope dag.old names.now locals.old.items live.0 }
    ensures term { IfOk result (λ t. IsMemoryTerm dag.old dag.new names.now locals.old.items place live.0 stored.old.items stored.new.items
        (expression e.now) t.0) }
    ensures locals { IfOk result (λ t. locals.new.items ≡ locals.old.items) }
{
    match e {
        Exp::Var(_) => Ok(names.memory),
        Exp::Store {
            memory,
            address,
            order,
            width,
            value,
        } => {
            let memory = memory_term(memory, dag, names, locals, place, live, stored)?;
            let address = word_term(address, dag, names, locals, place, live, stored)?;
            let value = word_term(value, dag, names, locals, place, live, stored)?;
            let bytes = width.bits / 8;
            let result = dag.mk(Node::Store {
                bytes,
                big: is_big(*order),
                memory,
                address,
                value,
            })?;
            stored.push(Stored {
                guard: live,
                address,
                bytes,
            })?;
            Ok(result)
        }
        Exp::Let(local, value, body) => {
            let term = word_term(value, dag, names, locals, place, live, stored)?;
            locals.push(LocalTerm {
                number: local.number,
                width: local.width.bits,
                term,
            })?;
            let result = memory_term(body, dag, names, locals, place, live, stored)?;
            locals.pop();
            Ok(result)
        }
        Exp::Choose { .. } => unreachable!(),
        _ => unreachable!(),
    }
}
