//! Lines of notes as terms.
#![tactic(auto)]

mod operators;
mod values;

ghost use Rattle.std.specs.Prelude.{◌≡◌, IfOk};
ghost use Rattle.term_spec.specs.Terms.{HasWidth};
ghost use Rattle.term_spec.specs.Passive.{AreNames};
ghost use Rattle.walk_spec.specs.Unrolling.{IsReadable};
ghost use Rattle.notes_value.specs.Views.{expr_of};
ghost use Rattle.term_names.specs.Views.{form_of, names_of};
ghost use Rattle.term_names.specs.Chosen.{HaveSameForm};
ghost use Rattle.note_terms.specs.Lines.{IsLine, IsWord};

use crate::operators::{truth, widened};
use crate::values::value;
use notes_value::Expr;
use std::alloc::AllocError;
use term_dag::{Dag, Node, Term};
use term_names::Names;

/// A state as terms: what it has, and the address at which it is, of 32 bits.
#[derive(Clone, Copy)]
pub struct Now<'a> {
    pub names: &'a Names,
    pub pc: Term,
}

/// Whether a line of notes is true in the state now, with a state at entry, as a term of 1 bit; `big` is the machine's byte order. The error is want of memory;
/// then nothing is said of the terms.
pub fn line<'a>(
    dag: &mut Dag,
    says: &Expr,
    now: &Now<'a>,
    entry: &Now<'a>,
    big: bool,
) -> Result<Term, AllocError>
    requires reads { IsReadable (form_of now.now.names.now) (expr_of says.now) }
    requires same { HaveSameForm now.now.names.now entry.now.names.now }
    requires now { AreNames (form_of now.now.names.now) dag.old (names_of now.now.names.now) }
    requires entry { AreNames (form_of entry.now.names.now) dag.old (names_of entry.now.names.now) }
    requires pc { HasWidth dag.old 32 now.now.pc.0 }
    requires entry_pc { HasWidth dag.old 32 entry.now.pc.0 }
    ensures { IfOk result (λ t. IsLine dag.old dag.new big (expr_of says.now) now.now entry.now t.0) }
{
    let zero = dag.keep(Node::Constant {
        width: 32,
        value: 0,
    })?;
    let found = value(says, 0, dag, now, entry, big, zero)?;
    let bit = truth(dag, zero, found)?;
    Ok(bit)
}

/// The value of an expression of notes in the state now, with a state at entry, as a term of 32 bits; `big` is the machine's byte order. The error is want of
/// memory; then nothing is said of the terms.
pub fn word<'a>(
    dag: &mut Dag,
    says: &Expr,
    now: &Now<'a>,
    entry: &Now<'a>,
    big: bool,
) -> Result<Term, AllocError>
    requires reads { IsReadable (form_of now.now.names.now) (expr_of says.now) }
    requires same { HaveSameForm now.now.names.now entry.now.names.now }
    requires now { AreNames (form_of now.now.names.now) dag.old (names_of now.now.names.now) }
    requires entry { AreNames (form_of entry.now.names.now) dag.old (names_of entry.now.names.now) }
    requires pc { HasWidth dag.old 32 now.now.pc.0 }
    requires entry_pc { HasWidth dag.old 32 entry.now.pc.0 }
    ensures { IfOk result (λ t. IsWord dag.old dag.new big (expr_of says.now) now.now entry.now t.0) }
{
    let zero = dag.keep(Node::Constant {
        width: 32,
        value: 0,
    })?;
    let found = value(says, 0, dag, now, entry, big, zero)?;
    let word = widened(dag, found)?;
    Ok(word)
}
