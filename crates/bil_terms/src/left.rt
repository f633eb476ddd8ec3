//! Lists of statements as terms.

ghost use Rattle.std.specs.Prelude.{IfOk};
ghost use Rattle.term_spec.specs.Passive.{AreNames};
ghost use Rattle.term_names.specs.Views.{form_of, names_of};
ghost use Rattle.bil_ast.specs.Views.{statements};
ghost use Rattle.bil_terms.specs.Begun.{HasBegun};
ghost use Rattle.bil_terms.specs.Left.{CanBeLed, IsLeft};

use crate::Stored;
use crate::lists::run_statements;
use crate::run::{Bits, Run};
use bil_ast::Stmt;
use std::alloc::{AllocError, Global};
use term_dag::{Dag, Node, Term};
use term_names::{Names, copied};

/// What a list leaves, as terms.
#[derive(Drop)]
pub struct Left {
    /// What it leaves in registers, flags and the memory, where it raises no exception.
    pub names: Names,
    /// Whether it jumped, 1 bit.
    pub jumped: Term,
    /// Where to, 32 bits, where it jumped.
    pub target: Term,
    /// Whether it raised an exception, 1 bit.
    pub raised: Term,
    /// What it stored, each under its guard.
    pub stored: Vec<Stored>,
}

/// What a list begins with.
#[derive(Drop)]
struct Begun {
    /// The run over the names.
    run: Run,
    /// The words of 1 bit.
    bits: Bits,
}

/// The beginning of a list over names: the run comes by, and no jump was made. The error is want of memory.
fn begin(alloc: Global, dag: &mut Dag, names: &Names) -> Result<Begun, AllocError>
    requires names { AreNames (form_of names.now) dag.old (names_of names.now) }
    ensures { IfOk result (λ b. HasBegun dag.old dag.new names.now b) }
{
    let zero = dag.keep(Node::Constant { width: 1, value: 0 })?;
    let one = dag.keep(Node::Constant { width: 1, value: 1 })?;
    let target = dag.keep(Node::Constant {
        width: 32,
        value: 0,
    })?;
    let names = copied(alloc, names)?;
    let run = Run {
        names,
        jumped: zero,
        target,
        live: one,
    };
    Ok(Begun {
        run,
        bits: Bits { zero, one },
    })
}

/// A list of statements as terms, over the terms of what it begins with, at a place of the unrolled program, whose choice its unknowns are. The error is want
/// of memory.
pub fn run_list(
    alloc: Global,
    dag: &mut Dag,
    list: &[Stmt],
    names: &Names,
    place: u32,
) -> Result<Left, AllocError>
    requires names { AreNames (form_of names.now) dag.old (names_of names.now) }
    requires runs { CanBeLed (form_of names.now) (statements list.now) }
    ensures { IfOk result (λ l. IsLeft dag.old dag.new place names.now (statements list.now) l) }
{
    let begun = begin(alloc, dag, names)?;
    let mut run = begun.run;
    let mut stored = Vec::new(alloc);
    run_statements(list, alloc, dag, &mut run, place, begun.bits, &mut stored)?;
    let raised = dag.mk(Node::Not {
        width: 1,
        term: run.live,
    })?;
    Ok(Left {
        names: run.names,
        jumped: run.jumped,
        target: run.target,
        raised,
        stored,
    })
}
