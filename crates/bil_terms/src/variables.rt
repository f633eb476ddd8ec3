//! Terms of variables.

ghost use Rattle.std.specs.Prelude.{◌≡◌, ◌==◌, ◌&&◌, true};
ghost use Rattle.machine_spec.specs.Bil as bil;
ghost use Rattle.bil_ast.specs.Views.{variable_of};
ghost use Rattle.bil_eval.specs.Checked.{IsWord};
ghost use Rattle.bil_terms.specs.Naming.{AreLocals, IsLocalTerm, IsScope, IsVariableTerm, known};

use bil_ast::{Local, Var};
use term_dag::{Dag, Term};
use term_names::Names;

/// The term of a local word.
#[derive(Clone, Copy)]
pub struct LocalTerm {
    /// The local's number.
    pub number: u32,
    /// Its width, 1 to 64.
    pub width: u8,
    /// Its term.
    pub term: Term,
}

/// Whether a term is the local's.
fn is_of(found: LocalTerm, local: Local) -> bool
    ensures { result ≡ (local.number == found.number) && (local.width.bits == found.width) }
{
    local.number == found.number && local.width.bits == found.width
}

/// The term of a local, the last one.
pub fn local_term(locals: &[LocalTerm], names: &Names, dag: &Dag, local: Local) -> Term
    requires known { known names.now locals.now (bil.Local local.number local.width.bits) ≡ true }
    requires locals { AreLocals dag.now locals.now }
    ensures { IsLocalTerm dag.now locals.now local.number local.width.bits result.0 }
{
    let _ = dag;
    let _ = names;
    let mut i = locals.len();
    while i > 0 {
        i -= 1;
        let last = locals[i];
        if is_of(last, local) {
            return last.term;
        }
    }
    unreachable!()
}

/// The term of a variable other than the memory.
pub fn variable_term(
    variable: Var,
    names: &Names,
    locals: &[LocalTerm],
    dag: &Dag,
    live: Term,
) -> Term
    requires word { IsWord (bil.Var (variable_of variable)) (known names.now locals.now) }
    requires scope { IsScope dag.now names.now locals.now live.0 }
    ensures { IsVariableTerm dag.now names.now locals.now (variable_of variable) result.0 }
{
    let _ = live;
    match variable {
        Var::Register(_, number) => names.registers[(number - names.first) as usize],
        Var::Flag(number) => names.flags[number as usize],
        Var::Local(local) => local_term(locals, names, dag, local),
        Var::Memory => unreachable!(),
    }
}
