//! Whether clauses are over their variables.
ghost use Rattle.std.specs.Prelude.{◌≡◌, ◌&&◌, true, nat_le};
ghost use Rattle.std.specs.List.{list_all};
ghost use Rattle.clause_spec.specs.Clauses.{AreOnVariables, Literal};
ghost use Rattle.cnf_form.specs.Ranges.{is_on_variables};

use crate::clause::Clause;
use crate::form::Cnf;
use crate::lit::Lit;

/// Whether each literal is over a variable from 1 to `variables`.
fn is_within(lits: &[Lit], variables: u64) -> bool
    ensures { result ≡ is_on_variables variables lits.now }
{
    for lit in lits {
        if lit.variable() < 1 || variables < lit.variable() {
            return false;
        }
    }
    true
}

/// Whether each clause is over variables from 1 to `variables`.
fn are_within(clauses: &[Clause], variables: u64) -> bool
    ensures { result ≡ list_all (is_on_variables variables) clauses.now }
{
    for clause in clauses {
        if !is_within(clause.lits(), variables) {
            return false;
        }
    }
    true
}

/// Whether every literal of the clauses is over one of their variables.
pub fn are_on_variables(cnf: &Cnf) -> bool
    ensures sound { result ≡ true → AreOnVariables cnf.now.variables cnf.now.clauses.items }
    ensures complete { AreOnVariables cnf.now.variables cnf.now.clauses.items → result ≡ true }
{
    are_within(&cnf.clauses, cnf.variables)
}
