//! Answers by the fast search, where what it finds is right.
ghost use Rattle.std.specs.Prelude.{◌≡◌, true, length, IfOk};
ghost use Rattle.std.specs.List.{list_all};
ghost use Rattle.clause_spec.specs.Clauses.{AreOnVariables, Satisfies, literal_value, clause_value, valuation};
ghost use Rattle.cnf_form.specs.Views.{cnf_of};
ghost use Rattle.sat_core.specs.Settled.{IsSettled};

use crate::answer::Answer;
use cdcl_engine::{Finding, explore};
use cnf_form::{Clause, Cnf, Lit};
use refutation_checker::{Checked, check};
use std::alloc::{AllocError, Global};

/// Whether a literal is true.
fn holds(values: &[bool], lit: Lit) -> bool
    ensures { result ≡ literal_value (valuation values.now) lit }
{
    let place = lit.variable() as usize - 1;
    let value = if place < values.len() {
        values[place]
    } else {
        false
    };
    value == lit.is_positive()
}

/// Whether some literal of a clause is true.
fn is_satisfied(values: &[bool], clause: &[Lit]) -> bool
    ensures { result ≡ clause_value (valuation values.now) clause.now }
{
    for lit in clause {
        if holds(values, *lit) {
            return true;
        }
    }
    false
}

/// Whether every clause has a literal that is true.
fn are_satisfied(values: &[bool], clauses: &[Clause]) -> bool
    ensures { result ≡ list_all (clause_value (valuation values.now)) clauses.now }
{
    for clause in clauses {
        if !is_satisfied(values, clause.lits()) {
            return false;
        }
    }
    true
}

/// Whether there is a value for each of so many variables, and every clause has a literal that is true.
pub fn are_model(values: &[bool], variables: u64, clauses: &[Clause]) -> bool
    ensures size { result ≡ true → length values.now ≡ variables }
    ensures satisfied { result ≡ true → Satisfies (valuation values.now) clauses.now }
{
    if values.len() as u64 != variables {
        return false;
    }
    are_satisfied(values, clauses)
}

/// What the fast search comes to.
#[derive(Drop)]
pub enum Settled {
    /// Values or a refutation that are right.
    Answer(Answer),
    /// So many clauses were learned without an answer: at least as many as there are conflicts to spend.
    Spent(u64),
    /// What was found is not right, or there was no room for more clauses.
    Open,
}

/// Values or a refutation, if the fast search finds them with so many conflicts.
pub fn settle(alloc: Global, cnf: &Cnf, conflicts: u64) -> Result<Settled, AllocError>
    requires over { AreOnVariables cnf.now.variables cnf.now.clauses.items }
    ensures { IfOk result (IsSettled (cnf_of cnf.now) conflicts) }
{
    match explore(alloc, cnf, conflicts)? {
        Finding::Values(values) => {
            if are_model(&values, cnf.variables, &cnf.clauses) {
                Ok(Settled::Answer(Answer::Sat(values)))
            } else {
                Ok(Settled::Open)
            }
        }
        Finding::Refutation(log) => match check(alloc, cnf, &log)? {
            Checked::Yes => Ok(Settled::Answer(Answer::Unsat(log))),
            Checked::No { line: _, cause: _ } => Ok(Settled::Open),
        },
        Finding::Spent(learned) => Ok(Settled::Spent(learned)),
        Finding::Full => Ok(Settled::Open),
    }
}
