//! What values of inputs make of clauses.
use cnf_form::{Clause, Cnf, Lit};
use std::alloc::{AllocError, Global};

/// What values make of a clause.
enum Outcome {
    True,
    False,
    /// No literal is true, and this one alone has no value.
    Unit(Lit),
    Open,
}

/// The place of a literal's variable among values.
fn place(lit: Lit) -> usize {
    (lit.variable() - 1) as usize
}

/// What a clause comes to.
fn outcome_of(values: &[Option<bool>], clause: &Clause) -> Outcome {
    let mut free = None;
    for lit in clause.lits() {
        match values.get(place(*lit)) {
            Some(Some(value)) => {
                if *value == lit.is_positive() {
                    return Outcome::True;
                }
            }
            _ => match free {
                None => free = Some(*lit),
                Some(_) => return Outcome::Open,
            },
        }
    }
    match free {
        None => Outcome::False,
        Some(lit) => Outcome::Unit(lit),
    }
}

/// Gives a variable the value that makes its literal true.
fn set(values: &mut [Option<bool>], lit: Lit) {
    if let Some(value) = values.get_mut(place(lit)) {
        *value = Some(lit.is_positive());
    }
}

/// Gives each variable the value that a clause leaves it, in one pass over the clauses; whether none became false.
fn propagate(values: &mut [Option<bool>], clauses: &[Clause]) -> bool {
    for clause in clauses {
        match outcome_of(values, clause) {
            Outcome::False => return false,
            Outcome::Unit(lit) => set(values, lit),
            Outcome::True | Outcome::Open => {}
        }
    }
    true
}

/// Whether all clauses are true; nothing where the values leave one of them open.
fn are_true(values: &[Option<bool>], clauses: &[Clause]) -> Option<bool> {
    for clause in clauses {
        match outcome_of(values, clause) {
            Outcome::True => {}
            Outcome::False => return Some(false),
            Outcome::Unit(_) | Outcome::Open => return None,
        }
    }
    Some(true)
}

/// Whether the values of the first variables satisfy clauses; nothing where they do not fix all others.
pub fn satisfy(alloc: Global, inputs: &[bool], cnf: &Cnf) -> Result<Option<bool>, AllocError> {
    let mut values: Vec<Option<bool>> = Vec::new(alloc);
    for input in inputs {
        values.push(Some(*input))?;
    }
    for _ in inputs.len() as u64..cnf.variables {
        values.push(None)?;
    }
    if !propagate(&mut values, &cnf.clauses) {
        return Ok(Some(false));
    }
    Ok(are_true(&values, &cnf.clauses))
}
