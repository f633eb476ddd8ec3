//! The logs in the evidence of verdicts.
ghost use Rattle.std.specs.Prelude.{false};

use crate::programs::Case;
use cnf_form::{Log, Proof, are_on_variables};
use refutation_checker::print_lrat;
use rv_lift::Rv32;
use sat_core::{Answer, solve};
use std::alloc::{AllocError, Global};
use verdict::{Budget, Verdict, verify};

/// Whether two logs have the same text.
fn is_same(alloc: Global, one: &Log, other: &Log) -> Result<bool, AllocError> {
    let text = print_lrat(alloc, one)?;
    let other_text = print_lrat(alloc, other)?;
    Ok(text.as_slice() == other_text.as_slice())
}

/// Whether the search refutes the clauses of a proof with its very log.
fn is_given(alloc: Global, proof: &Proof) -> Result<bool, AllocError> {
    if !are_on_variables(&proof.clauses) {
        return Ok(false);
    }
    match solve(alloc, &proof.clauses, 200_000)? {
        Answer::Unsat(log) => is_same(alloc, &log, &proof.log),
        Answer::Sat(_) | Answer::Spent(_) => Ok(false),
    }
}

/// The verdict on a program within the budgets where none is given.
fn verdict_on(alloc: Global, case: &Case<Rv32<0>>) -> Result<Verdict, AllocError> {
    let budget = Budget::standard();
    let verdict = verify::<Rv32<0>>(alloc, &case.program, &budget)?;
    Ok(verdict)
}

/// How many logs of a program that holds are those that the search gives: 2 at most.
pub fn count_given(alloc: Global, case: &Case<Rv32<0>>) -> Result<usize, AllocError> {
    match verdict_on(alloc, case)? {
        Verdict::Holds { fail, turn, .. } => {
            let first = is_given(alloc, &fail)?;
            let second = is_given(alloc, &turn)?;
            Ok(usize::from(first) + usize::from(second))
        }
        _ => Ok(0),
    }
}
