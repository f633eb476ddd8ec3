//! The places of variables among the slots.
//!
//! Where the header names no more variables than there are literals, each variable has the slot of its number, and there are no names.
//! Else the names are the variables that occur, so that the slots are in proportion to the text and not to the header.
ghost use Rattle.std.specs.Prelude.{◌≡◌, ℕ, ◌≤◌, ◌<◌, ◌^◌, ◌++◌, Contains, OnOk, IfOk};
ghost use Rattle.cnf_form.specs.Views.{line_of, lines_of};
ghost use Rattle.refutation_checker.specs.Entries.{IsRising};
ghost use Rattle.refutation_checker.specs.Occurrences.{variables_of, variables_in, variables_by, variables_added};
ghost use Rattle.refutation_checker.specs.Slots.{place_of};

use cnf_form::{Clause, Cnf, Lit, Log, LogLine};
use std::alloc::{AllocError, Global};

/// The place of a variable's slot.
pub fn place(names: &[u64], variable: u64) -> usize
    requires rising { IsRising names.now }
    requires small { place_of names.now variable < 2 ^ 64 }
    ensures { result ≡ place_of names.now variable }
{
    match names.binary_search(&variable) {
        Ok(at) => at,
        Err(_) => names.len() + variable as usize,
    }
}

/// Appends the variable of each literal.
fn push_variables(out: &mut Vec<u64>, clause: &[Lit]) -> Result<(), AllocError>
    ensures { OnOk result (out.new.items ≡ out.old.items ++ variables_of clause.now) }
{
    for lit in clause {
        out.push(lit.variable())?;
    }
    Ok(())
}

/// Appends the variables of the clauses.
fn push_given(out: &mut Vec<u64>, clauses: &[Clause]) -> Result<(), AllocError>
    ensures { OnOk result (out.new.items ≡ out.old.items ++ variables_in clauses.now) }
{
    for clause in clauses {
        push_variables(out, clause.lits())?;
    }
    Ok(())
}

/// Appends the variables of the clauses that the lines add.
fn push_added(out: &mut Vec<u64>, log: &Log) -> Result<(), AllocError>
    ensures { OnOk result (out.new.items ≡ out.old.items ++ variables_added (lines_of log.now)) }
{
    for line in &log.lines {
        if let LogLine::Add { clause, .. } = line {
            push_variables(out, clause.lits())?;
        }
    }
    Ok(())
}

/// The variables that occur, each once, in rising order.
fn occurring(alloc: Global, cnf: &Cnf, log: &Log) -> Result<Vec<u64>, AllocError>
    ensures rising { IfOk result (λ v. IsRising v.items) }
    ensures all { IfOk result (λ v. (x : ℕ) → Contains (variables_in cnf.now.clauses.items ++ variables_added (lines_of log.now)) x → Contains v.items x) }
{
    let mut names = Vec::new(alloc);
    push_given(&mut names, &cnf.clauses)?;
    push_added(&mut names, log)?;
    names.sort_unstable();
    names.dedup();
    Ok(names)
}

/// How many literals there are, or the greatest number where there are more. It decides only how the slots lie, so no clause speaks of it.
fn literal_count(cnf: &Cnf, log: &Log) -> u64 {
    let mut count = 0u64;
    for clause in &cnf.clauses {
        count = count.saturating_add(clause.lits().len() as u64);
    }
    for line in &log.lines {
        if let LogLine::Add { clause, .. } = line {
            count = count.saturating_add(clause.lits().len() as u64);
        }
    }
    count
}

/// The names, and how many slots there are: enough for each variable of the header that occurs.
pub fn names_and_size(alloc: Global, cnf: &Cnf, log: &Log) -> Result<(Vec<u64>, usize), AllocError>
    ensures rising { IfOk result (λ r. IsRising r.0.items) }
    ensures enough { IfOk result (λ r. (x : ℕ) → x ≤ cnf.now.variables →
        Contains (variables_in cnf.now.clauses.items ++ variables_added (lines_of log.now)) x → place_of r.0.items x < r.1) }
{
    if cnf.variables <= literal_count(cnf, log) {
        let size = (cnf.variables as usize).checked_add(1).ok_or(AllocError)?;
        return Ok((Vec::new(alloc), size));
    }
    let names = occurring(alloc, cnf, log)?;
    let size = names.len();
    Ok((names, size))
}
