//! Searches of clauses that are known to be hard or easy.
ghost use Rattle.std.specs.Prelude.{◌≤◌, ◌<◌};

use cnf_form::{Clause, Cnf, Lit, are_on_variables};
use refutation_checker::{Checked, check};
use sat_core::{Answer, solve};
use std::alloc::{AllocError, Global};

/// What a search came to: how many clauses it learned where it spent its conflicts, and whether a refutation is accepted.
#[derive(Clone, Copy, PartialEq, Eq, Debug)]
enum Found {
    Values,
    Refuted { accepted: bool },
    Spent { learned: usize },
    /// The clauses are over other variables.
    Nothing,
}

/// What a search of clauses comes to with so many conflicts.
fn search(alloc: Global, cnf: &Cnf, conflicts: u64) -> Result<Found, AllocError>
    requires { 1 ≤ conflicts }
{
    if !are_on_variables(cnf) {
        return Ok(Found::Nothing);
    }
    match solve(alloc, cnf, conflicts)? {
        Answer::Sat(_) => Ok(Found::Values),
        Answer::Unsat(log) => {
            let accepted = match check(alloc, cnf, &log)? {
                Checked::Yes => true,
                Checked::No { .. } => false,
            };
            Ok(Found::Refuted { accepted })
        }
        Answer::Spent(log) => Ok(Found::Spent {
            learned: log.lines.len(),
        }),
    }
}

fn add(alloc: Global, cnf: &mut Cnf, lits: &[Lit]) -> Result<(), AllocError> {
    let clause = Clause::from_slice(alloc, lits)?;
    cnf.clauses.push(clause)?;
    Ok(())
}

/// Whether a pigeon is in a hole.
fn place(pigeon: u64, hole: u64, positive: bool) -> Lit
    requires pigeon { pigeon < 4 }
    requires hole { hole < 3 }
{
    Lit::new(3 * pigeon + hole + 1, positive)
}

/// Each of four pigeons is in one of three holes, and no two in one.
fn pigeons(alloc: Global) -> Result<Cnf, AllocError> {
    let mut cnf = Cnf {
        variables: 12,
        clauses: Vec::new(alloc),
    };
    for pigeon in 0..4u64 {
        let holes = [
            place(pigeon, 0, true),
            place(pigeon, 1, true),
            place(pigeon, 2, true),
        ];
        add(alloc, &mut cnf, &holes)?;
        for other in 0..pigeon {
            for hole in 0..3u64 {
                let both = [place(pigeon, hole, false), place(other, hole, false)];
                add(alloc, &mut cnf, &both)?;
            }
        }
    }
    Ok(cnf)
}

/// A literal of the chain, whose variables may be numbered backwards.
fn link(variable: u64, positive: bool, backwards: bool) -> Lit
    requires from { 1 ≤ variable }
    requires to { variable ≤ 40 }
{
    if backwards {
        return Lit::new(41 - variable, positive);
    }
    Lit::new(variable, positive)
}

/// The first variable is the exclusive or of the other two.
fn add_sum(
    alloc: Global,
    cnf: &mut Cnf,
    sum: u64,
    left: u64,
    right: u64,
    backwards: bool,
) -> Result<(), AllocError>
    requires from { (1 ≤ sum) × (1 ≤ left) × (1 ≤ right) }
    requires to { (sum ≤ 40) × (left ≤ 40) × (right ≤ 40) }
{
    let (even, odd) = (link(sum, false, backwards), link(sum, true, backwards));
    for (first, second) in [(true, true), (true, false), (false, true), (false, false)] {
        let end = if first == second { odd } else { even };
        let clause = [
            end,
            link(left, first, backwards),
            link(right, !second, backwards),
        ];
        add(alloc, cnf, &clause)?;
    }
    Ok(())
}

/// A chain of exclusive ors: variable 21 of 1 and 2, and each up to 39 of the one before it and of the next of 3 to 20. No values of 39 and 40 are left.
fn chain(alloc: Global, backwards: bool) -> Result<Cnf, AllocError> {
    let mut cnf = Cnf {
        variables: 40,
        clauses: Vec::new(alloc),
    };
    add_sum(alloc, &mut cnf, 21, 1, 2, backwards)?;
    for i in 2..20u64 {
        add_sum(alloc, &mut cnf, 20 + i, 19 + i, i + 1, backwards)?;
    }
    for (first, second) in [(true, true), (true, false), (false, true), (false, false)] {
        let end = [link(39, first, backwards), link(40, second, backwards)];
        add(alloc, &mut cnf, &end)?;
    }
    Ok(cnf)
}

/// No one clause follows of which unit propagation makes a conflict, so one conflict is spent on one clause; 3 to the 12th suffice.
#[test]
fn pigeons_spend_one_conflict(rt: HostRuntime) -> Result<(), AllocError> {
    let cnf = pigeons(rt.alloc())?;
    assert_eq!(rt; search(rt.alloc(), &cnf, 1)?, Found::Spent { learned: 1 });
    assert_eq!(rt;
        search(rt.alloc(), &cnf, 531_441)?,
        Found::Refuted { accepted: true }
    );
    Ok(())
}

/// Whatever is decided, the first learned clause is one literal of the end, however the chain is numbered.
#[test]
fn chains_take_two_conflicts(rt: HostRuntime) -> Result<(), AllocError> {
    for backwards in [false, true] {
        let cnf = chain(rt.alloc(), backwards)?;
        assert_eq!(rt;
            search(rt.alloc(), &cnf, 2)?,
            Found::Refuted { accepted: true }
        );
    }
    Ok(())
}
