//! A line of a log that is refused, and looked at again.
ghost use Rattle.std.specs.Prelude.{◌≤◌, length};
ghost use Rattle.clause_spec.specs.Clauses.{AreOnVariables};
ghost use Rattle.cnf_form.specs.Views.{lines_of};

use cnf_form::{Clause, Cnf, Hint, Lit, Log, LogLine, are_on_variables};
use refutation_checker::{Cause, Marks, check_line};
use std::alloc::{AllocError, Global};

/// The causes for which the first line of a log is refused, and refused again.
fn refused_twice(
    alloc: Global,
    cnf: &Cnf,
    log: &Log,
) -> Result<Option<[Option<Cause>; 2]>, AllocError>
    requires clauses { AreOnVariables cnf.now.variables cnf.now.clauses.items }
    requires some { 1 ≤ length (lines_of log.now) }
{
    let mut marks = Marks::new(alloc, cnf, log)?;
    let Some(first) = check_line(&mut marks, cnf, log, 1) else {
        return Ok(None);
    };
    let again = check_line(&mut marks, cnf, log, 1);
    Ok(Some([Some(first), again]))
}

/// The clauses 1 and -1 2 3.
fn clauses(alloc: Global) -> Result<Cnf, AllocError> {
    let unit = Clause::from_slice(alloc, &[Lit::new(1, true)])?;
    let lits = [Lit::new(1, false), Lit::new(2, true), Lit::new(3, true)];
    let other = Clause::from_slice(alloc, &lits)?;
    let clauses = vec![in alloc; unit, other]?;
    Ok(Cnf {
        variables: 3,
        clauses,
    })
}

/// The clause 2, with both clauses as hints: they make 1 and 3 true, and no conflict.
fn line(alloc: Global) -> Result<LogLine, AllocError> {
    let clause = Clause::from_slice(alloc, &[Lit::new(2, true)])?;
    let hints = vec![in alloc; Hint::ById(1), Hint::ById(2)]?;
    Ok(LogLine::Add {
        id: 3,
        clause,
        hints,
    })
}

/// What a refused line made true is forgotten: else its first hint would be no unit when it is looked at again.
#[test]
fn refused_lines_leave_no_values(rt: HostRuntime) -> Result<(), AllocError> {
    let cnf = clauses(rt.alloc())?;
    let log = Log {
        lines: vec![in rt.alloc(); line(rt.alloc())?]?,
    };
    assert!(rt; are_on_variables(&cnf));
    let causes = refused_twice(rt.alloc(), &cnf, &log)?;
    assert_eq!(rt; causes, Some([Some(Cause::NoConflict); 2]));
    Ok(())
}
