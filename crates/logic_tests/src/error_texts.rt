//! The texts of errors.
use bil_ast::BilType;
use bil_eval::EvalFault;
use bil_types::{Need, TypeFault};
use cnf_form::{CnfError, CnfFault};
use refutation_checker::Cause;
use std::alloc::AllocError;
use std::fmt::Display;

/// Appends a line for each error.
fn append<E: Display>(text: &mut String, errors: &[E]) -> Result<(), AllocError> {
    for error in errors {
        write!(text, "{error}\n")?;
    }
    Ok(())
}

const TYPING: [TypeFault; 1] = [TypeFault {
    place: 0,
    need: Need::Memory,
    found: BilType::Memory,
}];

const RUNS: [EvalFault; 2] = [EvalFault::OutOfTurns, EvalFault::Memory];

const LINES: [CnfFault; 5] = [
    CnfFault::Token,
    CnfFault::Header,
    CnfFault::Variable,
    CnfFault::Count,
    CnfFault::Proof,
];

const CLAUSES: [CnfError; 2] = [
    CnfError::Refused {
        line: 7,
        fault: CnfFault::Count,
    },
    CnfError::Memory,
];

const CAUSES: [Cause; 9] = [
    Cause::NotOfGrammar,
    Cause::IdNotAbove,
    Cause::VariableAbove,
    Cause::Tautology,
    Cause::NegativeHint,
    Cause::UnknownHint,
    Cause::NotUnit,
    Cause::NoConflict,
    Cause::NoEmptyClause,
];

const TEXT: &str = "a rule of typing is broken
a loop was out of turns
out of memory
K1 Token
K2 Header
K3 Variable
K4 Count
K5 Proof
line 7 K4 Count
memory
L1 Line
L2 Id
L3 Variable
L4 Tautology
L5 NegativeHint
L6 UnknownHint
L7 NotUnit
L8 NoConflict
L9 End
";

#[test]
fn errors_are_printed(rt: HostRuntime) -> Result<(), AllocError> {
    let mut text = String::new(rt.alloc());
    append(&mut text, &TYPING)?;
    append(&mut text, &RUNS)?;
    append(&mut text, &LINES)?;
    append(&mut text, &CLAUSES)?;
    append(&mut text, &CAUSES)?;
    assert_eq!(rt; text.as_str(), TEXT);
    Ok(())
}
