//! The texts of answers.
ghost use Rattle.std.specs.Prelude.{◌≡◌, ◌≤◌, ◌^◌, ◌++◌, ◌∷◌, [], IfOk, OnOk, codes, length};
ghost use Rattle.word_spec.specs.Texts.{line, spaced, number_text};
ghost use Rattle.clause_spec.specs.Checks.{cnf_fault_words};
ghost use Rattle.cnf_form.specs.Faults.{fault_of};
ghost use Rattle.cnf_form.specs.Views.{cnf_of, lines_of};
ghost use Rattle.cnf_solver.specs.Solutions.{break_behind, satisfiable_text, unsatisfiable_text, values_from};

use cnf_form::print::{print_literal, print_number};
use cnf_form::{Cnf, CnfFault, Lit, Log, print_cnf};
use refutation_checker::print_lrat;
use std::alloc::{AllocError, Global};

/// How many literals stand on a line.
const LITERALS: u64 = 6;

/// What stands behind the literal of a variable.
fn break_behind(variable: u64) -> &'static [u8]
    ensures { result.now ≡ break_behind variable }
{
    if variable % LITERALS == 0 {
        b"\nv "
    } else {
        b" "
    }
}

/// Appends the literals that values make true, the first of which is that of variable 1, and 0.
fn print_values(out: &mut Vec<u8>, values: &[bool]) -> Result<(), AllocError>
    requires { length values.now ≤ 2 ^ 62 }
    ensures { OnOk result (out.new.items ≡ out.old.items ++ values_from 1 values.now) }
{
    let mut variable = 1;
    for value in values {
        print_literal(out, Lit::new(variable, *value))?;
        out.extend_from_slice(break_behind(variable))?;
        variable += 1;
    }
    out.extend_from_slice(b"0\n")?;
    Ok(())
}

/// The text that names values. The error is want of memory.
pub fn values_text(alloc: Global, values: &[bool]) -> Result<Vec<u8>, AllocError>
    requires { length values.now ≤ 2 ^ 62 }
    ensures { IfOk result (λ v. v.items ≡ satisfiable_text values.now) }
{
    let mut text = b"s SATISFIABLE\nv ".to_vec(alloc)?;
    print_values(&mut text, values)?;
    Ok(text)
}

/// The text of a refutation, with its certificate where it is asked for. The error is want of memory.
pub fn refutation_text(
    alloc: Global,
    cnf: &Cnf,
    log: &Log,
    certificate: bool,
) -> Result<Vec<u8>, AllocError>
    ensures { IfOk result (λ v. v.items ≡ unsatisfiable_text certificate (cnf_of cnf.now) (lines_of log.now)) }
{
    let mut text = b"s UNSATISFIABLE\n".to_vec(alloc)?;
    if !certificate {
        return Ok(text);
    }
    text.extend_from_slice(&print_cnf(alloc, cnf)?)?;
    text.extend_from_slice(&print_lrat(alloc, log)?)?;
    Ok(text)
}

/// The words of a fault of clauses.
fn fault_text(fault: CnfFault) -> &'static [u8]
    ensures { result.now ≡ cnf_fault_words (fault_of fault) }
{
    match fault {
        CnfFault::Token => b"K1 Token",
        CnfFault::Header => b"K2 Header",
        CnfFault::Variable => b"K3 Variable",
        CnfFault::Count => b"K4 Count",
        CnfFault::Proof => b"K5 Proof",
    }
}

/// The line that names a refused line by its number, and says why it is refused. The error is want of memory.
pub fn refused_text(alloc: Global, number: u64, fault: CnfFault) -> Result<Vec<u8>, AllocError>
    ensures { IfOk result (λ v. v.items ≡ line (codes "cnf: line" ++ spaced (number_text number ∷ cnf_fault_words (fault_of fault) ∷ []))) }
{
    let mut text = b"cnf: line ".to_vec(alloc)?;
    print_number(&mut text, number)?;
    text.extend_from_slice(b" ")?;
    text.extend_from_slice(fault_text(fault))?;
    text.extend_from_slice(b"\n")?;
    Ok(text)
}
