//! The text of clauses (DIMACS CNF), and its parts, which the text of a log has too.
ghost use Rattle.std.specs.Prelude.{◌≡◌, ◌++◌, ◌∷◌, [], List, ℕ, codes, IfOk, OnOk, length, map};
ghost use Rattle.clause_spec.specs.Certificates.{cnf_text, cnf_header, clause_line, literal_text, to_zero};
ghost use Rattle.word_spec.specs.Texts.{line, lines, number_text, joined};
ghost use Rattle.cnf_form.specs.Views.{cnf_of};

use crate::clause::Clause;
use crate::form::Cnf;
use crate::lit::Lit;
use itoa::Buffer;
use std::alloc::{AllocError, Global};

/// Appends a decimal number. What an `Err` leaves is open.
pub fn print_number(out: &mut Vec<u8>, number: u64) -> Result<(), AllocError>
    ensures { OnOk result (out.new.items ≡ out.old.items ++ number_text number) }
{
    let mut buffer = Buffer::new();
    out.extend_from_slice(buffer.format(number).as_bytes())?;
    Ok(())
}

/// Appends a literal: its variable, behind a minus sign where it is negative. What an `Err` leaves is open.
pub fn print_literal(out: &mut Vec<u8>, lit: Lit) -> Result<(), AllocError>
    ensures { OnOk result (out.new.items ≡ out.old.items ++ literal_text lit) }
{
    if !lit.is_positive() {
        out.extend_from_slice(b"-")?;
    }
    print_number(out, lit.variable())?;
    Ok(())
}

/// Appends literals with a blank behind each, and 0. What an `Err` leaves is open.
pub fn print_literals(out: &mut Vec<u8>, lits: &[Lit]) -> Result<(), AllocError>
    ensures { OnOk result (out.new.items ≡ out.old.items ++ clause_line lits.now) }
{
    for lit in lits {
        print_literal(out, *lit)?;
        out.extend_from_slice(b" ")?;
    }
    out.extend_from_slice(b"0")?;
    Ok(())
}

/// Appends the line p cnf.
fn print_header(out: &mut Vec<u8>, cnf: &Cnf) -> Result<(), AllocError>
    ensures { OnOk result (out.new.items ≡ out.old.items ++ line (cnf_header (cnf_of cnf.now))) }
{
    out.extend_from_slice(b"p cnf ")?;
    print_number(out, cnf.variables)?;
    out.extend_from_slice(b" ")?;
    print_number(out, cnf.clauses.len() as u64)?;
    out.extend_from_slice(b"\n")?;
    Ok(())
}

/// Appends the lines of clauses.
fn print_clauses(out: &mut Vec<u8>, clauses: &[Clause]) -> Result<(), AllocError>
    ensures { OnOk result (out.new.items ≡ out.old.items ++ lines (map clause_line clauses.now)) }
{
    for clause in clauses {
        print_literals(out, clause.lits())?;
        out.extend_from_slice(b"\n")?;
    }
    Ok(())
}

/// The text of clauses in DIMACS CNF, with the line `proof` behind it.
pub fn print_cnf(alloc: Global, cnf: &Cnf) -> Result<Vec<u8>, AllocError>
    ensures { IfOk result (λ text. text.items ≡ cnf_text (cnf_of cnf.now) ++ line (codes "proof")) }
{
    let mut out = Vec::new(alloc);
    print_header(&mut out, cnf)?;
    print_clauses(&mut out, &cnf.clauses)?;
    out.extend_from_slice(b"proof\n")?;
    Ok(out)
}
