//! From the name of a file to the answer.
ghost use Rattle.std.specs.Prelude.{◌≡◌, ℕ, ◌≤◌, ◌^◌, [], ◌∷◌, IfOk, IfErr, length};
ghost use Rattle.call_spec.specs.Calls.{plain_answer, AfterRead};
ghost use Rattle.clause_spec.specs.CertificateGrammar.{Clauses, cnf_of as clauses_of};
ghost use Rattle.clause_spec.specs.Clauses.{AreOnVariables};
ghost use Rattle.clause_spec.specs.Checks.{text_limit};
ghost use Rattle.cnf_form.specs.Faults.{IsRefusal};
ghost use Rattle.cnf_form.specs.Views.{cnf_of};
ghost use Rattle.cnf_solver.specs.Answers.{answer_of};
ghost use Rattle.cnf_solver.specs.Requests.{request_of};
ghost use Rattle.cnf_solver.specs.Solutions.{IsSaid, IsSolved, as_certificate};
ghost use Rattle.io_edges.specs.Begun.{AreBegun};
ghost use Rattle.io_edges.specs.Met.{seen};

use crate::answer::Answer;
use crate::request::Request;
use crate::texts::{refused_text, refutation_text, values_text};
use cnf_form::{Cnf, CnfError, read_cnf};
use exit_status::{READ_FAULT, SATISFIABLE, TEXT_REFUSED, UNDECIDED, UNSATISFIABLE};
use io_edges::{ReadFault, Shelf, read_all};
use sat_core::{Answer as Found, solve};
use std::alloc::{AllocError, Global};

/// The most bytes of a file.
const TEXT_LIMIT: u64 = 268_435_456;

/// The answer of a status and a text. The error is want of memory.
pub fn answer(alloc: Global, status: u8, text: &[u8]) -> Result<Answer, AllocError>
    ensures { IfOk result (λ a. answer_of a ≡ plain_answer status text.now) }
{
    let text = text.to_vec(alloc)?;
    Ok(Answer { status, text })
}

/// The clauses of the text of a file, behind which a line `proof` is put.
fn read_clauses(alloc: Global, text: Vec<u8>) -> Result<Cnf, CnfError>
    ensures read { IfOk result (λ cnf. (n : ℕ) × (clauses_of (as_certificate text.items) ≡ Clauses (cnf_of cnf) n)) }
    ensures refused { IfErr result (IsRefusal (clauses_of (as_certificate text.items))) }
    ensures over { IfOk result (λ cnf. AreOnVariables cnf.variables cnf.clauses.items) }
    ensures few { IfOk result (λ cnf. cnf.variables ≤ 2 ^ 30) }
{
    let mut text = text;
    let is_ended = text.is_empty() || text[text.len() - 1] == b'\n';
    if !is_ended {
        text.extend_from_slice(b"\n")?;
    }
    text.extend_from_slice(b"proof\n")?;
    let (cnf, _lines) = read_cnf(alloc, &text)?;
    Ok(cnf)
}

/// What the search finds, as an answer. The error is want of memory.
fn search(alloc: Global, cnf: &Cnf, conflicts: u64, certificate: bool) -> Result<Answer, AllocError>
    requires some { 1 ≤ conflicts }
    requires over { AreOnVariables cnf.now.variables cnf.now.clauses.items }
    requires few { cnf.now.variables ≤ 2 ^ 30 }
    ensures { IfOk result (λ a. IsSaid (cnf_of cnf.now) conflicts certificate (answer_of a)) }
{
    match solve(alloc, cnf, conflicts)? {
        Found::Sat(values) => {
            let text = values_text(alloc, &values)?;
            Ok(Answer {
                status: SATISFIABLE,
                text,
            })
        }
        Found::Unsat(log) => {
            let text = refutation_text(alloc, cnf, &log, certificate)?;
            Ok(Answer {
                status: UNSATISFIABLE,
                text,
            })
        }
        Found::Spent(_) => answer(alloc, UNDECIDED, b"s UNKNOWN\n"),
    }
}

/// The answer to the text of a file. The error is want of memory.
fn solve_text(alloc: Global, text: Vec<u8>, request: &Request<'_>) -> Result<Answer, AllocError>
    requires short { length text.items ≤ text_limit }
    requires some { 1 ≤ request.now.conflicts }
    ensures { IfOk result (λ a. IsSolved text.items (request_of request.now) (answer_of a)) }
{
    match read_clauses(alloc, text) {
        Ok(cnf) => search(alloc, &cnf, request.conflicts, request.certificate),
        Err(CnfError::Refused { line, fault }) => {
            let text = refused_text(alloc, line as u64, fault)?;
            Ok(Answer {
                status: TEXT_REFUSED,
                text,
            })
        }
        Err(CnfError::Memory) => Err(AllocError),
    }
}

/// The answer to a request. The error is want of memory.
pub fn obey<H: Shelf>(
    alloc: Global,
    request: Request<'_>,
    shelf: &mut H,
) -> Result<Answer, AllocError>
    requires { 1 ≤ request.conflicts }
    ensures begun { AreBegun (H.begun shelf.old) (H.begun shelf.new) (request.entry.file.now ∷ []) }
    ensures read { IfOk result (λ a. AfterRead (seen (H.holds shelf.old) (H.faults shelf.old) (H.faults shelf.new)) request.entry.file.now
        (λ text. IsSolved text (request_of request.entry)) (answer_of a)) }
{
    match read_all(alloc, shelf, request.file, TEXT_LIMIT) {
        Ok(text) => solve_text(alloc, text, &request),
        Err(ReadFault::TooLarge) => answer(alloc, TEXT_REFUSED, b"cnf: TooLarge\n"),
        Err(ReadFault::Failed) => answer(alloc, READ_FAULT, b"read fault\n"),
        Err(ReadFault::Memory) => Err(AllocError),
    }
}
