//! The command that checks a certificate.
ghost use Rattle.std.specs.Prelude.{◌≡◌, ◌≤◌, ℕ, List, [], ◌∷◌, length, IfOk};
ghost use Rattle.call_spec.specs.Calls.{NoEvidence};
ghost use Rattle.clause_spec.specs.Certificates.{check_text};
ghost use Rattle.command_spec.specs.Commands.{Check};
ghost use Rattle.answer_spec.specs.Outcomes.{IsRightAnswer};
ghost use Rattle.clause_spec.specs.Checks.{IsChecked, check_status, text_limit};
ghost use Rattle.refutation_checker.specs.Answers.{refusal_of};
ghost use Rattle.bilv_top.specs.Answers.{answer_of, evidence_of};
ghost use Rattle.io_edges.specs.Met.{seen};
ghost use Rattle.io_edges.specs.Begun.{AreBegun};

use crate::answer::{Answer, Evidence};
use crate::reading::{FileRead, TEXT_LIMIT, answer, read_within, unread};
use crate::texts::{cause_text, cnf_fault_text, refused_line};
use cnf_form::{CnfError, behind_lines, read_cnf};
use exit_status::{DONE, TEXT_REFUSED};
use io_edges::Shelf;
use refutation_checker::{Checked, check, read_lrat};
use std::alloc::{AllocError, Global};

/// The answer to what a check says.
fn say(alloc: Global, checked: Checked) -> Result<Answer, AllocError>
    ensures status { IfOk result (λ a. a.status ≡ check_status (refusal_of checked)) }
    ensures text { IfOk result (λ a. a.text.items ≡ check_text (refusal_of checked)) }
    ensures bare { IfOk result (λ a. evidence_of a.evidence ≡ NoEvidence) }
{
    match checked {
        Checked::Yes => answer(alloc, DONE, b"accepted\n"),
        Checked::No { line, cause } => {
            let text = refused_line(alloc, b"proof: line", line as u64, cause_text(cause))?;
            Ok(Answer {
                status: TEXT_REFUSED,
                text,
                evidence: Evidence::None,
            })
        }
    }
}

/// The answer to the text of a certificate.
fn judge(alloc: Global, text: &[u8]) -> Result<Answer, AllocError>
    requires { length text.now ≤ text_limit }
    ensures { IfOk result (λ a. IsChecked text.now a.status a.text.items × (evidence_of a.evidence ≡ NoEvidence)) }
{
    let (cnf, lines) = match read_cnf(alloc, text) {
        Ok(read) => read,
        Err(CnfError::Refused { line, fault }) => {
            let text = refused_line(alloc, b"cnf: line", line as u64, cnf_fault_text(fault))?;
            return Ok(Answer {
                status: TEXT_REFUSED,
                text,
                evidence: Evidence::None,
            });
        }
        Err(CnfError::Memory) => return Err(AllocError),
    };
    let log = read_lrat(alloc, behind_lines(text, lines))?;
    let checked = check(alloc, &cnf, &log)?;
    let answer = say(alloc, checked)?;
    Ok(answer)
}

/// Checks the certificate of a name. The error is want of memory.
pub fn check_certificate<H: Shelf>(
    alloc: Global,
    shelf: &mut H,
    name: &str,
) -> Result<Answer, AllocError>
    ensures keeps { (n : List ℕ) → H.holds shelf.new n ≡ H.holds shelf.old n }
    ensures never_falls { (n : List ℕ) → H.faults shelf.old n ≤ H.faults shelf.new n }
    ensures begun { AreBegun (H.begun shelf.old) (H.begun shelf.new) (name.now ∷ []) }
    ensures right { IfOk result (λ a. IsRightAnswer (seen (H.holds shelf.old) (H.faults shelf.old) (H.faults shelf.new)) (Check name.now) (answer_of a)) }
{
    match read_within(alloc, shelf, name, TEXT_LIMIT)? {
        FileRead::Failed => unread(alloc),
        FileRead::TooLarge => answer(alloc, TEXT_REFUSED, b"cert: TooLarge\n"),
        FileRead::Bytes(text) => judge(alloc, &text),
    }
}
