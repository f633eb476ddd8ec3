//! The answer that certifies a question.
ghost use Rattle.std.specs.Prelude.{◌≡◌, ◌≤◌, Some, IfOk, length};
ghost use Rattle.std.specs.List.Sorted.{IsStrictlyIncreasing};
ghost use Rattle.bilv_spec.specs.Certified.{IsCertified};
ghost use Rattle.bilv_spec.specs.Run as tables;
ghost use Rattle.call_spec.specs.Calls.{Question, plain_answer, program_question};
ghost use Rattle.clause_spec.specs.Certificates.{certificate_text};
ghost use Rattle.program_value.specs.Programs.{program_of};
ghost use Rattle.bilv_top.specs.Answers.{answer_of, program_answer};
ghost use Rattle.bilv_top.specs.Frames.{AreContractsOn, AreFitted, IsCertifiedAt, whole_with};
ghost use Rattle.cnf_form.specs.Views.{cnf_of, lines_of};
ghost use Rattle.call_form.specs.Views.{frame_question};
ghost use Rattle.command_line.specs.Commands.{budget_of};
ghost use Rattle.frame_spec.specs.FrameCertified.{IsFrameCertified};
ghost use Rattle.frame_spec.specs.FrameVerdict.{Whole};
ghost use Rattle.frame_verdict.specs.FrameCertificates.{IsFrameCertificate};
ghost use Rattle.machine_spec.specs.Machine.{IsAtPlace};
ghost use Rattle.verdict.specs.Verdicts.{IsCertificate};

use crate::answer::{Answer, Evidence};
use crate::framed::Framed;
use crate::plain::as_due;
use crate::reading::answer;
use crate::reports::{beyond, exceeded};
use cnf_form::{Proof, print_cnf};
use command_line::{Asked, Budget};
use exit_status::{DONE, FAILS};
use frame_verdict::certify_frame;
use machine_law::Machine;
use program_value::Program;
use refutation_checker::print_lrat;
use std::alloc::{AllocError, Global};
use verdict::Certified;

/// The text of a certificate. The error is want of memory.
fn proof_text(alloc: Global, proof: &Proof) -> Result<Vec<u8>, AllocError>
    ensures { IfOk result (λ v. v.items ≡ certificate_text (cnf_of proof.now.clauses) (lines_of proof.now.log)) }
{
    let mut text = print_cnf(alloc, &proof.clauses)?;
    text.extend_from_slice(&print_lrat(alloc, &proof.log)?)?;
    Ok(text)
}

/// The answer that prints a certificate. The error is want of memory.
fn print_proof(alloc: Global, proof: &Proof) -> Result<Answer, AllocError>
    ensures { IfOk result (λ a. answer_of a ≡ plain_answer 0 (certificate_text (cnf_of proof.now.clauses) (lines_of proof.now.log))) }
{
    let text = proof_text(alloc, proof)?;
    Ok(Answer {
        status: DONE,
        text,
        evidence: Evidence::None,
    })
}

/// The answer to what a question of the frame of a rank comes to within budgets. The error is want of memory.
fn say_frame(
    alloc: Global,
    budget: Budget,
    rank: usize,
    question: Asked,
    certified: Certified,
) -> Result<Answer, AllocError>
    ensures framed { IfOk result (λ a. (w : Whole) → IsFrameCertificate w rank (budget_of budget) (frame_question question) certified →
        IsFrameCertified w rank (budget_of budget) (frame_question question) (answer_of a).status (answer_of a).text (answer_of a).evidence) }
    // Of the one frame of a program it is the answer to a question of the program, if it is told as that.
    ensures plain { IfOk result (λ a. (p : tables.Program) (kind : Question) → program_question (frame_question question) ≡ Some kind →
        IsCertificate p (budget_of budget) kind certified →
        let told = program_answer (answer_of a) in IsCertified p (budget_of budget) kind told.status told.text told.evidence) }
{
    match certified {
        Certified::Exceeded(past) => beyond(alloc, budget, past),
        Certified::Conflicts(proof) => {
            let spent = Evidence::SpentOnFrame {
                rank,
                question,
                proof,
            };
            exceeded(alloc, b"conflicts", budget.conflicts, spent)
        }
        Certified::Satisfiable => answer(alloc, FAILS, b"satisfiable\n"),
        Certified::Refuted(proof) => print_proof(alloc, &proof),
    }
}

/// The answer to a question about the frame of a rank of a function of a machine whose notes may have invariants or contracts. The error is want of memory.
pub fn certify_frames_by<M: Machine>(
    alloc: Global,
    program: &Program<M>,
    framed: &Framed,
    budget: Budget,
    question: Asked,
    rank: usize,
) -> Result<Answer, AllocError>
    requires place { IsAtPlace M.machine.narrow program.now.entry }
    requires rising { IsStrictlyIncreasing framed.now.invariants.items }
    requires contracts { AreContractsOn M.machine framed.now.contracts.items }
    requires fitted { AreFitted (whole_with (program_of program.now) framed.now) }
    requires rank { rank ≤ length framed.now.contracts.items }
    ensures { IfOk result (λ a. IsCertifiedAt (whole_with (program_of program.now) framed.now) rank (budget_of budget) (frame_question question)
        (answer_of a)) }
{
    let invariants = framed.invariants.as_slice();
    let contracts = framed.contracts.as_slice();
    let certified = certify_frame::<M>(
        alloc, program, invariants, contracts, rank, &budget, question,
    )?;
    let answer = say_frame(alloc, budget, rank, question, certified)?;
    Ok(as_due(framed, answer))
}
