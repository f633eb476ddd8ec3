//! Answers about notes without invariants and contracts, which are those about a program.
ghost use Rattle.std.specs.Prelude.{◌≡◌, []};
ghost use Rattle.bilv_top.specs.Answers.{answer_of, evidence_of, program_answer, program_evidence};
ghost use Rattle.bilv_top.specs.Frames.{HasSome};

use crate::answer::{Answer, Evidence};
use crate::framed::Framed;

/// What shows an answer about the one frame of such notes, as what shows one about their program.
fn as_program(evidence: Evidence) -> Evidence
    ensures { evidence_of result ≡ program_evidence (evidence_of evidence) }
{
    match evidence {
        Evidence::SpentOnFrame {
            rank,
            question,
            proof,
        } => match question.program() {
            Some(question) => Evidence::SpentOn { question, proof },
            None => Evidence::SpentOnFrame {
                rank,
                question,
                proof,
            },
        },
        other => other,
    }
}

/// The answer that is due to notes by one over their frames: where they have neither invariants nor contracts, the one about their program.
pub fn as_due(framed: &Framed, answer: Answer) -> Answer
    ensures plain { (framed.now.invariants.items ≡ []) × (framed.now.contracts.items ≡ []) → answer_of result ≡ program_answer (answer_of answer) }
    ensures framed { HasSome framed.now.invariants.items framed.now.contracts.items → answer_of result ≡ answer_of answer }
{
    if !framed.is_plain() {
        return answer;
    }
    let Answer {
        status,
        text,
        evidence,
    } = answer;
    Answer {
        status,
        text,
        evidence: as_program(evidence),
    }
}
