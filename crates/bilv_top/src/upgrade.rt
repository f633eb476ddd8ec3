//! The answer that prints notes again as version 2.
ghost use Rattle.std.specs.Prelude.{◌≡◌, ◌≤◌, ℕ, List, [], ◌∷◌, IfOk};
ghost use Rattle.answer_spec.specs.Outcomes.{IsRightAnswer, upgrade_answer};
ghost use Rattle.command_spec.specs.Commands.{Upgrade};
ghost use Rattle.command_line.specs.Commands.{options_of};
ghost use Rattle.io_edges.specs.Met.{seen};
ghost use Rattle.bilv_top.specs.Answers.{answer_of};
ghost use Rattle.io_edges.specs.Begun.{AreBegun};

use crate::answer::{Answer, Evidence, Step};
use crate::framed::read_framed;
use crate::inputs::{NOTES_LIMIT, read_elf};
use crate::reading::answer;
use command_line::Options;
use exit_status::{DONE, NOTES_REFUSED};
use io_edges::Shelf;
use notes_lang::upgrade as upgraded;
use std::alloc::{AllocError, Global};

/// The answer that prints the text of notes as version 2, or says that it would be longer than notes may be. The error is out of memory.
fn print_again(alloc: Global, text: &[u8]) -> Result<Answer, AllocError>
    ensures { IfOk result (λ a. answer_of a ≡ upgrade_answer text.now) }
{
    let text = upgraded(alloc, text)?;
    if text.len() as u64 <= NOTES_LIMIT {
        return Ok(Answer {
            status: DONE,
            text,
            evidence: Evidence::None,
        });
    }
    answer(alloc, NOTES_REFUSED, b"notes: TooLarge\n")
}

/// Prints the notes of a name as version 2, once their program is found over the ELF file of a name. The error is out of memory.
pub fn upgrade<H: Shelf>(
    alloc: Global,
    shelf: &mut H,
    elf: &str,
    notes: &str,
    options: Options,
) -> Result<Answer, AllocError>
    ensures keeps { (n : List ℕ) → H.holds shelf.new n ≡ H.holds shelf.old n }
    ensures never_falls { (n : List ℕ) → H.faults shelf.old n ≤ H.faults shelf.new n }
    ensures begun { AreBegun (H.begun shelf.old) (H.begun shelf.new) (elf.now ∷ notes.now ∷ []) }
    ensures right { IfOk result (λ a. IsRightAnswer (seen (H.holds shelf.old) (H.faults shelf.old) (H.faults shelf.new))
        (Upgrade (options_of options) elf.now notes.now) (answer_of a)) }
{
    let file = match read_elf(alloc, shelf, elf)? {
        Step::Go(file) => file,
        Step::Answered(answer) => return Ok(answer),
    };
    match read_framed(alloc, shelf, &file, notes, options)? {
        Step::Go((_, framed)) => print_again(alloc, &framed.found.text),
        Step::Answered(answer) => Ok(answer),
    }
}
