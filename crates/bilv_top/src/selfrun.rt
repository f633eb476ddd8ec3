//! The command that verifies work which is made from a number.
ghost use Rattle.std.specs.Prelude.{◌≡◌, ◌≤◌, ◌==◌, ℕ, List, [], not, Contains, IfOk, length};
ghost use Rattle.std.specs.List.{prefix_len};
ghost use Rattle.call_spec.specs.Calls.{default_options};
ghost use Rattle.answer_spec.specs.Outcomes.{IsFirstLine, IsSelfRun};
ghost use Rattle.command_spec.specs.Commands.{IsLawfulCommand, SelfRun};
ghost use Rattle.word_spec.specs.Texts.{line_feed};
ghost use Rattle.notes_spec.specs.Verified.{IsVerified, elf_limit};
ghost use Rattle.bilv_top.specs.Answers.{answer_of};
ghost use Rattle.command_line.specs.Commands.{budget_of};
ghost use Rattle.io_edges.specs.Begun.{AreBegun};

use crate::answer::{Answer, Step};
use crate::frame_tasks::{FrameTask, answer_framed_on};
use crate::framed::Framed;
use crate::inputs::{NOTES_LIMIT, find_program, refuse_elf};
use crate::reading::answer;
use command_line::{Budget, Options};
use elf32_reader::read_image;
use exit_status::NOTES_REFUSED;
use io_edges::Shelf;
use std::alloc::{AllocError, Global};
use work_gen::{front, work};

/// The answer to an ELF file and to notes, by their bytes. The error is want of memory.
#[tactic(auto, using(io_edges::proofs::Beginning::begun_none))]
fn verify_bytes<H: Shelf>(
    alloc: Global,
    shelf: &mut H,
    file: &[u8],
    notes: Vec<u8>,
    budget: Budget,
) -> Result<Answer, AllocError>
    requires short { length file.now ≤ elf_limit }
    ensures keeps { (n : List ℕ) → H.holds shelf.new n ≡ H.holds shelf.old n }
    ensures never_falls { (n : List ℕ) → H.faults shelf.old n ≤ H.faults shelf.new n }
    ensures begun { AreBegun (H.begun shelf.old) (H.begun shelf.new) [] }
    ensures verified { IfOk result (λ a. IsVerified default_options file.now notes.items (budget_of budget) (answer_of a)) }
{
    let image = match read_image(alloc, file) {
        Ok(image) => image,
        Err(fault) => return refuse_elf(alloc, fault),
    };
    if notes.len() as u64 > NOTES_LIMIT {
        return answer(alloc, NOTES_REFUSED, b"notes: TooLarge\n");
    }
    let options = Options::standard();
    match find_program(alloc, &image, notes, options)? {
        Step::Go(found) => {
            let framed = Framed::plain(alloc, found);
            let task = FrameTask::Report(budget);
            answer_framed_on(alloc, shelf, &image, &framed, options, task)
        }
        Step::Answered(answer) => Ok(answer),
    }
}

/// How many bytes stand in front of the first line feed.
fn line_length(text: &[u8]) -> usize
    ensures count { result ≡ prefix_len (λ b. not (b == line_feed)) text.now }
    ensures within { result ≤ length text.now }
{
    text.iter().take_while(|b| **b != b'\n').count()
}

/// The first line of a text that has a line feed, without it.
fn first_line<'a>(text: &'a [u8]) -> &'a [u8]
    requires { Contains text.now line_feed }
    ensures { IsFirstLine text.now result.now }
{
    let length = line_length(text);
    &text[..length]
}

/// Verifies the work of a seed, below 2^31, and a number of items, 1 to 16000, with the default budgets. The answer's text is one line: what was made, and the
/// first line of the report on it; the status and what shows that it is right are the report's. The shelf is not read. The error is out of memory.
#[tactic(auto, using(io_edges::proofs::Beginning::begun_none))]
pub fn selfrun<H: Shelf>(
    alloc: Global,
    shelf: &mut H,
    seed: u32,
    count: u32,
) -> Result<Answer, AllocError>
    requires lawful { IsLawfulCommand (SelfRun seed count) }
    ensures keeps { (n : List ℕ) → H.holds shelf.new n ≡ H.holds shelf.old n }
    ensures never_falls { (n : List ℕ) → H.faults shelf.old n ≤ H.faults shelf.new n }
    ensures begun { AreBegun (H.begun shelf.old) (H.begun shelf.new) [] }
    ensures right { IfOk result (λ a. IsSelfRun seed count (answer_of a)) }
{
    let made = work(alloc, seed, count)?;
    let mut text = front(alloc, seed, count, made.result)?;
    let notes = made.notes;
    let inner = verify_bytes(alloc, shelf, &made.file, notes, Budget::standard())?;
    let evidence = inner.evidence;
    text.extend_from_slice(first_line(&inner.text))?;
    text.extend_from_slice(b"\n")?;
    Ok(Answer {
        status: inner.status,
        text,
        evidence,
    })
}
