//! The inputs of commands: an ELF file, and notes over it; and the answers where they are refused.
ghost use Rattle.std.specs.Prelude.{◌≡◌, ◌≤◌, ℕ, List, [], ◌∷◌, IfOk, MatchResult, codes, length};
ghost use Rattle.call_spec.specs.Calls.{plain_answer};
ghost use Rattle.bilv_spec.specs.Files as files;
ghost use Rattle.bilv_spec.specs.Files.{machine_of, IsFunctionAt};
ghost use Rattle.command_line.specs.Commands.{options_of};
ghost use Rattle.call_spec.specs.Outside.{Agrees};
ghost use Rattle.word_spec.specs.Texts.{line};
ghost use Rattle.notes_spec.specs.Verified as verified;
ghost use Rattle.notes_spec.specs.Verified.{AfterImage, IsAccepted};
ghost use Rattle.notes_lang.specs.Named.{dialect_of};
ghost use Rattle.notes_lang.specs.Judging.{fault_of};
ghost use Rattle.notes_value.specs.NoteViews.{function_of, notes_of};
ghost use Rattle.program_value.specs.Programs.{program_of};
ghost use Rattle.bilv_top.specs.Answers.{IsOfFile, IfStep, answer_of, elf_text_of};
ghost use Rattle.bilv_top.specs.Chosen.{IsMachineOf};
ghost use Rattle.bilv_top.specs.Due.{IsOverFile, AreNotesAnswered, AreNotesAnsweredIn, IsFoundBy, IsFoundIn, IsNotesAnswer, IsUnread};
ghost use Rattle.bilv_top.specs.Names.{missed_text, IsMissedFunction};
ghost use Rattle.io_edges.specs.Begun.{AreBegun};

use crate::answer::{Answer, Evidence, Step};
use crate::machines::{is_narrow, layout};
use crate::reading::{answer, read_or_answer};
use crate::texts::{ambiguous_line, elf_fault_line, note_fault_words, refused_line};
use command_line::Options;
use elf32_reader::{ElfFault, Image, SymFault, read_image};
use exit_status::{ELF_REFUSED, NOTES_REFUSED};
use io_edges::Shelf;
use machine_law::Machine;
use notes_lang::{Dialect, NoteFault, NotesError, parse_notes};
use notes_value::{Function, Notes};
use program_value::Program;
use std::alloc::{AllocError, Global};

/// The most bytes of an ELF file.
pub const ELF_LIMIT: u64 = 16_777_216;

/// The most bytes of notes.
pub const NOTES_LIMIT: u64 = 262_144;

/// Notes over an image, their text, and the address of their function.
#[derive(Drop)]
pub struct Found {
    pub text: Vec<u8>,
    pub notes: Notes,
    pub entry: u32,
}

/// Reads an ELF file, or answers.
pub fn read_elf<H: Shelf>(
    alloc: Global,
    shelf: &mut H,
    elf: &str,
) -> Result<Step<Vec<u8>>, AllocError>
    ensures keeps { (n : List ℕ) → H.holds shelf.new n ≡ H.holds shelf.old n }
    ensures never_falls { (n : List ℕ) → H.faults shelf.old n ≤ H.faults shelf.new n }
    ensures begun { AreBegun (H.begun shelf.old) (H.begun shelf.new) (elf.now ∷ []) }
    ensures read { IfOk result (λ step. IfStep step
        (IsUnread (H.holds shelf.old elf.now) (H.faults shelf.old elf.now) (H.faults shelf.new elf.now) verified.elf_limit
        (plain_answer 4 (line (codes "elf: TooLarge"))))
        (λ v. Agrees (H.holds shelf.old elf.now) v.items × (length v.items ≤ verified.elf_limit))) }
{
    let large = b"elf: TooLarge\n";
    let step = read_or_answer(alloc, shelf, elf, ELF_LIMIT, ELF_REFUSED, large)?;
    Ok(step)
}

/// The answer to a refused ELF file. The error is want of memory.
pub fn refuse_elf(alloc: Global, fault: ElfFault) -> Result<Answer, AllocError>
    ensures { IfOk result (λ a. IsOfFile fault × (answer_of a ≡ plain_answer 4 (elf_text_of fault))) }
{
    match elf_fault_line(fault) {
        Some(text) => answer(alloc, ELF_REFUSED, text),
        None => Err(AllocError),
    }
}

/// The address of the function of notes, by some options of the image.
pub fn entry_of(image: &Image, notes: &Notes, options: Options) -> Result<u32, SymFault>
    ensures { MatchResult result (IsFunctionAt (machine_of (options_of options) image.now).narrow image.now (function_of notes.now.entry))
        (IsMissedFunction (machine_of (options_of options) image.now).narrow image.now (function_of notes.now.entry)) }
{
    match &notes.entry {
        Function::At(at) => Ok(*at),
        Function::Named(name) => image.function_named(name, is_narrow(image, options)),
    }
}

/// The program that an image and what was found over it are, on its machine.
pub fn program_on<'a, M: Machine>(image: &'a Image<'a>, found: &'a Found) -> Program<'a, M>
    requires machine { IsMachineOf image.now M.machine }
    requires found { IsOverFile image.now found.now }
    ensures { program_of result ≡ files.program_of M.machine image.now (notes_of found.now.notes) found.now.entry }
{
    Program::new(image, &found.notes, found.entry)
}

/// The answer to notes with a faulty line. The error is want of memory.
pub fn refuse_line(alloc: Global, fault: NoteFault) -> Result<Answer, AllocError>
    ensures { IfOk result (λ a. answer_of a ≡ plain_answer 5 (verified.note_fault_text fault.line (fault_of fault.kind))) }
{
    let words = note_fault_words(fault.kind);
    let text = refused_line(alloc, b"notes: line", fault.line as u64, words)?;
    Ok(Answer {
        status: NOTES_REFUSED,
        text,
        evidence: Evidence::None,
    })
}

/// The answer to notes whose function is not found. The error is want of memory.
pub fn refuse_name(alloc: Global, fault: SymFault) -> Result<Answer, AllocError>
    ensures { IfOk result (λ a. answer_of a ≡ plain_answer 5 (missed_text fault)) }
{
    match fault {
        SymFault::NoFunction => answer(alloc, NOTES_REFUSED, b"notes: NoFunction\n"),
        SymFault::Ambiguous(a, b) => {
            let text = ambiguous_line(alloc, a, b)?;
            Ok(Answer {
                status: NOTES_REFUSED,
                text,
                evidence: Evidence::None,
            })
        }
    }
}

/// The notes that a text says in a dialect over an image, by some of its options, and the address of their function, or the answer that refuses them. The error
/// is out of memory.
pub fn find_program_in(
    alloc: Global,
    image: &Image,
    text: Vec<u8>,
    options: Options,
    dialect: Dialect,
) -> Result<Step<Found>, AllocError>
    requires short { length text.items ≤ verified.notes_limit }
    ensures { IfOk result (λ step. IfStep step (AreNotesAnsweredIn (dialect_of dialect) (options_of options) image.now text.items)
        (λ f. (f.text.items ≡ text.items) × IsFoundIn (dialect_of dialect) (options_of options) image.now f)) }
{
    let notes = match parse_notes(alloc, &text, layout(image, options), dialect) {
        Ok(notes) => notes,
        Err(NotesError::Fault(fault)) => return Ok(Step::Answered(refuse_line(alloc, fault)?)),
        Err(NotesError::Memory) => return Err(AllocError),
    };
    match entry_of(image, &notes, options) {
        Ok(entry) => Ok(Step::Go(Found { text, notes, entry })),
        Err(fault) => Ok(Step::Answered(refuse_name(alloc, fault)?)),
    }
}

/// The notes of one function that a text says over an image, by some of its options, and the address of their function, or the answer that refuses them. The
/// error is out of memory.
pub fn find_program(
    alloc: Global,
    image: &Image,
    text: Vec<u8>,
    options: Options,
) -> Result<Step<Found>, AllocError>
    requires short { length text.items ≤ verified.notes_limit }
    ensures { IfOk result (λ step. IfStep step (AreNotesAnswered (options_of options) image.now text.items)
        (λ f. (f.text.items ≡ text.items) × IsFoundBy (options_of options) image.now f)) }
{
    let found = find_program_in(alloc, image, text, options, Dialect::Plain)?;
    Ok(found)
}

/// Reads notes over an image and finds their function, or answers. The error is want of memory.
pub fn read_notes<H: Shelf>(
    alloc: Global,
    shelf: &mut H,
    image: &Image,
    name: &str,
    options: Options,
) -> Result<Step<Found>, AllocError>
    ensures keeps { (n : List ℕ) → H.holds shelf.new n ≡ H.holds shelf.old n }
    ensures never_falls { (n : List ℕ) → H.faults shelf.old n ≤ H.faults shelf.new n }
    ensures begun { AreBegun (H.begun shelf.old) (H.begun shelf.new) (name.now ∷ []) }
    ensures read { IfOk result (λ step. IfStep step
        (IsNotesAnswer (H.holds shelf.old name.now) (H.faults shelf.old name.now) (H.faults shelf.new name.now) (options_of options) image.now)
        (λ f. Agrees (H.holds shelf.old name.now) f.text.items × (length f.text.items ≤ verified.notes_limit)
        × IsFoundBy (options_of options) image.now f)) }
{
    let large = b"notes: TooLarge\n";
    let step = match read_or_answer(alloc, shelf, name, NOTES_LIMIT, NOTES_REFUSED, large)? {
        Step::Go(text) => find_program(alloc, image, text, options)?,
        Step::Answered(answer) => Step::Answered(answer),
    };
    Ok(step)
}

/// Reads the image of an ELF file that was read and notes over it, and finds their function, or answers. The error is want of memory.
#[tactic(auto, using(io_edges::proofs::Beginning::begun_none))]
pub fn read_program<'a, H: Shelf>(
    alloc: Global,
    shelf: &mut H,
    file: &'a [u8],
    notes: &str,
    options: Options,
) -> Result<Step<(Image<'a>, Found)>, AllocError>
    requires short { length file.now ≤ verified.elf_limit }
    ensures keeps { (n : List ℕ) → H.holds shelf.new n ≡ H.holds shelf.old n }
    ensures never_falls { (n : List ℕ) → H.faults shelf.old n ≤ H.faults shelf.new n }
    ensures begun { AreBegun (H.begun shelf.old) (H.begun shelf.new) (notes.now ∷ []) }
    ensures read { IfOk result (λ step. IfStep step
        (AfterImage file.now (IsNotesAnswer (H.holds shelf.old notes.now) (H.faults shelf.old notes.now) (H.faults shelf.new notes.now) (options_of options)
        file.now))
        (λ x. (x.0 ≡ file.now) × IsAccepted file.now × Agrees (H.holds shelf.old notes.now) x.1.text.items × (length x.1.text.items ≤ verified.notes_limit)
        × IsFoundBy (options_of options) file.now x.1)) }
{
    let image = match read_image(alloc, file) {
        Ok(image) => image,
        Err(fault) => return Ok(Step::Answered(refuse_elf(alloc, fault)?)),
    };
    match read_notes(alloc, shelf, &image, notes, options)? {
        Step::Go(found) => Ok(Step::Go((image, found))),
        Step::Answered(answer) => Ok(Step::Answered(answer)),
    }
}
