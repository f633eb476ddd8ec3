//! Two functions of a command: their ELF files, their notes and the links between them, and the answers where one of these is refused.
ghost use Rattle.std.specs.Prelude.{◌≡◌, ◌≤◌, ℕ, List, [], ◌∷◌, IfOk, codes, length};
ghost use Rattle.call_spec.specs.Calls.{plain_answer};
ghost use Rattle.call_spec.specs.Outside.{Agrees};
ghost use Rattle.notes_spec.specs.Scopes.{Paired};
ghost use Rattle.notes_spec.specs.Programs.{names_of};
ghost use Rattle.notes_spec.specs.Verified as verified;
ghost use Rattle.notes_spec.specs.Verified.{IsAccepted};
ghost use Rattle.pair_spec.specs.Equals as equals;
ghost use Rattle.word_spec.specs.Texts.{line};
ghost use Rattle.command_line.specs.Commands.{options_of};
ghost use Rattle.links_lang.specs.Telling.{fault_of};
ghost use Rattle.notes_lang.specs.Parsing.{layout_names};
ghost use Rattle.pair_sides.specs.Sides.{IsSided, side_of};
ghost use Rattle.bilv_top.specs.Answers.{IfStep, answer_of};
ghost use Rattle.bilv_top.specs.Due.{IsFoundBy, IsOverFile, IsUnread};
ghost use Rattle.bilv_top.specs.Pairs.{AreLinksFound, IsElfAnswered, IsLinksAnswer, IsNotesAnswerOf, link_fault_text, program_found_by, with_word};
ghost use Rattle.io_edges.specs.Begun.{AreBegun};

use crate::answer::{Answer, Evidence, Step};
use crate::inputs::{ELF_LIMIT, Found, NOTES_LIMIT, find_program_in, refuse_elf};
use crate::machines::layout;
use crate::reading::read_or_answer;
use crate::texts::{link_fault_text, refused_line};
use command_line::Options;
use elf32_reader::{Image, read_image};
use exit_status::{ELF_REFUSED, NOTES_REFUSED};
use io_edges::Shelf;
use links_lang::{Link, LinkFault, LinksError, parse_links};
use notes_lang::Dialect;
use pair_sides::Sided;
use start_value::Layout;
use std::alloc::{AllocError, Global};

/// The most bytes of the text of links.
const LINKS_LIMIT: u64 = 262_144;

/// Which of two functions.
#[derive(Clone, Copy)]
pub enum Which {
    First,
    Second,
}

/// The word of a side, with the blank after it.
fn word(which: Which) -> &'static [u8]
    ensures { result.now ≡ with_word which [] }
{
    match which {
        Which::First => b"first ",
        Which::Second => b"second ",
    }
}

/// The line of an ELF file with too many bytes.
fn elf_large(which: Which) -> &'static [u8]
    ensures { result.now ≡ with_word which (line (codes "elf: TooLarge")) }
{
    match which {
        Which::First => b"first elf: TooLarge\n",
        Which::Second => b"second elf: TooLarge\n",
    }
}

/// The line of notes with too many bytes.
fn notes_large(which: Which) -> &'static [u8]
    ensures { result.now ≡ with_word which (line (codes "notes: TooLarge")) }
{
    match which {
        Which::First => b"first notes: TooLarge\n",
        Which::Second => b"second notes: TooLarge\n",
    }
}

/// An answer about one side, with its word before the text. The error is out of memory.
pub fn of_side(alloc: Global, which: Which, answer: Answer) -> Result<Answer, AllocError>
    ensures { IfOk result (λ a. answer_of a ≡ record (answer_of answer) { text = with_word which (answer_of answer).text }) }
{
    let mut text = word(which).to_vec(alloc)?;
    text.extend_from_slice(&answer.text)?;
    Ok(Answer {
        status: answer.status,
        text,
        evidence: answer.evidence,
    })
}

/// Reads the ELF file of a side, or answers. The error is out of memory.
pub fn read_elf_of<H: Shelf>(
    alloc: Global,
    shelf: &mut H,
    which: Which,
    name: &str,
) -> Result<Step<Vec<u8>>, AllocError>
    ensures keeps { (n : List ℕ) → H.holds shelf.new n ≡ H.holds shelf.old n }
    ensures never_falls { (n : List ℕ) → H.faults shelf.old n ≤ H.faults shelf.new n }
    ensures begun { AreBegun (H.begun shelf.old) (H.begun shelf.new) (name.now ∷ []) }
    ensures read { IfOk result (λ step. IfStep step
        (IsUnread (H.holds shelf.old name.now) (H.faults shelf.old name.now) (H.faults shelf.new name.now) verified.elf_limit
        (plain_answer 4 (with_word which (line (codes "elf: TooLarge")))))
        (λ v. Agrees (H.holds shelf.old name.now) v.items × (length v.items ≤ verified.elf_limit))) }
{
    let large = elf_large(which);
    let step = read_or_answer(alloc, shelf, name, ELF_LIMIT, ELF_REFUSED, large)?;
    Ok(step)
}

/// The image of the ELF file of a side, or the answer that refuses it. The error is out of memory.
pub fn open_elf<'a>(
    alloc: Global,
    which: Which,
    file: &'a [u8],
) -> Result<Step<Image<'a>>, AllocError>
    requires short { length file.now ≤ verified.elf_limit }
    ensures { IfOk result (λ step. IfStep step (IsElfAnswered which file.now) (λ x. (x ≡ file.now) × IsAccepted file.now)) }
{
    match read_image(alloc, file) {
        Ok(image) => Ok(Step::Go(image)),
        Err(fault) => {
            let refusal = refuse_elf(alloc, fault)?;
            let answer = of_side(alloc, which, refusal)?;
            Ok(Step::Answered(answer))
        }
    }
}

/// The notes of a side that a text says, which have neither invariants nor contracts, or the answer that refuses them. The error is out of memory.
fn find_program_of(
    alloc: Global,
    which: Which,
    image: &Image,
    text: Vec<u8>,
    options: Options,
) -> Result<Step<Found>, AllocError>
    requires short { length text.items ≤ verified.notes_limit }
    ensures { IfOk result (λ step. IfStep step
        (λ a. (written : List ℕ) × verified.AreNotesRefusedIn Paired (options_of options) image.now text.items written × (a ≡ plain_answer 5 (with_word which written)))
        (λ f. (f.text.items ≡ text.items) × IsFoundBy (options_of options) image.now f)) }
{
    match find_program_in(alloc, image, text, options, Dialect::Paired)? {
        Step::Go(found) => Ok(Step::Go(found)),
        Step::Answered(refusal) => Ok(Step::Answered(of_side(alloc, which, refusal)?)),
    }
}

/// Reads the notes of a side and finds their function, or answers. The error is out of memory.
pub fn read_notes_of<H: Shelf>(
    alloc: Global,
    shelf: &mut H,
    which: Which,
    image: &Image,
    name: &str,
    options: Options,
) -> Result<Step<Found>, AllocError>
    ensures keeps { (n : List ℕ) → H.holds shelf.new n ≡ H.holds shelf.old n }
    ensures never_falls { (n : List ℕ) → H.faults shelf.old n ≤ H.faults shelf.new n }
    ensures begun { AreBegun (H.begun shelf.old) (H.begun shelf.new) (name.now ∷ []) }
    ensures read { IfOk result (λ step. IfStep step
        (IsNotesAnswerOf which (H.holds shelf.old name.now) (H.faults shelf.old name.now) (H.faults shelf.new name.now) (options_of options) image.now)
        (λ f. Agrees (H.holds shelf.old name.now) f.text.items × (length f.text.items ≤ verified.notes_limit)
        × IsFoundBy (options_of options) image.now f)) }
{
    let large = notes_large(which);
    let step = match read_or_answer(alloc, shelf, name, NOTES_LIMIT, NOTES_REFUSED, large)? {
        Step::Go(text) => find_program_of(alloc, which, image, text, options)?,
        Step::Answered(answer) => Step::Answered(answer),
    };
    Ok(step)
}

/// The function of a side, whose notes were found over its file.
pub fn sided<'a>(image: &'a Image<'a>, found: &'a Found, options: Options) -> Sided<'a>
    requires found { IsOverFile image.now found.now }
    ensures sided { IsSided result }
    ensures side { side_of result ≡ equals.side_of (options_of options) image.now (program_found_by (options_of options) image.now found.now) }
    ensures names { layout_names result.layout ≡ names_of result.image.now }
    ensures file { result.image.now ≡ image.now }
{
    image.bytes();
    Sided {
        image,
        notes: &found.notes,
        entry: found.entry,
        layout: layout(image, options),
    }
}

/// The answer to links with a faulty line. The error is out of memory.
fn refuse_links(alloc: Global, line: u32, fault: LinkFault) -> Result<Answer, AllocError>
    ensures { IfOk result (λ a. answer_of a ≡ plain_answer 5 (link_fault_text line (fault_of fault))) }
{
    let words = link_fault_text(fault);
    let text = refused_line(alloc, b"links: line", line as u64, words)?;
    Ok(Answer {
        status: NOTES_REFUSED,
        text,
        evidence: Evidence::None,
    })
}

/// Reads the links between functions of machines of two forms, or answers. The error is out of memory.
pub fn read_links<H: Shelf>(
    alloc: Global,
    shelf: &mut H,
    name: &str,
    first: Layout,
    second: Layout,
) -> Result<Step<Vec<Link>>, AllocError>
    ensures keeps { (n : List ℕ) → H.holds shelf.new n ≡ H.holds shelf.old n }
    ensures never_falls { (n : List ℕ) → H.faults shelf.old n ≤ H.faults shelf.new n }
    ensures begun { AreBegun (H.begun shelf.old) (H.begun shelf.new) (name.now ∷ []) }
    ensures read { IfOk result (λ step. IfStep step
        (IsLinksAnswer (H.holds shelf.old name.now) (H.faults shelf.old name.now) (H.faults shelf.new name.now) (layout_names first) (layout_names second))
        (λ v. AreLinksFound (H.holds shelf.old name.now) first second v.items)) }
{
    let large = b"links: TooLarge\n";
    let text = match read_or_answer(alloc, shelf, name, LINKS_LIMIT, NOTES_REFUSED, large)? {
        Step::Go(text) => text,
        Step::Answered(answer) => return Ok(Step::Answered(answer)),
    };
    match parse_links(alloc, &text, first, second) {
        Ok(links) => Ok(Step::Go(links)),
        Err(LinksError::Refused { line, fault }) => {
            Ok(Step::Answered(refuse_links(alloc, line, fault)?))
        }
        Err(LinksError::Memory) => Err(AllocError),
    }
}
