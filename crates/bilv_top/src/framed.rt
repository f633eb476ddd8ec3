//! The inputs of commands that know invariants and contracts: notes over an image that may have them.
ghost use Rattle.std.specs.Prelude.{◌≡◌, ◌≤◌, ℕ, List, [], ◌∷◌, true, false, IfOk, length};
ghost use Rattle.command_line.specs.Commands.{options_of};
ghost use Rattle.call_spec.specs.Outside.{Agrees};
ghost use Rattle.notes_spec.specs.Verified as verified;
ghost use Rattle.notes_spec.specs.Verified.{AfterImage, IsAccepted};
ghost use Rattle.answer_spec.specs.FrameAnswers.{dialect_for};
ghost use Rattle.bilv_top.specs.Answers.{IfStep};
ghost use Rattle.bilv_top.specs.Due.{AreNotesAnsweredIn, IsFramesAnswer};
ghost use Rattle.bilv_top.specs.Frames.{HasSome, IsFramedBy};
ghost use Rattle.io_edges.specs.Begun.{AreBegun};

use crate::answer::Step;
use crate::inputs::{Found, NOTES_LIMIT, entry_of, refuse_elf, refuse_line, refuse_name};
use crate::machines::layout;
use crate::reading::read_or_answer;
use command_line::Options;
use elf32_reader::{Image, read_image};
use exit_status::NOTES_REFUSED;
use framed_notes::parse_headed;
use io_edges::Shelf;
use notes_lang::NotesError;
use notes_value::Contract;
use std::alloc::{AllocError, Global};

/// Notes over an image, their text, and the address of their function; the numbers of those assert lines that are invariants, which rise; and the contracts in the
/// order of their ranks.
#[derive(Drop)]
pub struct Framed {
    pub found: Found,
    pub invariants: Vec<u32>,
    pub contracts: Vec<Contract>,
}

impl Framed {
    /// Notes without invariants and contracts.
    pub fn plain(alloc: Global, found: Found) -> Framed
        ensures found { result.found ≡ found }
        ensures none { (result.invariants.items ≡ []) × (result.contracts.items ≡ []) }
    {
        Framed {
            found,
            invariants: Vec::new(alloc),
            contracts: Vec::new(alloc),
        }
    }

    /// Whether they have neither invariants nor contracts.
    pub fn is_plain(&self) -> bool
        ensures yes { result ≡ true → (self.now.invariants.items ≡ []) × (self.now.contracts.items ≡ []) }
        ensures no { result ≡ false → HasSome self.now.invariants.items self.now.contracts.items }
    {
        if !self.invariants.is_empty() {
            return false;
        }
        self.contracts.is_empty()
    }
}

/// The notes that a text says over an image, with their invariants and contracts, by some options of the image, and the address of their function, or the answer
/// that refuses them. The error is out of memory.
pub fn find_framed(
    alloc: Global,
    image: &Image,
    text: Vec<u8>,
    options: Options,
) -> Result<Step<Framed>, AllocError>
    requires short { length text.items ≤ verified.notes_limit }
    ensures { IfOk result (λ step. IfStep step (AreNotesAnsweredIn (dialect_for text.items) (options_of options) image.now text.items)
        (λ f. (f.found.text.items ≡ text.items) × IsFramedBy (options_of options) image.now f)) }
{
    let read = match parse_headed(alloc, &text, layout(image, options)) {
        Ok(read) => read,
        Err(NotesError::Fault(fault)) => return Ok(Step::Answered(refuse_line(alloc, fault)?)),
        Err(NotesError::Memory) => return Err(AllocError),
    };
    let notes = read.notes;
    let invariants = read.invariants;
    let contracts = read.contracts;
    match entry_of(image, &notes, options) {
        Ok(entry) => {
            let found = Found { text, notes, entry };
            let framed = Framed {
                found,
                invariants,
                contracts,
            };
            Ok(Step::Go(framed))
        }
        Err(fault) => Ok(Step::Answered(refuse_name(alloc, fault)?)),
    }
}

/// Reads notes over an image with their invariants and contracts, and finds their function, or answers. The error is out of memory.
fn read_framed_notes<H: Shelf>(
    alloc: Global,
    shelf: &mut H,
    image: &Image,
    name: &str,
    options: Options,
) -> Result<Step<Framed>, AllocError>
    ensures keeps { (n : List ℕ) → H.holds shelf.new n ≡ H.holds shelf.old n }
    ensures never_falls { (n : List ℕ) → H.faults shelf.old n ≤ H.faults shelf.new n }
    ensures begun { AreBegun (H.begun shelf.old) (H.begun shelf.new) (name.now ∷ []) }
    ensures read { IfOk result (λ step. IfStep step
        (IsFramesAnswer (H.holds shelf.old name.now) (H.faults shelf.old name.now) (H.faults shelf.new name.now) (options_of options) image.now)
        (λ f. Agrees (H.holds shelf.old name.now) f.found.text.items × (length f.found.text.items ≤ verified.notes_limit)
        × IsFramedBy (options_of options) image.now f)) }
{
    let large = b"notes: TooLarge\n";
    let step = match read_or_answer(alloc, shelf, name, NOTES_LIMIT, NOTES_REFUSED, large)? {
        Step::Go(text) => find_framed(alloc, image, text, options)?,
        Step::Answered(answer) => Step::Answered(answer),
    };
    Ok(step)
}

/// Reads the image of an ELF file that was read and notes over it with their invariants and contracts, and finds their function, or answers. The error is out of
/// memory.
#[tactic(auto, using(io_edges::proofs::Beginning::begun_none))]
pub fn read_framed<'a, H: Shelf>(
    alloc: Global,
    shelf: &mut H,
    file: &'a [u8],
    notes: &str,
    options: Options,
) -> Result<Step<(Image<'a>, Framed)>, AllocError>
    requires short { length file.now ≤ verified.elf_limit }
    ensures keeps { (n : List ℕ) → H.holds shelf.new n ≡ H.holds shelf.old n }
    ensures never_falls { (n : List ℕ) → H.faults shelf.old n ≤ H.faults shelf.new n }
    ensures begun { AreBegun (H.begun shelf.old) (H.begun shelf.new) (notes.now ∷ []) }
    ensures read { IfOk result (λ step. IfStep step
        (AfterImage file.now (IsFramesAnswer (H.holds shelf.old notes.now) (H.faults shelf.old notes.now) (H.faults shelf.new notes.now) (options_of options)
        file.now))
        (λ x. (x.0 ≡ file.now) × IsAccepted file.now × Agrees (H.holds shelf.old notes.now) x.1.found.text.items
        × (length x.1.found.text.items ≤ verified.notes_limit) × IsFramedBy (options_of options) file.now x.1)) }
{
    let image = match read_image(alloc, file) {
        Ok(image) => image,
        Err(fault) => return Ok(Step::Answered(refuse_elf(alloc, fault)?)),
    };
    match read_framed_notes(alloc, shelf, &image, notes, options)? {
        Step::Go(framed) => Ok(Step::Go((image, framed))),
        Step::Answered(answer) => Ok(Step::Answered(answer)),
    }
}
