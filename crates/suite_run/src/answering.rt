//! What one check comes to.
ghost use Rattle.std.specs.Prelude.{◌≡◌, ◌≤◌, ℕ, List, IfOk};
ghost use Rattle.suite_file.specs.Views.{check_view};
ghost use Rattle.suite_run.specs.Answers.{IsAnswer};
ghost use Rattle.suite_run.specs.Views.{came_of};

use crate::came::{Came, Verifier};
use crate::reading::{FileStep, Limit, read_file};
use exit_status::{ELF_REFUSED, NOTES_REFUSED};
use io_edges::Shelf;
use std::alloc::{AllocError, Global};
use suite_file::Check;

/// The limit of an ELF file, which is that of `bilv`.
const ELF: Limit = Limit {
    bytes: 16_777_216,
    status: ELF_REFUSED,
    report: b"elf: TooLarge\n",
};

/// The limit of notes, which is that of `bilv`.
const NOTES: Limit = Limit {
    bytes: 262_144,
    status: NOTES_REFUSED,
    report: b"notes: TooLarge\n",
};

/// What a check comes to: its ELF file and its notes are read, in this order, and verified by its options. The error is out of memory.
pub fn answer_check<V: Verifier, H: Shelf>(
    alloc: Global,
    verifier: &V,
    check: &Check,
    shelf: &mut H,
) -> Result<Came, AllocError>
    ensures keeps { (n : List ℕ) → H.holds shelf.new n ≡ H.holds shelf.old n }
    ensures never_falls { (n : List ℕ) → H.faults shelf.old n ≤ H.faults shelf.new n }
    ensures answer { IfOk result (λ a. IsAnswer (V.is_answer verifier.now) (H.holds shelf.old) (H.faults shelf.old) (H.faults shelf.new)
        (check_view check.now) (came_of a)) }
{
    let file = match read_file(alloc, shelf, check.elf.as_str(), ELF)? {
        FileStep::Go(file) => file,
        FileStep::Unread(came) => return Ok(came),
    };
    let notes = match read_file(alloc, shelf, check.notes.as_str(), NOTES)? {
        FileStep::Go(notes) => notes,
        FileStep::Unread(came) => return Ok(came),
    };
    let came = verifier.verify(alloc, &check.options, file, notes)?;
    Ok(came)
}
