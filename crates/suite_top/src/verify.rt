//! `bilv verify`, over files in memory.
ghost use Rattle.std.specs.Prelude.{◌≡◌, ℕ, List, IfOk, map, string_bytes};
ghost use Rattle.io_edges.specs.Shelves.{kept_in};
ghost use Rattle.suite_top.specs.Verified.{IsTold, IsVerified, two_files};

use crate::asked::checked_by;
use bilv_top::bilv;
use exit_status::{NO_MEMORY, NOTES_REFUSED};
use io_edges::{MemFile, MemSink, NeverFailShelf};
use note_check::Warning;
use std::alloc::{AllocError, Global};
use suite_notes::{Expansion, notes_of};
use suite_report::verify_words;
use suite_run::{Came, Verifier};

/// The most bytes of a report.
const ROOM: usize = 16_777_216;

/// A file in memory. The error is out of memory.
fn file_of(alloc: Global, name: &str, bytes: Vec<u8>) -> Result<MemFile, AllocError>
    ensures named { IfOk result (λ f. string_bytes f.name ≡ name.now) }
    ensures bytes { IfOk result (λ f. f.bytes.items ≡ bytes.items) }
{
    let name = String::from_str(alloc, name)?;
    Ok(MemFile { name, bytes })
}

/// A shelf of an ELF file and of notes, under these names. The error is out of memory.
fn shelf_of(alloc: Global, elf: Vec<u8>, notes: Vec<u8>) -> Result<NeverFailShelf, AllocError>
    ensures { IfOk result (λ s. (n : List ℕ) → kept_in s n ≡ two_files elf.items notes.items n) }
{
    let elf_file = file_of(alloc, "elf", elf)?;
    let notes_file = file_of(alloc, "notes", notes)?;
    let mut files = Vec::new(alloc);
    files.push(elf_file)?;
    files.push(notes_file)?;
    let shelf = NeverFailShelf::new(files);
    Ok(shelf)
}

/// What `bilv` answers to words over a shelf, beside these warnings. The error is out of memory, also for a report that is longer than the most.
fn told(
    alloc: Global,
    words: &[String],
    shelf: &mut NeverFailShelf,
    warnings: Vec<Warning>,
) -> Result<Came, AllocError>
    ensures told { IfOk result (λ a. IsTold (kept_in shelf.old) (map string_bytes words.now) a.status a.report.items) }
    ensures warned { IfOk result (λ a. a.warnings.items ≡ warnings.items) }
{
    let mut out = MemSink::new(alloc, ROOM, ROOM, Vec::new(alloc))?;
    let outcome = bilv(alloc, words, shelf, &mut out);
    let status = outcome.status;
    if status == NO_MEMORY {
        return Err(AllocError);
    }
    if out.fault_count() > 0 {
        return Err(AllocError);
    }
    let report = out.text().to_vec(alloc)?;
    Ok(Came {
        status,
        report,
        warnings,
    })
}

/// What `bilv verify` answers to notes over an ELF file, by the words of options, with the warnings about them. The error is out of memory.
fn verify_notes(
    alloc: Global,
    options: &[String],
    file: Vec<u8>,
    notes: Vec<u8>,
) -> Result<Came, AllocError>
    ensures { IfOk result (λ a. IsVerified (map string_bytes options.now) file.items notes.items a.status a.report.items a.warnings.items) }
{
    let words = verify_words(alloc, options)?;
    let checked = checked_by(alloc, &words, &file, &notes)?;
    let mut shelf = shelf_of(alloc, file, notes)?;
    let came = told(alloc, &words, &mut shelf, checked.warnings)?;
    Ok(came)
}

/// `bilv verify`, which is asked by a command line over files in memory: an ELF file, and the notes that a template stands for.
#[derive(Clone, Copy)]
pub struct Bilv;

impl Verifier for Bilv {
    ghost use Rattle.suite_top.specs.Verified.{IsAsked};

    ghost is_answer = { λ _. IsAsked };

    fn verify(
        &self,
        alloc: Global,
        options: &[String],
        file: Vec<u8>,
        notes: Vec<u8>,
    ) -> Result<Came, AllocError> {
        match notes_of(alloc, &file, notes)? {
            Expansion::Notes(notes) => {
                let came = verify_notes(alloc, options, file, notes)?;
                Ok(came)
            }
            Expansion::Refused(report) => Ok(Came {
                status: NOTES_REFUSED,
                report,
                warnings: Vec::new(alloc),
            }),
        }
    }
}
