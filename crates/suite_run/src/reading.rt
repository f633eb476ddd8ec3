//! Whole files, and what checks come to where these are not read.
ghost use Rattle.std.specs.Prelude.{◌≡◌, ◌≤◌, ◌++◌, ℕ, List, IfOk, codes};
ghost use Rattle.word_spec.specs.Texts.{line};
ghost use Rattle.suite_run.specs.Answers.{came, unread_came};
ghost use Rattle.suite_run.specs.Views.{IsFileStep, came_of};

use crate::came::Came;
use exit_status::READ_FAULT;
use io_edges::{ReadFault, Shelf, read_all};
use std::alloc::{AllocError, Global};

/// A file's bytes, or what a check comes to without them.
#[derive(Drop)]
pub(crate) enum FileStep {
    Go(Vec<u8>),
    Unread(Came),
}

/// The most bytes of a file, and what a check comes to where there are more.
#[derive(Clone, Copy)]
pub(crate) struct Limit {
    pub(crate) bytes: u64,
    pub(crate) status: u8,
    pub(crate) report: &'static [u8],
}

/// What a check comes to whose file cannot be read. The error is out of memory.
fn unread(alloc: Global, name: &str) -> Result<Came, AllocError>
    ensures { IfOk result (λ a. came_of a ≡ unread_came name.now) }
{
    let mut report = b"cannot read ".to_vec(alloc)?;
    report.extend_from_slice(name.as_bytes())?;
    report.extend_from_slice(b"\n")?;
    Ok(Came {
        status: READ_FAULT,
        report,
        warnings: Vec::new(alloc),
    })
}

/// Reads a file within a limit. The error is out of memory.
pub(crate) fn read_file<H: Shelf>(
    alloc: Global,
    shelf: &mut H,
    name: &str,
    limit: Limit,
) -> Result<FileStep, AllocError>
    ensures keeps { (n : List ℕ) → H.holds shelf.new n ≡ H.holds shelf.old n }
    ensures never_falls { (n : List ℕ) → H.faults shelf.old n ≤ H.faults shelf.new n }
    ensures read { IfOk result (IsFileStep (H.holds shelf.old) (H.faults shelf.old) (H.faults shelf.new) name.now limit) }
{
    match read_all(alloc, shelf, name, limit.bytes) {
        Ok(bytes) => Ok(FileStep::Go(bytes)),
        Err(ReadFault::TooLarge) => {
            let report = limit.report.to_vec(alloc)?;
            Ok(FileStep::Unread(Came {
                status: limit.status,
                report,
                warnings: Vec::new(alloc),
            }))
        }
        Err(ReadFault::Failed) => {
            let came = unread(alloc, name)?;
            Ok(FileStep::Unread(came))
        }
        Err(ReadFault::Memory) => Err(AllocError),
    }
}
