//! Reading whole files, and the answers where that fails.
ghost use Rattle.std.specs.Prelude.{◌≡◌, ℕ, ◌≤◌, List, [], ◌∷◌, IfOk, length};
ghost use Rattle.call_spec.specs.Calls.{plain_answer, read_fault};
ghost use Rattle.call_spec.specs.Outside.{Agrees};
ghost use Rattle.bilv_top.specs.Answers.{IfStep, answer_of};
ghost use Rattle.bilv_top.specs.Due.{IsUnread};
ghost use Rattle.bilv_top.specs.Read.{IsFileRead};
ghost use Rattle.io_edges.specs.Begun.{AreBegun};

use crate::answer::{Answer, Evidence, Step};
use exit_status::READ_FAULT;
use io_edges::{ReadFault, Shelf, read_all};
use std::alloc::{AllocError, Global};

/// The most bytes of a certificate, and of the answer of an outside solver.
pub const TEXT_LIMIT: u64 = 268_435_456;

/// What was read of a file: its bytes, that there are more than the limit, or that a read failed.
#[derive(Drop)]
pub enum FileRead {
    Bytes(Vec<u8>),
    TooLarge,
    Failed,
}

/// Reads a file of at most `limit` bytes. The error is want of memory.
pub fn read_within<H: Shelf>(
    alloc: Global,
    shelf: &mut H,
    name: &str,
    limit: u64,
) -> Result<FileRead, AllocError>
    ensures keeps { (n : List ℕ) → H.holds shelf.new n ≡ H.holds shelf.old n }
    ensures never_falls { (n : List ℕ) → H.faults shelf.old n ≤ H.faults shelf.new n }
    ensures begun { AreBegun (H.begun shelf.old) (H.begun shelf.new) (name.now ∷ []) }
    ensures read { IfOk result (IsFileRead (H.holds shelf.old name.now) limit (H.faults shelf.old name.now) (H.faults shelf.new name.now)) }
{
    match read_all(alloc, shelf, name, limit) {
        Ok(bytes) => Ok(FileRead::Bytes(bytes)),
        Err(ReadFault::TooLarge) => Ok(FileRead::TooLarge),
        Err(ReadFault::Failed) => Ok(FileRead::Failed),
        Err(ReadFault::Memory) => Err(AllocError),
    }
}

/// The answer of a status and a text. The error is want of memory.
pub fn answer(alloc: Global, status: u8, text: &[u8]) -> Result<Answer, AllocError>
    ensures { IfOk result (λ a. answer_of a ≡ plain_answer status text.now) }
{
    let text = text.to_vec(alloc)?;
    Ok(Answer {
        status,
        text,
        evidence: Evidence::None,
    })
}

/// The answer where a file can't be read.
pub fn unread(alloc: Global) -> Result<Answer, AllocError>
    ensures { IfOk result (λ a. answer_of a ≡ read_fault) }
{
    let a = answer(alloc, READ_FAULT, b"read fault\n")?;
    Ok(a)
}

/// Reads a file of at most `limit` bytes, or answers: `large` with its status where there are more.
/// The error is want of memory.
pub fn read_or_answer<H: Shelf>(
    alloc: Global,
    shelf: &mut H,
    name: &str,
    limit: u64,
    status: u8,
    large: &[u8],
) -> Result<Step<Vec<u8>>, AllocError>
    ensures keeps { (n : List ℕ) → H.holds shelf.new n ≡ H.holds shelf.old n }
    ensures never_falls { (n : List ℕ) → H.faults shelf.old n ≤ H.faults shelf.new n }
    ensures begun { AreBegun (H.begun shelf.old) (H.begun shelf.new) (name.now ∷ []) }
    ensures read { IfOk result (λ step. IfStep step
        (IsUnread (H.holds shelf.old name.now) (H.faults shelf.old name.now) (H.faults shelf.new name.now) limit (plain_answer status large.now))
        (λ v. Agrees (H.holds shelf.old name.now) v.items × (length v.items ≤ limit))) }
{
    match read_within(alloc, shelf, name, limit)? {
        FileRead::Bytes(bytes) => Ok(Step::Go(bytes)),
        FileRead::TooLarge => Ok(Step::Answered(answer(alloc, status, large)?)),
        FileRead::Failed => Ok(Step::Answered(unread(alloc)?)),
    }
}
