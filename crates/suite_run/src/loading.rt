//! Suites, from their files.
ghost use Rattle.std.specs.Prelude.{◌≡◌, ◌≤◌, ℕ, List, IfOk, is_some};
ghost use Rattle.suite_file.specs.Views.{fault_of};
ghost use Rattle.suite_run.specs.Loads.{IsLoaded, IsParsed, Stopped};
ghost use Rattle.suite_run.specs.LoadViews.{loaded_of};

use crate::ended::Ended;
use exit_status::{READ_FAULT, TEXT_REFUSED};
use io_edges::{ReadFault, Shelf, read_all};
use std::alloc::{AllocError, Global};
use suite_file::{Suite, SuiteFault, parse_suite};

/// The most bytes of a suite.
const SUITE_LIMIT: u64 = 1_048_576;

/// A suite, or how the program ends without one.
#[derive(Drop)]
pub(crate) enum Loaded {
    Suite(Suite),
    Stopped(Ended),
}

/// The end with a status and a message. The error is out of memory.
fn stopped(status: u8, message: Result<String, AllocError>) -> Result<Loaded, AllocError>
    ensures { IfOk result (λ l. loaded_of l ≡ Stopped status) }
{
    let message = message?;
    Ok(Loaded::Stopped(Ended {
        status,
        message: Some(message),
    }))
}

/// Whether a fault is one of the text, and not want of memory.
fn is_of_text(fault: &SuiteFault) -> bool
    ensures { result ≡ is_some (fault_of fault.now) }
{
    match fault {
        SuiteFault::Memory => false,
        _ => true,
    }
}

/// The suite of a file's bytes. The error is out of memory.
fn parsed(alloc: Global, name: &str, bytes: &[u8]) -> Result<Loaded, AllocError>
    ensures { IfOk result (λ l. IsParsed bytes.now (loaded_of l)) }
{
    let Ok(text) = str::from_utf8(bytes) else {
        let end = stopped(TEXT_REFUSED, format!(in alloc; "{name}: not UTF-8\n"))?;
        return Ok(end);
    };
    match parse_suite(alloc, text) {
        Ok(suite) => Ok(Loaded::Suite(suite)),
        Err(fault) => {
            if !is_of_text(&fault) {
                return Err(AllocError);
            }
            let end = stopped(TEXT_REFUSED, format!(in alloc; "{name}: {fault}\n"))?;
            Ok(end)
        }
    }
}

/// Reads a suite. The error is out of memory.
pub(crate) fn load<H: Shelf>(alloc: Global, shelf: &mut H, name: &str) -> Result<Loaded, AllocError>
    ensures keeps { (n : List ℕ) → H.holds shelf.new n ≡ H.holds shelf.old n }
    ensures never_falls { (n : List ℕ) → H.faults shelf.old n ≤ H.faults shelf.new n }
    ensures loaded { IfOk result (λ l. IsLoaded (H.holds shelf.old) (H.faults shelf.old) (H.faults shelf.new) name.now (loaded_of l)) }
{
    match read_all(alloc, shelf, name, SUITE_LIMIT) {
        Ok(bytes) => {
            let loaded = parsed(alloc, name, &bytes)?;
            Ok(loaded)
        }
        Err(ReadFault::TooLarge) => {
            let end = stopped(TEXT_REFUSED, format!(in alloc; "{name}: too large\n"))?;
            Ok(end)
        }
        Err(ReadFault::Failed) => {
            let end = stopped(READ_FAULT, format!(in alloc; "{name}: cannot be read\n"))?;
            Ok(end)
        }
        Err(ReadFault::Memory) => Err(AllocError),
    }
}
