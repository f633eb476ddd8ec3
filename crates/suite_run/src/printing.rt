//! Texts that are printed, and single answers.
ghost use Rattle.std.specs.Prelude.{◌≡◌, ℕ, List};
ghost use Rattle.io_edges.specs.Met.{met, seen};
ghost use Rattle.suite_file.specs.Views.{check_view};
ghost use Rattle.suite_run.specs.Prints.{IsPrinted, IsPrintedAnswer};

use crate::answering::answer_check;
use crate::came::Verifier;
use exit_status::{NO_MEMORY, WRITE_FAULT};
use io_edges::{Shelf, Sink, write_all};
use std::alloc::Global;
use suite_file::Check;

/// Prints a text, and gives a status, or 7 where a write failed.
pub(crate) fn print_text<K: Sink>(text: &[u8], status: u8, out: &mut K) -> u8
    ensures { IsPrinted text.now status (K.written out.old) (K.written out.new) (K.faults out.old) (K.faults out.new) result }
{
    match write_all(out, text) {
        Ok(()) => status,
        Err(_) => WRITE_FAULT,
    }
}

/// Answers a check alone, and prints the whole text of its report. It gives the status of the answer, 7 where a write failed, or 8 where memory ran out.
pub fn print_answer<V: Verifier, H: Shelf, K: Sink>(
    alloc: Global,
    verifier: &V,
    check: &Check,
    shelf: &mut H,
    out: &mut K,
) -> u8
    ensures { IsPrintedAnswer (V.is_answer verifier.now) (met (seen (H.holds shelf.old) (H.faults shelf.old) (H.faults shelf.new)) (K.written out.old)
        (K.written out.new) (K.faults out.old) (K.faults out.new)) (check_view check.now) result }
{
    match answer_check(alloc, verifier, check, shelf) {
        Ok(came) => print_text(&came.report, came.status, out),
        Err(_) => NO_MEMORY,
    }
}
