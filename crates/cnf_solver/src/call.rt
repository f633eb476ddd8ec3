//! The public call.
ghost use Rattle.std.specs.Prelude.{IfOk, map, string_bytes};
ghost use Rattle.cnf_solver.specs.Answers.{answer_of};
ghost use Rattle.cnf_solver.specs.Ends.{IsDue, IsOutcome};
ghost use Rattle.cnf_solver.specs.Requests.{files_of, lawful_request};
ghost use Rattle.io_edges.specs.Begun.{AreBegun};
ghost use Rattle.io_edges.specs.Met.{met, seen};

use crate::answer::Answer;
use crate::line::read_request;
use crate::solve::{answer, obey};
use command_line::LineError;
use exit_status::{NO_MEMORY, USAGE, WRITE_FAULT};
use io_edges::{Shelf, Sink, write_all};
use std::alloc::{AllocError, Global};

/// The answer that is due to words.
fn due<H: Shelf>(alloc: Global, words: &[String], shelf: &mut H) -> Result<Answer, AllocError>
    ensures begun { AreBegun (H.begun shelf.old) (H.begun shelf.new) (files_of (lawful_request (map (λ w. string_bytes w) words.now))) }
    ensures due { IfOk result (λ a. IsDue (seen (H.holds shelf.old) (H.faults shelf.old) (H.faults shelf.new))
        (lawful_request (map (λ w. string_bytes w) words.now)) (answer_of a)) }
{
    match read_request(alloc, words) {
        Ok(request) => obey(alloc, request, shelf),
        Err(LineError::Usage) => answer(
            alloc,
            USAGE,
            b"usage: bilv_solve FILE [--conflicts C] [--certificate]\n",
        ),
        Err(LineError::Memory) => Err(AllocError),
    }
}

/// Answers a command line, `bilv_solve FILE [--conflicts C] [--certificate]`: reads the file's clauses (DIMACS CNF), searches, writes one text,
/// and gives the exit status.
///
/// The status is 10 with `s SATISFIABLE` and satisfying values, 20 with `s UNSATISFIABLE` and the certificate where it is asked for, and 0 with
/// `s UNKNOWN` where the search learned `C` clauses (1 to 4294967295, else 200000); 2 for an unlawful line, 6 for a file that could not be read,
/// 7 for a write that failed, 8 for want of memory, and 9 for clauses that are refused.
pub fn bilv_solve<H: Shelf, K: Sink>(
    alloc: Global,
    words: &[String],
    shelf: &mut H,
    out: &mut K,
) -> u8
    // From each place of the file of the line at most one read begins, and no other file is read.
    ensures begun { AreBegun (H.begun shelf.old) (H.begun shelf.new) (files_of (lawful_request (map (λ w. string_bytes w) words.now))) }
    ensures outcome { IsOutcome (met (seen (H.holds shelf.old) (H.faults shelf.old) (H.faults shelf.new)) (K.written out.old) (K.written out.new)
        (K.faults out.old) (K.faults out.new)) (lawful_request (map (λ w. string_bytes w) words.now)) result }
{
    let Ok(answer) = due(alloc, words, shelf) else {
        return NO_MEMORY;
    };
    match write_all(out, &answer.text) {
        Ok(()) => answer.status,
        Err(_) => WRITE_FAULT,
    }
}
