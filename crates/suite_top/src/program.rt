//! The program: the answer to the words of its command line.
ghost use Rattle.std.specs.Prelude.{◌≡◌, Some, IfOk, OnErr, map, string_bytes};
ghost use Rattle.io_edges.specs.Met.{met, seen};
ghost use Rattle.suite_line.specs.Requests.{lawful_request};
ghost use Rattle.suite_line.specs.Views.{request_of};
ghost use Rattle.suite_top.specs.Ends.{IsDone, IsEnd};

use crate::files::answer_files;
use crate::refusing::{out_of_memory, refuse_line};
use crate::single::{Checker, Expander};
use crate::verify::Bilv;
use command_line::LineError;
use io_edges::{Shelf, Sink};
use std::alloc::{AllocError, Global};
use suite_line::{Request, read_request};
use suite_run::{Ended, run_suite};

/// Answers a request.
fn answer_request<H: Shelf, K: Sink>(
    alloc: Global,
    request: Request,
    shelf: &mut H,
    out: &mut K,
) -> Ended
    ensures { IsDone (met (seen (H.holds shelf.old) (H.faults shelf.old) (H.faults shelf.new)) (K.written out.old)
        (K.written out.new) (K.faults out.old) (K.faults out.new)) (Some (request_of request.entry)) result.status }
{
    match request {
        Request::Run(run) => run_suite(alloc, &Bilv, run, shelf, out),
        Request::Notes(files) => answer_files(alloc, &Expander, files, shelf, out),
        Request::Check(files) => answer_files(alloc, &Checker, files, shelf, out),
    }
}

/// Answers a command line.
fn answer_line<H: Shelf, K: Sink>(
    alloc: Global,
    words: &[String],
    shelf: &mut H,
    out: &mut K,
) -> Ended
    ensures { IsEnd (met (seen (H.holds shelf.old) (H.faults shelf.old) (H.faults shelf.new)) (K.written out.old)
        (K.written out.new) (K.faults out.old) (K.faults out.new)) (lawful_request (map string_bytes words.now)) result.status }
{
    match read_request(alloc, words) {
        Ok(request) => answer_request(alloc, request, shelf, out),
        Err(LineError::Usage) => refuse_line(alloc),
        Err(LineError::Memory) => out_of_memory(),
    }
}

/// Answers words, over files and a sink, and gives the status with which the program ends, and what it says of it to standard error; or the status of memory that
/// ran out before there were words, where nothing is written.
pub fn answer_words<H: Shelf, K: Sink>(
    alloc: Global,
    words: Result<Vec<String>, AllocError>,
    shelf: &mut H,
    out: &mut K,
) -> Ended
    ensures answered { IfOk words (λ w. IsEnd (met (seen (H.holds shelf.old) (H.faults shelf.old) (H.faults shelf.new)) (K.written out.old)
        (K.written out.new) (K.faults out.old) (K.faults out.new)) (lawful_request (map string_bytes w.items)) result.status) }
    ensures no_words { OnErr words ((result.status ≡ 8) × (K.written out.new ≡ K.written out.old)) }
{
    let Ok(words) = words else {
        return out_of_memory();
    };
    answer_line(alloc, &words, shelf, out)
}
