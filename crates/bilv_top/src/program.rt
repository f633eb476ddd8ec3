//! The program: the answer to the words of its command line, and the exit status.
ghost use Rattle.std.specs.Prelude.{◌≡◌, IfOk, OnErr, map, string_bytes};
ghost use Rattle.std.specs.Process.{exit_status};
ghost use Rattle.command_line.specs.Lines.{lawful_command};
ghost use Rattle.bilv_top.specs.Ends.{IsProgramEnd};
ghost use Rattle.bilv_top.specs.Reads.{files_of_line};
ghost use Rattle.io_edges.specs.Begun.{AreBegun};
ghost use Rattle.io_edges.specs.Met.{met, seen};

use crate::call::bilv;
use exit_status::{End, NO_MEMORY};
use io_edges::{Shelf, Sink};
use std::alloc::{AllocError, Global};

/// Answers words, over files and a sink, and gives the end of the program: with the status of the answer, or with that of memory that ran out before there
/// were words, where nothing is written.
pub fn answer_words<H: Shelf, K: Sink>(
    alloc: Global,
    words: Result<Vec<String>, AllocError>,
    shelf: &mut H,
    out: &mut K,
) -> End
    ensures answered { IfOk words (λ w. IsProgramEnd (met (seen (H.holds shelf.old) (H.faults shelf.old) (H.faults shelf.new)) (K.written out.old)
        (K.written out.new) (K.faults out.old) (K.faults out.new)) (map (λ x. string_bytes x) w.items) (exit_status result.code)) }
    ensures begun { IfOk words (λ w. AreBegun (H.begun shelf.old) (H.begun shelf.new) (files_of_line (lawful_command (map (λ x. string_bytes x) w.items)))) }
    ensures no_words { OnErr words ((exit_status result.code ≡ 8) × (K.written out.new ≡ K.written out.old)) }
{
    let Ok(words) = words else {
        return End::new(NO_MEMORY);
    };
    let outcome = bilv(alloc, &words, shelf, out);
    End::new(outcome.status)
}
