//! The checks of a suite, one after another.
ghost use Rattle.std.specs.Prelude.{◌≡◌, ◌≤◌, ℕ, List, map};
ghost use Rattle.io_edges.specs.Met.{met, seen};
ghost use Rattle.suite_file.specs.Views.{check_view};
ghost use Rattle.suite_run.specs.Runs.{IsRun};

use crate::came::Verifier;
use crate::request::Run;
use crate::stepping::{Stop, run_check};
use exit_status::{DONE, NO_MEMORY, WRITE_FAULT};
use io_edges::{Shelf, Sink, write_all};
use std::alloc::Global;
use suite_file::Check;
use suite_report::{summary_by, worse};

/// Runs checks in their order: each line is written as its check ends, and the summary behind the last. It gives the status: the worst that a check asks for, 7
/// where a write failed, or 8 where memory ran out; then no further check is run.
pub fn run_checks<V: Verifier, H: Shelf, K: Sink>(
    alloc: Global,
    verifier: &V,
    checks: &[&Check],
    run: Run<'_>,
    shelf: &mut H,
    out: &mut K,
) -> u8
    ensures keeps { (n : List ℕ) → H.holds shelf.new n ≡ H.holds shelf.old n }
    ensures never_falls { (n : List ℕ) → H.faults shelf.old n ≤ H.faults shelf.new n }
    ensures ran { IsRun (V.is_answer verifier.now) (met (seen (H.holds shelf.old) (H.faults shelf.old) (H.faults shelf.new)) (K.written out.old)
        (K.written out.new) (K.faults out.old) (K.faults out.new)) run.entry.strict run.entry.json (map (λ c. check_view c.now) checks.now) result }
{
    let mut status = DONE;
    let mut expected = 0usize;
    for check in checks {
        match run_check(alloc, verifier, *check, run, shelf, out) {
            Ok(done) => {
                status = worse(status, done.status);
                expected += done.expected as usize;
            }
            Err(Stop::Write) => return WRITE_FAULT,
            Err(Stop::Memory) => return NO_MEMORY,
        }
    }
    let Ok(text) = summary_by(alloc, run.json, checks.len(), expected) else {
        return NO_MEMORY;
    };
    match write_all(out, &text) {
        Ok(()) => status,
        Err(_) => WRITE_FAULT,
    }
}
