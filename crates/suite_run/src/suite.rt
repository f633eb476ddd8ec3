//! Whole suites.
ghost use Rattle.std.specs.Prelude.{◌≡◌, ◌≤◌, ℕ, List, map};
ghost use Rattle.io_edges.specs.Met.{met, seen};
ghost use Rattle.suite_file.specs.Views.{check_view};
ghost use Rattle.suite_run.specs.Ends.{IsChosenEnd, IsSuiteEnd};
ghost use Rattle.suite_run.specs.Prints.{IsPrinted};
ghost use Rattle.suite_run.specs.Requests.{run_of};
ghost use Rattle.suite_run.specs.Chosen.{list_text};

use crate::came::Verifier;
use crate::choosing::{chosen, list_text};
use crate::ended::Ended;
use crate::loading::{Loaded, load};
use crate::printing::print_text;
use crate::request::Run;
use crate::running::run_checks;
use exit_status::{DONE, NO_MEMORY};
use io_edges::{Shelf, Sink};
use std::alloc::Global;
use suite_file::Check;

/// Prints the names of checks, and gives the status.
fn list_checks<K: Sink>(alloc: Global, checks: &[&Check], out: &mut K) -> u8
    ensures { IsPrinted (list_text (map (λ c. check_view c.now) checks.now)) 0 (K.written out.old) (K.written out.new) (K.faults out.old) (K.faults out.new) result }
{
    let Ok(text) = list_text(alloc, checks) else {
        return NO_MEMORY;
    };
    print_text(&text, DONE, out)
}

/// Runs or lists the chosen checks of a suite, and gives the status.
fn run_chosen<V: Verifier, H: Shelf, K: Sink>(
    alloc: Global,
    verifier: &V,
    checks: &[Check],
    run: Run<'_>,
    shelf: &mut H,
    out: &mut K,
) -> u8
    ensures ends { IsChosenEnd (V.is_answer verifier.now) (met (seen (H.holds shelf.old) (H.faults shelf.old) (H.faults shelf.new)) (K.written out.old)
        (K.written out.new) (K.faults out.old) (K.faults out.new)) (run_of run.entry) (map check_view checks.now) result }
    ensures never_falls { (n : List ℕ) → H.faults shelf.old n ≤ H.faults shelf.new n }
{
    let Ok(chosen) = chosen(alloc, checks, run.only) else {
        return NO_MEMORY;
    };
    if run.list {
        return list_checks(alloc, &chosen, out);
    }
    run_checks(alloc, verifier, &chosen, run, shelf, out)
}

/// Runs a suite: its checks that are asked for, each answered in its turn.
pub fn run_suite<V: Verifier, H: Shelf, K: Sink>(
    alloc: Global,
    verifier: &V,
    run: Run<'_>,
    shelf: &mut H,
    out: &mut K,
) -> Ended
    ensures { IsSuiteEnd (V.is_answer verifier.now) (met (seen (H.holds shelf.old) (H.faults shelf.old) (H.faults shelf.new)) (K.written out.old)
        (K.written out.new) (K.faults out.old) (K.faults out.new)) (run_of run.entry) result.status }
{
    match load(alloc, shelf, run.suite) {
        Ok(Loaded::Suite(suite)) => Ended {
            status: run_chosen(alloc, verifier, &suite.checks, run, shelf, out),
            message: None,
        },
        Ok(Loaded::Stopped(ended)) => ended,
        Err(_) => Ended {
            status: NO_MEMORY,
            message: None,
        },
    }
}
