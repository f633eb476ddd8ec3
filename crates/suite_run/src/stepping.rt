//! One check: it is answered, and its line is written.
ghost use Rattle.std.specs.Prelude.{◌≡◌, ◌≤◌, ℕ, List, IfOk, IsErrOf};
ghost use Rattle.suite_file.specs.Views.{check_view};
ghost use Rattle.suite_run.specs.Steps.{IsCut, IsStep};

use crate::answering::answer_check;
use crate::came::Verifier;
use crate::request::Run;
use io_edges::{Shelf, Sink, write_all};
use std::alloc::Global;
use suite_file::Check;
use suite_report::{Told, asked_status, is_expected, line_by};

/// What a check adds to a run: the status that it asks for, and whether it came to what is expected.
#[derive(Clone, Copy)]
pub(crate) struct Done {
    pub(crate) status: u8,
    pub(crate) expected: bool,
}

/// Why a run stops.
#[derive(Clone, Copy)]
pub(crate) enum Stop {
    /// A write failed.
    Write,
    /// Memory ran out, and nothing more was written.
    Memory,
}

/// Answers a check and writes its line.
pub(crate) fn run_check<V: Verifier, H: Shelf, K: Sink>(
    alloc: Global,
    verifier: &V,
    check: &Check,
    run: Run<'_>,
    shelf: &mut H,
    out: &mut K,
) -> Result<Done, Stop>
    ensures keeps { (n : List ℕ) → H.holds shelf.new n ≡ H.holds shelf.old n }
    ensures never_falls { (n : List ℕ) → H.faults shelf.old n ≤ H.faults shelf.new n }
    ensures sink_never_falls { K.faults out.old ≤ K.faults out.new }
    ensures done { IfOk result (IsStep (V.is_answer verifier.now) (H.holds shelf.old) (H.faults shelf.old) (H.faults shelf.new) run.entry.strict run.entry.json
        (check_view check.now) (K.written out.old) (K.written out.new)) }
    ensures cut { IsErrOf result Stop.Write → IsCut (V.is_answer verifier.now) (H.holds shelf.old) (H.faults shelf.old) (H.faults shelf.new)
        run.entry.json (check_view check.now) (K.written out.old) (K.written out.new) (K.faults out.old) (K.faults out.new) }
    ensures memory { IsErrOf result Stop.Memory → K.written out.new ≡ K.written out.old }
{
    let Ok(came) = answer_check(alloc, verifier, check, shelf) else {
        return Err(Stop::Memory);
    };
    let told = Told {
        name: check.name.as_str(),
        expect: check.expect.as_str(),
        status: came.status,
        report: &came.report,
        warnings: &came.warnings,
    };
    let Ok(text) = line_by(alloc, run.json, &told) else {
        return Err(Stop::Memory);
    };
    let done = Done {
        status: asked_status(run.strict, &told),
        expected: is_expected(&told),
    };
    match write_all(out, &text) {
        Ok(()) => Ok(done),
        Err(_) => Err(Stop::Write),
    }
}
