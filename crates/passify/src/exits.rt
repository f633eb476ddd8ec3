//! The exits of a point, tried one by one.

ghost use Rattle.std.specs.Prelude.{◌≡◌, ◌≤◌, ◌<◌, ◌+◌, ◌*◌, ◌&&◌, Bool, not, IfOk, [], length, map, slice_index_or};
ghost use Rattle.term_spec.specs.Terms.{HasWidth};
ghost use Rattle.bilv_spec.specs.Points.{line_price, bytes_loaded};
ghost use Rattle.term_spec.specs.Passive.{Tells};
ghost use Rattle.walk_spec.specs.Prices.{line_size};
ghost use Rattle.walk_spec.specs.Unrolling.{IsReadable};
ghost use Rattle.notes_value.specs.Views.{expr_of};
ghost use Rattle.notes_value.specs.NoteViews.{note_line_of};
ghost use Rattle.question_form.specs.FrameViews.{is_invariant as is_invariant_of};
ghost use Rattle.term_names.specs.Views.{form_of};
ghost use Rattle.passify.specs.Situations.{ChecksTried, LinesTried, Situation, no_line, checks_of, goes_out_by, said};
ghost use Rattle.passify.specs.Bits.{IsSplit};
ghost use Rattle.passify.specs.Edges.{AreRead};
ghost use Rattle.passify.specs.Exits.{LineFails, Narrows, Tries};
ghost use Rattle.passify.specs.Sweeps.{AreTermsOf, AreWell, ComesTo, Hands, HasEvent, Steps, bits_of, terms_of};

use crate::bits::{both, turned};
use crate::sweep::{Sweep, arrive, fail, turn};
use note_terms::{Now, line};
use notes_value::{Expr, NoteLine};
use question_form::Unrolled;
use std::alloc::{AllocError, Global};
use term_dag::{Dag, Term};

/// Where a bit is 1, and where it is not, as far as another is.
#[derive(Clone, Copy)]
pub struct Parts {
    pub on: Term,
    pub off: Term,
}

/// What is left of a bit where another is 1, and where it is not.
pub fn split(dag: &mut Dag, rest: Term, bit: Term) -> Result<Parts, AllocError>
    requires rest { HasWidth dag.old 1 rest.0 }
    requires bit { HasWidth dag.old 1 bit.0 }
    ensures { IfOk result (λ s. IsSplit dag.old dag.new rest.0 bit.0 s.on.0 s.off.0) }
{
    let on = both(dag, rest, bit)?;
    let missed = turned(dag, bit)?;
    let off = both(dag, rest, missed)?;
    Ok(Parts { on, off })
}

/// An exit to an event is tried, which is taken where a bit is 1; what is left.
pub fn event(dag: &mut Dag, sweep: &mut Sweep, rest: Term, taken: Term) -> Result<Term, AllocError>
    requires well { AreWell dag.old sweep.old }
    requires rest { HasWidth dag.old 1 rest.0 }
    requires taken { HasWidth dag.old 1 taken.0 }
    ensures steps { IfOk result (λ t. Steps dag.old dag.new sweep.old sweep.new 3 0 0 0 8 (λ m. ⊥)) }
    ensures bit { IfOk result (λ t. HasWidth dag.new 1 t.0) }
    ensures tries { IfOk result (λ t. Tries dag.old dag.new sweep.old sweep.new rest.0 t.0 (λ x q. Tells dag.old x taken.0 q) (λ from x w b. HasEvent w)) }
    ensures narrows { IfOk result (λ t. Narrows dag.old dag.new rest.0 t.0 (λ x q. Tells dag.old x taken.0 q)) }
{
    let parts = split(dag, rest, taken)?;
    fail(dag, sweep, parts.on)?;
    Ok(parts.off)
}

/// An exit to an event is tried, which is taken where a bit is 0; what is left.
pub fn unless(
    dag: &mut Dag,
    sweep: &mut Sweep,
    rest: Term,
    passed: Term,
) -> Result<Term, AllocError>
    requires well { AreWell dag.old sweep.old }
    requires rest { HasWidth dag.old 1 rest.0 }
    requires passed { HasWidth dag.old 1 passed.0 }
    ensures steps { IfOk result (λ t. Steps dag.old dag.new sweep.old sweep.new 3 0 0 0 8 (λ m. ⊥)) }
    ensures bit { IfOk result (λ t. HasWidth dag.new 1 t.0) }
    ensures tries { IfOk result (λ t. Tries dag.old dag.new sweep.old sweep.new rest.0 t.0 (λ x q. Tells dag.old x passed.0 (not q)) (λ from x w b. HasEvent w)) }
    ensures narrows { IfOk result (λ t. Narrows dag.old dag.new rest.0 t.0 (λ x q. Tells dag.old x passed.0 (not q))) }
{
    let parts = split(dag, rest, passed)?;
    fail(dag, sweep, parts.off)?;
    Ok(parts.on)
}

/// An exit to an event is tried, which is taken where a line is false in a state; what is left.
pub fn denied(
    dag: &mut Dag,
    sweep: &mut Sweep,
    says: &Expr,
    now: &Now,
    rest: Term,
    big: bool,
) -> Result<Term, AllocError>
    requires well { AreWell dag.old sweep.old }
    requires reads { IsReadable (form_of now.now.names.now) (expr_of says.now) }
    requires now { AreTermsOf sweep.old.entry dag.old now.now.names.now }
    requires pc { HasWidth dag.old 32 now.now.pc.0 }
    requires rest { HasWidth dag.old 1 rest.0 }
    ensures steps { IfOk result (λ t. Steps dag.old dag.new sweep.old sweep.new (line_price (expr_of says.now)) (bytes_loaded (expr_of says.now)) 0 0
        (4 * (line_size (expr_of says.now) + 4)) (λ m. ⊥)) }
    ensures bit { IfOk result (λ t. HasWidth dag.new 1 t.0) }
    ensures tries { IfOk result (λ t. Tries dag.old dag.new sweep.old sweep.new rest.0 t.0 (LineFails dag.old sweep.old big (expr_of says.now) now.now)
        (λ from x w b. HasEvent w)) }
    ensures narrows { IfOk result (λ t. Narrows dag.old dag.new rest.0 t.0 (λ x q. Unit)) }
{
    let here = Now {
        names: now.names,
        pc: now.pc,
    };
    let entry = Now {
        names: &sweep.entry,
        pc: sweep.pc,
    };
    let bit = line(dag, says, &here, &entry, big)?;
    let parts = split(dag, rest, bit)?;
    fail(dag, sweep, parts.off)?;
    Ok(parts.on)
}

/// Whether a line is an invariant.
pub fn is_invariant(unrolled: &Unrolled, line: u32) -> bool
    ensures { result ≡ is_invariant_of unrolled.now line }
{
    unrolled.invariants.contains(&line)
}

/// Whether a line is judged where invariants are maybe not.
fn is_judged(unrolled: &Unrolled, skips: bool, line: u32) -> bool
    ensures { result ≡ not (skips && is_invariant_of unrolled.now line) }
{
    if skips {
        return !is_invariant(unrolled, line);
    }
    true
}

/// The assert lines of some entries of the lines by address are tried, maybe without the invariants; what is left.
pub fn asserts(
    index: &[(u32, usize)],
    skips: bool,
    unrolled: &Unrolled,
    dag: &mut Dag,
    sweep: &mut Sweep,
    now: &Now,
    rest: Term,
) -> Result<Term, AllocError>
    requires well { AreWell dag.old sweep.old }
    requires places { (i : _) → i < length index.now → (slice_index_or index.now i (0, 0)).1 < length unrolled.now.notes.now.asserts.items }
    requires reads { AreRead now.now.names.now (said (checks_of unrolled.now skips index.now)) }
    requires now { AreTermsOf sweep.old.entry dag.old now.now.names.now }
    requires pc { HasWidth dag.old 32 now.now.pc.0 }
    requires rest { HasWidth dag.old 1 rest.0 }
    ensures { IfOk result (λ t. ChecksTried dag.old dag.new sweep.old sweep.new rest.0 t.0 unrolled.now.big now.now
        (checks_of unrolled.now skips index.now) []) }
{
    let mut left = rest;
    for i in 0..index.len() {
        let assert = &unrolled.notes.asserts[index[i].1];
        if !is_judged(unrolled, skips, assert.line) {
            continue;
        }
        left = denied(dag, sweep, &assert.says, now, left, unrolled.big)?;
    }
    Ok(left)
}

/// The lines that are judged where the frame is left are tried in the state that a point goes on to out of it, where a bit is 1; what is left.
pub fn judged(
    dag: &mut Dag,
    sweep: &mut Sweep,
    lines: &[NoteLine],
    next: &Now,
    out: Term,
    big: bool,
) -> Result<Term, AllocError>
    requires well { AreWell dag.old sweep.old }
    requires reads { (i : _) → i < length lines.now → IsReadable (form_of next.now.names.now) (slice_index_or (map note_line_of lines.now) i no_line).says }
    requires next { AreTermsOf sweep.old.entry dag.old next.now.names.now }
    requires pc { HasWidth dag.old 32 next.now.pc.0 }
    requires out { HasWidth dag.old 1 out.0 }
    ensures { IfOk result (λ t. (changed : Situation → Bool) → LinesTried dag.old dag.new sweep.old sweep.new out.0 t.0 big next.now
        (λ S. S.next) (map (λ l. l.says) (map note_line_of lines.now)) []
        (goes_out_by changed (map note_line_of lines.now)) (goes_out_by changed [])) }
{
    let mut left = out;
    for i in 0..lines.len() {
        left = denied(dag, sweep, &lines[i].says, next, left, big)?;
    }
    Ok(left)
}
