//! Unit propagation by watched literals.
ghost use Rattle.std.specs.Prelude.{◌≡◌, ◌-◌, ◌*◌, ◌<◌, ◌≤◌, ℕ, Bool, Some, [], length, take, reverse, slice_get, slice_index_or, vec_capacity, IfSome, IfNone};
ghost use Rattle.clause_spec.specs.Clauses.{Literal, Clause, AreOnVariables};
ghost use Rattle.clause_spec.specs.UnitPropagation.{Includes};
ghost use Rattle.sat_core.specs.ClosedSets.{IsQuiet};
ghost use Rattle.sat_core.specs.Tables.{true_in};
ghost use Rattle.sat_core.specs.Steps.{told, IsConflictAt};
ghost use Rattle.sat_core.specs.Trails.{nothing, IsTrail, IsRun};
ghost use Rattle.sat_core.specs.Links.{AreKept};
ghost use Rattle.sat_core.specs.Moves.{IsShort, AreMet, AreReady};

use crate::table::ByTable;
use crate::trail::Trail;
use crate::visit::visit;
use crate::watches::Watches;
use cnf_form::Clause;
use refutation_checker::{Look, look_at};

/// Makes the literal of each clause true that has only one. `Some` is the place of a clause whose literals are all false. Takes no memory.
fn assert_short(clauses: &[Clause], short: &[usize], trail: &mut Trail) -> Option<usize>
    requires over { AreOnVariables (length trail.old.table.items - 1) clauses.now }
    requires trail { IsTrail trail.old.table.items trail.old.steps.items (vec_capacity trail.old.steps) }
    requires short { (j : ℕ) → j < length short.now → (c : Clause) × (slice_get clauses.now (slice_index_or short.now j 0) ≡ Some c) × IsShort c }
    ensures trail { IsTrail trail.new.table.items trail.new.steps.items (vec_capacity trail.new.steps) }
    ensures size { length trail.new.table.items ≡ length trail.old.table.items }
    ensures room { vec_capacity trail.new.steps ≡ vec_capacity trail.old.steps }
    ensures grows { Includes (true_in trail.old.table.items) (true_in trail.new.table.items) }
    ensures run { IsRun clauses.now trail.old.steps.items trail.new.steps.items }
    ensures met { IfNone result (AreMet clauses.now short.now (true_in trail.new.table.items)) }
    ensures conflict { IfSome result (λ k. IsConflictAt clauses.now (true_in trail.new.table.items) k) }
{
    for k in short {
        let by_table = ByTable {
            table: &trail.table,
        };
        match look_at(&by_table, clauses[*k].lits()) {
            Look::Conflict => return Some(*k),
            Look::Unit(lit) => trail.push(*k, lit),
            Look::Other => (),
        }
    }
    None
}

/// Propagates until no clause is a unit, or one is a conflict, whose place is the answer. Of the first `from` steps all watches were visited. Takes no memory.
///
/// `cuts` speaks of all that was true at some time before: what was kept of it is kept.
pub fn propagate(
    clauses: &[Clause],
    short: &[usize],
    watches: &mut Watches,
    trail: &mut Trail,
    from: usize,
) -> Option<usize>
    requires ready { AreReady clauses.now watches.old.heads.items watches.old.links.items watches.old.owners.items short.now watches.old.watched.items
        (length trail.old.table.items) }
    requires trail { IsTrail trail.old.table.items trail.old.steps.items (vec_capacity trail.old.steps) }
    requires from { from ≤ length trail.old.steps.items }
    requires kept { AreKept watches.old.watched.items [] (told nothing (reverse (take from trail.old.steps.items))) (true_in trail.old.table.items) }
    ensures ready { AreReady clauses.now watches.new.heads.items watches.new.links.items watches.new.owners.items short.now watches.new.watched.items
        (length trail.new.table.items) }
    ensures trail { IsTrail trail.new.table.items trail.new.steps.items (vec_capacity trail.new.steps) }
    ensures size { length trail.new.table.items ≡ length trail.old.table.items }
    ensures room { vec_capacity trail.new.steps ≡ vec_capacity trail.old.steps }
    ensures grows { Includes (true_in trail.old.table.items) (true_in trail.new.table.items) }
    ensures run { IsRun clauses.now trail.old.steps.items trail.new.steps.items }
    ensures kept { IfNone result (AreKept watches.new.watched.items [] (true_in trail.new.table.items) (true_in trail.new.table.items)) }
    ensures met { IfNone result (AreMet clauses.now short.now (true_in trail.new.table.items)) }
    ensures quiet { IfNone result (IsQuiet clauses.now (true_in trail.new.table.items)) }
    ensures cuts { (done holds : Literal → Bool) → Includes done (true_in trail.old.table.items) → Includes holds (true_in trail.old.table.items) →
        AreKept watches.old.watched.items [] done holds → AreKept watches.new.watched.items [] done holds }
    ensures conflict { IfSome result (λ k. IsConflictAt clauses.now (true_in trail.new.table.items) k) }
{
    if let Some(k) = assert_short(clauses, short, trail) {
        return Some(k);
    }
    let mut done = from;
    while done < trail.steps.len() {
        let lit = trail.steps[done].lit.opposite();
        if let Some(k) = visit(clauses, watches, trail, lit) {
            return Some(k);
        }
        done += 1;
    }
    None
}
