//! Visits the watches of a literal that has become false.
ghost use Rattle.std.specs.Prelude.{◌≡◌, ◌-◌, ◌+◌, ◌*◌, ◌/◌, ◌<◌, ℕ, Bool, [], false, true, length, slice_index, vec_capacity, IfSome, IfNone};
ghost use Rattle.clause_spec.specs.Clauses.{Literal, Clause, same, opposite, has, IsOnVariables, AreOnVariables};
ghost use Rattle.clause_spec.specs.UnitPropagation.{Includes};
ghost use Rattle.clause_spec.specs.Refutation.{added};
ghost use Rattle.sat_core.specs.Tables.{true_in};
ghost use Rattle.sat_core.specs.Steps.{IsConflictAt};
ghost use Rattle.sat_core.specs.Trails.{IsTrail, IsRun};
ghost use Rattle.sat_core.specs.Links.{place, mate, watched_at, IsLinked, IsPlaced, AreKept};
ghost use Rattle.sat_core.specs.Moves.{IsMoved, IsDetached};

use crate::table::is_true;
use crate::trail::Trail;
use crate::watches::{NO_WATCH, Watches};
use cnf_form::{Clause, Lit};

/// What becomes of a watch.
#[derive(Clone, Copy)]
pub enum Move {
    /// It goes to this literal, which may be its own: then the other watched literal is true.
    To(Lit),
    /// Every literal of the clause at this place is false.
    Conflict(usize),
}

/// A literal of a clause that is not false, and not the other one that is watched.
fn replacement(table: &[Option<bool>], clause: &[Lit], mate: Lit) -> Option<Lit>
    requires { IsOnVariables (length table.now - 1) clause.now }
    ensures none { IfNone result ((m : Literal) → has clause.now m ≡ true → same m mate ≡ false → true_in table.now (opposite m) ≡ true) }
    ensures among { IfSome result (λ l. has clause.now l ≡ true) }
    ensures not_false { IfSome result (λ l. true_in table.now (opposite l) ≡ false) }
    ensures another { IfSome result (λ l. same l mate ≡ false) }
{
    for lit in clause {
        if lit.is_same(mate) {
            continue;
        }
        if !is_true(table, lit.opposite()) {
            return Some(*lit);
        }
    }
    None
}

/// Where a watch goes whose literal has become false. The other watched literal of its clause becomes true where all others are false. Takes no memory.
fn examine(clauses: &[Clause], watches: &Watches, trail: &mut Trail, watch: usize, lit: Lit) -> Move
    requires over { AreOnVariables (length trail.old.table.items - 1) clauses.now }
    requires trail { IsTrail trail.old.table.items trail.old.steps.items (vec_capacity trail.old.steps) }
    requires placed { IsPlaced clauses.now watches.now.owners.items watches.now.watched.items }
    requires watch { watch < length watches.now.watched.items }
    requires here { watched_at watches.now.watched.items watch ≡ lit }
    requires within { lit.variable < length trail.old.table.items }
    ensures trail { IsTrail trail.new.table.items trail.new.steps.items (vec_capacity trail.new.steps) }
    ensures size { length trail.new.table.items ≡ length trail.old.table.items }
    ensures room { vec_capacity trail.new.steps ≡ vec_capacity trail.old.steps }
    ensures grows { Includes (true_in trail.old.table.items) (true_in trail.new.table.items) }
    ensures run { IsRun clauses.now trail.old.steps.items trail.new.steps.items }
    ensures moved { IsMoved clauses.now (slice_index watches.now.owners.items (watch / 2)) watches.now.watched.items
        (watched_at watches.now.watched.items (mate watch))
        (true_in trail.new.table.items) (length trail.new.table.items) result }
{
    let (owner, mate) = watches.owner(watch);
    if is_true(&trail.table, mate) {
        return Move::To(lit);
    }
    match replacement(&trail.table, clauses[owner].lits(), mate) {
        Some(other) => Move::To(other),
        None => {
            if is_true(&trail.table, mate.opposite()) {
                Move::Conflict(owner)
            } else {
                trail.push(owner, mate);
                Move::To(lit)
            }
        }
    }
}

/// Puts the watches of a detached list back, from one of them on.
fn put_back(watches: &mut Watches, from: usize, lit: Lit)
    requires within { place lit < length watches.old.heads.items }
    requires detached { IsDetached watches.old.heads.items watches.old.links.items watches.old.watched.items from (place lit) }
    ensures linked { IsLinked watches.new.heads.items watches.new.links.items watches.new.watched.items [] }
    ensures heads { length watches.new.heads.items ≡ length watches.old.heads.items }
    ensures watched { watches.new.watched ≡ watches.old.watched }
    ensures owners { watches.new.owners ≡ watches.old.owners }
{
    let mut watch = from;
    while watch != NO_WATCH {
        let next = watches.links[watch];
        watches.link(watch, lit);
        watch = next;
    }
}

/// Visits the watches of a literal that has become false. Each moves to a literal that is not false, unless the other watched literal of its clause is true or
/// becomes true; `Some` is the place of a clause that has neither. Takes no memory.
///
/// `cuts` speaks of all that was true at some time before: what was kept of it is kept.
pub fn visit(
    clauses: &[Clause],
    watches: &mut Watches,
    trail: &mut Trail,
    lit: Lit,
) -> Option<usize>
    requires over { AreOnVariables (length trail.old.table.items - 1) clauses.now }
    requires trail { IsTrail trail.old.table.items trail.old.steps.items (vec_capacity trail.old.steps) }
    requires within { lit.variable < length trail.old.table.items }
    requires negated { true_in trail.old.table.items (opposite lit) ≡ true }
    requires heads { length watches.old.heads.items ≡ 2 * length trail.old.table.items }
    requires linked { IsLinked watches.old.heads.items watches.old.links.items watches.old.watched.items [] }
    requires placed { IsPlaced clauses.now watches.old.owners.items watches.old.watched.items }
    ensures trail { IsTrail trail.new.table.items trail.new.steps.items (vec_capacity trail.new.steps) }
    ensures size { length trail.new.table.items ≡ length trail.old.table.items }
    ensures room { vec_capacity trail.new.steps ≡ vec_capacity trail.old.steps }
    ensures grows { Includes (true_in trail.old.table.items) (true_in trail.new.table.items) }
    ensures run { IsRun clauses.now trail.old.steps.items trail.new.steps.items }
    ensures heads { length watches.new.heads.items ≡ length watches.old.heads.items }
    ensures linked { IsLinked watches.new.heads.items watches.new.links.items watches.new.watched.items [] }
    ensures placed { IsPlaced clauses.now watches.new.owners.items watches.new.watched.items }
    ensures owners { watches.new.owners ≡ watches.old.owners }
    ensures kept { IfNone result ((done : Literal → Bool) → Includes done (true_in trail.old.table.items) →
        AreKept watches.old.watched.items [] done (true_in trail.old.table.items) →
        AreKept watches.new.watched.items [] (added (opposite lit) done) (true_in trail.new.table.items)) }
    ensures cuts { (done holds : Literal → Bool) → Includes done (true_in trail.old.table.items) → Includes holds (true_in trail.old.table.items) →
        AreKept watches.old.watched.items [] done holds → AreKept watches.new.watched.items [] done holds }
    ensures conflict { IfSome result (λ k. IsConflictAt clauses.now (true_in trail.new.table.items) k) }
{
    let mut watch = watches.detach(lit);
    while watch != NO_WATCH {
        let target = match examine(clauses, watches, trail, watch, lit) {
            Move::To(target) => target,
            Move::Conflict(owner) => {
                put_back(watches, watch, lit);
                return Some(owner);
            }
        };
        let next = watches.links[watch];
        watches.watched[watch] = target;
        watches.link(watch, target);
        watch = next;
    }
    None
}
