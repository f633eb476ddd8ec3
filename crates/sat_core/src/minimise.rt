//! Makes a learned clause smaller.
ghost use Rattle.std.specs.Prelude.{◌≡◌, ◌-◌, [], false, length, IfOk, OnOk, MatchOption};
ghost use Rattle.clause_spec.specs.Clauses.{Literal, IsOnVariables};
ghost use Rattle.clause_spec.specs.UnitPropagation.{Conflicts, negations};
ghost use Rattle.clause_spec.specs.Refutation.{is_tautology};
ghost use Rattle.sat_core.specs.Propagators.{IsSound};
ghost use Rattle.sat_core.specs.Kept.{AreHintsOf, others, IsKept, IsNeeded};

use crate::hints::prune;
use crate::needed::is_least;
use crate::propagator::Propagator;
use cnf_form::{Hint, Lit};
use std::alloc::{AllocError, Global};

/// A clause that is learned, and the hints by which it follows.
#[derive(Drop)]
pub struct Learned {
    pub lits: Vec<Lit>,
    pub hints: Vec<Hint>,
}

/// The hints by which a clause follows by unit propagation, if it does. The trail has no steps, before and after. What an `Err` leaves is open.
pub fn refute(
    alloc: Global,
    propagator: &mut Propagator,
    lits: &[Lit],
) -> Result<Option<Vec<Hint>>, AllocError>
    requires sound { IsSound propagator.old }
    requires empty { propagator.old.trail.steps.items ≡ [] }
    requires within { IsOnVariables (length propagator.old.trail.table.items - 1) lits.now }
    requires plain { is_tautology lits.now ≡ false }
    ensures sound { OnOk result (IsSound propagator.new) }
    ensures empty { OnOk result (propagator.new.trail.steps.items ≡ []) }
    ensures clauses { propagator.new.clauses ≡ propagator.old.clauses }
    ensures size { length propagator.new.trail.table.items ≡ length propagator.old.trail.table.items }
    ensures hints { IfOk result (λ o. MatchOption o (Conflicts propagator.old.clauses.items (negations lits.now) → ⊥)
        (λ hints. AreHintsOf propagator.old.clauses.items lits.now hints.items)) }
{
    propagator.trail.deny(lits);
    let base = propagator.trail.steps.len();
    match propagator.propagate(0) {
        None => {
            propagator.trail.back_to(0);
            Ok(None)
        }
        Some(clause) => {
            let steps = Vec::from_slice(alloc, &propagator.trail.steps[base..])?;
            let size = propagator.trail.table.len();
            let hints = prune(alloc, &propagator.clauses, size, steps, clause)?;
            propagator.trail.back_to(0);
            Ok(Some(hints))
        }
    }
}

/// The literals without one.
fn without(alloc: Global, lits: &[Lit], lit: Lit) -> Result<Vec<Lit>, AllocError>
    ensures { IfOk result (λ v. v.items ≡ others lits.now lit) }
{
    let mut rest = Vec::new(alloc);
    for other in lits {
        if !other.is_same(lit) {
            rest.push(*other)?;
        }
    }
    Ok(rest)
}

/// Leaves out each literal without which the clause still follows. The trail has no steps, before and after. What an `Err` leaves is open.
pub fn minimise(
    alloc: Global,
    propagator: &mut Propagator,
    full: &[Lit],
) -> Result<Learned, AllocError>
    requires sound { IsSound propagator.old }
    requires empty { propagator.old.trail.steps.items ≡ [] }
    requires within { IsOnVariables (length propagator.old.trail.table.items - 1) full.now }
    requires plain { is_tautology full.now ≡ false }
    requires conflict { Conflicts propagator.old.clauses.items (negations full.now) }
    ensures sound { OnOk result (IsSound propagator.new) }
    ensures empty { OnOk result (propagator.new.trail.steps.items ≡ []) }
    ensures clauses { propagator.new.clauses ≡ propagator.old.clauses }
    ensures size { length propagator.new.trail.table.items ≡ length propagator.old.trail.table.items }
    ensures kept { IfOk result (λ r. IsKept propagator.old.clauses.items full.now r.lits.items r.hints.items) }
    ensures minimal { IfOk result (λ r. (l : Literal) → IsNeeded propagator.old.clauses.items r.lits.items l) }
{
    let mut hints = match refute(alloc, propagator, full)? {
        Some(hints) => hints,
        None => unreachable!(),
    };
    if is_least(propagator, full) {
        let lits = Vec::from_slice(alloc, full)?;
        return Ok(Learned { lits, hints });
    }
    let mut kept = Vec::from_slice(alloc, full)?;
    for lit in full {
        let fewer = without(alloc, &kept, *lit)?;
        if let Some(found) = refute(alloc, propagator, &fewer)? {
            kept = fewer;
            hints = found;
        }
    }
    Ok(Learned { lits: kept, hints })
}
